use crate::ids::{LinkId, StateId};
use crate::list::{Copied, List, NoMemory};
use crate::plan::{Caps, Lengths, Path};

/// A column of the program that routes the demands of a state.
#[derive(Drop)]
pub enum RouteColumn {
    /// What a link has left.
    LinkSlack(LinkId),
    /// What of a demand is not carried, by the demand's place.
    DemandSlack(u32),
    /// A demand, by its place, along a path.
    Carry(u32, Path),
}

/// A column of the program that finds the best certificate of some cuts.
#[derive(Drop)]
pub enum MasterColumn {
    /// What a link's price leaves of its cost.
    LinkSlack(LinkId),
    /// A cut: its state, and one length for each link.
    Metric(StateId, Lengths),
}

/// What of a basis of columns `C` is too wide for the numbers that hold it. A row is named by its place among the
/// rows of the inverse; the count of rows names the objective row.
#[derive(Drop)]
pub enum WideKind<C> {
    /// A number of the column, or the bound of a slack's row, in the program itself.
    Number(C),
    /// A number of the row, or its denominator.
    Row(u32),
    /// The product of the row and the column; for the objective row, less the column's gain times its denominator.
    Product(u32, C),
    /// The sum of the absolute products of the row's whole numbers and the bounds.
    Sum(u32),
    /// The least common denominator of all rows, the objective row's too.
    Common,
    /// A value, or a sum of the certificate.
    Value,
    /// The length of the link.
    Length(LinkId),
}

/// Why a program was not solved: a basis of it, and what of that basis is too wide.
#[derive(Drop)]
pub enum Evidence {
    /// The program that routes a state's demands within these capacities.
    Route {
        state: StateId,
        caps: Caps,
        basis: List<RouteColumn>,
        kind: WideKind<RouteColumn>,
    },
    /// The program that finds the best certificate of some cuts.
    Master {
        basis: List<MasterColumn>,
        kind: WideKind<MasterColumn>,
    },
}

impl Copied for RouteColumn {
    fn copy(&self) -> Result<RouteColumn, NoMemory> {
        Ok(match self {
            RouteColumn::LinkSlack(link) => RouteColumn::LinkSlack(*link),
            RouteColumn::DemandSlack(demand) => RouteColumn::DemandSlack(*demand),
            RouteColumn::Carry(demand, path) => RouteColumn::Carry(*demand, path.copy()?),
        })
    }
}

impl Copied for MasterColumn {
    fn copy(&self) -> Result<MasterColumn, NoMemory> {
        Ok(match self {
            MasterColumn::LinkSlack(link) => MasterColumn::LinkSlack(*link),
            MasterColumn::Metric(state, lengths) => MasterColumn::Metric(*state, lengths.copy()?),
        })
    }
}

impl<C: Copied> Copied for WideKind<C> {
    fn copy(&self) -> Result<WideKind<C>, NoMemory> {
        Ok(match self {
            WideKind::Number(column) => WideKind::Number(column.copy()?),
            WideKind::Row(row) => WideKind::Row(*row),
            WideKind::Product(row, column) => WideKind::Product(*row, column.copy()?),
            WideKind::Sum(row) => WideKind::Sum(*row),
            WideKind::Common => WideKind::Common,
            WideKind::Value => WideKind::Value,
            WideKind::Length(link) => WideKind::Length(*link),
        })
    }
}

impl Copied for Evidence {
    fn copy(&self) -> Result<Evidence, NoMemory> {
        Ok(match self {
            Evidence::Route {
                state,
                caps,
                basis,
                kind,
            } => Evidence::Route {
                state: *state,
                caps: caps.copy()?,
                basis: basis.copy()?,
                kind: kind.copy()?,
            },
            Evidence::Master { basis, kind } => Evidence::Master {
                basis: basis.copy()?,
                kind: kind.copy()?,
            },
        })
    }
}
