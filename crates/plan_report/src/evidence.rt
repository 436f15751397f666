ghost use Rattle.std.specs.Prelude.{◌<◌, ◌^◌, ◌∷◌, ◌+◌, List, All, OnOk, flat_map, length};
ghost use Rattle.plan_terms.specs.Terms.{Listed};
ghost use Rattle.text_kit.specs.Terms.{Whole, enclosed, AddsItems};
ghost use Rattle.plan_report.{specs.Forms.{IsCauseInForm, IsEvidenceInForm, IsKindInForm, IsMasterColumnInForm, IsMasterEvidenceInForm, IsRouteColumnInForm, IsRouteEvidenceInForm}, specs.Items.{cause_items, evidence_items, master_column_items, numbers_items, route_column_items, wide_items}, specs.inner.Naming.known_in};

use crate::lists::{put_capacities, put_lengths, put_path};
use crate::names::{Names, put_demand_name, put_link};
use net_core::{
    Bytes, Caps, Demand, Evidence, Link, MasterColumn, NoMemory, RouteColumn, WideKind,
};
use plan_types::Cause;
use text_kit::puts::{put_close, put_field, put_keyword, put_number, put_open};

/// Puts a column of a program that routes last.
fn put_route_column(
    text: &mut Bytes,
    links: &[Link],
    demands: &[Demand],
    column: &RouteColumn,
) -> Result<(), NoMemory>
    requires { IsRouteColumnInForm links.now demands.now column.now }
    ensures { OnOk result (AddsItems text.old (route_column_items links.now demands.now column.now) text.new) }
{
    match column {
        RouteColumn::LinkSlack(link) => {
            put_keyword(text, b"link")?;
            put_link(text, links, *link)
        }
        RouteColumn::DemandSlack(demand) => {
            put_keyword(text, b"demand")?;
            put_demand_name(text, demands, *demand)
        }
        RouteColumn::Carry(demand, path) => {
            put_keyword(text, b"flow")?;
            put_demand_name(text, demands, *demand)?;
            put_path(text, links, path.items())
        }
    }
}

/// Puts a column of a program that finds a certificate last.
fn put_master_column(
    text: &mut Bytes,
    links: &[Link],
    column: &MasterColumn,
) -> Result<(), NoMemory>
    requires { (listed : List Listed) × IsMasterColumnInForm links.now listed column.now }
    ensures { OnOk result (AddsItems text.old (master_column_items links.now column.now) text.new) }
{
    match column {
        MasterColumn::LinkSlack(link) => {
            put_keyword(text, b"link")?;
            put_link(text, links, *link)
        }
        MasterColumn::Metric(state, lengths) => {
            put_field(text, b"cut", state.0 as u64)?;
            put_lengths(text, lengths.items())
        }
    }
}

/// Puts a basis of a program that routes last, between parentheses.
fn put_route_basis(
    text: &mut Bytes,
    links: &[Link],
    demands: &[Demand],
    basis: &[RouteColumn],
) -> Result<(), NoMemory>
    requires { All (IsRouteColumnInForm links.now demands.now) basis.now }
    ensures { OnOk result (AddsItems text.old (enclosed (flat_map (route_column_items links.now demands.now) basis.now)) text.new) }
{
    put_open(text)?;
    for column in basis {
        put_route_column(text, links, demands, column)?;
    }
    put_close(text)
}

/// Puts a basis of a program that finds a certificate last, between parentheses.
fn put_master_basis(
    text: &mut Bytes,
    links: &[Link],
    basis: &[MasterColumn],
) -> Result<(), NoMemory>
    requires { (listed : List Listed) × All (IsMasterColumnInForm links.now listed) basis.now }
    ensures { OnOk result (AddsItems text.old (enclosed (flat_map (master_column_items links.now) basis.now)) text.new) }
{
    put_open(text)?;
    for column in basis {
        put_master_column(text, links, column)?;
    }
    put_close(text)
}

/// Puts last what of a program that routes is too wide.
pub(crate) fn put_route_kind(
    text: &mut Bytes,
    links: &[Link],
    demands: &[Demand],
    kind: &WideKind<RouteColumn>,
) -> Result<(), NoMemory>
    requires { IsKindInForm (IsRouteColumnInForm links.now demands.now) ⊥ (λ e. e.0 < length links.now) (length links.now + length demands.now) kind.now }
    ensures { OnOk result (AddsItems text.old (wide_items links.now (route_column_items links.now demands.now) kind.now) text.new) }
{
    match kind {
        WideKind::Number(column) => {
            put_keyword(text, b"number")?;
            put_route_column(text, links, demands, column)
        }
        WideKind::Row(row) => put_field(text, b"row", *row as u64),
        WideKind::Product(row, column) => {
            put_field(text, b"entry", *row as u64)?;
            put_route_column(text, links, demands, column)
        }
        WideKind::Sum(row) => put_field(text, b"sum", *row as u64),
        WideKind::Common => put_keyword(text, b"common"),
        WideKind::Value => put_keyword(text, b"value"),
        WideKind::Length(link) => {
            put_keyword(text, b"length")?;
            put_link(text, links, *link)
        }
    }
}

/// Puts last what of a program that finds a certificate is too wide.
pub(crate) fn put_master_kind(
    text: &mut Bytes,
    links: &[Link],
    kind: &WideKind<MasterColumn>,
) -> Result<(), NoMemory>
    requires { (listed : List Listed) × IsKindInForm (IsMasterColumnInForm links.now listed) (Unit {0}) (λ e. ⊥) (length links.now) kind.now }
    ensures { OnOk result (AddsItems text.old (wide_items links.now (master_column_items links.now) kind.now) text.new) }
{
    match kind {
        WideKind::Number(column) => {
            put_keyword(text, b"number")?;
            put_master_column(text, links, column)
        }
        WideKind::Row(row) => put_field(text, b"row", *row as u64),
        WideKind::Product(row, column) => {
            put_field(text, b"entry", *row as u64)?;
            put_master_column(text, links, column)
        }
        WideKind::Sum(row) => put_field(text, b"sum", *row as u64),
        WideKind::Common => put_keyword(text, b"common"),
        WideKind::Value => put_keyword(text, b"value"),
        WideKind::Length(_) => unreachable!(),
    }
}

/// Puts capacities last: their scale, and a number for each link.
fn put_caps(text: &mut Bytes, caps: &Caps) -> Result<(), NoMemory>
    requires { All (λ n. n < 2 ^ 126) caps.now.nums }
    ensures { OnOk result (AddsItems text.old (Whole caps.now.scale ∷ numbers_items caps.now.nums) text.new) }
{
    put_number(text, caps.scale)?;
    put_capacities(text, caps.nums.items())
}

/// Puts evidence last.
fn put_evidence(
    text: &mut Bytes,
    names: &Names<'_>,
    demands: &[Demand],
    evidence: &Evidence,
) -> Result<(), NoMemory>
    requires { IsEvidenceInForm (known_in names.now) demands.now evidence.now }
    ensures { OnOk result (AddsItems text.old (evidence_items (known_in names.now).links demands.now evidence.now) text.new) }
{
    match evidence {
        Evidence::Route {
            state,
            caps,
            basis,
            kind,
        } => {
            put_field(text, b"route", state.0 as u64)?;
            put_caps(text, caps)?;
            put_route_basis(text, names.links, demands, basis.items())?;
            put_route_kind(text, names.links, demands, kind)
        }
        Evidence::Master { basis, kind } => {
            put_keyword(text, b"master")?;
            put_master_basis(text, names.links, basis.items())?;
            put_master_kind(text, names.links, kind)
        }
    }
}

/// Puts last why there is no better bound.
pub(crate) fn put_cause(
    text: &mut Bytes,
    names: &Names<'_>,
    demands: &[Demand],
    cause: &Cause,
) -> Result<(), NoMemory>
    requires { IsCauseInForm (known_in names.now) demands.now cause.now }
    ensures { OnOk result (AddsItems text.old (cause_items (known_in names.now).links demands.now cause.now) text.new) }
{
    match cause {
        Cause::Wide(evidence) => {
            put_keyword(text, b"wide")?;
            put_evidence(text, names, demands, evidence)
        }
        Cause::Cuts => put_keyword(text, b"cuts"),
    }
}
