ghost use Rattle.std.specs.Prelude.{◌≡◌, ◌∷◌, [], IfOk, decimal};
ghost use Rattle.view_csv.specs.Columns.{flow_columns, link_columns, sheet_columns, state_columns};

use net_core::{List, NoMemory};
use plan_view::Sheet;
use std::alloc::Global;
use text_layout::Row;
use view_cells::cells::{push_number, push_pair, push_three};

/// Of which plan a row is: the caller that asked for it, and which of the caller's plans it is.
#[derive(Clone, Copy)]
pub(crate) struct PlanNumber {
    pub(crate) caller: u32,
    pub(crate) serial: u32,
}

/// The first fields of a row.
pub(crate) fn numbered(alloc: Global, number: PlanNumber) -> Result<Row, NoMemory>
    ensures { IfOk result (λ fields. fields ≡ decimal number.caller ∷ decimal number.serial ∷ []) }
{
    let mut fields = List::new(alloc);
    push_number(&mut fields, alloc, number.caller as u128)?;
    push_number(&mut fields, alloc, number.serial as u128)?;
    Ok(fields)
}

/// The names of the columns of links.
fn link_columns(alloc: Global) -> Result<Row, NoMemory>
    ensures { IfOk result (λ columns. columns ≡ link_columns) }
{
    let mut columns = List::new(alloc);
    push_three(&mut columns, alloc, b"caller", b"plan", b"link")?;
    push_three(&mut columns, alloc, b"from", b"to", b"modules")?;
    push_three(&mut columns, alloc, b"capacity", b"normal", b"worst")?;
    push_three(&mut columns, alloc, b"used_percent", b"state", b"cost")?;
    Ok(columns)
}

/// The names of the columns of states.
fn state_columns(alloc: Global) -> Result<Row, NoMemory>
    ensures { IfOk result (λ columns. columns ≡ state_columns) }
{
    let mut columns = List::new(alloc);
    push_three(&mut columns, alloc, b"caller", b"plan", b"state")?;
    push_three(
        &mut columns,
        alloc,
        b"links_out",
        b"rerouted",
        b"fullest_link",
    )?;
    push_pair(&mut columns, alloc, b"used_percent", b"bound_percent")?;
    Ok(columns)
}

/// The names of the columns of flows.
fn flow_columns(alloc: Global) -> Result<Row, NoMemory>
    ensures { IfOk result (λ columns. columns ≡ flow_columns) }
{
    let mut columns = List::new(alloc);
    push_three(&mut columns, alloc, b"caller", b"plan", b"state")?;
    push_three(&mut columns, alloc, b"demand", b"from", b"to")?;
    push_three(&mut columns, alloc, b"amount", b"nodes", b"links")?;
    Ok(columns)
}

/// The names of the columns.
pub(crate) fn sheet_columns(alloc: Global, sheet: Sheet) -> Result<Row, NoMemory>
    ensures { IfOk result (λ columns. columns ≡ sheet_columns sheet) }
{
    match sheet {
        Sheet::Links => link_columns(alloc),
        Sheet::States => state_columns(alloc),
        Sheet::Flows => flow_columns(alloc),
    }
}
