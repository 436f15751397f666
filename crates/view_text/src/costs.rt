ghost use Rattle.std.{specs.Prelude.{◌≡◌, ◌≤◌, ◌++◌, All, IfOk, OnOk, codes, cond, length, nat_eq}, specs.List.AllByRecursion};
ghost use Rattle.view_cells.specs.Terms.{tenths_per_cent, HasRows, IsApart};
ghost use Rattle.view_text.specs.CostCells.{cost_row, cost_rows, cost_text, gap_text, least_known, least_text, tree_text, value_text};

use crate::proof::CostProof;
use net_core::{Bytes, List, NoMemory, Places};
use plan_types::{Cause, Quality};
use plan_view::PlanSummary;
use std::alloc::Global;
use text_kit::write::put_money_word;
use text_layout::{Column, Row};
use view_cells::cells::{push_cell, push_money, push_words, put_counted, put_tenths};
use view_cells::tables::{fitting, left, right, table};

/// The columns of the costs: what it is, how much, and why.
const COLUMNS: [Column; 3] = [
    Column {
        gap: 2,
        width: 10,
        right: false,
    },
    Column {
        gap: 2,
        width: 6,
        right: true,
    },
    Column {
        gap: 3,
        width: 0,
        right: false,
    },
];

/// What no plan undercuts, by the bound and the branch tree, in units of the network.
fn least_known(whole: &PlanSummary, proof: CostProof) -> u128
    ensures { result ≡ least_known whole.now proof }
{
    match proof {
        CostProof::Nothing => whole.bound,
        CostProof::Cheapest(_) => whole.cost,
        CostProof::Above(_, least) => whole.bound.max(least),
    }
}

/// Puts last that no plan costs less than what is known.
pub(crate) fn put_least(
    text: &mut Bytes,
    places: Places,
    whole: &PlanSummary,
    proof: CostProof,
) -> Result<(), NoMemory>
    ensures { OnOk result (text.new ≡ text.old ++ least_text places whole.now proof) }
{
    text.append(b"no plan costs less than ")?;
    put_money_word(text, places, least_known(whole, proof))
}

/// Puts of how many boxes a branch tree is last.
fn put_tree(text: &mut Bytes, boxes: u32) -> Result<(), NoMemory>
    ensures { OnOk result (text.new ≡ text.old ++ tree_text boxes) }
{
    text.append(b" (branch tree of ")?;
    put_counted(text, boxes as usize, b"box", b"boxes")?;
    text.append(b")")
}

/// Puts what the bound alone says of the cost last.
fn put_by_bound(text: &mut Bytes, gap: u32) -> Result<(), NoMemory>
    ensures { OnOk result (text.new ≡ text.old ++ cond (nat_eq gap 0) (codes "cheapest (it is the bound)") (codes "not shown to be cheapest")) }
{
    if gap == 0 {
        text.append(b"cheapest (it is the bound)")
    } else {
        text.append(b"not shown to be cheapest")
    }
}

/// Puts what is known of the cost last.
fn put_cost(
    text: &mut Bytes,
    places: Places,
    whole: &PlanSummary,
    proof: CostProof,
) -> Result<(), NoMemory>
    ensures { OnOk result (text.new ≡ text.old ++ cost_text places whole.now proof) }
{
    match proof {
        CostProof::Nothing => put_by_bound(text, whole.gap),
        CostProof::Cheapest(boxes) => {
            text.append(b"cheapest")?;
            put_tree(text, boxes)
        }
        CostProof::Above(boxes, _) => {
            put_least(text, places, whole, proof)?;
            put_tree(text, boxes)
        }
    }
}

/// Puts a gap in tenths of a per cent last.
fn put_gap_words(text: &mut Bytes, gap: u32) -> Result<(), NoMemory>
    ensures { OnOk result (text.new ≡ text.old ++ (codes "gap " ++ tenths_per_cent gap)) }
{
    text.append(b"gap ")?;
    put_tenths(text, gap)
}

/// Puts a gap in tenths of a per cent last, or that there is none.
fn put_some_gap(text: &mut Bytes, gap: u32) -> Result<(), NoMemory>
    ensures { OnOk result (text.new ≡ text.old ++ cond (nat_eq gap 0) (codes "no gap") (codes "gap " ++ tenths_per_cent gap)) }
{
    if gap == 0 {
        text.append(b"no gap")
    } else {
        put_gap_words(text, gap)
    }
}

/// Puts how far the cost is above the bound last.
fn put_gap(text: &mut Bytes, gap: u32) -> Result<(), NoMemory>
    ensures { OnOk result (text.new ≡ text.old ++ gap_text gap) }
{
    text.append(b"by one certificate of cuts; ")?;
    put_some_gap(text, gap)
}

/// Whether a greater fractional value may be found.
fn value_words(quality: &Quality) -> &'static [u8]
    ensures { result.now ≡ value_text quality.now }
{
    match quality {
        Quality::Tight(_) => b"no certificate of cuts gives more",
        Quality::Loose(Cause::Cuts) =>
            b"the search ended early: there was no room for a further cut",
        Quality::Loose(Cause::Wide(_)) => b"the search ended early: a number grew too wide",
    }
}

/// The row of an amount of money: what it is, how much, and why.
fn cost_row(
    alloc: Global,
    places: Places,
    what: &[u8],
    cost: u128,
    why: Bytes,
) -> Result<Row, NoMemory>
    ensures { IfOk result (λ cells. cells ≡ cost_row places what.now cost why) }
{
    let mut cells = List::new(alloc);
    push_words(&mut cells, alloc, what)?;
    push_money(&mut cells, alloc, places, cost)?;
    push_cell(&mut cells, why)?;
    Ok(cells)
}

/// The row of the cost.
fn first_row(
    alloc: Global,
    places: Places,
    whole: &PlanSummary,
    proof: CostProof,
) -> Result<Row, NoMemory>
    ensures { IfOk result (λ cells. cells ≡ cost_row places (codes "cost") whole.now.cost (cost_text places whole.now proof)) }
{
    let mut why = List::new(alloc);
    put_cost(&mut why, places, whole, proof)?;
    cost_row(alloc, places, b"cost", whole.cost, why)
}

/// The row of the bound.
fn bound_row(alloc: Global, places: Places, whole: &PlanSummary) -> Result<Row, NoMemory>
    ensures { IfOk result (λ cells. cells ≡ cost_row places (codes "at least") whole.now.bound (gap_text whole.now.gap)) }
{
    let mut why = List::new(alloc);
    put_gap(&mut why, whole.gap)?;
    cost_row(alloc, places, b"at least", whole.bound, why)
}

/// The row of the fractional value.
fn value_row(
    alloc: Global,
    places: Places,
    whole: &PlanSummary,
    quality: &Quality,
) -> Result<Row, NoMemory>
    ensures { IfOk result (λ cells. cells ≡ cost_row places (codes "fractional") whole.now.raw (value_text quality.now)) }
{
    let why = List::from_slice(alloc, value_words(quality))?;
    cost_row(alloc, places, b"fractional", whole.raw, why)
}

/// The rows of the cost, the bound and the fractional value.
fn cost_table(
    alloc: Global,
    places: Places,
    whole: &PlanSummary,
    quality: &Quality,
    proof: CostProof,
) -> Result<List<Row>, NoMemory>
    ensures { IfOk result (λ rows. rows ≡ cost_rows places whole.now quality.now proof) }
{
    let mut rows = List::new(alloc);
    rows.push(first_row(alloc, places, whole, proof)?)?;
    rows.push(bound_row(alloc, places, whole)?)?;
    rows.push(value_row(alloc, places, whole, quality)?)?;
    Ok(rows)
}

/// The columns of the costs, of which the last isn't filled up with spaces.
fn cost_columns(c: &[Column]) -> [Column; 3]
    requires { length c.now ≡ 3 }
    ensures { AllByRecursion IsApart result }
{
    [left(2, c[0].width), right(2, c[1].width), left(3, 0)]
}

/// The text of rows of three cells.
fn cost_lines(alloc: Global, rows: &[Row]) -> Result<Bytes, NoMemory>
    requires { All (λ row. length row ≤ 3) rows.now }
    ensures { IfOk result (HasRows rows.now) }
{
    let wide = fitting(alloc, &COLUMNS, rows)?;
    table(alloc, &cost_columns(wide.items()), rows)
}

/// The text of what the plan costs, and of what no plan undercuts.
pub(crate) fn costs_text(
    alloc: Global,
    places: Places,
    whole: &PlanSummary,
    quality: &Quality,
    proof: CostProof,
) -> Result<Bytes, NoMemory>
    ensures { IfOk result (HasRows (cost_rows places whole.now quality.now proof)) }
{
    let rows = cost_table(alloc, places, whole, quality, proof)?;
    cost_lines(alloc, rows.items())
}
