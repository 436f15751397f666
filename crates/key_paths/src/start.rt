ghost use Rattle.std.specs.Prelude.{◌≡◌, ◌<◌, ◌+◌, ◌≤ℤ◌, ℕ, ℤ, pos, length, replicate, get_or, IfOk};
ghost use Rattle.checked_fraction.specs.Terms.{num};
ghost use Rattle.plan_terms.specs.Terms.{graph_of};
ghost use Rattle.route_law.specs.Terms.{route_rows, route_bound, route_slack};
ghost use Rattle.simplex_core.specs.Terms.{AtEach, IsUnit};
ghost use Rattle.key_rows.specs.Terms.{IsRoom, amounts};
ghost use Rattle.key_paths.{specs.Tasks.HasNarrowBounds, specs.inner.Starts.IsStart};

use crate::numbers::{bounds_of, counted, links_of, rows_of, slack_names};
use checked_fraction::Row;
use key_rows::{Keyed, Room, widen};
use net_core::{List, NoMemory, RouteColumn, RouteTask};
use simplex_core::basis::{unit_rows, zero_row};
use std::alloc::Global;

/// The bounds of the links, which the slacks of the demands leave as they are.
fn whole_rest(alloc: Global, bounds: &[i64], links: u32) -> Result<List<i128>, NoMemory>
    requires { links < length bounds.now + 1 }
    ensures count { IfOk result (λ rest. length rest ≡ links) }
    ensures rest { IfOk result (AtEach (λ k x. x ≡ num bounds.now k)) }
{
    let mut rest = List::new(alloc);
    for k in 0..links {
        rest.push(widen(&bounds[k as usize]))?;
    }
    Ok(rest)
}

/// A bound, which isn't negative, as a value.
fn value_of(bound: &i64) -> u128
    requires { pos 0 ≤ℤ bound.now }
    ensures { pos result ≡ bound.now }
{
    bound.unsigned_abs() as u128
}

/// The values of the slacks of the links, which are their bounds.
fn start_values(alloc: Global, bounds: &[i64], links: u32) -> Result<List<u128>, NoMemory>
    requires links { links < length bounds.now + 1 }
    requires positive { (k : ℕ) → k < links → pos 0 ≤ℤ num bounds.now k }
    ensures count { IfOk result (λ values. length values ≡ links) }
    ensures values { IfOk result (AtEach (λ k x. pos x ≡ num bounds.now k)) }
{
    let mut values = List::new(alloc);
    for k in 0..links {
        values.push(value_of(&bounds[k as usize]))?;
    }
    Ok(values)
}

/// The names of the slacks, their places, for each link's row that no demand owns it, and the prices of the demands, which are none.
fn slack_places(
    alloc: Global,
    task: &RouteTask,
    rows: u32,
) -> Result<(List<RouteColumn>, List<u32>, List<u32>, List<i64>), NoMemory>
    requires { rows ≡ route_rows (graph_of task.now.graph) task.now.demands.now }
    ensures count { IfOk result (λ all. length all.0 ≡ route_rows (graph_of task.now.graph) task.now.demands.now) }
    ensures names { IfOk result (λ all. AtEach (λ i name. name ≡ route_slack (graph_of task.now.graph) i) all.0) }
    ensures as_many { IfOk result (λ all. length all.1 ≡ route_rows (graph_of task.now.graph) task.now.demands.now) }
    ensures places { IfOk result (λ all. AtEach (λ i k. k ≡ i) all.1) }
    ensures owners { IfOk result (λ all. all.2 ≡ replicate (length task.now.graph.net.now.links) (length task.now.demands.now)) }
    ensures duals { IfOk result (λ all. all.3 ≡ replicate (length task.now.demands.now) (pos 0)) }
{
    let names = slack_names(alloc, task)?;
    let places = counted(alloc, rows)?;
    let demands = task.demands.len();
    let owners = List::filled(alloc, demands as u32, links_of(task) as usize)?;
    let duals = List::filled(alloc, 0, demands)?;
    Ok((names, places, owners, duals))
}

/// The inverse of the slack basis, the prices of the links, which are none, and room for products.
fn unit_inverse(alloc: Global, links: u32) -> Result<(List<Row>, Row, List<i128>), NoMemory>
    ensures count { IfOk result (λ all. length all.0 ≡ links) }
    ensures units { IfOk result (λ all. AtEach (IsUnit links) all.0) }
    ensures prices { IfOk result (λ all. (all.1.nums ≡ replicate links (pos 0)) × (all.1.den ≡ pos 1)) }
    ensures products { IfOk result (λ all. all.2 ≡ replicate links (pos 0)) }
{
    let rows = unit_rows(alloc, links)?;
    let prices = zero_row(alloc, links)?;
    let products = List::filled(alloc, 0, links as usize)?;
    Ok((rows, prices, products))
}

/// What the slacks of the demands leave of the links, and the values of the slacks of the links.
fn slack_amounts(
    alloc: Global,
    bounds: &[i64],
    links: u32,
) -> Result<(List<i128>, List<u128>), NoMemory>
    requires links { links < length bounds.now + 1 }
    requires positive { (k : ℕ) → k < links → pos 0 ≤ℤ num bounds.now k }
    ensures left { IfOk result (λ all. length all.0 ≡ links) }
    ensures rest { IfOk result (λ all. AtEach (λ k x. x ≡ num bounds.now k) all.0) }
    ensures count { IfOk result (λ all. length all.1 ≡ links) }
    ensures values { IfOk result (λ all. AtEach (λ k x. pos x ≡ num bounds.now k) all.1) }
{
    let rest = whole_rest(alloc, bounds, links)?;
    let values = start_values(alloc, bounds, links)?;
    Ok((rest, values))
}

/// The slack basis, in which the slack of each demand is its key.
pub(crate) fn slack_keyed(alloc: Global, task: &RouteTask) -> Result<Keyed, NoMemory>
    requires { HasNarrowBounds (graph_of task.now.graph) task.now.demands.now task.now.caps.now }
    ensures { IfOk result (IsStart (length task.now.graph.net.now.links) (length task.now.demands.now)
        (route_bound (graph_of task.now.graph) task.now.demands.now task.now.caps.now)
        (route_slack (graph_of task.now.graph))) }
{
    let links = links_of(task);
    let bounds = bounds_of(alloc, task)?;
    let (rest, values) = slack_amounts(alloc, bounds.items(), links)?;
    let (rows, prices, products) = unit_inverse(alloc, links)?;
    let (names, places, owners, duals) = slack_places(alloc, task, rows_of(task))?;
    Ok(Keyed {
        names,
        places,
        owners,
        rows,
        prices,
        duals,
        bounds,
        rest,
        values,
        products,
    })
}

/// Room for as many rows as there are links.
pub(crate) fn room_of(alloc: Global, links: u32) -> Result<Room, NoMemory>
    ensures { IfOk result (IsRoom links) }
{
    Ok(Room {
        weights: List::filled(alloc, 1, links as usize)?,
        raw: List::filled(alloc, 0, links as usize)?,
        spare: zero_row(alloc, links)?,
        other: zero_row(alloc, links)?,
    })
}
