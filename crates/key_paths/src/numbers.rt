ghost use Rattle.std.specs.Prelude.{◌≡◌, ◌*◌, ◌<◌, ◌+◌, pos, IfOk, length};
ghost use Rattle.checked_fraction.specs.Terms.{IsNarrow};
ghost use Rattle.plan_terms.specs.Terms.{graph_of};
ghost use Rattle.simplex_core.specs.Terms.{AtEach};
ghost use Rattle.route_law.specs.Terms.{route_rows, route_bound, route_slack};
ghost use Rattle.key_paths.specs.Tasks.{HasNarrowBounds};

use net_core::{Demand, LinkId, List, NoMemory, RouteColumn, RouteTask};
use std::alloc::Global;

/// How many links there are.
pub(crate) fn links_of(task: &RouteTask) -> u32
    ensures { result ≡ length task.now.graph.net.now.links }
{
    task.graph.net.links().len() as u32
}

/// How many rows the routing program has: one for each link, and one for each demand. It takes constant time.
pub fn rows_of(task: &RouteTask) -> u32
    ensures { result ≡ route_rows (graph_of task.now.graph) task.now.demands.now }
{
    (task.graph.net.links().len() + task.demands.len()) as u32
}

/// The name of a row's slack. It takes constant time.
pub fn slack_of(task: &RouteTask, row: u32) -> RouteColumn
    ensures { result ≡ route_slack (graph_of task.now.graph) row }
{
    let links = task.graph.net.links().len() as u32;
    if row < links {
        RouteColumn::LinkSlack(LinkId(row))
    } else {
        RouteColumn::DemandSlack(row - links)
    }
}

/// What a demand needs over a scale.
fn need_over(d: &Demand, scale: u64) -> u128
    ensures { result ≡ d.now.need * scale }
{
    d.need as u128 * scale as u128
}

/// The bound of a row: the number of a link, or what a demand needs over the scale. It takes constant time.
pub fn bound_of(task: &RouteTask, row: u32) -> u128
    requires { row < route_rows (graph_of task.now.graph) task.now.demands.now }
    ensures { route_bound (graph_of task.now.graph) task.now.demands.now task.now.caps.now row ≡ pos result }
{
    let links = task.graph.net.links().len() as u32;
    if row < links {
        task.caps.nums.items()[row as usize]
    } else {
        need_over(
            &task.demands.items()[(row - links) as usize],
            task.caps.scale,
        )
    }
}

/// The bound of a row in one word, where it is narrow.
fn narrow_bound(task: &RouteTask, row: u32) -> i64
    requires row { row < route_rows (graph_of task.now.graph) task.now.demands.now }
    requires narrow { IsNarrow (route_bound (graph_of task.now.graph) task.now.demands.now task.now.caps.now row) }
    ensures value { result ≡ route_bound (graph_of task.now.graph) task.now.demands.now task.now.caps.now row }
    ensures narrow { IsNarrow result }
{
    bound_of(task, row) as i64
}

/// The names of all slacks, in the order of their rows.
/// Time and memory grow with the number of rows.
pub fn slack_names(alloc: Global, task: &RouteTask) -> Result<List<RouteColumn>, NoMemory>
    ensures count { IfOk result (λ names. length names ≡ route_rows (graph_of task.now.graph) task.now.demands.now) }
    ensures names { IfOk result (AtEach (λ i name. name ≡ route_slack (graph_of task.now.graph) i)) }
{
    let mut names = List::new(alloc);
    for row in 0..rows_of(task) {
        names.push(slack_of(task, row))?;
    }
    Ok(names)
}

/// The bounds of all rows.
pub(crate) fn bounds_of(alloc: Global, task: &RouteTask) -> Result<List<i64>, NoMemory>
    requires { HasNarrowBounds (graph_of task.now.graph) task.now.demands.now task.now.caps.now }
    ensures count { IfOk result (λ bounds. length bounds ≡ route_rows (graph_of task.now.graph) task.now.demands.now) }
    ensures bounds { IfOk result (AtEach (λ i b. b ≡ route_bound (graph_of task.now.graph) task.now.demands.now task.now.caps.now i)) }
{
    let mut bounds = List::new(alloc);
    for row in 0..rows_of(task) {
        bounds.push(narrow_bound(task, row))?;
    }
    Ok(bounds)
}

/// The numbers below a count, in order.
pub(crate) fn counted(alloc: Global, count: u32) -> Result<List<u32>, NoMemory>
    ensures count { IfOk result (λ numbers. length numbers ≡ count) }
    ensures each { IfOk result (AtEach (λ i k. k ≡ i)) }
{
    let mut numbers = List::new(alloc);
    for k in 0..count {
        numbers.push(k)?;
    }
    Ok(numbers)
}
