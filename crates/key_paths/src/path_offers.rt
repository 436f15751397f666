ghost use Rattle.std.specs.Prelude.{List, ◌≡◌, ◌<◌, ◌+◌, ◌-◌, ◌≤ℤ◌, ◌<ℤ◌, ◌^◌, ℕ, All, pos, length, remove, true, slice_get, Some, IfOk, IfSome, OnOk, MatchOption, unsigned_abs};
ghost use Rattle.checked_fraction.specs.Terms.{num, IsNarrow};
ghost use Rattle.plan_terms.specs.Terms.{Carry, Demand, Graph, graph_of};
ghost use Rattle.key_paths.specs.inner.Gaining.{cost_at, AreLinkCosts, AreOffers, IsCarrier, IsGaining, NoneIsCheap, Offers};

use crate::carrier::Carrier;
use crate::pricing::{gains, is_cheap};
use key_rows::Keyed;
use net_core::{Demand, List, NoMemory, RouteTask};
use short_paths::{CheapestPaths, PathFault, PricedPath};
use std::alloc::Global;

/// Takes the last one.
fn pop(waiting: &mut List<Carrier>) -> Option<Carrier>
    ensures { MatchOption result ((length waiting.old ≡ 0) × (waiting.new ≡ waiting.old))
        (λ c. (slice_get waiting.old (length waiting.old - 1) ≡ Some c)
        × (waiting.new ≡ remove waiting.old (length waiting.old - 1)) × (0 < length waiting.old)) }
{
    let count = waiting.len();
    if count == 0 {
        return None;
    }
    Some(waiting.remove(count - 1))
}

/// Whether a path still gains.
fn still_gains(task: &RouteTask, keyed: &Keyed, c: &Carrier) -> bool
    requires links { length keyed.now.prices.nums ≡ length task.now.graph.net.now.links }
    requires demands { length keyed.now.duals ≡ length task.now.demands.now }
    requires carrier { IsCarrier (graph_of task.now.graph) task.now.demands.now c.now }
    ensures { result ≡ true → cost_at keyed.now (Carry c.now.demand c.now.path) <ℤ pos 0 }
{
    gains(keyed, c.demand, c.path.items())
}

/// The last of the paths that wait which still gains; those after it are dropped.
fn next_gaining(task: &RouteTask, keyed: &Keyed, waiting: &mut List<Carrier>) -> Option<Carrier>
    requires links { length keyed.now.prices.nums ≡ length task.now.graph.net.now.links }
    requires demands { length keyed.now.duals ≡ length task.now.demands.now }
    requires carriers { All (IsCarrier (graph_of task.now.graph) task.now.demands.now) waiting.old }
    ensures carriers { All (IsCarrier (graph_of task.now.graph) task.now.demands.now) waiting.new }
    ensures carrier { IfSome result (IsCarrier (graph_of task.now.graph) task.now.demands.now) }
    ensures cheap { IfSome result (λ c. cost_at keyed.now (Carry c.demand c.path) <ℤ pos 0) }
{
    while let Some(c) = pop(waiting) {
        if still_gains(task, keyed, &c) {
            return Some(c);
        }
    }
    None
}

/// Adds a demand's cheapest path to the others, if it gains.
fn offer(
    paths: &CheapestPaths,
    d: &Demand,
    k: u32,
    keyed: &Keyed,
    found: &mut List<Carrier>,
) -> Result<(), NoMemory>
    requires from { d.now.from.0 < length paths.now.paths.graph.net.now.nodes }
    requires to { d.now.to.0 < length paths.now.paths.graph.net.now.nodes }
    requires inside { k < length keyed.now.duals }
    requires links { length keyed.now.prices.nums ≡ length paths.now.paths.graph.net.now.links }
    requires prices { AreLinkCosts keyed.now paths.now.prices }
    ensures { OnOk result (Offers (graph_of paths.now.paths.graph) keyed.now k d.now found.old found.new) }
{
    if d.need == 0 {
        return Ok(());
    }
    match paths.path(d.from, d.to) {
        Ok(PricedPath { path, total }) => {
            if is_cheap(keyed, k, total) {
                found.push(Carrier { demand: k, path })?;
            }
            Ok(())
        }
        Err(PathFault::Apart) => Ok(()),
        Err(PathFault::NoMemory) => Err(NoMemory),
    }
}

/// A price that isn't negative.
fn price_of(price: &i64) -> u64
    requires positive { pos 0 ≤ℤ price.now }
    requires narrow { IsNarrow price.now }
    ensures same { price.now ≡ pos result }
    ensures low { result < 2 ^ 62 }
{
    price.unsigned_abs()
}

/// The prices of the links.
fn link_prices(alloc: Global, keyed: &Keyed) -> Result<List<u64>, NoMemory>
    requires { (e : ℕ) → e < length keyed.now.prices.nums → pos 0 ≤ℤ num keyed.now.prices.nums e }
    ensures { IfOk result (AreLinkCosts keyed.now) }
{
    let nums = keyed.prices.nums();
    let mut prices = List::from_vec(Vec::with_capacity(alloc, nums.len())?);
    for e in 0..nums.len() {
        prices.push(price_of(&nums[e]))?;
    }
    Ok(prices)
}

/// The cheapest path of each demand whose flow gains.
fn offers_of(
    alloc: Global,
    task: &RouteTask,
    keyed: &Keyed,
    paths: &CheapestPaths,
) -> Result<List<Carrier>, NoMemory>
    requires graph { graph_of paths.now.paths.graph ≡ graph_of task.now.graph }
    requires prices { AreLinkCosts keyed.now paths.now.prices }
    requires links { length keyed.now.prices.nums ≡ length task.now.graph.net.now.links }
    requires demands { length keyed.now.duals ≡ length task.now.demands.now }
    ensures { IfOk result (AreOffers (graph_of task.now.graph) task.now.demands.now keyed.now (length task.now.demands.now)) }
{
    let mut found = List::new(alloc);
    let demands = task.demands.items();
    for k in 0..demands.len() {
        offer(paths, &demands[k], k as u32, keyed, &mut found)?;
    }
    Ok(found)
}

/// The cheapest path of each demand whose flow gains, with the searches for it. It takes one search from each node.
fn collect(alloc: Global, task: &RouteTask, keyed: &Keyed) -> Result<List<Carrier>, NoMemory>
    requires links { length keyed.now.prices.nums ≡ length task.now.graph.net.now.links }
    requires demands { length keyed.now.duals ≡ length task.now.demands.now }
    requires positive { (e : ℕ) → e < length keyed.now.prices.nums → pos 0 ≤ℤ num keyed.now.prices.nums e }
    ensures { IfOk result (AreOffers (graph_of task.now.graph) task.now.demands.now keyed.now (length task.now.demands.now)) }
{
    let prices = link_prices(alloc, keyed)?;
    let paths = CheapestPaths::new(alloc, &task.graph, prices)?;
    offers_of(alloc, task, keyed, &paths)
}

/// A path whose flow gains: one of those that wait, or of those that the searches find under these prices.
pub(crate) fn find(
    alloc: Global,
    task: &RouteTask,
    keyed: &Keyed,
    waiting: &mut List<Carrier>,
) -> Result<Option<Carrier>, NoMemory>
    requires links { length keyed.now.prices.nums ≡ length task.now.graph.net.now.links }
    requires demands { length keyed.now.duals ≡ length task.now.demands.now }
    requires positive { (e : ℕ) → e < length keyed.now.prices.nums → pos 0 ≤ℤ num keyed.now.prices.nums e }
    requires carriers { All (IsCarrier (graph_of task.now.graph) task.now.demands.now) waiting.old }
    ensures carriers { All (IsCarrier (graph_of task.now.graph) task.now.demands.now) waiting.new }
    ensures found { IfOk result (λ o. MatchOption o
        ((k : ℕ) (d : Demand) → slice_get task.now.demands.now k ≡ Some d
        → NoneIsCheap (graph_of task.now.graph) keyed.now k d)
        (λ c. IsGaining (graph_of task.now.graph) task.now.demands.now keyed.now (Carry c.demand c.path))) }
{
    if let Some(c) = next_gaining(task, keyed, waiting) {
        return Ok(Some(c));
    }
    *waiting = collect(alloc, task, keyed)?;
    Ok(pop(waiting))
}
