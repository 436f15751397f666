ghost use Rattle.std.specs.Prelude.{◌≡◌, ◌<◌, ◌≤◌, ◌+◌, ◌+ℤ◌, ◌-ℤ◌, ◌≤ℤ◌, ◌<ℤ◌, ◌↔◌, All, pos, length, true, false, IfOk, IsTrue, MatchOption};
ghost use Rattle.checked_fraction.specs.Terms.{num};
ghost use Rattle.plan_terms.specs.Terms.{graph_of, Carry};
ghost use Rattle.key_rows.specs.Terms.{IsShortPath};
ghost use Rattle.key_paths.specs.inner.Gaining.{cost_at, IsCarrier, IsGaining, NoneGains};

use crate::carrier::Carrier;
use crate::path_offers::find;
use checked_fraction::first_negative;
use key_rows::{Keyed, path_sum};
use net_core::{LinkId, List, NoMemory, RouteColumn, RouteTask};
use std::alloc::Global;

/// `a - b`.
fn minus(a: i64, b: i64) -> i128
    ensures { result ≡ a -ℤ b }
{
    a as i128 - b as i128
}

/// What a path of a demand may cost: what its flow gains over the denominator, less the demand's price.
fn margin(keyed: &Keyed, demand: u32) -> i128
    requires { demand < length keyed.now.duals }
    ensures { result ≡ keyed.now.prices.den -ℤ num keyed.now.duals demand }
{
    minus(keyed.prices.den(), keyed.duals.items()[demand as usize])
}

/// Whether a sum is less than a number, which may be negative.
fn is_below(total: u128, number: &i128) -> bool
    ensures yes { result ≡ true → pos total <ℤ number.now }
    ensures no { result ≡ false → number.now ≤ℤ pos total }
{
    *number > 0 && total < number.unsigned_abs()
}

/// Whether a flow along a path gains more than the path's links, whose prices sum to this, and its demand's row cost.
pub(crate) fn is_cheap(keyed: &Keyed, demand: u32, total: u128) -> bool
    requires { demand < length keyed.now.duals }
    ensures yes { result ≡ true → (pos total +ℤ num keyed.now.duals demand) <ℤ keyed.now.prices.den }
    ensures no { result ≡ false → keyed.now.prices.den ≤ℤ (pos total +ℤ num keyed.now.duals demand) }
{
    is_below(total, &margin(keyed, demand))
}

/// Whether a flow along a path gains more than the path's links and its demand's row cost.
pub(crate) fn gains(keyed: &Keyed, demand: u32, path: &[LinkId]) -> bool
    requires demand { demand < length keyed.now.duals }
    requires path { IsShortPath (length keyed.now.prices.nums) path.now }
    ensures { IsTrue result ↔ (cost_at keyed.now (Carry demand path.now) <ℤ pos 0) }
{
    path_sum(keyed.prices.nums(), path) < margin(keyed, demand)
}

/// A column that gains, if there is one: the slack of a link or of a demand whose price is negative, and else a path.
///
/// It takes a search from each node where no slack gains and none of the paths that wait does.
pub(crate) fn price(
    alloc: Global,
    task: &RouteTask,
    keyed: &Keyed,
    waiting: &mut List<Carrier>,
) -> Result<Option<RouteColumn>, NoMemory>
    requires links { length keyed.now.prices.nums ≡ length task.now.graph.net.now.links }
    requires demands { length keyed.now.duals ≡ length task.now.demands.now }
    requires waiting { All (IsCarrier (graph_of task.now.graph) task.now.demands.now) waiting.old }
    ensures waiting { All (IsCarrier (graph_of task.now.graph) task.now.demands.now) waiting.new }
    ensures found { IfOk result (λ o. MatchOption o (NoneGains (graph_of task.now.graph) task.now.demands.now keyed.now)
        (IsGaining (graph_of task.now.graph) task.now.demands.now keyed.now)) }
{
    if let Some(link) = first_negative(keyed.prices.nums()) {
        return Ok(Some(RouteColumn::LinkSlack(LinkId(link))));
    }
    if let Some(demand) = first_negative(keyed.duals.items()) {
        return Ok(Some(RouteColumn::DemandSlack(demand)));
    }
    match find(alloc, task, keyed, waiting)? {
        Some(c) => Ok(Some(RouteColumn::Carry(c.demand, c.path))),
        None => Ok(None),
    }
}
