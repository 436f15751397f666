ghost use Rattle.std.{specs.Prelude.{◌≡◌, ◌+◌, ◌<◌, All, IfOk, length, map}, specs.Int.◌∣◌};
ghost use Rattle.plan_terms.specs.Terms.{case_of, graph_in, AreCounts, IsSurvivable};
ghost use Rattle.route_law.specs.Terms.{flow_times};
ghost use Rattle.share_covers.{specs.InstalledRoutes.{IsRoutesAnswer, installed_caps}, specs.inner.SharedRoutes.{CarriesAtWhole, CoversCarriedShare, CoversQuality, IsSharedAnswer, IsStateAnswer, IsWholeAnswer}};

use crate::routes::{InstalledRoutes, route_installed};
use flow_mending::mended;
use flow_router::common_divisor;
use greedy_router::greedy;
use module_choice::capacities;
use net_core::{Caps, Copied, Counts, Flow, Instance, List, NoMemory, RouteTask, Routing, StateId};
use plan_types::{Fractional, Quality};
use std::alloc::Global;

/// The denominators of routings are below this.
const DEN_LIMIT: u128 = 1 << 62;

/// Flows with their numbers over a divisor of theirs.
fn flows_over(alloc: Global, flows: &[Flow], divisor: u128) -> Result<List<Flow>, NoMemory>
    requires positive { 0 < divisor }
    requires divides { All (λ f. divisor ∣ f.num) flows.now }
    ensures { IfOk result (λ over. map (flow_times divisor) over ≡ flows.now) }
{
    let mut over = List::new(alloc);
    for flow in flows {
        over.push(Flow {
            demand: flow.demand,
            path: flow.path.copy()?,
            num: flow.num / divisor,
        })?;
    }
    Ok(over)
}

/// A routing over a scale as one at scale 1, in lowest terms. `None` where it has more than `most` flows, or its denominator would be
/// 2^62 or more.
fn whole_routing(
    alloc: Global,
    routing: &Routing,
    scale: u64,
    most: usize,
) -> Result<Option<Routing>, NoMemory>
    requires scale { 0 < scale }
    requires den { 0 < routing.now.den }
    ensures { IfOk result (IsWholeAnswer scale most routing.now) }
{
    let den = routing.den as u128 * scale as u128;
    let flows = routing.flows.items();
    let common = common_divisor(den, flows);
    if flows.len() > most || den / common >= DEN_LIMIT {
        return Ok(None);
    }
    Ok(Some(Routing {
        den: (den / common) as u64,
        flows: flows_over(alloc, flows, common)?,
    }))
}

/// A routing of a state within capacities at scale 1 that carry a share's routing of it over the scale: the greedy one where it carries all
/// demands, else that of the share. `None` where the share's is needed, and has more flows than there are links and demands together, or a
/// denominator of 2^62 or more.
fn greedy_or_shared(
    alloc: Global,
    instance: &Instance,
    state: StateId,
    caps: &Caps,
    shared: &Routing,
    scale: u64,
) -> Result<Option<Routing>, NoMemory>
    requires state { state.0 < length instance.now.states.now.listed + 1 }
    requires caps { length caps.now.nums ≡ length instance.now.net.now.links }
    requires scale { 0 < scale }
    requires carries { let p = case_of instance.now in CarriesAtWhole (graph_in p state.0) p.demands caps.now scale shared.now }
    ensures { let p = case_of instance.now in IfOk result (IsStateAnswer (graph_in p state.0) p.demands caps.now scale shared.now) }
{
    let left = greedy(
        alloc,
        instance.net,
        instance.states,
        state,
        instance.demands,
        caps,
    )?;
    if left.is_whole() {
        return Ok(Some(left.routing));
    }
    let most = instance.net.links().len() + instance.demands.len();
    whole_routing(alloc, shared, scale, most)
}

/// A routing of a state within capacities at scale 1 that carry a share's routing of it over the scale: that of the state without failures where
/// it carries the demands once it is mended, so that a failure reroutes little; else as `greedy_or_shared` finds it.
fn mended_or_anew(
    alloc: Global,
    instance: &Instance,
    state: StateId,
    caps: &Caps,
    normal: Option<&Routing>,
    shared: &Routing,
    scale: u64,
) -> Result<Option<Routing>, NoMemory>
    requires state { state.0 < length instance.now.states.now.listed + 1 }
    requires caps { length caps.now.nums ≡ length instance.now.net.now.links }
    requires scale { 0 < scale }
    requires carries { let p = case_of instance.now in CarriesAtWhole (graph_in p state.0) p.demands caps.now scale shared.now }
    ensures { let p = case_of instance.now in IfOk result (IsStateAnswer (graph_in p state.0) p.demands caps.now scale shared.now) }
{
    let task = RouteTask {
        graph: instance.in_state(state),
        demands: instance.demands,
        caps,
    };
    if let Some(normal) = normal {
        if let Some(routing) = mended(alloc, &task, normal)? {
            return Ok(Some(routing));
        }
    }
    greedy_or_shared(alloc, instance, state, caps, shared, scale)
}

/// Routings within counts that cover a share. The state without failures has the greedy one where it carries all demands, else the share's,
/// with its flows over a denominator that is the share's scale times as large, in lowest terms. Each other state has that of the state
/// without failures, mended where links fail, if it carries all demands then; else its own greedy one or the share's, found in that way too.
/// `None` where a state's routing of the share is needed, and has more flows than there are links and demands together, or a denominator of
/// 2^62 or more.
///
/// Greedy paths come first since they are short, where a share's flows may take detours that its covers make needless. The share's flows
/// always fit, since the covers of a link have what it has in the share, or as much as all demands need. Covers take a fifth to a seventh of
/// the time that they take where each state has greedy paths of its own.
///
/// Where 10000 units over the scale 3 are 10000/3 of capacity, a flow of 10000 over the denominator 1 fits, and carries 10000/3 of a
/// demand: it becomes one of 10000 over the denominator 3. It takes time and memory as `greedy` does in the state without failures, as `mended`
/// in each other state, there also as `greedy` where the mended routing doesn't carry all, and in the length of the routings.
fn routes_of_share(
    alloc: Global,
    instance: &Instance,
    fractional: &Fractional,
    counts: &Counts,
) -> Result<Option<List<Routing>>, NoMemory>
    requires shape { AreCounts instance.now.net.now.links counts.now }
    requires covered { let p = case_of instance.now in ∥ CoversCarriedShare p fractional.now counts.now ∥₁ }
    ensures { let p = case_of instance.now in IfOk result (IsSharedAnswer p fractional.now counts.now) }
{
    let caps = capacities(alloc, instance.net, counts)?;
    let shared = fractional.routings.items();
    let scale = fractional.share.scale;
    let mut routings = List::new(alloc);
    for s in 0..instance.states.count() {
        let state = StateId(s);
        let of_share = &shared[s as usize];
        let normal = routings.items().first();
        match mended_or_anew(alloc, instance, state, &caps, normal, of_share, scale)? {
            Some(routing) => routings.push(routing)?,
            None => return Ok(None),
        }
    }
    Ok(Some(routings))
}

/// Routings within counts that cover a share: where the quality is tight by it, those of `routes_of_share` if there are any; else such as
/// `route_installed` finds, which takes the time of the simplex method for other routings at the same cost. So a plan's denominators may be
/// larger; where neither mended nor greedy paths carry a state, flows keep to the share though the covers have room beside it; and a state with
/// failures may keep a path that isn't the shortest that it has room for.
pub(crate) fn route_covers(
    alloc: Global,
    instance: &Instance,
    quality: &Quality,
    counts: &Counts,
) -> Result<InstalledRoutes, NoMemory>
    requires shape { AreCounts instance.now.net.now.links counts.now }
    requires survivable { let p = case_of instance.now in IsSurvivable p }
    requires quality { let p = case_of instance.now in ∥ CoversQuality p counts.now quality.now ∥₁ }
    ensures { let p = case_of instance.now in IfOk result (IsRoutesAnswer p (installed_caps p.links counts.now)) }
{
    if let Quality::Tight(fractional) = quality {
        if let Some(routings) = routes_of_share(alloc, instance, fractional, counts)? {
            return Ok(InstalledRoutes::Routed(routings));
        }
    }
    route_installed(alloc, instance, counts)
}
