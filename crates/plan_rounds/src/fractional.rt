ghost use Rattle.std.specs.Prelude.{◌≡◌, ◌*◌, ◌+◌, ◌<◌, ◌≤◌, ◌^◌, All, IfOk, IfSome, MatchOption, None, length};
ghost use Rattle.plan_terms.specs.Terms.{graph_in, case_of, DemandSlack, LinkSlack};
ghost use Rattle.simplex_law.specs.Terms.{AreNames, slack_basis};
ghost use Rattle.separator.specs.Terms.{IsEvidenceHere};
ghost use Rattle.route_law.specs.Terms.{beside};
ghost use Rattle.net_core.specs.Limits.{most_demands};
ghost use Rattle.plan_rounds.{specs.inner.Answered.{AreRoutedStates, IsEvidenceOfState}, specs.inner.Sharing.{AreSlackNames, HasWideNeed, IsDividedCaps, IsQualityAt, at_caps}};

use crate::shares::ShareCaps;
use crate::whole_routings::undivided_all;
use net_core::{
    Caps, Copied, Demand, Evidence, Instance, LinkId, List, NoMemory, RouteColumn, Routing,
    StateId, WideKind, discard,
};
use plan_types::{Cause, Fractional, Quality, Share};
use std::alloc::Global;

/// The numbers of a routing program have to be below this.
const WIDE: u128 = 1 << 62;

/// The first demand whose need times the scale is 2^62 or more.
fn wide_demand(demands: &[Demand], scale: u64) -> Option<u32>
    requires { length demands.now ≤ most_demands }
    ensures { MatchOption result (All (λ d. d.need * scale < 2 ^ 62) demands.now) (HasWideNeed demands.now scale) }
{
    for k in 0..demands.len() {
        if demands[k].need as u128 * scale as u128 >= WIDE {
            return Some(k as u32);
        }
    }
    None
}

/// The name of a row's slack: the first rows belong to links, and those after them to demands.
fn slack_of(links: u32, row: u32) -> RouteColumn
    ensures { result ≡ beside links (λ e. LinkSlack (record { 0 = e })) (λ k. DemandSlack k) row }
{
    if row < links {
        RouteColumn::LinkSlack(LinkId(row))
    } else {
        RouteColumn::DemandSlack(row - links)
    }
}

/// The names of all slacks of a routing program, in the order of their rows.
fn slack_names(alloc: Global, links: u32, demands: u32) -> Result<List<RouteColumn>, NoMemory>
    requires { links + demands < 2 ^ 32 }
    ensures { IfOk result (AreSlackNames links (links + demands)) }
{
    let mut names = List::new(alloc);
    for row in 0..links + demands {
        names.push(slack_of(links, row))?;
    }
    Ok(names)
}

/// Evidence that the need of a demand times the scale is 2^62 or more.
fn need_evidence(
    alloc: Global,
    instance: &Instance,
    demand: u32,
    caps: Caps,
) -> Result<Evidence, NoMemory>
    requires { HasWideNeed instance.now.demands.now caps.scale demand }
    ensures { IfOk result (IsEvidenceHere (graph_in (case_of instance.now) 0) instance.now.demands.now caps) }
{
    let links = instance.net.links().len() as u32;
    Ok(Evidence::Route {
        state: StateId(0),
        caps,
        basis: slack_names(alloc, links, instance.demands.len() as u32)?,
        kind: WideKind::Number(RouteColumn::DemandSlack(demand)),
    })
}

/// Evidence at the divided capacities of a share, as evidence at the whole ones.
fn whole_evidence(evidence: Evidence, whole: Caps) -> Evidence
    ensures { result ≡ at_caps whole evidence }
{
    match evidence {
        Evidence::Route {
            state,
            basis,
            kind,
            ..
        } => Evidence::Route {
            state,
            caps: whole,
            basis,
            kind,
        },
        Evidence::Master { basis, kind } => Evidence::Master { basis, kind },
    }
}

/// The quality of a bound whose share carries the demands in each state. The routings, one per state, are within the share's divided
/// capacities; the quality has them within the whole ones, unless a need times the scale is too wide there.
fn carried(
    alloc: Global,
    instance: &Instance,
    share: &Share,
    caps: ShareCaps,
    routings: List<Routing>,
) -> Result<Quality, NoMemory>
    requires divided { IsDividedCaps caps.whole caps }
    requires routed { ∥ AreRoutedStates (case_of instance.now) caps.divided (length instance.now.states.now.listed + 1) routings ∥₁ }
    ensures { IfOk result (λ quality. ∥ IsQualityAt (case_of instance.now) caps.whole share.now quality ∥₁) }
{
    let ShareCaps {
        whole,
        divided,
        divisor,
    } = caps;
    discard(divided);
    if let Some(k) = wide_demand(instance.demands.items(), whole.scale) {
        discard(routings);
        let evidence = need_evidence(alloc, instance, k, whole)?;
        return Ok(Quality::Loose(Cause::Wide(evidence)));
    }
    discard(whole);
    Ok(Quality::Tight(Fractional {
        share: share.copy()?,
        routings: undivided_all(alloc, routings, divisor)?,
    }))
}

/// The quality of a bound for whose share no violated cut was found: the share carries the demands in each state, or `wide` has evidence
/// that a number of a state is too wide. `routings` and `wide` are those at the divided capacities.
pub fn quality_at(
    alloc: Global,
    instance: &Instance,
    share: &Share,
    caps: ShareCaps,
    routings: List<Routing>,
    wide: Option<Evidence>,
) -> Result<Quality, NoMemory>
    requires divided { IsDividedCaps caps.whole caps }
    requires routed { wide ≡ None → ∥ AreRoutedStates (case_of instance.now) caps.divided (length instance.now.states.now.listed + 1) routings ∥₁ }
    requires wide { ∥ IfSome wide (IsEvidenceOfState (case_of instance.now) caps.divided) ∥₁ }
    ensures { IfOk result (λ quality. ∥ IsQualityAt (case_of instance.now) caps.whole share.now quality ∥₁) }
{
    match wide {
        Some(evidence) => Ok(Quality::Loose(Cause::Wide(whole_evidence(evidence, caps.whole)))),
        None => carried(alloc, instance, share, caps, routings),
    }
}
