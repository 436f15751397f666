ghost use Rattle.std.specs.Prelude.{◌≡◌, ◌<◌, ◌≤◌, IfOk, MatchOption, length};
ghost use Rattle.plan_terms.specs.Terms.{case_of, AreWithinLimits, IsFallback, IsSurvivable};
ghost use Rattle.share_covers.{specs.Choices.{IsChosen, IsQualityOfShare}, specs.inner.Decided.decided, specs.inner.RoutedCovers.{AreRoutedCovers, HasDearerCovers}, specs.inner.Widened.widened};

use crate::covers::{Installed, cover_share};
use crate::routes::InstalledRoutes;
use crate::shared_routes::route_covers;
use module_choice::Fallback;
use net_core::{Counts, Evidence, Instance, List, NoMemory, Routing, discard};
use plan_types::{Cause, Quality, Share};
use std::alloc::Global;

/// Counts of modules with a routing for each state, what they cost, and how good the bound beside them is.
#[derive(Drop)]
pub struct Chosen {
    /// One count for each module of each link.
    pub counts: Counts,
    /// One routing for each state, the one without failures first.
    pub routings: List<Routing>,
    /// What the counts cost, in units of the network.
    pub cost: u128,
    pub quality: Quality,
}

/// The covers of a share, and what the states answer within them.
#[derive(Drop)]
struct RoutedCovers {
    installed: Installed,
    answer: InstalledRoutes,
}

/// The fallback plan.
fn keep_fallback(fallback: Fallback, quality: Quality) -> Chosen
    ensures { result ≡ record { counts = fallback.counts; routings = fallback.routings; cost = fallback.cost; quality = quality } }
{
    Chosen {
        counts: fallback.counts,
        routings: fallback.routings,
        cost: fallback.cost,
        quality,
    }
}

/// A quality where covers that cost less are too wide in a state: a loose one stays as it is.
fn widened(quality: Quality, evidence: Evidence) -> Quality
    ensures { result ≡ widened evidence quality }
{
    match quality {
        Quality::Tight(fractional) => {
            discard(fractional);
            Quality::Loose(Cause::Wide(evidence))
        }
        Quality::Loose(cause) => {
            discard(evidence);
            Quality::Loose(cause)
        }
    }
}

/// The covers where the states answer with routings, else the fallback plan. Those of a share that carries the demands are never short, so
/// the covers of a tight plan are routed, or a number is too wide.
fn decided(covers: RoutedCovers, fallback: Fallback, quality: Quality) -> Chosen
    ensures { result ≡ decided covers.installed fallback quality covers.answer }
{
    let RoutedCovers { installed, answer } = covers;
    let cheaper = installed.cost < fallback.cost;
    match answer {
        InstalledRoutes::Routed(routings) => {
            discard(fallback);
            Chosen {
                counts: installed.counts,
                routings,
                cost: installed.cost,
                quality,
            }
        }
        InstalledRoutes::Wide(evidence) => {
            if cheaper {
                return keep_fallback(fallback, widened(quality, evidence));
            }
            discard(evidence);
            keep_fallback(fallback, quality)
        }
        InstalledRoutes::Short(_) => keep_fallback(fallback, quality),
    }
}

/// The covers of a share, with what the states answer within them; `None` where they cost more than so much, since their routings would be
/// thrown away then.
fn routed_covers(
    alloc: Global,
    instance: &Instance,
    cost: u128,
    share: &Share,
    quality: &Quality,
) -> Result<Option<RoutedCovers>, NoMemory>
    requires survivable { let p = case_of instance.now in IsSurvivable p }
    requires scale { 0 < share.now.scale }
    requires units { length share.now.units ≡ length instance.now.net.now.links }
    requires quality { let p = case_of instance.now in ∥ IsQualityOfShare p share.now quality.now ∥₁ }
    ensures { let p = case_of instance.now in IfOk result (λ found. MatchOption found (HasDearerCovers p share.now cost)
        (AreRoutedCovers p share.now cost)) }
{
    let installed = cover_share(alloc, instance.net, share)?;
    if cost < installed.cost {
        return Ok(None);
    }
    let answer = route_covers(alloc, instance, quality, &installed.counts)?;
    Ok(Some(RoutedCovers { installed, answer }))
}

/// The modules that cover a share where they carry the demands in each state and cost no more than the fallback plan, else the
/// fallback plan. No state separates a demand. A tight quality is one by this share; it becomes loose where covers that cost less than the
/// fallback plan are too wide in a state.
///
/// On three parallel links of modules of 1.00 for 1.00 the fallback plan for a demand of 10.00 costs 20.00; for a share of 5000 units on
/// each link the covers are chosen, five modules each for 15.00.
///
/// Where the quality is tight, the state without failures has the greedy routing within the covers if that carries all demands, else the
/// share's: this fits as well, over a denominator that is the share's scale times as large, in lowest terms. Each other state keeps the flows
/// of that routing that no failure stops, and what is missing goes along paths of fewest links with room; where that doesn't carry all
/// demands, it is routed as the state without failures is.
///
/// It takes time and memory as `cover_share` does, as `greedy` of `greedy_router` in the state without failures and as `mended` of
/// `flow_mending` in each other one, there at most as `greedy` beside that, and in the length of the share's routings. Where the quality is
/// loose, where a denominator of the share's routings is 2^62 or more, or where such a routing has more flows than there are links and demands
/// together, it takes time and memory as `route_installed` does beside that.
pub fn choose(
    alloc: Global,
    instance: &Instance,
    fallback: Fallback,
    share: &Share,
    quality: Quality,
) -> Result<Chosen, NoMemory>
    requires survivable { let p = case_of instance.now in IsSurvivable p }
    requires fallback { let p = case_of instance.now in IsFallback p fallback.counts fallback.routings fallback.cost }
    requires narrow { AreWithinLimits instance.now.net.now.links fallback.counts }
    requires scale { 0 < share.now.scale }
    requires units { length share.now.units ≡ length instance.now.net.now.links }
    requires quality { let p = case_of instance.now in ∥ IsQualityOfShare p share.now quality ∥₁ }
    ensures { let p = case_of instance.now in IfOk result (IsChosen p share.now fallback quality) }
{
    match routed_covers(alloc, instance, fallback.cost, share, &quality) {
        Ok(Some(covers)) => Ok(decided(covers, fallback, quality)),
        Ok(None) => Ok(keep_fallback(fallback, quality)),
        Err(error) => {
            discard(fallback);
            discard(quality);
            Err(error)
        }
    }
}
