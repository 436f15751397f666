ghost use Rattle.std.specs.Prelude.{◌≡◌, IfOk, IfSome};
ghost use Rattle.plan_terms.specs.Terms.{case_of, AreWithinLimits, IsFallback, IsSurvivable};
ghost use Rattle.planner.specs.inner.Finishing.{IsChosenAfter, IsChosenFor, IsShareFor};

use master_bound::Best;
use module_choice::{Fallback, fallback_plan};
use net_core::{Instance, NoMemory, discard};
use plan_types::Quality;
use share_covers::{Chosen, choose};
use std::alloc::Global;

/// The counts for the share of a best certificate, which are those that cover it or, where `choose` has a cause for it, the given fallback
/// plan's. Without a certificate they are the fallback plan's.
fn choose_beside(
    alloc: Global,
    instance: &Instance,
    fallback: Fallback,
    best: &Option<Best>,
    quality: Quality,
) -> Result<Chosen, NoMemory>
    requires survivable { IsSurvivable (case_of instance.now) }
    requires fallback { IsFallback (case_of instance.now) fallback.counts fallback.routings fallback.cost }
    requires narrow { AreWithinLimits instance.now.net.now.links fallback.counts }
    requires best { ∥ IfSome best.now (IsShareFor (case_of instance.now) quality) ∥₁ }
    ensures { IfOk result (IsChosenFor (case_of instance.now) best.now fallback quality) }
{
    match best {
        Some(best) => choose(alloc, instance, fallback, &best.share, quality),
        None => Ok(Chosen {
            counts: fallback.counts,
            routings: fallback.routings,
            cost: fallback.cost,
            quality,
        }),
    }
}

/// The counts for the share of a best certificate, which are those that cover it or, where `choose` has a cause for it, the fallback
/// plan's. Without a certificate they are the fallback plan's.
pub fn choose_counts(
    alloc: Global,
    instance: &Instance,
    best: &Option<Best>,
    quality: Quality,
) -> Result<Chosen, NoMemory>
    requires survivable { IsSurvivable (case_of instance.now) }
    requires best { ∥ IfSome best.now (IsShareFor (case_of instance.now) quality) ∥₁ }
    ensures { IfOk result (IsChosenAfter (case_of instance.now) best.now quality) }
{
    match fallback_plan(alloc, instance.net, instance.states, instance.demands) {
        Ok(fallback) => choose_beside(alloc, instance, fallback, best, quality),
        Err(no_memory) => {
            discard(quality);
            Err(no_memory)
        }
    }
}
