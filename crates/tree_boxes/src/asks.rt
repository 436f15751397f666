ghost use Rattle.std.specs.Prelude.{IfOk, OnOk};
ghost use Rattle.plan_terms.specs.Terms.{AreCounts, AreWithinLimits, IsSurvivable};
ghost use Rattle.plan_swaps.specs.Terms.{IsTestOf};
ghost use Rattle.tree_boxes.{specs.inner.Asking.IsAnswerTo, specs.Searches.aimed};

use crate::aim::Aim;
use crate::found::Cheaper;
use crate::large::stop_anywhere;
use crate::lowered_counts::lowered_counts;
use able_counts::{AbleTest, Stop};
use module_choice::cost;
use net_core::{Copied, Counts, NoMemory};
use plan_swaps::limits::are_within_limits;
use std::alloc::Global;

/// Asks about counts within the limits of plans: they carry the demands, or something stops them.
pub(crate) fn ask_within(
    aim: &Aim,
    test: &mut AbleTest,
    counts: Counts,
) -> Result<Result<Cheaper, Stop>, NoMemory>
    requires survivable { IsSurvivable (aimed aim.now) }
    requires sound { IsTestOf (aimed aim.now) test.old }
    requires shape { AreCounts (aimed aim.now).links counts }
    requires limits { AreWithinLimits (aimed aim.now).links counts }
    ensures sound { OnOk result (IsTestOf (aimed aim.now) test.new) }
    ensures answer { IfOk result (IsAnswerTo (aimed aim.now) counts) }
{
    let found = test.stop(aim.instance, &counts)?;
    match found {
        Some(stop) => Ok(Err(stop)),
        None => Ok(Ok(Cheaper {
            cost: cost(aim.instance.net, &counts),
            counts,
            routings: test.routings().copy()?,
        })),
    }
}

/// Asks about any counts: they carry the demands, or lower counts within the limits of plans do, or something stops them.
pub(crate) fn ask(
    alloc: Global,
    aim: &Aim,
    test: &mut AbleTest,
    counts: Counts,
) -> Result<Result<Cheaper, Stop>, NoMemory>
    requires survivable { IsSurvivable (aimed aim.now) }
    requires sound { IsTestOf (aimed aim.now) test.old }
    requires shape { AreCounts (aimed aim.now).links counts }
    ensures sound { OnOk result (IsTestOf (aimed aim.now) test.new) }
    ensures answer { IfOk result (IsAnswerTo (aimed aim.now) counts) }
{
    if are_within_limits(alloc, aim.instance.net, &counts)? {
        return ask_within(aim, test, counts);
    }
    match stop_anywhere(alloc, aim.instance, &counts)? {
        Ok(routings) => {
            let counts = lowered_counts(alloc, aim.instance, &counts)?;
            Ok(Ok(Cheaper {
                cost: cost(aim.instance.net, &counts),
                counts,
                routings,
            }))
        }
        Err(stop) => Ok(Err(stop)),
    }
}
