ghost use Rattle.std.specs.Prelude.{◌≡◌, ◌<◌, None, IfOk, IfSome, OnOk};
ghost use Rattle.plan_terms.specs.Terms.{case_of, IsSurvivable, capacities};
ghost use Rattle.able_counts.specs.AbleTests.{AreRoutedCounts, IsStopAt, whole_caps};
ghost use Rattle.trim_plan.specs.Trimmed.{AreAtMost, module_count, one_less};

use crate::dearest::{Priced, dearest_first};
use crate::lowered_counts::{Place, module_count, one_less};
use able_counts::{AbleTest, Stop};
use net_core::{Counts, Instance, NoMemory, discard};
use std::alloc::Global;

/// Takes one module off if the others carry the demands in each state. Otherwise it says why not, and the counts stay as they are.
pub(crate) fn take_off(
    instance: &Instance,
    test: &mut AbleTest,
    counts: &mut Counts,
    place: Place,
) -> Result<Option<Stop>, NoMemory>
    requires survivable { IsSurvivable (case_of instance.now) }
    requires routed { AreRoutedCounts (case_of instance.now) counts.old test.old }
    requires some { 0 < module_count counts.old place.link place.module }
    ensures routed { OnOk result (AreRoutedCounts (case_of instance.now) counts.new test.new) }
    ensures fewer { OnOk result (AreAtMost counts.new counts.old) }
    ensures taken { IfOk result (λ o. o ≡ None → counts.new ≡ one_less counts.old place.link place.module) }
    ensures kept { IfOk result (λ o. IfSome o
        (λ why. (counts.new ≡ counts.old)
        × IsStopAt (case_of instance.now)
        (whole_caps (capacities instance.now.net.now.links (one_less counts.old place.link place.module)))
        why)) }
{
    let lower = one_less(counts, place)?;
    let found = test.stop(instance, &lower)?;
    match found {
        None => {
            *counts = lower;
            Ok(None)
        }
        Some(stop) => Ok(Some(stop)),
    }
}

/// Takes one module off, if there is one and the others carry the demands in each state. Tells whether it did.
fn take_one_off(
    instance: &Instance,
    test: &mut AbleTest,
    counts: &mut Counts,
    place: Place,
) -> Result<bool, NoMemory>
    requires survivable { IsSurvivable (case_of instance.now) }
    requires routed { AreRoutedCounts (case_of instance.now) counts.old test.old }
    ensures routed { OnOk result (AreRoutedCounts (case_of instance.now) counts.new test.new) }
    ensures fewer { OnOk result (AreAtMost counts.new counts.old) }
{
    if module_count(counts, place) == 0 {
        return Ok(false);
    }
    match take_off(instance, test, counts, place)? {
        None => Ok(true),
        Some(stop) => {
            discard(stop);
            Ok(false)
        }
    }
}

/// Takes modules of one kind off a link, one by one, as long as the others carry the demands in each state.
fn take_all_off(
    instance: &Instance,
    test: &mut AbleTest,
    counts: &mut Counts,
    place: Place,
) -> Result<(), NoMemory>
    requires survivable { IsSurvivable (case_of instance.now) }
    requires routed { AreRoutedCounts (case_of instance.now) counts.old test.old }
    ensures routed { OnOk result (AreRoutedCounts (case_of instance.now) counts.new test.new) }
    ensures fewer { OnOk result (AreAtMost counts.new counts.old) }
{
    for _ in 0..module_count(counts, place) {
        if !take_one_off(instance, test, counts, place)? {
            return Ok(());
        }
    }
    Ok(())
}

/// Takes modules off in the given order, as long as the others carry the demands in each state.
fn spare_in_order(
    instance: &Instance,
    test: &mut AbleTest,
    counts: &mut Counts,
    order: &[Priced],
) -> Result<(), NoMemory>
    requires survivable { IsSurvivable (case_of instance.now) }
    requires routed { AreRoutedCounts (case_of instance.now) counts.old test.old }
    ensures routed { OnOk result (AreRoutedCounts (case_of instance.now) counts.new test.new) }
    ensures fewer { OnOk result (AreAtMost counts.new counts.old) }
{
    for priced in order {
        take_all_off(instance, test, counts, priced.place)?;
    }
    Ok(())
}

/// Takes modules off counts as long as the others carry the demands in each state: the dearest module first, and modules of one cost in
/// link and module order.
///
/// It asks once for each module that is taken off, and once for each kind that is left. It fails only where memory runs out.
pub(crate) fn spare_modules(
    alloc: Global,
    instance: &Instance,
    test: &mut AbleTest,
    counts: &mut Counts,
) -> Result<(), NoMemory>
    requires survivable { IsSurvivable (case_of instance.now) }
    requires routed { AreRoutedCounts (case_of instance.now) counts.old test.old }
    ensures routed { OnOk result (AreRoutedCounts (case_of instance.now) counts.new test.new) }
    ensures fewer { OnOk result (AreAtMost counts.new counts.old) }
{
    let dearest = dearest_first(alloc, instance.net)?;
    spare_in_order(instance, test, counts, dearest.items())
}
