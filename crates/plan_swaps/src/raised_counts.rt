ghost use Rattle.std.specs.Prelude.{◌≡◌, List, IfOk, IfSome, length};
ghost use Rattle.plan_terms.specs.Terms.{Link, AreCounts, AreWithinLimits};

use crate::limits::are_within_limits;
use net_core::{Copied, Counts, List, Network, NoMemory};
use std::alloc::Global;
use trim_plan::Place;

/// Puts one module more on a link, unless there is no such module, or its count is 2^44 already.
fn raise_module(counts: &mut [u64], m: usize)
    ensures { length counts.new ≡ length counts.old }
{
    if m < counts.len() && counts[m] < 1 << 44 {
        counts[m] += 1;
    }
}

/// Puts one module more on a link, in the list of all links' counts.
fn raise_link(counts: &mut [List<u64>], place: Place)
    ensures { (links : List Link) → AreCounts links counts.old → AreCounts links counts.new }
{
    if place.link < counts.len() {
        raise_module(counts[place.link].items_mut(), place.module);
    }
}

/// The counts with one module more; `None` if they aren't within the limits.
pub(crate) fn one_more(
    alloc: Global,
    net: &Network,
    counts: &Counts,
    place: Place,
) -> Result<Option<Counts>, NoMemory>
    requires { AreCounts net.now.links counts.now }
    ensures { IfOk result (λ o. IfSome o (λ more. AreCounts net.now.links more × AreWithinLimits net.now.links more)) }
{
    let mut more = counts.copy()?;
    raise_link(more.items_mut(), place);
    if are_within_limits(alloc, net, &more)? {
        Ok(Some(more))
    } else {
        Ok(None)
    }
}
