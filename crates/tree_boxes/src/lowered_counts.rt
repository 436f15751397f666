ghost use Rattle.std.specs.Prelude.{◌≡◌, ◌+◌, ◌*◌, ◌≤◌, ◌<◌, ◌⊎◌, All, IfOk, length};
ghost use Rattle.plan_terms.specs.Terms.{AreCounts, IsModule};
ghost use Rattle.tree_boxes.specs.inner.Lowering.{HaveRoomFor, IsLoweredLink};

use net_core::{Counts, Instance, List, Module, NoMemory};
use std::alloc::Global;

/// A capacity that no load exceeds, in units of demand: all demands together are below 2^44 units.
const MOST_LOAD: u64 = (1 << 44) - 1;

/// How many of the `count` modules are needed for the capacity that is missing; all of them if they are too few.
fn needed(capacity: u64, count: u64, missing: u64) -> u64
    requires { 0 < capacity }
    ensures fewer { result ≤ count }
    ensures few { result ≤ missing }
    ensures small { capacity * result < missing + capacity }
    ensures room { (result ≡ count) ⊎ (missing ≤ capacity * result) }
{
    count.min(missing.div_ceil(capacity))
}

/// The counts of a link, lowered to what the capacity for any load needs. The first modules are kept first.
fn lowered_link(alloc: Global, modules: &[Module], counts: &[u64]) -> Result<List<u64>, NoMemory>
    requires each { All IsModule modules.now }
    requires count { length counts.now ≡ length modules.now }
    ensures { IfOk result (IsLoweredLink modules.now counts.now) }
{
    let mut lowered = List::new(alloc);
    let mut missing = MOST_LOAD;
    for m in 0..modules.len() {
        let module = &modules[m];
        let number = needed(module.capacity, counts[m], missing);
        missing = missing.saturating_sub(module.capacity * number);
        lowered.push(number)?;
    }
    Ok(lowered)
}

/// Counts within the limits of plans whose capacities suffice for every load for which those of the given ones do.
pub(crate) fn lowered_counts(
    alloc: Global,
    instance: &Instance,
    counts: &Counts,
) -> Result<Counts, NoMemory>
    requires shape { AreCounts instance.now.net.now.links counts.now }
    ensures room { IfOk result (HaveRoomFor instance.now.net.now.links counts.now) }
{
    let links = instance.net.links().items();
    let lists = counts.items();
    let mut lowered = List::new(alloc);
    for e in 0..links.len() {
        lowered.push(lowered_link(alloc, links[e].modules.items(), lists[e].items())?)?;
    }
    Ok(lowered)
}
