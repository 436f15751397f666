ghost use Rattle.std.specs.Prelude.{◌<◌, IsTrue};
ghost use Rattle.node_sets.specs.inner.NarrowCaps.{AreNarrow};

use metric_cut::are_narrow;
use net_core::{Demand, RouteTask};

/// Numbers of a program that routes demands are below this.
const WIDE: u128 = 1 << 62;

/// Whether what each demand needs over a scale is below 2^62.
fn are_needs_narrow(demands: &[Demand], scale: u64) -> bool {
    demands
        .iter()
        .all(|d| (d.need as u128 * scale as u128) < WIDE)
}

/// Whether each link's number, and what each demand needs over the scale, is below 2^62.
pub(crate) fn is_narrow(task: &RouteTask) -> bool
    requires { 0 < task.now.caps.now.scale }
    ensures { IsTrue result → AreNarrow task.now.caps.now }
{
    let caps = task.caps;
    are_narrow(caps.nums.items()) && are_needs_narrow(task.demands.items(), caps.scale)
}
