ghost use Rattle.std.specs.Prelude.{◌≡◌, ◌≤◌, All, length};
ghost use Rattle.net_core.specs.Limits.{name_bytes};
ghost use Rattle.planner.specs.inner.Finishing.{plan_made};

use crate::own_bound::CertifiedBound;
use crate::ranges::are_named;
use net_core::Demands;
use plan_types::Plan;
use share_covers::Chosen;

/// The place of a plan in the history: the version of the demands, and the number of entries before it.
#[derive(Clone, Copy)]
pub struct Standing {
    pub version: u64,
    pub position: u64,
}

/// The plan with the counts that were chosen and a certified bound.
pub fn make_plan(at: Standing, demands: Demands, chosen: Chosen, bound: CertifiedBound) -> Plan
    ensures plan { result ≡ plan_made at demands chosen bound }
    ensures named { All (λ d. length d.name ≤ name_bytes) demands }
{
    are_named(demands.items());
    Plan {
        version: at.version,
        position: at.position,
        demands,
        counts: chosen.counts,
        cost: chosen.cost,
        routings: chosen.routings,
        certificate: bound.certificate,
        raw_num: bound.raw.num,
        raw_den: bound.raw.den,
        bound: bound.bound,
        quality: chosen.quality,
    }
}
