ghost use Rattle.std.specs.Prelude.{IsTrue};
ghost use Rattle.plan_terms.specs.Terms.{case, IsSurvivable};

use failure_states::first_separated;
use net_core::Problem;
use std::alloc::Global;
use worked_networks::{DemandRow, LinkRow, ONE, TEN, network, problem};

/// The greatest number that isn't too wide.
pub(crate) const NARROW: u128 = (1 << 62) - 1;

/// A triangle of the links AB, BC and AC, with modules of 10.00 for 5.00.
pub(crate) const TRIANGLE: [LinkRow; 3] = [(0, 1, 0, &TEN), (1, 2, 0, &TEN), (0, 2, 0, &TEN)];

/// Three parallel links with modules of 1.00 for 1.00.
pub(crate) const THREE_LINKS: [LinkRow; 3] = [(0, 1, 0, &ONE), (0, 1, 0, &ONE), (0, 1, 0, &ONE)];

/// The problem with this many nodes, these links and demands, and a state for the failure of each link alone.
pub(crate) fn with_single_failures(
    alloc: Global,
    nodes: usize,
    links: &[LinkRow],
    rows: &[DemandRow],
) -> Option<Problem> {
    problem(alloc, network(alloc, nodes, links).ok()?, rows).ok()
}

/// Whether no state separates a demand.
pub(crate) fn is_survivable(alloc: Global, p: &Problem) -> bool
    ensures { IsTrue result → IsSurvivable (case p.now.net p.now.states p.now.demands) }
{
    matches!(
        first_separated(alloc, &p.net, &p.states, &p.demands),
        Ok(None)
    )
}
