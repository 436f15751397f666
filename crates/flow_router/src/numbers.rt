ghost use Rattle.std.specs.Prelude.{◌<◌, ℕ, MatchOption};
ghost use Rattle.checked_fraction.specs.Terms.{IsNarrow};
ghost use Rattle.plan_terms.specs.Terms.{graph_of};
ghost use Rattle.simplex_law.specs.Terms.{IsWide};
ghost use Rattle.route_law.specs.Terms.{route_rows, route_bound};

use key_paths::{bound_of, rows_of};
use net_core::RouteTask;

/// Bounds of a program that is solved are below this.
const WIDE: u128 = 1 << 62;

/// The first row whose bound is 2^62 or more.
pub(crate) fn wide_row(task: &RouteTask) -> Option<u32>
    ensures { let g = graph_of task.now.graph in MatchOption result
        ((k : ℕ) → k < route_rows g task.now.demands.now → IsNarrow (route_bound g task.now.demands.now task.now.caps.now k))
        (λ k. (k < route_rows g task.now.demands.now) × IsWide (route_bound g task.now.demands.now task.now.caps.now k)) }
{
    for row in 0..rows_of(task) {
        if bound_of(task, row) >= WIDE {
            return Some(row);
        }
    }
    None
}
