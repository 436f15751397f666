ghost use Rattle.std.specs.Prelude.{◌≡◌, ℕ, ◌<◌, OnOk, length, slice_index};
ghost use Rattle.plan_terms.specs.Terms.{Joins, graph_of};
ghost use Rattle.greedy_router.{specs.Blocked.IsBlocked, specs.inner.Drafts.Adds};

use crate::draft::Draft;
use crate::open_paths::open_path;
use crate::sent_flows::send;
use net_core::{Demand, NoMemory};
use short_paths::PathFinder;
use std::alloc::Global;

/// Routes one demand along paths of links that aren't full, until nothing is missing or no such path is left. Each flow ends its demand or
/// fills a link, so that there are at most as many flows as links and demands together.
pub fn route_demand(
    alloc: Global,
    finder: &mut PathFinder,
    d: &Demand,
    k: u32,
    draft: &mut Draft,
) -> Result<(), NoMemory>
    requires from { d.now.from.0 < length finder.old.graph.net.now.nodes }
    requires to { d.now.to.0 < length finder.old.graph.net.now.nodes }
    requires spares { length draft.old.spares ≡ length finder.old.graph.net.now.links }
    requires k { k < length draft.old.rest }
    ensures graph { finder.new.graph ≡ finder.old.graph }
    ensures adds { let g = graph_of finder.old.graph in OnOk result (Adds (Joins g) k d.now draft.old draft.new) }
    ensures blocked { let g = graph_of finder.old.graph in
        OnOk result (0 < slice_index draft.new.rest k
        → IsBlocked (Joins g) (λ e. 0 < slice_index draft.new.spares e) d.now.from.0 d.now.to.0) }
{
    while draft.rest.items()[k as usize] > 0 {
        match open_path(alloc, finder, draft.spares.items(), d.from, d.to)? {
            Some(path) => send(draft, k, path)?,
            None => return Ok(()),
        }
    }
    Ok(())
}
