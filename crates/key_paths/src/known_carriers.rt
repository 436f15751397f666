ghost use Rattle.std.specs.Prelude.{◌≡◌, All, IfOk, IsTrue, length, true};
ghost use Rattle.plan_terms.specs.Terms.{graph_of};
ghost use Rattle.key_paths.specs.inner.Gaining.{IsCarried, IsCarrier};

use crate::carrier::Carrier;
use net_core::{Copied, LinkId, List, NoMemory, Path, RouteColumn, RouteTask};
use short_paths::{are_links, is_path};
use std::alloc::Global;

/// Whether a path is one of a demand that has a need. `seen` is room for a mark of each node.
fn carries(task: &RouteTask, demand: u32, path: &[LinkId], seen: &mut [bool]) -> bool
    requires { length seen.old ≡ length task.now.graph.net.now.nodes }
    ensures { IsTrue result → IsCarried (graph_of task.now.graph) task.now.demands.now demand path.now }
{
    let Some(d) = task.demands.items().get(demand as usize) else {
        return false;
    };
    d.need > 0
        && are_links(path, task.graph.net.links().len())
        && is_path(&task.graph, path, d.from, d.to, seen)
}

/// Whether a path is one of a demand that has a need; the room is a list.
fn carries_by(task: &RouteTask, demand: u32, path: &Path, seen: &mut List<bool>) -> bool
    requires { length seen.old ≡ length task.now.graph.net.now.nodes }
    ensures size { length seen.new ≡ length task.now.graph.net.now.nodes }
    ensures carried { IsTrue result → IsCarried (graph_of task.now.graph) task.now.demands.now demand path.now }
{
    carries(task, demand, path.items(), seen.items_mut())
}

/// Adds a column to the carriers if it is a path of one of the demands.
fn offer_known(
    task: &RouteTask,
    column: &RouteColumn,
    seen: &mut List<bool>,
    waiting: &mut List<Carrier>,
) -> Result<(), NoMemory>
    requires size { length seen.old ≡ length task.now.graph.net.now.nodes }
    requires carriers { All (IsCarrier (graph_of task.now.graph) task.now.demands.now) waiting.old }
    ensures size { length seen.new ≡ length task.now.graph.net.now.nodes }
    ensures carriers { All (IsCarrier (graph_of task.now.graph) task.now.demands.now) waiting.new }
{
    if let RouteColumn::Carry(demand, path) = column {
        if carries_by(task, *demand, path, seen) {
            waiting.push(Carrier {
                demand: *demand,
                path: path.copy()?,
            })?;
        }
    }
    Ok(())
}

/// Those columns that are paths of the demands in their state, whatever the others are.
pub(crate) fn known_carriers(
    alloc: Global,
    task: &RouteTask,
    known: &[RouteColumn],
) -> Result<List<Carrier>, NoMemory>
    ensures { IfOk result (All (IsCarrier (graph_of task.now.graph) task.now.demands.now)) }
{
    let mut seen = List::filled(alloc, false, task.graph.net.nodes().len())?;
    let mut waiting = List::new(alloc);
    for column in known {
        offer_known(task, column, &mut seen, &mut waiting)?;
    }
    Ok(waiting)
}
