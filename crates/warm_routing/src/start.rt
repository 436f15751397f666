use flow_mending::bounded;
use flow_mending::reach::Reach;
use net_core::{Demand, LinkId, List, NoMemory, NodeId, Path, RouteTask};
use std::alloc::Global;
use warm_basis::{Basis, no_places};

/// What the links hold and the demands need.
#[derive(Drop)]
pub(crate) struct Amounts {
    pub bounds: List<i128>,
    pub needs: List<i128>,
    /// Room for the places of the demands' shares.
    pub places: List<usize>,
}

/// The capacity of each link, 0 where the state fails it.
fn bounds_of(alloc: Global, task: &RouteTask) -> Result<List<i128>, NoMemory> {
    let nums = task.caps.nums.items();
    let mut bounds = List::from_vec(Vec::with_capacity(alloc, nums.len())?);
    for e in 0..nums.len() {
        let survives = task.graph.has(LinkId(e as u32));
        bounds.push(if survives { bounded(nums[e]) } else { 0 })?;
    }
    Ok(bounds)
}

/// What each demand needs over the scale.
fn needs_of(alloc: Global, task: &RouteTask) -> Result<List<i128>, NoMemory> {
    let demands = task.demands.items();
    let mut needs = List::from_vec(Vec::with_capacity(alloc, demands.len())?);
    for d in demands {
        needs.push(bounded(d.need as u128 * task.caps.scale as u128))?;
    }
    Ok(needs)
}

/// What the links hold and the demands need in a task.
pub(crate) fn amounts_of(alloc: Global, task: &RouteTask) -> Result<Amounts, NoMemory> {
    let needs = needs_of(alloc, task)?;
    Ok(Amounts {
        bounds: bounds_of(alloc, task)?,
        places: no_places(alloc, needs.items())?,
        needs,
    })
}

/// Empty paths.
fn no_paths(alloc: Global, count: usize) -> Result<List<Path>, NoMemory> {
    let mut paths = List::from_vec(Vec::with_capacity(alloc, count)?);
    for _ in 0..count {
        paths.push(List::new(alloc))?;
    }
    Ok(paths)
}

/// Sets the keys of the demands that end at a node, by one search.
fn set_keys_to(
    alloc: Global,
    demands: &[Demand],
    node: NodeId,
    reach: &mut Reach,
    keys: &mut [Path],
) -> Result<(), NoMemory> {
    let mut searched = false;
    for k in 0..demands.len() {
        if demands[k].to.0 == node.0 && k < keys.len() {
            if !searched {
                reach.search(node, None);
                searched = true;
            }
            if let Some(path) = reach.path(alloc, demands[k].from)? {
                keys[k] = path;
            }
        }
    }
    Ok(())
}

/// A path of fewest links for each demand; none for one whose ends are apart.
fn first_keys(alloc: Global, task: &RouteTask, reach: &mut Reach) -> Result<List<Path>, NoMemory> {
    let demands = task.demands.items();
    let mut keys = no_paths(alloc, demands.len())?;
    for k in 0..task.graph.net.nodes().len() {
        set_keys_to(alloc, demands, NodeId(k as u32), reach, keys.items_mut())?;
    }
    Ok(keys)
}

/// Keys of fewest links, found by searches of the task's graph, and the slacks of the links.
pub(crate) fn first_basis(
    alloc: Global,
    task: &RouteTask,
    reach: &mut Reach,
) -> Result<Basis, NoMemory> {
    let keys = first_keys(alloc, task, reach)?;
    Basis::of_slacks(alloc, keys, task.graph.net.links().len())
}
