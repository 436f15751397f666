ghost use Rattle.std.specs.Prelude.{◌≡◌, IfOk, map};
ghost use Rattle.plan_view.specs.FlowRows.{end_beyond, flow_row, nodes_along, rounded_over, start_of};

use net_core::{Copied, Demand, Flow, Link, LinkId, List, NoMemory, NodeId, Path, Routing};
use std::alloc::Global;

/// A flow for people to read.
#[derive(Drop)]
pub struct FlowRow {
    /// The place of the demand that it is part of.
    pub demand: u32,
    /// How much it carries, in units of the network, rounded up.
    pub amount: u128,
    /// The links of its path, from the demand's first end to the other.
    pub path: Path,
    /// The nodes of its path, with both ends.
    pub nodes: List<NodeId>,
}

/// The other end of a link; the node itself if there is no such link.
fn end_beyond(links: &[Link], node: NodeId, link: LinkId) -> NodeId
    ensures { result ≡ end_beyond links.now node link }
{
    match links.get(link.0 as usize) {
        Some(found) => {
            if found.a.0 == node.0 {
                found.b
            } else {
                found.a
            }
        }
        None => node,
    }
}

/// The nodes of a path, from this one on.
fn nodes_along(
    alloc: Global,
    links: &[Link],
    from: NodeId,
    path: &[LinkId],
) -> Result<List<NodeId>, NoMemory>
    ensures { IfOk result (λ nodes. nodes ≡ nodes_along links.now from path.now) }
{
    let mut nodes = List::new(alloc);
    nodes.push(from)?;
    let mut here = from;
    for e in path {
        here = end_beyond(links, here, *e);
        nodes.push(here)?;
    }
    Ok(nodes)
}

/// The first end of the demand at a place; the first node if there is no such demand.
fn start_of(demands: &[Demand], k: u32) -> NodeId
    ensures { result ≡ start_of demands.now k }
{
    match demands.get(k as usize) {
        Some(demand) => demand.from,
        None => NodeId(0),
    }
}

/// A number over another, rounded up; 0 over 0 is 0.
fn rounded_over(num: u128, den: u128) -> u128
    ensures { result ≡ rounded_over num den }
{
    if den == 0 {
        return 0;
    }
    num.div_ceil(den)
}

/// The row of a flow over a denominator.
fn flow_row(
    alloc: Global,
    links: &[Link],
    demands: &[Demand],
    den: u64,
    flow: &Flow,
) -> Result<FlowRow, NoMemory>
    ensures { IfOk result (λ row. row ≡ flow_row links.now demands.now den flow.now) }
{
    let start = start_of(demands, flow.demand);
    Ok(FlowRow {
        demand: flow.demand,
        amount: rounded_over(flow.num, den as u128),
        path: flow.path.copy()?,
        nodes: nodes_along(alloc, links, start, flow.path.items())?,
    })
}

/// A row for each flow of a routing, in their order. It takes time and memory in the links of their paths.
///
/// ```text
/// // the triangle in the state that fails AC: an amount of 12000 from A over B to C, along AB and BC
/// let rows = flow_rows(alloc, links, demands, &plan.routings.items()[3])?;
/// ```
pub fn flow_rows(
    alloc: Global,
    links: &[Link],
    demands: &[Demand],
    routing: &Routing,
) -> Result<List<FlowRow>, NoMemory>
    ensures { IfOk result (λ rows. rows ≡ map (flow_row links.now demands.now routing.now.den) routing.now.flows) }
{
    let mut rows = List::new(alloc);
    for flow in routing.flows.items() {
        rows.push(flow_row(alloc, links, demands, routing.den, flow)?)?;
    }
    Ok(rows)
}
