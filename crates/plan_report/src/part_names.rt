ghost use Rattle.std.specs.Prelude.{◌≡◌};
ghost use Rattle.plan_terms.specs.Terms.{link_name};
ghost use Rattle.plan_report.specs.Names.{demand_name, node_name, state_name};

use net_core::{Demand, Link, LinkId, Listed, Name, NodeId, StateId};

/// The name of a node; nothing where there is no such node. Each call of this crate takes constant time, and no memory.
pub fn node_name(nodes: &[Name], n: NodeId) -> &[u8]
    ensures { result.now ≡ node_name nodes.now n }
{
    match nodes.get(n.0 as usize) {
        Some(name) => name.bytes(),
        None => b"",
    }
}

/// The name of a link; nothing where there is no such link.
pub fn link_name(links: &[Link], e: LinkId) -> &[u8]
    ensures { result.now ≡ link_name links.now e }
{
    match links.get(e.0 as usize) {
        Some(link) => link.name.bytes(),
        None => b"",
    }
}

/// The name of a state, which is `none` where nothing fails; nothing where there is no such state.
pub fn state_name(listed: &[Listed], s: StateId) -> &[u8]
    ensures { result.now ≡ state_name listed.now s.0 }
{
    if s.0 == 0 {
        return b"none";
    }
    match listed.get(s.0 as usize - 1) {
        Some(state) => state.name.bytes(),
        None => b"",
    }
}

/// The name of the demand at a place; nothing where there is no such demand.
pub fn demand_name(demands: &[Demand], k: u32) -> &[u8]
    ensures { result.now ≡ demand_name demands.now k }
{
    match demands.get(k as usize) {
        Some(demand) => demand.name.bytes(),
        None => b"",
    }
}
