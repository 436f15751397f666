ghost use Rattle.std.specs.Prelude.{◌+◌, ◌<◌, ◌↔◌, IsTrue, length};
ghost use Rattle.plan_terms.specs.Terms.{Survives, graph};

use net_core::{LinkId, Network, StateId, States, Surviving};

/// Whether a link survives in a state: the state doesn't fail it, and it has a module.
/// It takes time in the number of links that the state fails.
///
/// ```text
/// // the triangle of AB, BC and AC, where each link fails alone
/// survives(&net, &states, StateId(0), LinkId(2));    // true
/// survives(&net, &states, StateId(3), LinkId(2));    // false: state 3 fails AC
/// ```
pub fn survives(net: &Network, states: &States, state: StateId, link: LinkId) -> bool
    requires state { state.0 < length states.now.listed + 1 }
    requires link { link.0 < length net.now.links }
    ensures { IsTrue result ↔ Survives (graph net.now states.now state.0) link.0 }
{
    Surviving { net, states, state }.has(link)
}
