ghost use Rattle.std.specs.Prelude.{◌≡◌, ◌<◌, ◌↔◌, IsTrue, List, [], length};
ghost use Rattle.net_core.{specs.Graphs.Survives, specs.Views.graph_of};

use crate::graph::Surviving;
use crate::ids::LinkId;
use crate::network::Link;

fn has_module(link: &Link) -> bool
    ensures { IsTrue result ↔ (link.now.modules ≡ [] → ⊥) }
{
    link.modules.len() > 0
}

impl<'a> Surviving<'a> {
    /// Whether the link survives. It takes time in the links that the state fails, and no memory.
    pub fn has(&self, link: LinkId) -> bool
        requires { link.0 < length self.now.net.now.links }
        ensures { IsTrue result ↔ Survives (graph_of self.now) link.0 }
    {
        has_module(&self.net.links().items()[link.0 as usize])
            && !self.states.fails(self.state, link)
    }
}
