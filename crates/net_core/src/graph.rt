ghost use Rattle.std.specs.Prelude.{◌<◌, ◌+◌, length};

use crate::ids::StateId;
use crate::network::Network;
use crate::states::States;

/// A network in one of its states: SNDlib's surviving graph, whose links are those that the state doesn't fail and that have a module.
#[derive(Clone, Copy)]
pub struct Surviving<'a> {
    pub net: &'a Network,
    pub states: &'a States,
    pub state: StateId,
    pub ghost in_range: { state.0 < length states.now.listed + 1 },
}
