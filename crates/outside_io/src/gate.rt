use crate::figures::{RoundFigures, TreeFigures};

/// Where callers and workers announce what they are about to do, so that a test may hold them there and a program may show how far a
/// planning is. No answer depends on it. Threads that share a gate ask that it is `Sync` too.
pub trait Gate {
    /// The caller is about to enter the desk for an edit.
    fn editing(&self, caller: u32);

    /// The caller has left the desk after an edit.
    fn edited(&self, caller: u32);

    /// Work on a state of a round of the caller is about to begin.
    fn before(&self, caller: u32, state: u32);

    /// The state is solved, and no cut of it has been put into the pool yet.
    fn after(&self, caller: u32, state: u32);

    /// A round of the caller's planning has ended.
    fn rounded(&self, caller: u32, figures: RoundFigures);

    /// The search for a branch tree has split another box.
    fn split(&self, figures: TreeFigures);
}

/// Nobody is held.
#[derive(Clone, Copy, Debug)]
pub struct OpenGate;

impl Gate for OpenGate {
    fn editing(&self, _caller: u32) {}

    fn edited(&self, _caller: u32) {}

    fn before(&self, _caller: u32, _state: u32) {}

    fn after(&self, _caller: u32, _state: u32) {}

    fn rounded(&self, _caller: u32, _figures: RoundFigures) {}

    fn split(&self, _figures: TreeFigures) {}
}
