use net_core::{Lengths, StateId};
use plan_types::Spot;

/// The cut of a certificate's line: where it is, its state and its lengths.
#[derive(Drop)]
pub struct SpotCut {
    pub spot: Spot,
    pub state: StateId,
    pub lengths: Lengths,
}
