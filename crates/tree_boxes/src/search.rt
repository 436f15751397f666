use crate::known::Known;
use able_counts::AbleTest;

/// How many cuts of whole points and other lines are kept beside the handed-in cuts.
pub const MOST_FURTHER: usize = 4096;

/// The most cuts of node sets.
pub const MOST_SET_CUTS: usize = 1024;

/// What a search has learned: cuts and lines, and a test of counts.
#[derive(Drop)]
pub struct Search {
    pub known: Known,
    pub test: AbleTest,
    /// How many of the cuts were handed in. They are the first ones.
    pub handed: usize,
    /// How many cuts and lines are kept at most. Cuts of boxes with a single choice of counts may exceed it.
    pub room: usize,
}
