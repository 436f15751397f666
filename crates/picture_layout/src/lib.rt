//! Where the nodes and links of a network are drawn in a picture of 9,600 by 7,200 units: at the places that the file says, with the north up
//! and the east to the right, or on a circle.
#![tactic(auto)]

mod circle;
mod frame;
pub mod layout;
mod strokes;

pub use layout::{Layout, Spot, Stroke, layout_of};
