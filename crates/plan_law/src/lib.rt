//! What a planning by rounds of cuts is, as definitions: the list of cuts that it works on, and when its plan is tight or loose.
#![tactic(auto)]

pub mod law;
