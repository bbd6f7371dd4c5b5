// From what reading a unit answered to what a stacker takes of it (crate exposures).
#![tactic(auto)]

pub mod item; // a unit's item
