// Exposures: a recording's slices grouped into pictures (7.4.1.2.4), and for each picture what a stacker weighs it by.
#![tactic(auto)]

pub mod slice; // what is taken: a slice, or what else a unit is
pub mod compare; // where a new picture begins, and where frames are missing
pub mod exposure; // a picture's exposure, slice by slice
pub mod counts; // how many of each kind
mod words; // the state in words
pub mod take; // taking units one by one
