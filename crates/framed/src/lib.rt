// Recordings framed by length: finding their units and reading each, and from lengths to start codes and back.
#![tactic(auto)]

pub mod step; // the next unit
pub mod by_length; // the next unit, read by the parameter table
pub mod headers; // the same for headers alone
pub mod carry; // which units can be carried over
mod put; // a unit into lent output
pub mod convert; // the two converters
