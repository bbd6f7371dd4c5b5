// A whole unit: what its first bytes say, then its body in scratch, then the header or the prefix that the body holds.
#![tactic(auto)]

pub mod begin; // what the first bytes say of the body
pub mod head; // what they say without it
pub mod into; // the body, into lent words
pub mod answer; // what reading a unit answers, with its records
pub mod unit; // the body, by value
