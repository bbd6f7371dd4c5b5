// Recordings: finding their units by start codes, and reading each.
#![tactic(auto)]

pub mod search; // where the next unit is
pub mod turn; // a unit read by the parameter table, into which a set goes
pub mod walk; // the next unit, in its turn
pub mod headers; // the same of headers alone
