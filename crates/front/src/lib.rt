// A unit's header read from the unit itself: no more of the body is unescaped than the header needs, and nothing of it is kept.
#![tactic(auto)]

mod body; // a prefix unit's body
mod sets; // a parameter set's
pub mod into; // a unit, into lent words
