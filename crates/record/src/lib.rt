// The record that lent words hold, taken out of them.
#![tactic(auto)]

pub mod parts_of; // the parts without lists
pub mod entries; // lists
pub mod record; // the header and the prefix, whole
pub mod plain; // whether words say it in one way
