// A body's bits: reading and writing fixed-width fields and the codes ue(v) and se(v) of H.264, 9.1, at a bit place. Everything else stands on this crate.
#![tactic(auto)]

pub mod refusals; // the rules' numbers, and the two places where a refusal is made
pub mod read; // reads at a cursor
pub mod put; // writes at a cursor
pub mod width; // how wide slice_group_change_cycle is
pub mod window; // the bytes whose bits have a place, and 64 bits of a slice at once
mod fill; // bits into a slice, a byte at a time
pub mod copy; // bytes into a slice
