// Searching bytes for 00 00 and a third byte within bounds, near the speed of memory.
#![tactic(auto)]

mod blocks; // block by block, without branches inside a block
pub mod scan; // the search
