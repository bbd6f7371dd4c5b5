// A listing (docs/RULES.md, 'A listing, whole'), a line at a time: whoever calls `list_step` again and again, from `start()` on, and writes out each line has written the listing.
#![tactic(auto)]

pub mod sample; // the sets it goes by
pub mod step; // one line, and where the listing goes on
