// The slice header's record, in parts by value, and its syntax: specs/ describes it once, for reading, writing and sizes. The crates above hold the code.
#![tactic(auto)]

pub mod marks; // a field that may be absent
pub mod record; // SliceHeader and its parts
pub mod context; // what the syntax depends on, outside the body
