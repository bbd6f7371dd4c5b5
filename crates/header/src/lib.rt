// The slice header: in stages, each a part of it, and whole, into words that the caller lends; the answer is where it ends.
// Each answer is taken apart by `let .. else`, the form that the rules name for the header's stages, and not by `?`.
#![tactic(auto)]

pub mod kinds; // what the first byte and the extension say
pub mod lead; // first_mb_in_slice to pic_parameter_set_id, and the sets
pub mod follows; // whether a set bit follows
pub mod stages; // the parts after it, in stages
pub mod slice; // the whole
pub mod escaped; // the whole, from a unit that is still escaped
mod words; // its fields as words
