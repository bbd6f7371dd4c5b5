// What other languages call, over the static library: `rt lib` in crates/exports. Numbers, slices and `#[repr(C)]` structs alone cross this boundary.
#![tactic(auto)]

pub mod layout; // its number
pub mod ue_run; // a run of codes
pub mod sets; // the parameter table
pub mod starts; // what a unit starts with
pub mod heads; // its head
pub mod units; // its body
pub mod walks; // the walk over a recording
pub mod headers; // the same, with headers alone
pub mod lengths; // and over one framed by length
pub mod converts; // from lengths to start codes and back
pub mod listings; // the lines of a listing
pub mod quants; // QP and QS
pub mod takes; // taking units for exposures
pub mod writes; // writing a header
pub mod bounds; // how large a header gets
