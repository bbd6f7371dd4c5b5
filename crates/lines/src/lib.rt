// The lines of a listing (docs/RULES.md, 'A listing, whole') as text: each is written to the front of a lent buffer of 128 bytes, which holds the longest.
#![tactic(auto)]

pub mod level; // QP and QS
pub mod line; // the lines
pub mod kinds; // the lines of a listing of kinds
mod text; // words and numbers
