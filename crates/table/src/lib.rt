// The parameter table: sequence sets 0 to 31 and picture sets 0 to 255, lent and changed in place.
//
// A table is two flat arrays of words, so that a shell over `&Table` or `&mut Table` lends a field to a function on the array and copies nothing. Nothing outside
// this crate sees a word: sets go in and come out as `Sequence` and `Picture`.
#![tactic(auto)]

pub mod sets; // Sequence and Picture, and their ranges
pub mod words; // the words of an entry: looking up and putting, on the arrays
pub mod table; // Table, lent: put_sequence, put_picture, sequence_at, picture_at
