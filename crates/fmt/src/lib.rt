// Formats: one description of a syntax structure that is read, written, tested and measured. This crate has no code: its definitions stand in specs/, and
// what holds of every format in proofs/.

#![tactic(auto)]
