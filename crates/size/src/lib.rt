// How large a header gets: each part's most bits, and their sum. That no header has more, and that each part can have as many, stands in proofs/.
#![tactic(auto)]

pub mod most; // the sum, of a header that words hold
