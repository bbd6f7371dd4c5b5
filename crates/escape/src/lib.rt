// A NAL unit's body (H.264, 7.3.1): what follows the first byte and the extension, without emulation prevention bytes.
#![tactic(auto)]

pub mod escape; // the body
