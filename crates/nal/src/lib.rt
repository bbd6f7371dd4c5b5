// What a NAL unit starts with (H.264, 7.3.1): its first byte and its three extension bytes.
#![tactic(auto)]

pub mod unit_type; // table 7-1
pub mod header; // the first byte
pub mod extension; // the extension of types 14, 20 and 21
