// Parts of a unit's body that are long enough to read a header from: nearly every one, or every one, with a byte that stands for what lies behind.
#![tactic(auto)]

mod rest; // what lies behind the part that is unescaped
pub mod part; // the part that is
pub mod tail; // a part further back
