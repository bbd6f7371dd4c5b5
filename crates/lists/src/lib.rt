// The header's lists: codes with operands up to a closing code, read into words that the caller lends.
#![tactic(auto)]

pub mod operations; // what tells one list's syntax from another's
pub mod modification; // the codes of ref_pic_list_modification( )
pub mod marking; // the codes of dec_ref_pic_marking( )
pub mod list_words; // a list, and a prefix unit's body
