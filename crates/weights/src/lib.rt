// pred_weight_table( ): entries of luma and chroma weights, one for each active reference, read into words that the caller lends.
#![tactic(auto)]

pub mod weight; // an entry
pub mod list; // how many a list holds
pub mod weights; // how many are there
pub mod weight_words; // the table
