// Parameter sets, read from their own units: as far as the table's fields need, a stage of at most six reads for each paragraph of the syntax tables.
#![tactic(auto)]

mod codes; // codes of both
mod scaling; // scaling lists, passed over
pub mod sequence; // seq_parameter_set_data( )
pub mod groups; // the slice groups of a picture set
pub mod picture; // pic_parameter_set_rbsp( )
