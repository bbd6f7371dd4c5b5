// Fields of the header, read: tested ones, and ones that are there only under a condition. A condition is an argument, so that a stage of the header has no branches.
#![tactic(auto)]

mod marks; // a field's mark
pub mod quant; // slice_qp_delta and slice_qs_delta, whose sums are tested
pub mod read; // any other field
pub mod conditions; // what a field's being there depends on
