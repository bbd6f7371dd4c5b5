// The header's parts without lists, a stage of at most six reads for each: a paragraph of the syntax table.
// A stage takes each answer apart by `let .. else`, the form that the rules name for the header's stages, and not by `?`.
#![tactic(auto)]

pub mod frame; // colour_plane_id to idr_pic_id
pub mod order; // pic_order_cnt_lsb to redundant_pic_cnt
pub mod counts; // direct_spatial_mv_pred_flag to num_ref_idx_l1_active_minus1
pub mod quantiser; // cabac_init_idc to slice_qs_delta
pub mod filter; // disable_deblocking_filter_idc to slice_group_change_cycle
