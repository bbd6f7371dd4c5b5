// The header written: its parts in order into a buffer, by the same formats that read it.
#![tactic(auto)]

pub mod given; // the extension given, and what it and the first byte say of the unit
mod sets; // the sets that the record's picture set id names
mod marks; // every single field, as it is, tested, or there only under a condition
mod frame; // colour_plane_id to idr_pic_id
mod order; // pic_order_cnt_lsb to redundant_pic_cnt
mod counts; // direct_spatial_mv_pred_flag to num_ref_idx_l1_active_minus1
mod operations; // the lists: codes with operands, and the closing code
mod modification; // ref_pic_list_modification( )
mod weight_table; // pred_weight_table( )
mod marking; // dec_ref_pic_marking( )
mod quantiser; // cabac_init_idc to slice_qs_delta
mod filter; // disable_deblocking_filter_idc to slice_group_change_cycle
mod plain; // whether words hold a record
mod whole; // all parts in order
pub mod write; // the header written into a lent buffer
