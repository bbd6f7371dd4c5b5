// The slice header (7.3.3) in parts, each a paragraph of its syntax table, under the standard's names. What is absent is zero, with its mark clear.
use crate::marks::Marked;

// Where and how the picture is.
#[repr(C)]
#[derive(Clone, Copy)]
pub struct Frame {
    pub colour_plane_id: Marked<u32>,
    pub frame_num: u32,
    pub field_pic_flag: Marked<bool>,
    pub bottom_field_flag: Marked<bool>,
    pub idr_pic_id: Marked<u32>,
}

// delta_pic_order_cnt[0] and [1]: there where the order count type is 1, both zero where the sequence set says so. A mark and no Option, as in `Marked`.
#[repr(C)]
#[derive(Clone, Copy)]
pub struct Deltas {
    pub there: bool,
    pub first: i32,
    pub second: i32,
}

#[repr(C)]
#[derive(Clone, Copy)]
pub struct OrderCount {
    pub pic_order_cnt_lsb: Marked<u32>,
    pub delta_pic_order_cnt_bottom: Marked<i32>,
    pub delta_pic_order_cnt: Deltas,
    pub redundant_pic_cnt: Marked<u32>,
}

#[repr(C)]
#[derive(Clone, Copy)]
pub struct ActiveCounts {
    pub direct_spatial_mv_pred_flag: Marked<bool>,
    pub num_ref_idx_active_override_flag: Marked<bool>,
    pub num_ref_idx_l0_active_minus1: Marked<u32>,
    pub num_ref_idx_l1_active_minus1: Marked<u32>,
}

// Codes with up to two operands each, `count` of them, the closing code left out; unused entries are zero.
#[repr(C)]
#[derive(Clone, Copy)]
pub struct Operations {
    pub count: u32,
    pub codes: [u32; 66],
    pub first: [u32; 66],
    pub second: [u32; 66],
}

// ref_pic_list_modification( ): a flag for each list, kept, since a flagged list may be empty.
#[repr(C)]
#[derive(Clone, Copy)]
pub struct Modification {
    pub flag: Marked<bool>,
    pub operations: Operations,
}

#[repr(C)]
#[derive(Clone, Copy)]
pub struct Modifications {
    pub l0: Modification,
    pub l1: Modification,
}

// An entry of pred_weight_table( ).
#[repr(C)]
#[derive(Clone, Copy)]
pub struct Weight {
    pub luma_weight_flag: bool,
    pub luma_weight: i32,
    pub luma_offset: i32,
    pub chroma_weight_flag: bool,
    pub cb_weight: i32,
    pub cb_offset: i32,
    pub cr_weight: i32,
    pub cr_offset: i32,
}

// One entry for each active reference, `count` of them; unused entries are zero.
#[repr(C)]
#[derive(Clone, Copy)]
pub struct WeightList {
    pub count: u32,
    pub entries: [Weight; 32],
}

// A mark and no Option, as in `Marked`.
#[repr(C)]
#[derive(Clone, Copy)]
pub struct PredWeightTable {
    pub there: bool,
    pub luma_log2_weight_denom: u32,
    pub chroma_log2_weight_denom: Marked<u32>,
    pub l0: WeightList,
    pub l1: WeightList,
}

// dec_ref_pic_marking( )
#[repr(C)]
#[derive(Clone, Copy)]
pub struct DecRefPicMarking {
    pub no_output_of_prior_pics_flag: Marked<bool>,
    pub long_term_reference_flag: Marked<bool>,
    pub adaptive_ref_pic_marking_mode_flag: Marked<bool>,
    pub operations: Operations,
}

#[repr(C)]
#[derive(Clone, Copy)]
pub struct Quantiser {
    pub cabac_init_idc: Marked<u32>,
    pub slice_qp_delta: i32,
    pub sp_for_switch_flag: Marked<bool>,
    pub slice_qs_delta: Marked<i32>,
}

#[repr(C)]
#[derive(Clone, Copy)]
pub struct Filter {
    pub disable_deblocking_filter_idc: Marked<u32>,
    pub slice_alpha_c0_offset_div2: Marked<i32>,
    pub slice_beta_offset_div2: Marked<i32>,
    pub slice_group_change_cycle: Marked<u32>,
}

#[repr(C)]
#[derive(Clone, Copy)]
pub struct SliceHeader {
    pub first_mb_in_slice: u32,
    pub slice_type: u32,
    pub pic_parameter_set_id: u32,
    pub seq_parameter_set_id: u32,
    pub frame: Frame,
    pub order_count: OrderCount,
    pub active_counts: ActiveCounts,
    pub modifications: Modifications,
    pub pred_weight_table: PredWeightTable,
    pub dec_ref_pic_marking: DecRefPicMarking,
    pub quantiser: Quantiser,
    pub filter: Filter,
}

// prefix_nal_unit_svc( )
#[repr(C)]
#[derive(Clone, Copy)]
pub struct Prefix {
    pub store_ref_base_pic_flag: Marked<bool>,
    pub adaptive_ref_base_pic_marking_mode_flag: Marked<bool>,
    pub base_marking: Operations,
    pub additional_prefix_nal_unit_extension_flag: Marked<bool>,
}
