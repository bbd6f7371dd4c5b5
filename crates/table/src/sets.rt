// The parameter sets, as far as slice headers need them, and the rules' ranges ('Sizes').
ghost use Rattle.std.specs.Prelude.{◌&&◌, ◌≡◌};
ghost use Rattle.table.specs.Sets.{between, between_z, planes_fit, sequence_fits, picture_fits};

// What a sequence parameter set says (7.3.2.1.1).
#[repr(C)]
#[derive(Clone, Copy)]
pub struct Sequence {
    pub chroma_format_idc: u32,
    pub separate_colour_plane_flag: bool,
    pub bit_depth_luma_minus8: u32,
    pub log2_max_frame_num: u32,
    pub pic_order_cnt_type: u32,
    pub log2_max_pic_order_cnt_lsb_minus4: u32,
    pub delta_pic_order_always_zero_flag: bool,
    pub frame_mbs_only_flag: bool,
    pub pic_size_in_map_units: u32,
}

// What a picture parameter set says (7.3.2.2). A change rate of 0 is an absent one.
#[repr(C)]
#[derive(Clone, Copy)]
pub struct Picture {
    pub seq_parameter_set_id: u32,
    pub entropy_coding_mode_flag: bool,
    pub bottom_field_pic_order_in_frame_present_flag: bool,
    pub num_ref_idx_l0_default_active_minus1: u32,
    pub num_ref_idx_l1_default_active_minus1: u32,
    pub weighted_pred_flag: bool,
    pub weighted_bipred_idc: u32,
    pub pic_init_qp_minus26: i32,
    pub pic_init_qs_minus26: i32,
    pub deblocking_filter_control_present_flag: bool,
    pub redundant_pic_cnt_present_flag: bool,
    pub slice_group_change_rate: u32,
}

// Both hold. The tests of a set are one condition, so that a look-up has one branch for them.
pub fn both(a: bool, b: bool) -> bool
    ensures { result ≡ a && b }
{
    if a { b } else { false }
}

// Whether a number is from `low` to `high`.
pub(crate) fn within(low: u32, high: u32, n: u32) -> bool
    ensures { result ≡ between low high n }
{
    low <= n && n <= high
}

// The same of a signed number; those of 32 bits come cast.
pub fn within_signed(low: i64, high: i64, z: i64) -> bool
    ensures { result ≡ between_z low high z }
{
    low <= z && z <= high
}

// Separate planes only with chroma format 3.
fn planes_fit(separate: bool, chroma: u32) -> bool
    ensures { result ≡ planes_fit separate chroma }
{
    !separate || chroma == 3
}

// Whether every field is within the rules' sizes.
pub fn sequence_fits(s: Sequence) -> bool
    ensures { result ≡ sequence_fits s }
{
    both(
        within(0, 3, s.chroma_format_idc),
        both(
            planes_fit(s.separate_colour_plane_flag, s.chroma_format_idc),
            both(
                within(0, 6, s.bit_depth_luma_minus8),
                both(
                    within(4, 16, s.log2_max_frame_num),
                    both(
                        within(0, 2, s.pic_order_cnt_type),
                        both(
                            within(0, 12, s.log2_max_pic_order_cnt_lsb_minus4),
                            within(1, 16_777_216, s.pic_size_in_map_units),
                        ),
                    ),
                ),
            ),
        ),
    )
}

pub fn picture_fits(p: Picture) -> bool
    ensures { result ≡ picture_fits p }
{
    both(
        within(0, 31, p.seq_parameter_set_id),
        both(
            within(0, 31, p.num_ref_idx_l0_default_active_minus1),
            both(
                within(0, 31, p.num_ref_idx_l1_default_active_minus1),
                both(
                    within(0, 2, p.weighted_bipred_idc),
                    both(
                        within_signed(-62, 25, p.pic_init_qp_minus26 as i64),
                        both(
                            within_signed(-26, 25, p.pic_init_qs_minus26 as i64),
                            within(0, 16_777_216, p.slice_group_change_rate),
                        ),
                    ),
                ),
            ),
        ),
    )
}
