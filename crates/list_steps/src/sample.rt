// The rules' sample sets, both id 0.
ghost use Rattle.std.specs.Prelude.{◌≡◌};
ghost use Rattle.syntax.specs.Sample.{sample_sequence, sample_picture, sample_table};

use table::sets::{Picture, Sequence};
use table::table::{Table, empty, with_picture, with_sequence};

fn sequence() -> Sequence
    ensures { result ≡ sample_sequence }
{
    Sequence {
        chroma_format_idc: 1,
        separate_colour_plane_flag: false,
        bit_depth_luma_minus8: 0,
        log2_max_frame_num: 4,
        pic_order_cnt_type: 2,
        log2_max_pic_order_cnt_lsb_minus4: 0,
        delta_pic_order_always_zero_flag: false,
        frame_mbs_only_flag: true,
        pic_size_in_map_units: 99,
    }
}

fn picture() -> Picture
    ensures { result ≡ sample_picture }
{
    Picture {
        seq_parameter_set_id: 0,
        entropy_coding_mode_flag: false,
        bottom_field_pic_order_in_frame_present_flag: false,
        num_ref_idx_l0_default_active_minus1: 0,
        num_ref_idx_l1_default_active_minus1: 0,
        weighted_pred_flag: false,
        weighted_bipred_idc: 0,
        pic_init_qp_minus26: 0,
        pic_init_qs_minus26: 0,
        deblocking_filter_control_present_flag: false,
        redundant_pic_cnt_present_flag: false,
        slice_group_change_rate: 0,
    }
}

pub fn sample_table() -> Table
    ensures { result ≡ sample_table }
{
    let a = with_sequence(empty(), 0, sequence());
    let first = a.table;
    let b = with_picture(first, 0, picture());
    b.table
}
