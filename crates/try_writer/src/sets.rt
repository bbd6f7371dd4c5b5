// The sets that the records are written by: sequence sets 0 to 4; picture sets 0 to 3 by those, 255 by 4, and 9 by a sequence set that is not there.
use table::sets::{Picture, Sequence};
use table::table::{Table, empty, with_picture, with_sequence};

// The rules' sample.
fn sequence() -> Sequence {
    Sequence {
        chroma_format_idc: 1,
        separate_colour_plane_flag: false,
        bit_depth_luma_minus8: 0,
        log2_max_frame_num: 4,
        pic_order_cnt_type: 2,
        log2_max_pic_order_cnt_lsb_minus4: 0,
        delta_pic_order_always_zero_flag: false,
        frame_mbs_only_flag: true,
        pic_size_in_map_units: 99,
    }
}

// Widest fields, and fields or frames.
fn wide() -> Sequence {
    let mut s = sequence();
    s.bit_depth_luma_minus8 = 6;
    s.log2_max_frame_num = 16;
    s.pic_order_cnt_type = 0;
    s.log2_max_pic_order_cnt_lsb_minus4 = 12;
    s.frame_mbs_only_flag = false;
    s.pic_size_in_map_units = 16777216;
    s
}

// Separate colour planes, and order count type 1.
fn planes() -> Sequence {
    let mut s = sequence();
    s.chroma_format_idc = 3;
    s.separate_colour_plane_flag = true;
    s.pic_order_cnt_type = 1;
    s.frame_mbs_only_flag = false;
    s
}

// No chroma, and order count type 1 with nothing to read.
fn grey() -> Sequence {
    let mut s = sequence();
    s.chroma_format_idc = 0;
    s.pic_order_cnt_type = 1;
    s.delta_pic_order_always_zero_flag = true;
    s
}

// The sequence set of the longest header.
fn longest() -> Sequence {
    let mut s = wide();
    s.pic_order_cnt_type = 1;
    s
}

// The rules' sample, by a sequence set.
fn picture(id: u32) -> Picture {
    Picture {
        seq_parameter_set_id: id,
        entropy_coding_mode_flag: false,
        bottom_field_pic_order_in_frame_present_flag: false,
        num_ref_idx_l0_default_active_minus1: 0,
        num_ref_idx_l1_default_active_minus1: 0,
        weighted_pred_flag: false,
        weighted_bipred_idc: 0,
        pic_init_qp_minus26: 0,
        pic_init_qs_minus26: 0,
        deblocking_filter_control_present_flag: false,
        redundant_pic_cnt_present_flag: false,
        slice_group_change_rate: 0,
    }
}

// Every field that a picture set can ask for.
fn full(id: u32) -> Picture {
    Picture {
        seq_parameter_set_id: id,
        entropy_coding_mode_flag: true,
        bottom_field_pic_order_in_frame_present_flag: true,
        num_ref_idx_l0_default_active_minus1: 1,
        num_ref_idx_l1_default_active_minus1: 31,
        weighted_pred_flag: true,
        weighted_bipred_idc: 1,
        pic_init_qp_minus26: -62,
        pic_init_qs_minus26: -26,
        deblocking_filter_control_present_flag: true,
        redundant_pic_cnt_present_flag: true,
        slice_group_change_rate: 1,
    }
}

// Deblocking control, and both deltas of a frame.
fn controlled(id: u32) -> Picture {
    let mut p = picture(id);
    p.bottom_field_pic_order_in_frame_present_flag = true;
    p.deblocking_filter_control_present_flag = true;
    p
}

fn weighted(id: u32) -> Picture {
    let mut p = picture(id);
    p.weighted_pred_flag = true;
    p
}

fn put_sequence(t: Table, id: u32, s: Sequence) -> Table {
    let w = with_sequence(t, id, s);
    w.table
}

fn put_picture(t: Table, id: u32, p: Picture) -> Table {
    let w = with_picture(t, id, p);
    w.table
}

fn sequences() -> Table {
    let a = put_sequence(empty(), 0, sequence());
    let b = put_sequence(a, 1, wide());
    let c = put_sequence(b, 2, planes());
    let d = put_sequence(c, 3, grey());
    put_sequence(d, 4, longest())
}

pub(crate) fn all() -> Table {
    let a = put_picture(sequences(), 0, picture(0));
    let b = put_picture(a, 1, full(1));
    let c = put_picture(b, 2, controlled(2));
    let d = put_picture(c, 3, weighted(3));
    let e = put_picture(d, 9, picture(31));
    put_picture(e, 255, full(4))
}
