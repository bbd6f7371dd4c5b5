// A picture set's fields at their limits.
use super::show;
use std::io;
use table::sets::Picture;

// The rules' sample set.
pub(crate) fn sample() -> Picture {
    Picture {
        seq_parameter_set_id: 0,
        entropy_coding_mode_flag: false,
        bottom_field_pic_order_in_frame_present_flag: false,
        num_ref_idx_l0_default_active_minus1: 0,
        num_ref_idx_l1_default_active_minus1: 0,
        weighted_pred_flag: false,
        weighted_bipred_idc: 0,
        pic_init_qp_minus26: 0,
        pic_init_qs_minus26: 0,
        deblocking_filter_control_present_flag: false,
        redundant_pic_cnt_present_flag: false,
        slice_group_change_rate: 0,
    }
}

// Each unsigned field's number below, and the values that it is given: both ends of its range, and one beyond.
const FIELDS: [u8; 16] = [0, 0, 0, 1, 1, 1, 2, 2, 2, 3, 3, 3, 4, 4, 4, 4];

const VALUES: [u32; 16] = [
    0, 31, 32, 0, 31, 32, 0, 31, 32, 0, 2, 3, 0, 1, 16777216, 16777217,
];

// The same of the signed ones.
const SIGNED_FIELDS: [u8; 10] = [0, 0, 0, 0, 0, 0, 1, 1, 1, 1];

const SIGNED_VALUES: [i32; 10] = [-2147483648, -63, -62, 25, 26, 2147483647, -27, -26, 25, 26];

// The sample set with one field changed.
fn changed(field: u8, v: u32) -> Picture {
    let mut p = sample();
    match field {
        0 => p.seq_parameter_set_id = v,
        1 => p.num_ref_idx_l0_default_active_minus1 = v,
        2 => p.num_ref_idx_l1_default_active_minus1 = v,
        3 => p.weighted_bipred_idc = v,
        _ => p.slice_group_change_rate = v,
    }
    p
}

fn changed_signed(field: u8, v: i32) -> Picture {
    let mut p = sample();
    match field {
        0 => p.pic_init_qp_minus26 = v,
        _ => p.pic_init_qs_minus26 = v,
    }
    p
}

fn name(rt: &impl Print, field: u8) -> io::Result<()> {
    match field {
        0 => show::text(rt, b"sequence id "),
        1 => show::text(rt, b"default active l0 minus1 "),
        2 => show::text(rt, b"default active l1 minus1 "),
        3 => show::text(rt, b"bipred idc "),
        _ => show::text(rt, b"change rate "),
    }
}

// Each signed case by its name and value.
fn signed_name(rt: &impl Print, i: usize) -> io::Result<()> {
    match i {
        0 => show::text(rt, b"init QP minus 26 -2147483648"),
        1 => show::text(rt, b"init QP minus 26 -63"),
        2 => show::text(rt, b"init QP minus 26 -62"),
        3 => show::text(rt, b"init QP minus 26 25"),
        4 => show::text(rt, b"init QP minus 26 26"),
        5 => show::text(rt, b"init QP minus 26 2147483647"),
        6 => show::text(rt, b"init QS minus 26 -27"),
        7 => show::text(rt, b"init QS minus 26 -26"),
        8 => show::text(rt, b"init QS minus 26 25"),
        _ => show::text(rt, b"init QS minus 26 26"),
    }
}

fn unsigned_fields(rt: &impl Print) -> io::Result<()> {
    for i in 0..16 {
        let field = FIELDS[i];
        let v = VALUES[i];
        name(rt, field)?;
        show::number(rt, v)?;
        show::put_picture_at_5(rt, changed(field, v))?;
    }
    Ok(())
}

fn signed_fields(rt: &impl Print) -> io::Result<()> {
    for i in 0..10 {
        let field = SIGNED_FIELDS[i];
        let v = SIGNED_VALUES[i];
        signed_name(rt, i)?;
        show::put_picture_at_5(rt, changed_signed(field, v))?;
    }
    Ok(())
}

pub(crate) fn all(rt: &impl Print) -> io::Result<()> {
    unsigned_fields(rt)?;
    signed_fields(rt)
}
