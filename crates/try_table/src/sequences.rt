// A sequence set's fields at their limits.
use super::show;
use std::io;
use table::sets::Sequence;

// The rules' sample set.
pub(crate) fn sample() -> Sequence {
    Sequence {
        chroma_format_idc: 1,
        separate_colour_plane_flag: false,
        bit_depth_luma_minus8: 0,
        log2_max_frame_num: 4,
        pic_order_cnt_type: 2,
        log2_max_pic_order_cnt_lsb_minus4: 0,
        delta_pic_order_always_zero_flag: false,
        frame_mbs_only_flag: true,
        pic_size_in_map_units: 99,
    }
}

// Each field's number below, and the values that it is given: both ends of its range, and one beyond. The last is the chroma format of separate planes.
const FIELDS: [u8; 23] = [
    0, 0, 0, 1, 1, 1, 2, 2, 2, 2, 3, 3, 3, 4, 4, 4, 5, 5, 5, 5, 6, 6, 6,
];

const VALUES: [u32; 23] = [
    0, 3, 4, 0, 6, 7, 3, 4, 16, 17, 0, 2, 3, 0, 12, 13, 0, 1, 16777216, 16777217, 2, 3, 4,
];

// The sample set with one field changed.
fn changed(field: u8, v: u32) -> Sequence {
    let mut s = sample();
    match field {
        0 => s.chroma_format_idc = v,
        1 => s.bit_depth_luma_minus8 = v,
        2 => s.log2_max_frame_num = v,
        3 => s.pic_order_cnt_type = v,
        4 => s.log2_max_pic_order_cnt_lsb_minus4 = v,
        5 => s.pic_size_in_map_units = v,
        _ => {
            s.chroma_format_idc = v;
            s.separate_colour_plane_flag = true;
        }
    }
    s
}

fn name(rt: &impl Print, field: u8) -> io::Result<()> {
    match field {
        0 => show::text(rt, b"chroma format "),
        1 => show::text(rt, b"luma depth minus 8 "),
        2 => show::text(rt, b"log2 max frame_num "),
        3 => show::text(rt, b"order count type "),
        4 => show::text(rt, b"log2 lsb minus 4 "),
        5 => show::text(rt, b"map units "),
        _ => show::text(rt, b"separate planes with chroma format "),
    }
}

pub(crate) fn all(rt: &impl Print) -> io::Result<()> {
    for i in 0..23 {
        let field = FIELDS[i];
        let v = VALUES[i];
        name(rt, field)?;
        show::number(rt, v)?;
        show::put_sequence_at_5(rt, changed(field, v))?;
    }
    Ok(())
}
