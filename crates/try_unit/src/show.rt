// A unit read with the sample sets, and a picture set 1 with deblocking control: its answer as text.
use bits::refusals::Refusal;
use std::io;
use syntax::marks::Marked;
use syntax::record::{Prefix, SliceHeader};
use table::sets::{Picture, Sequence};
use table::table::{Sets, Table, empty, with_picture, with_sequence};
use unit::answer::UnitAnswer;
use unit::head::{UnitHead, head};
use unit::unit::read_body_in;

fn text(rt: &impl Print, t: &[u8]) -> io::Result<()> {
    rt.write_all(t)
}

fn field(rt: &impl Print, name: &[u8], n: u32) -> io::Result<()> {
    text(rt, name)?;
    rt.print(n)
}

// The rules' sample picture set, with deblocking control or without.
fn picture(control: bool) -> Picture {
    Picture {
        seq_parameter_set_id: 0,
        entropy_coding_mode_flag: false,
        bottom_field_pic_order_in_frame_present_flag: false,
        num_ref_idx_l0_default_active_minus1: 0,
        num_ref_idx_l1_default_active_minus1: 0,
        weighted_pred_flag: false,
        weighted_bipred_idc: 0,
        pic_init_qp_minus26: 0,
        pic_init_qs_minus26: 0,
        deblocking_filter_control_present_flag: control,
        redundant_pic_cnt_present_flag: false,
        slice_group_change_rate: 0,
    }
}

fn sequence() -> Sequence {
    Sequence {
        chroma_format_idc: 1,
        separate_colour_plane_flag: false,
        bit_depth_luma_minus8: 0,
        log2_max_frame_num: 4,
        pic_order_cnt_type: 2,
        log2_max_pic_order_cnt_lsb_minus4: 0,
        delta_pic_order_always_zero_flag: false,
        frame_mbs_only_flag: true,
        pic_size_in_map_units: 99,
    }
}

fn sample_table() -> Table {
    let a = with_sequence(empty(), 0, sequence());
    let first = a.table;
    let b = with_picture(first, 0, picture(false));
    let second = b.table;
    let c = with_picture(second, 1, picture(true));
    c.table
}

// The head is that of `bytes`.
pub(crate) fn shown(
    rt: &impl Print,
    name: &[u8],
    bytes: &[u8],
    value: i64,
    said: &[u8],
) -> io::Result<()> {
    shown_for(rt, name, bytes, bytes, value, said)
}

// The body of `bytes`, read for the head of `other`.
pub(crate) fn shown_for(
    rt: &impl Print,
    name: &[u8],
    other: &[u8],
    bytes: &[u8],
    value: i64,
    said: &[u8],
) -> io::Result<()> {
    text(rt, name)?;
    match head(other) {
        Ok(h) => body(rt, h, bytes, value, said)?,
        Err(x) => refused(rt, x, value, said)?,
    }
    text(rt, b"\n")
}

fn body(rt: &impl Print, head: UnitHead, bytes: &[u8], value: i64, said: &[u8]) -> io::Result<()> {
    let t = sample_table();
    let mut scratch = [0u8; 128];
    let sets = Sets {
        sequences: &t.sequences,
        pictures: &t.pictures,
    };
    let r = read_body_in(head, sets, bytes, &mut scratch);
    let answer = r.answer;
    let h = r.header;
    let p = r.prefix;
    match answer {
        UnitAnswer::Slice(n) => {
            text(rt, b": slice bits=")?;
            rt.print(n)?;
            header(rt, h)
        }
        UnitAnswer::Prefix => prefix(rt, p),
        UnitAnswer::Sequence(s) => field(rt, b": sps id=", s.seq_parameter_set_id),
        UnitAnswer::Picture(s) => field(rt, b": pps id=", s.pic_parameter_set_id),
        UnitAnswer::Other(_) => text(rt, b": other"),
        UnitAnswer::Refused(x) => refused(rt, x, value, said),
    }
}

fn refused(rt: &impl Print, x: Refusal, value: i64, said: &[u8]) -> io::Result<()> {
    field(rt, b": refused ", x.number as u32)?;
    text(rt, b" value=")?;
    if x.value == value {
        text(rt, said)?;
    } else {
        text(rt, b"other")?;
    }
    place(rt, x)
}

// The place of a refusal, if it has one.
fn place(rt: &impl Print, x: Refusal) -> io::Result<()> {
    if x.has_bit {
        text(rt, b" bit=")?;
        rt.print(x.bit)?;
    }
    Ok(())
}

fn header(rt: &impl Print, h: SliceHeader) -> io::Result<()> {
    let a = h.active_counts;
    let m = h.modifications;
    let l = m.l0;
    let o = l.operations;
    let f = h.filter;
    let n = a.num_ref_idx_l0_active_minus1;
    let idc = f.disable_deblocking_filter_idc;
    field(rt, b" slice_type=", h.slice_type)?;
    field(rt, b" active=", n.value)?;
    field(rt, b" mods=", o.count)?;
    field(rt, b" idc=", idc.value)
}

fn flag(rt: &impl Print, name: &[u8], f: Marked<bool>) -> io::Result<()> {
    if f.there {
        field(rt, name, f.value as u32)?;
    }
    Ok(())
}

fn prefix(rt: &impl Print, p: Prefix) -> io::Result<()> {
    let store = p.store_ref_base_pic_flag;
    let adaptive = p.adaptive_ref_base_pic_marking_mode_flag;
    let base = p.base_marking;
    let more = p.additional_prefix_nal_unit_extension_flag;
    text(rt, b": prefix")?;
    flag(rt, b" store=", store)?;
    flag(rt, b" adaptive=", adaptive)?;
    field(rt, b" base=", base.count)?;
    flag(rt, b" more=", more)
}
