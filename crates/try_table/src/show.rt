// A set put into a table: the answer, and what the entry then holds.
use bits::refusals::Refusal;
use std::io;
use table::sets::{Picture, Sequence};
use table::table::{empty, with_picture, with_sequence};
use table::words::{picture_in, sequence_in};

pub(crate) fn text(rt: &impl Print, t: &[u8]) -> io::Result<()> {
    rt.write_all(t)
}

pub(crate) fn number(rt: &impl Print, n: u32) -> io::Result<()> {
    rt.print(n)
}

pub(crate) fn changed(rt: &impl Print, a: Result<(), Refusal>) -> io::Result<()> {
    match a {
        Ok(()) => text(rt, b": done"),
        Err(r) => {
            text(rt, b": refused ")?;
            number(rt, r.number as u32)?;
            value(rt, r.value)?;
            place(rt, r.has_bit)
        }
    }
}

// Nothing that the table refuses has a place.
fn place(rt: &impl Print, there: bool) -> io::Result<()> {
    if there {
        text(rt, b" bit=other")?;
    }
    Ok(())
}

fn value(rt: &impl Print, v: i64) -> io::Result<()> {
    if v == 0 {
        text(rt, b" value=0")
    } else {
        text(rt, b" value=other")
    }
}

pub(crate) fn found_sequence(rt: &impl Print, f: Option<Sequence>) -> io::Result<()> {
    match f {
        Some(s) => {
            text(rt, b" there ")?;
            number(rt, s.chroma_format_idc)?;
            text(rt, b":")?;
            number(rt, s.log2_max_frame_num)?;
            text(rt, b":")?;
            number(rt, s.pic_size_in_map_units)
        }
        None => text(rt, b" absent"),
    }
}

// A picture set that is found, beside the one that was put: its signed fields are told by whether they are the same.
pub(crate) fn found_picture(
    rt: &impl Print,
    f: Option<(Picture, u32)>,
    put: Picture,
) -> io::Result<()> {
    match f {
        Some((p, _)) => {
            text(rt, b" there ")?;
            number(rt, p.seq_parameter_set_id)?;
            text(rt, b":")?;
            number(rt, p.slice_group_change_rate)?;
            same(rt, p.pic_init_qp_minus26, put.pic_init_qp_minus26)?;
            same(rt, p.pic_init_qs_minus26, put.pic_init_qs_minus26)
        }
        None => text(rt, b" absent"),
    }
}

// The width that stands with a picture set.
pub(crate) fn width(rt: &impl Print, f: Option<(Picture, u32)>) -> io::Result<()> {
    match f {
        Some((_, w)) => {
            text(rt, b" ")?;
            number(rt, w)
        }
        None => text(rt, b" absent"),
    }
}

fn same(rt: &impl Print, a: i32, b: i32) -> io::Result<()> {
    if a == b {
        text(rt, b":same")
    } else {
        text(rt, b":other")
    }
}

// A set put at 5 of an empty table.
pub(crate) fn put_sequence_at_5(rt: &impl Print, s: Sequence) -> io::Result<()> {
    let w = with_sequence(empty(), 5, s);
    let answer = w.answer;
    let t = w.table;
    changed(rt, answer)?;
    found_sequence(rt, sequence_in(&t.sequences, 5))?;
    text(rt, b"\n")
}

pub(crate) fn put_picture_at_5(rt: &impl Print, p: Picture) -> io::Result<()> {
    let w = with_picture(empty(), 5, p);
    let answer = w.answer;
    let t = w.table;
    changed(rt, answer)?;
    found_picture(rt, picture_in(&t.pictures, 5), p)?;
    text(rt, b"\n")
}
