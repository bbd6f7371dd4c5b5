// The change cycle's width, which stands with each picture set: 99 map units and a rate of 11 make 4, 8 map units 1.
use super::{pictures, sequences, show};
use std::io;
use table::sets::{Picture, Sequence};
use table::table::{Table, empty, with_picture, with_sequence};
use table::words::picture_in;

fn sized(size: u32) -> Sequence {
    let mut s = sequences::sample();
    s.pic_size_in_map_units = size;
    s
}

fn rated(id: u32, rate: u32) -> Picture {
    let mut p = pictures::sample();
    p.seq_parameter_set_id = id;
    p.slice_group_change_rate = rate;
    p
}

// Of pictures 4, 5 and 6.
fn three(rt: &impl Print, t: Table) -> io::Result<()> {
    show::width(rt, picture_in(&t.pictures, 4))?;
    show::width(rt, picture_in(&t.pictures, 5))?;
    show::width(rt, picture_in(&t.pictures, 6))?;
    show::text(rt, b"\n")
}

fn put_sequence(rt: &impl Print, t: Table, id: u32, size: u32) -> io::Result<Table> {
    let w = with_sequence(t, id, sized(size));
    let answer = w.answer;
    show::text(rt, b"sequence ")?;
    show::number(rt, id)?;
    show::text(rt, b" of ")?;
    show::number(rt, size)?;
    show::changed(rt, answer)?;
    show::text(rt, b", widths")?;
    let u = w.table;
    three(rt, u)?;
    Ok(u)
}

fn put_picture(rt: &impl Print, t: Table, id: u32, p: Picture) -> io::Result<Table> {
    let w = with_picture(t, id, p);
    let answer = w.answer;
    show::text(rt, b"picture ")?;
    show::number(rt, id)?;
    show::text(rt, b" naming ")?;
    show::number(rt, p.seq_parameter_set_id)?;
    show::text(rt, b" with rate ")?;
    show::number(rt, p.slice_group_change_rate)?;
    show::changed(rt, answer)?;
    show::text(rt, b", widths")?;
    let u = w.table;
    three(rt, u)?;
    Ok(u)
}

// Picture sets first, then their sequence sets, new ones in their place, and refused ones.
fn kept(rt: &impl Print) -> io::Result<Table> {
    let a = put_picture(rt, empty(), 4, rated(0, 11))?;
    let b = put_picture(rt, a, 5, rated(1, 11))?;
    let c = put_picture(rt, b, 6, rated(0, 0))?;
    let d = put_sequence(rt, c, 0, 99)?;
    let e = put_sequence(rt, d, 1, 8)?;
    let f = put_sequence(rt, e, 0, 8)?;
    let g = put_sequence(rt, f, 0, 16777217)?;
    let h = put_sequence(rt, g, 32, 99)?;
    let i = put_picture(rt, h, 6, rated(1, 1))?;
    let j = put_picture(rt, i, 6, rated(1, 16777217))?;
    put_sequence(rt, j, 1, 16777216)
}

// Widths that no put writes, of picture 6: up to 25 they are used as they stand; over 25 the set counts as not there, and a new sequence set leaves it.
fn lent(rt: &impl Print, before: Table) -> io::Result<()> {
    let mut t = before;
    t.pictures[62] = 0;
    show::text(rt, b"a lent width of 0:")?;
    three(rt, t)?;
    t.pictures[62] = 26;
    show::text(rt, b"a lent width of 26:")?;
    three(rt, t)?;
    let u = put_sequence(rt, t, 1, 99)?;
    let mut v = u;
    v.pictures[62] = 25;
    show::text(rt, b"a lent width of 25:")?;
    three(rt, v)
}

pub(crate) fn all(rt: &impl Print) -> io::Result<()> {
    lent(rt, kept(rt)?)
}
