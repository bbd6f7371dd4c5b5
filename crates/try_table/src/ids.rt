// Ids at their limits, and what a put leaves of its neighbours.
use super::{pictures, sequences, show};
use std::io;
use table::table::{Table, empty, with_picture, with_sequence};
use table::words::{picture_in, sequence_in};

fn sequence_id(rt: &impl Print, id: u32) -> io::Result<()> {
    let w = with_sequence(empty(), id, sequences::sample());
    let answer = w.answer;
    let t = w.table;
    show::text(rt, b"sequence id ")?;
    show::number(rt, id)?;
    show::changed(rt, answer)?;
    show::found_sequence(rt, sequence_in(&t.sequences, id))?;
    show::text(rt, b"\n")
}

fn picture_id(rt: &impl Print, id: u32) -> io::Result<()> {
    let w = with_picture(empty(), id, pictures::sample());
    let answer = w.answer;
    let t = w.table;
    show::text(rt, b"picture id ")?;
    show::number(rt, id)?;
    show::changed(rt, answer)?;
    show::found_picture(rt, picture_in(&t.pictures, id), pictures::sample())?;
    show::text(rt, b"\n")
}

fn ids(rt: &impl Print) -> io::Result<()> {
    sequence_id(rt, 0)?;
    sequence_id(rt, 31)?;
    sequence_id(rt, 32)?;
    sequence_id(rt, 4294967295)
}

fn picture_ids(rt: &impl Print) -> io::Result<()> {
    picture_id(rt, 0)?;
    picture_id(rt, 255)?;
    picture_id(rt, 256)?;
    picture_id(rt, 4294967295)
}

// Entries 4, 5 and 6 after a put at 5.
fn neighbours_of_sequence(rt: &impl Print, t: Table) -> io::Result<()> {
    show::text(rt, b"sequences 4, 5, 6:")?;
    show::found_sequence(rt, sequence_in(&t.sequences, 4))?;
    show::found_sequence(rt, sequence_in(&t.sequences, 5))?;
    show::found_sequence(rt, sequence_in(&t.sequences, 6))?;
    show::text(rt, b"\n")
}

fn neighbours_of_picture(rt: &impl Print, t: Table) -> io::Result<()> {
    show::text(rt, b"pictures 4, 5, 6:")?;
    show::found_picture(rt, picture_in(&t.pictures, 4), pictures::sample())?;
    show::found_picture(rt, picture_in(&t.pictures, 5), pictures::sample())?;
    show::found_picture(rt, picture_in(&t.pictures, 6), pictures::sample())?;
    show::text(rt, b"\n")
}

fn neighbours(rt: &impl Print) -> io::Result<()> {
    let w = with_sequence(empty(), 5, sequences::sample());
    let t = w.table;
    neighbours_of_sequence(rt, t)?;
    neighbours_of_picture(rt, t)?;
    let v = with_picture(empty(), 5, pictures::sample());
    let u = v.table;
    neighbours_of_sequence(rt, u)?;
    neighbours_of_picture(rt, u)
}

// A refused put leaves the set that was there.
fn refused_over_a_set(rt: &impl Print) -> io::Result<()> {
    let w = with_sequence(empty(), 5, sequences::sample());
    let mut s = sequences::sample();
    s.pic_size_in_map_units = 0;
    let before = w.table;
    let v = with_sequence(before, 5, s);
    let answer = v.answer;
    let after = v.table;
    show::text(rt, b"refused over a set")?;
    show::changed(rt, answer)?;
    show::text(rt, b", ")?;
    neighbours_of_sequence(rt, after)
}

// Words that no put writes: an entry out of range, or with more than flags in its first word, counts as not there.
fn lent_out_of_range(rt: &impl Print) -> io::Result<()> {
    let w = with_sequence(empty(), 5, sequences::sample());
    let mut t = w.table;
    t.sequences[36] = 4;
    show::text(rt, b"a lent chroma format of 4:")?;
    show::found_sequence(rt, sequence_in(&t.sequences, 5))?;
    t.sequences[36] = 1;
    t.sequences[35] = 16;
    show::text(rt, b"\na lent first word of 16:")?;
    show::found_sequence(rt, sequence_in(&t.sequences, 5))?;
    show::text(rt, b"\n")
}

pub(crate) fn all(rt: &impl Print) -> io::Result<()> {
    ids(rt)?;
    picture_ids(rt)?;
    neighbours(rt)?;
    refused_over_a_set(rt)?;
    lent_out_of_range(rt)
}
