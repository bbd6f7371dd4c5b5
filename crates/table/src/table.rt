// The table, lent. Each function here is a shell of one call that lends the table's arrays, one or both, to a function of `words`: nothing copies the table.
ghost use Rattle.std.specs.Prelude.{◌≡◌};
ghost use Rattle.table.specs.Tables.{empty_table, sequence_at, picture_at, put_sequence, put_picture};

use crate::sets::{Picture, Sequence};
use crate::words::{picture_in, put_picture_in, put_sequence_in, sequence_in};
use bits::refusals::Refusal;

#[repr(C)]
#[derive(Clone, Copy)]
pub struct Table {
    pub sequences: [u32; 224],
    pub pictures: [u32; 2304],
}

// A table's two arrays, lent to be read: they stand apart, since a host lends them one by one.
#[derive(Clone, Copy)]
pub struct Sets<'a> {
    pub sequences: &'a [u32; 224],
    pub pictures: &'a [u32; 2304],
}

// A table's answer beside the table, where it goes by value.
#[derive(Clone, Copy)]
pub struct WithTable {
    pub answer: Result<(), Refusal>,
    pub table: Table,
}

// No set at all.
pub fn empty() -> Table
    ensures { result ≡ empty_table }
{
    Table {
        sequences: [0; 224],
        pictures: [0; 2304],
    }
}

pub fn sequence_at(t: &Table, id: u32) -> Option<Sequence>
    ensures { result ≡ sequence_at t.now id }
{
    sequence_in(&t.sequences, id)
}

pub fn picture_at(t: &Table, id: u32) -> Option<(Picture, u32)>
    ensures { result ≡ picture_at t.now id }
{
    picture_in(&t.pictures, id)
}

pub fn put_sequence(t: &mut Table, id: u32, s: Sequence) -> Result<(), Refusal>
    ensures { (result ≡ (put_sequence t.old id s).answer) × (t.new ≡ (put_sequence t.old id s).table) }
{
    put_sequence_in(&mut t.sequences, &mut t.pictures, id, s)
}

pub fn put_picture(t: &mut Table, id: u32, p: Picture) -> Result<(), Refusal>
    ensures { (result ≡ (put_picture t.old id p).answer) × (t.new ≡ (put_picture t.old id p).table) }
{
    put_picture_in(&t.sequences, &mut t.pictures, id, p)
}

// By value, above the lent forms: whoever calls these needs no walk of its own.
pub fn with_sequence(t: Table, id: u32, s: Sequence) -> WithTable
    ensures { result ≡ put_sequence t id s }
{
    let mut u = t;
    let answer = put_sequence(&mut u, id, s);
    WithTable { answer, table: u }
}

pub fn with_picture(t: Table, id: u32, p: Picture) -> WithTable
    ensures { result ≡ put_picture t id p }
{
    let mut u = t;
    let answer = put_picture(&mut u, id, p);
    WithTable { answer, table: u }
}
