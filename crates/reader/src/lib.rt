// A reader holds the unescaped body and a bit place. Its functions are thin: each takes the reader apart and calls a cursor function on the slice and the place.
#![tactic(auto)]

ghost use Rattle.std.specs.Prelude.{◌≡◌};
ghost use Rattle.bits.specs.Bits.{bits_of};
ghost use Rattle.bits.specs.Codes.{u_at, flag_at, ue_at, se_at};
ghost use Rattle.bits.specs.Answers.{as_read};

use bits::read::{Cursor, Read};

#[derive(Clone, Copy)]
pub struct Reader<'a> {
    pub body: &'a [u8],
    pub at: usize,
}

// A reader at a body's first bit.
pub fn new<'a>(body: &'a [u8]) -> Reader<'a>
    ensures { (result.body ≡ body.entry) × (result.at ≡ 0) }
{
    Reader { body, at: 0 }
}

// The same reader at the place that a read handed back.
pub fn moved<'a>(r: Reader<'a>, c: Cursor) -> Reader<'a>
    ensures { (result.body ≡ r.entry.body) × (result.at ≡ c.at) }
{
    Reader {
        body: r.body,
        at: c.at,
    }
}

// The next n bits, a flag, ue(v), se(v): the value and the moved cursor, or the refusal.
pub fn read_bits<'a>(r: Reader<'a>, n: u32) -> Read<u32>
    ensures { as_read result ≡ u_at n (bits_of r.entry.body.now) r.entry.at }
{
    Cursor { at: r.at }.bits(r.body, n)
}

pub fn read_flag<'a>(r: Reader<'a>) -> Read<bool>
    ensures { as_read result ≡ flag_at (bits_of r.entry.body.now) r.entry.at }
{
    Cursor { at: r.at }.flag(r.body)
}

pub fn read_ue<'a>(r: Reader<'a>) -> Read<u32>
    ensures { as_read result ≡ ue_at (bits_of r.entry.body.now) r.entry.at }
{
    Cursor { at: r.at }.ue(r.body)
}

pub fn read_se<'a>(r: Reader<'a>) -> Read<i32>
    ensures { as_read result ≡ se_at (bits_of r.entry.body.now) r.entry.at }
{
    Cursor { at: r.at }.se(r.body)
}

// Plain parameters above the reader: the first code of a body.
pub fn first_ue(s: &[u8]) -> Read<u32>
    ensures { as_read result ≡ ue_at (bits_of s.now) 0 }
{
    read_ue(new(s))
}
