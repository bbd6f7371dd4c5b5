// Codes of a set: tested ones, whose refusal is 28 with value 0, ones that are there only under a condition, and ones that are passed over.
#![tactic(auto, unfolding(crate::specs::SequenceSet::up_to, crate::specs::SequenceSet::within, fmt::specs::Fmt::test, fmt::specs::Fmt::when, fmt::specs::Fmt::shaped, syntax::specs::Marks::given, fmt::specs::Reads::next, fmt::specs::Reads::found, fmt::specs::Reads::read_if, fmt::specs::Reads::passes, fmt::specs::Leaves::flag, fmt::specs::Leaves::ue))]

ghost use Rattle.std.specs.Prelude.{false, ◌≡◌};
ghost use Rattle.bits.specs.Answers.{as_read};
ghost use Rattle.bits.specs.Bits.{bits_of};
ghost use Rattle.fields.specs.Steps.{as_end};
ghost use Rattle.fmt.specs.Leaves.{flag, ue};
ghost use Rattle.fmt.specs.Reads.{read_if, passes};
ghost use Rattle.table.specs.Sets.{between_z};
ghost use Rattle.parameter_sets.specs.SequenceSet.{up_to, within};

use bits::read::{Cursor, Read};
use bits::refusals::{Refusal, SET_FIELD, refuse_at};
use fields::read::given_signed;

// ue(v), at most `most`.
pub(crate) fn up_to(s: &[u8], c: Cursor, most: u32) -> Read<u32>
    ensures { as_read result ≡ up_to most (bits_of s.now) c.at }
{
    let (v, next) = c.ue(s)?;
    if v <= most {
        Ok((v, next))
    } else {
        Err(refuse_at(SET_FIELD, 0, c.at))
    }
}

// The same, zero where it is absent.
pub(crate) fn up_to_if(s: &[u8], c: Cursor, there: bool, most: u32) -> Read<u32>
    ensures { as_read result ≡ read_if there 0 (up_to most) (bits_of s.now) c.at }
{
    if there { up_to(s, c, most) } else { Ok((0, c)) }
}

// A flag, clear where it is absent.
pub(crate) fn flag_given(s: &[u8], c: Cursor, there: bool) -> Read<bool>
    ensures { as_read result ≡ read_if there false flag.read (bits_of s.now) c.at }
{
    if there { c.flag(s) } else { Ok((false, c)) }
}

fn between(low: i32, high: i32, z: i32) -> bool
    ensures { result ≡ between_z low high z }
{
    if low <= z { z <= high } else { false }
}

// se(v), from `low` to `high`.
pub(crate) fn within(s: &[u8], c: Cursor, low: i32, high: i32) -> Read<i32>
    ensures { as_read result ≡ within low high (bits_of s.now) c.at }
{
    let (v, next) = given_signed(s, c, true)?;
    if between(low, high, v) {
        Ok((v, next))
    } else {
        Err(refuse_at(SET_FIELD, 0, c.at))
    }
}

// n codes, passed over: a signed code has the bits of an unsigned one.
pub(crate) fn pass_codes(s: &[u8], c: Cursor, n: u32) -> Result<Cursor, Refusal>
    ensures { as_end result tt ≡ passes n ue.read (bits_of s.now) c.at }
{
    let mut at = c;
    for _ in 0..n {
        let (_, next) = at.ue(s)?;
        at = next;
    }
    Ok(at)
}
