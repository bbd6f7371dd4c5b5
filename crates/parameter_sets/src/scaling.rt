// Scaling lists, passed over: scaling_list( ), 7.3.2.1.1.1, and the matrix of them.
#![tactic(auto, unfolding(crate::specs::SequenceSet::scaling_list, crate::specs::SequenceSet::scaling_lists, crate::specs::SequenceSet::scaling_matrix, fmt::specs::Reads::next, fmt::specs::Reads::found, fmt::specs::Reads::read_if, fmt::specs::Leaves::flag))]

ghost use Rattle.std.specs.Prelude.{true, ◌≡◌, ◌+◌, ◌%◌, ◌≤◌, eqb, ltb, pos, negsuc, nat_abs, ◌+ℤ◌};
ghost use Rattle.bits.specs.Bits.{bits_of};
ghost use Rattle.bits.specs.Refusals.{pick};
ghost use Rattle.fields.specs.Steps.{as_end};
ghost use Rattle.fmt.specs.Leaves.{flag};
ghost use Rattle.fmt.specs.Reads.{next, read_if};
ghost use Rattle.table.specs.Sets.{between_z};
ghost use Rattle.parameter_sets.specs.SequenceSet.{scaling_list, scaling_lists, scaling_matrix};

use crate::codes::within;
use bits::read::Cursor;
use bits::refusals::Refusal;

// nextScale, by lastScale and delta_scale.
fn next_scale(last: u32, delta: i32) -> u32
    requires { (last ≤ 255) × (between_z (negsuc 127) (pos 127) delta ≡ true) }
    ensures { result ≡ nat_abs (pos last +ℤ delta +ℤ pos 256) % 256 }
{
    (last as i32 + delta + 256) as u32 % 256
}

// lastScale stays where nextScale is 0.
fn last_scale(last: u32, scale: u32) -> u32
    ensures { result ≡ pick (eqb scale 0) last scale }
{
    if scale == 0 { last } else { scale }
}

// A list of n entries.
fn scaling_list(s: &[u8], c: Cursor, n: u32) -> Result<Cursor, Refusal>
    ensures { as_end result tt ≡ scaling_list n 8 8 (bits_of s.now) c.at }
{
    let mut last: u32 = 8;
    let mut scale: u32 = 8;
    let mut at = c;
    for _ in 0..n {
        if scale == 0 {
            return Ok(at);
        }
        let (delta, next) = within(s, at, -128, 127)?;
        scale = next_scale(last, delta);
        last = last_scale(last, scale);
        at = next;
    }
    Ok(at)
}

// The entries of the i-th list.
fn entries(i: u32) -> u32
    ensures { result ≡ pick (ltb i 6) 16 64 }
{
    if i < 6 { 16 } else { 64 }
}

// The i-th list, with the flag whether it is there.
fn one_list(s: &[u8], c: Cursor, i: u32) -> Result<Cursor, Refusal>
    ensures { as_end result tt ≡ next flag.read (λ there. read_if there tt (scaling_list (pick (ltb i 6) 16 64) 8 8)) (bits_of s.now) c.at }
{
    let (there, next) = c.flag(s)?;
    if there {
        scaling_list(s, next, entries(i))
    } else {
        Ok(next)
    }
}

fn scaling_lists(s: &[u8], c: Cursor, n: u32) -> Result<Cursor, Refusal>
    ensures { as_end result tt ≡ scaling_lists n 0 (bits_of s.now) c.at }
{
    let mut at = c;
    for i in 0..n {
        at = one_list(s, at, i)?;
    }
    Ok(at)
}

// How many lists there are.
fn lists(chroma_format_idc: u32) -> u32
    ensures { result ≡ pick (eqb chroma_format_idc 3) 12 8 }
{
    if chroma_format_idc == 3 { 12 } else { 8 }
}

pub(crate) fn scaling_matrix(s: &[u8], c: Cursor, chroma_format_idc: u32) -> Result<Cursor, Refusal>
    ensures { as_end result tt ≡ scaling_matrix chroma_format_idc (bits_of s.now) c.at }
{
    let (there, next) = c.flag(s)?;
    if there {
        scaling_lists(s, next, lists(chroma_format_idc))
    } else {
        Ok(next)
    }
}
