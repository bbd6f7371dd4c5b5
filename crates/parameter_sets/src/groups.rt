// num_slice_groups_minus1 to slice_group_id: of these the change rate is kept. The other elements are passed over, the ids of type 6 by arithmetic, since their count has
// nothing to do with how many bits there are.
#![tactic(auto, unfolding(crate::specs::PictureSet::change_rate, crate::specs::PictureSet::group_map, crate::specs::PictureParts::ids_start, crate::specs::PictureParts::groups_start, fmt::specs::Reads::next, fmt::specs::Reads::found, fmt::specs::Reads::read_if, fmt::specs::Leaves::flag, fmt::specs::Leaves::ue))]

ghost use Rattle.std.specs.Prelude.{false, ◌&&◌, ◌≡◌, ◌-◌, ◌≤◌, ◌<◌, ◌^◌, leb, eqb, length};
ghost use Rattle.bits.specs.Answers.{as_read};
ghost use Rattle.bits.specs.Bits.{bits_of};
ghost use Rattle.fields.specs.Steps.{as_end};
ghost use Rattle.fmt.specs.Leaves.{u};
ghost use Rattle.fmt.specs.Reads.{passes};
ghost use Rattle.parameter_sets.specs.PictureSet.{change_rate, group_id_bits, group_map};
ghost use Rattle.parameter_sets.specs.PictureParts.{id_count, id_bits, ids_end, ids_start, groups_start};
ghost use Rattle.parameter_sets.specs.PictureSteps.{no_rate, rated};

use crate::codes::{pass_codes, up_to};
use bits::read::{Cursor, Read};
use bits::refusals::{RAN_OUT, Refusal, refuse_at};
use bits::window::within;

// What stands before slice_group_id: the change rate, and whether ids follow, one for each map unit.
#[derive(Clone, Copy)]
pub struct Groups {
    pub slice_group_change_rate: u32,
    pub ids: bool,
    pub pic_size_in_map_units_minus1: u32,
    pub num_slice_groups_minus1: u32,
}

// How many bits a body has.
fn bit_length(s: &[u8]) -> usize
    ensures { result ≡ length (bits_of s.now) }
{
    within(s).len() * 8
}

// How many bits are left from a place on.
fn bits_left(at: usize, end: usize) -> usize
    ensures { result ≡ end - at }
{
    if at < end { end - at } else { 0 }
}

// How wide an id is: n + 1 groups.
fn group_id_bits(n: u32) -> usize
    ensures { (result ≡ group_id_bits n) × (0 < result) × (result ≤ 3) }
{
    if n <= 1 {
        return 1;
    }
    if n <= 3 { 2 } else { 3 }
}

// How many ids there are.
fn id_count(g: Groups) -> usize
    ensures { (result ≡ id_count g) × (result ≤ 2 ^ 32) }
{
    if g.ids {
        g.pic_size_in_map_units_minus1 as usize + 1
    } else {
        0
    }
}

// Where the ids end that begin at a place of a body of `end` bits; 5 at the first that lacks bits.
pub fn ids_end(g: Groups, c: Cursor, end: usize) -> Result<Cursor, Refusal>
    ensures { result ≡ ids_end g c.at end }
{
    let left = bits_left(c.at, end);
    let w = group_id_bits(g.num_slice_groups_minus1);
    let size = id_count(g) * w;
    if size <= left {
        Ok(Cursor { at: c.at + size })
    } else {
        Err(refuse_at(RAN_OUT, 0, c.at + left / w * w))
    }
}

// The ids, passed over.
pub(crate) fn pass_ids(s: &[u8], c: Cursor, g: Groups) -> Result<Cursor, Refusal>
    ensures { as_end result tt ≡ passes (id_count g) (u (id_bits g)).read (bits_of s.now) c.at }
{
    ids_end(g, c, bit_length(s))
}

// Type 6, up to the ids.
fn ids_start(s: &[u8], c: Cursor, n: u32) -> Read<Groups>
    ensures { as_read result ≡ ids_start n (bits_of s.now) c.at }
{
    let (pic_size_in_map_units_minus1, next) = c.ue(s)?;
    Ok((
        Groups {
            slice_group_change_rate: 0,
            ids: true,
            pic_size_in_map_units_minus1,
            num_slice_groups_minus1: n,
        },
        next,
    ))
}

// Types 3 to 5.
fn change_rate(s: &[u8], c: Cursor) -> Read<u32>
    ensures { as_read result ≡ change_rate (bits_of s.now) c.at }
{
    let (_, c1) = c.flag(s)?;
    let (slice_group_change_rate_minus1, c2) = up_to(s, c1, 16_777_215)?;
    Ok((slice_group_change_rate_minus1 + 1, c2))
}

// No rate, where elements were passed over.
fn no_rate(a: Result<Cursor, Refusal>) -> Read<u32>
    ensures { as_read result ≡ no_rate (as_end a tt) }
{
    match a {
        Ok(c) => Ok((0, c)),
        Err(r) => Err(r),
    }
}

// Types 3 to 5.
fn is_changing(slice_group_map_type: u32) -> bool
    ensures { result ≡ leb 3 slice_group_map_type && leb slice_group_map_type 5 }
{
    if 3 <= slice_group_map_type {
        slice_group_map_type <= 5
    } else {
        false
    }
}

// By slice_group_map_type, but type 6; n is num_slice_groups_minus1. A pair is two codes.
fn group_map(s: &[u8], c: Cursor, n: u32, slice_group_map_type: u32) -> Read<u32>
    requires { (n ≤ 7) × (eqb slice_group_map_type 6 ≡ false) }
    ensures { as_read result ≡ group_map n slice_group_map_type (bits_of s.now) c.at }
{
    if slice_group_map_type == 0 {
        return no_rate(pass_codes(s, c, n + 1));
    }
    if slice_group_map_type == 2 {
        return no_rate(pass_codes(s, c, 2 * n));
    }
    if is_changing(slice_group_map_type) {
        return change_rate(s, c);
    }
    Ok((0, c))
}

// A rate, with no ids behind it.
fn without_ids(a: Read<u32>) -> Read<Groups>
    ensures { as_read result ≡ rated (as_read a) }
{
    match a {
        Ok((rate, c)) => Ok((
            Groups {
                slice_group_change_rate: rate,
                ids: false,
                pic_size_in_map_units_minus1: 0,
                num_slice_groups_minus1: 0,
            },
            c,
        )),
        Err(r) => Err(r),
    }
}

pub(crate) fn groups_start(s: &[u8], c: Cursor) -> Read<Groups>
    ensures { as_read result ≡ groups_start (bits_of s.now) c.at }
{
    let (num_slice_groups_minus1, c1) = up_to(s, c, 7)?;
    if num_slice_groups_minus1 == 0 {
        return without_ids(Ok((0, c1)));
    }
    let (slice_group_map_type, c2) = up_to(s, c1, 6)?;
    if slice_group_map_type == 6 {
        return ids_start(s, c2, num_slice_groups_minus1);
    }
    without_ids(group_map(s, c2, num_slice_groups_minus1, slice_group_map_type))
}
