// Reading a field: as it is, tested, or there only under a condition. Each says which format of syntax/specs it reads.
#![tactic(auto, unfolding(syntax::specs::Marks::number_if, syntax::specs::Marks::signed_if, syntax::specs::Marks::flag_if, syntax::specs::Marks::given, syntax::specs::SliceHeader::not_scalable, fmt::specs::Fmt::shaped, fmt::specs::Fmt::test, fmt::specs::Fmt::when, fmt::specs::Fmt::nothing, fmt::specs::Leaves::flag, fmt::specs::Leaves::u, fmt::specs::Leaves::ue, fmt::specs::Leaves::se))]

ghost use Rattle.std.specs.Prelude.{false, not, ◌≡◌, ◌+◌, eqb, leb, pos};
ghost use Rattle.bits.specs.Bits.{Bits, bits_of};
ghost use Rattle.bits.specs.Codes.{width_of};
ghost use Rattle.fmt.specs.Fmt.{test};
ghost use Rattle.fmt.specs.Leaves.{flag, u, ue, se};
ghost use Rattle.syntax.specs.Marks.{is_zero, is_zero_z, number_if, signed_if, flag_if, given};
ghost use Rattle.syntax.specs.SliceHeader.{not_scalable, offset_fits};
ghost use Rattle.fields.specs.Steps.{as_end};
ghost use Rattle.bits.specs.Answers.{as_read};

use crate::marks::{absent, marked};
use bits::read::{Cursor, Read};
use bits::refusals::{COLOUR_PLANE, Refusal, SCALABLE, refuse_at};
use syntax::context::Context;
use syntax::marks::Marked;
use table::sets::within_signed;

// ---- a number

// ue(v), at most `most`: else the refusal with this number and the value.
pub fn tested(s: &[u8], c: Cursor, most: u32, number: u8) -> Read<u32>
    ensures { as_read result ≡ (test (λ v. leb v most) number pos ue).read (bits_of s.now) c.at }
{
    let (v, next) = c.ue(s)?;
    if v <= most {
        Ok((v, next))
    } else {
        Err(refuse_at(number, v as i64, c.at))
    }
}

// ue(v).
pub fn number_if(s: &[u8], c: Cursor, there: bool) -> Read<Marked<u32>>
    ensures { as_read result ≡ (number_if there ue).read (bits_of s.now) c.at }
{
    if there { marked(c.ue(s)) } else { absent(c, 0) }
}

// ue(v), at most `most`.
pub fn tested_if(s: &[u8], c: Cursor, there: bool, most: u32, number: u8) -> Read<Marked<u32>>
    ensures { as_read result ≡ (number_if there (test (λ v. leb v most) number pos ue)).read (bits_of s.now) c.at }
{
    if there {
        marked(tested(s, c, most, number))
    } else {
        absent(c, 0)
    }
}

// u(n).
pub fn bits_if(s: &[u8], c: Cursor, there: bool, n: u32) -> Read<Marked<u32>>
    ensures { as_read result ≡ (number_if there (u n)).read (bits_of s.now) c.at }
{
    if there {
        marked(c.bits(s, n))
    } else {
        absent(c, 0)
    }
}

// The width that n + 4 counts as: itself, which may not fit, up to 32.
pub fn four_more(n: u32) -> u32
    ensures { result ≡ width_of (n + 4) }
{
    if n < 28 { n + 4 } else { 32 }
}

// u(n + 4): pic_order_cnt_lsb.
pub fn lsb_if(s: &[u8], c: Cursor, there: bool, n: u32) -> Read<Marked<u32>>
    ensures { as_read result ≡ (number_if there (u (n + 4))).read (bits_of s.now) c.at }
{
    bits_if(s, c, there, four_more(n))
}

// u(2) that is not 3.
fn colour_plane(s: &[u8], c: Cursor) -> Read<u32>
    ensures { as_read result ≡ (test (λ p. not (eqb p 3)) 11 pos (u 2)).read (bits_of s.now) c.at }
{
    let (v, next) = c.bits(s, 2)?;
    if v == 3 {
        Err(refuse_at(COLOUR_PLANE, v as i64, c.at))
    } else {
        Ok((v, next))
    }
}

// colour_plane_id
pub fn colour_plane_if(s: &[u8], c: Cursor, there: bool) -> Read<Marked<u32>>
    ensures { as_read result ≡ (number_if there (test (λ p. not (eqb p 3)) 11 pos (u 2))).read (bits_of s.now) c.at }
{
    if there {
        marked(colour_plane(s, c))
    } else {
        absent(c, 0)
    }
}

// ue(v), whose absence the record tells elsewhere: zero where it is absent.
pub fn given(s: &[u8], c: Cursor, there: bool) -> Read<u32>
    ensures { as_read result ≡ (given there 0 is_zero ue).read (bits_of s.now) c.at }
{
    if there { c.ue(s) } else { Ok((0, c)) }
}

// ---- a flag

pub fn flag_if(s: &[u8], c: Cursor, there: bool) -> Read<Marked<bool>>
    ensures { as_read result ≡ (flag_if there).read (bits_of s.now) c.at }
{
    if there {
        marked(c.flag(s))
    } else {
        absent(c, false)
    }
}

// One whose absence the record tells elsewhere: clear where it is absent.
pub fn given_flag(s: &[u8], c: Cursor, there: bool) -> Read<bool>
    ensures { as_read result ≡ (given there false not flag).read (bits_of s.now) c.at }
{
    if there { c.flag(s) } else { Ok((false, c)) }
}

// ---- a signed number

// se(v).
pub fn signed_if(s: &[u8], c: Cursor, there: bool) -> Read<Marked<i32>>
    ensures { as_read result ≡ (signed_if there se).read (bits_of s.now) c.at }
{
    if there { marked(c.se(s)) } else { absent(c, 0) }
}

// se(v), whose absence the record tells elsewhere: zero where it is absent.
pub fn given_signed(s: &[u8], c: Cursor, there: bool) -> Read<i32>
    ensures { as_read result ≡ (given there (pos 0) is_zero_z se).read (bits_of s.now) c.at }
{
    if there { c.se(s) } else { Ok((0, c)) }
}

// From -6 to 6.
pub fn offset_fits(d: i32) -> bool
    ensures { result ≡ offset_fits d }
{
    within_signed(-6, 6, d as i64)
}

fn offset(s: &[u8], c: Cursor, number: u8) -> Read<i32>
    ensures { as_read result ≡ (test offset_fits number (λ d. d) se).read (bits_of s.now) c.at }
{
    let (v, next) = c.se(s)?;
    if offset_fits(v) {
        Ok((v, next))
    } else {
        Err(refuse_at(number, v as i64, c.at))
    }
}

// se(v), from -6 to 6: slice_alpha_c0_offset_div2 and slice_beta_offset_div2.
pub fn offset_if(s: &[u8], c: Cursor, there: bool, number: u8) -> Read<Marked<i32>>
    ensures { as_read result ≡ (signed_if there (test offset_fits number (λ d. d) se)).read (bits_of s.now) c.at }
{
    if there {
        marked(offset(s, c, number))
    } else {
        absent(c, 0)
    }
}

// ---- no field

// A scalable slice's header goes no further.
pub fn not_scalable(c: Cursor, x: Context) -> Result<Cursor, Refusal>
    ensures { (s : Bits) → as_end result tt ≡ (not_scalable x).read s c.at }
{
    if x.kind.svc {
        Err(refuse_at(SCALABLE, 0, c.at))
    } else {
        Ok(c)
    }
}
