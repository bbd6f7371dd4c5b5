// Writing a field: as it is, tested, or there only under a condition. Each says which format of syntax/specs it writes, and answers the place where it ends, or
// None where the value has no bits or the buffer no room for them. Order and names are those of the crate fields, which reads them.
ghost use Rattle.std.specs.Prelude.{false, not, ◌&&◌, ◌≡◌, ◌+◌, eqb, leb, pos};
ghost use Rattle.bits.specs.Refusals.{pick};
ghost use Rattle.fmt.specs.Fmt.{test};
ghost use Rattle.fmt.specs.Leaves.{flag, u, ue, se};
ghost use Rattle.syntax.specs.Context.{qp_fits, qs_fits};
ghost use Rattle.syntax.specs.Marks.{is_zero, is_zero_z, number_if, signed_if, flag_if, given};
ghost use Rattle.syntax.specs.SliceHeader.{offset_fits};
ghost use Rattle.writer.specs.Places.{PutTo};

use bits::read::Cursor;
use fields::quant::{qp_fits, qs_fits};
use fields::read::{four_more, offset_fits};
use syntax::context::Context;
use syntax::marks::Marked;

// Whether the mark is what it should be, and the value zero where the field is absent.
pub(crate) fn fitting(there: bool, mark: bool, zero: bool) -> bool
    ensures { result ≡ pick there mark (not mark && zero) }
{
    if there {
        return mark;
    }
    if mark { false } else { zero }
}

// ---- a number

// A number that may be absent, of its two words.
pub(crate) fn number_of(there: u32, value: u32) -> Marked<u32>
    ensures { result ≡ record { there = not (eqb there 0); value = value } }
{
    Marked {
        there: there != 0,
        value,
    }
}

// ue(v).
pub(crate) fn put_number(d: &mut [u8], c: Cursor, v: u32) -> Option<Cursor>
    ensures { PutTo ue v d.old c.at d.new result }
{
    bits::put::put_ue(d, c, v).ok()
}

// u(n).
pub(crate) fn put_bits(d: &mut [u8], c: Cursor, n: u32, v: u32) -> Option<Cursor>
    ensures { PutTo (u n) v d.old c.at d.new result }
{
    bits::put::put_bits(d, c, n, v).ok()
}

// ue(v), at most `most`. Reading refuses any other by this number.
pub(crate) fn put_tested(d: &mut [u8], c: Cursor, v: u32, most: u32, number: u8) -> Option<Cursor>
    ensures { PutTo (test (λ k. leb k most) number pos ue) v d.old c.at d.new result }
{
    if v <= most { put_number(d, c, v) } else { None }
}

// ue(v).
pub(crate) fn put_number_if(d: &mut [u8], c: Cursor, there: bool, m: Marked<u32>) -> Option<Cursor>
    ensures { PutTo (number_if there ue) m d.old c.at d.new result }
{
    if !fitting(there, m.there, m.value == 0) {
        return None;
    }
    if there {
        put_number(d, c, m.value)
    } else {
        Some(c)
    }
}

// ue(v), at most `most`.
pub(crate) fn put_tested_if(
    d: &mut [u8],
    c: Cursor,
    there: bool,
    m: Marked<u32>,
    most: u32,
    number: u8,
) -> Option<Cursor>
    ensures { PutTo (number_if there (test (λ k. leb k most) number pos ue)) m d.old c.at d.new result }
{
    if !fitting(there, m.there, m.value == 0) {
        return None;
    }
    if there {
        put_tested(d, c, m.value, most, number)
    } else {
        Some(c)
    }
}

// u(n).
pub(crate) fn put_bits_if(
    d: &mut [u8],
    c: Cursor,
    there: bool,
    m: Marked<u32>,
    n: u32,
) -> Option<Cursor>
    ensures { PutTo (number_if there (u n)) m d.old c.at d.new result }
{
    if !fitting(there, m.there, m.value == 0) {
        return None;
    }
    if there {
        put_bits(d, c, n, m.value)
    } else {
        Some(c)
    }
}

// u(n + 4): pic_order_cnt_lsb.
pub(crate) fn put_lsb_if(
    d: &mut [u8],
    c: Cursor,
    there: bool,
    m: Marked<u32>,
    n: u32,
) -> Option<Cursor>
    ensures { PutTo (number_if there (u (n + 4))) m d.old c.at d.new result }
{
    put_bits_if(d, c, there, m, four_more(n))
}

// u(2) that is not 3.
fn put_colour_plane(d: &mut [u8], c: Cursor, v: u32) -> Option<Cursor>
    ensures { PutTo (test (λ p. not (eqb p 3)) 11 pos (u 2)) v d.old c.at d.new result }
{
    if v != 3 { put_bits(d, c, 2, v) } else { None }
}

// colour_plane_id
pub(crate) fn put_colour_plane_if(
    d: &mut [u8],
    c: Cursor,
    there: bool,
    m: Marked<u32>,
) -> Option<Cursor>
    ensures { PutTo (number_if there (test (λ p. not (eqb p 3)) 11 pos (u 2))) m d.old c.at d.new result }
{
    if !fitting(there, m.there, m.value == 0) {
        return None;
    }
    if there {
        put_colour_plane(d, c, m.value)
    } else {
        Some(c)
    }
}

// ue(v), whose absence the record tells elsewhere: zero where it is absent.
pub(crate) fn put_given(d: &mut [u8], c: Cursor, there: bool, v: u32) -> Option<Cursor>
    ensures { PutTo (given there 0 is_zero ue) v d.old c.at d.new result }
{
    if there {
        return put_number(d, c, v);
    }
    if v == 0 { Some(c) } else { None }
}

// ---- a flag

// A flag that may be absent, of its two words.
pub(crate) fn flag_of(there: u32, value: u32) -> Marked<bool>
    ensures { result ≡ record { there = not (eqb there 0); value = not (eqb value 0) } }
{
    Marked {
        there: there != 0,
        value: value != 0,
    }
}

pub(crate) fn put_flag(d: &mut [u8], c: Cursor, b: bool) -> Option<Cursor>
    ensures { PutTo flag b d.old c.at d.new result }
{
    bits::put::put_flag(d, c, b).ok()
}

pub(crate) fn put_flag_if(d: &mut [u8], c: Cursor, there: bool, m: Marked<bool>) -> Option<Cursor>
    ensures { PutTo (flag_if there) m d.old c.at d.new result }
{
    if !fitting(there, m.there, !m.value) {
        return None;
    }
    if there {
        put_flag(d, c, m.value)
    } else {
        Some(c)
    }
}

// One whose absence the record tells elsewhere: clear where it is absent.
pub(crate) fn put_given_flag(d: &mut [u8], c: Cursor, there: bool, v: bool) -> Option<Cursor>
    ensures { PutTo (given there false not flag) v d.old c.at d.new result }
{
    if there {
        return put_flag(d, c, v);
    }
    if !v { Some(c) } else { None }
}

// ---- a signed number

// se(v).
pub(crate) fn put_signed(d: &mut [u8], c: Cursor, v: i32) -> Option<Cursor>
    ensures { PutTo se v d.old c.at d.new result }
{
    bits::put::put_se(d, c, v).ok()
}

fn is_zero(v: i32) -> bool
    ensures { result ≡ is_zero_z v }
{
    v == 0
}

// se(v).
pub(crate) fn put_signed_if(d: &mut [u8], c: Cursor, there: bool, m: Marked<i32>) -> Option<Cursor>
    ensures { PutTo (signed_if there se) m d.old c.at d.new result }
{
    if !fitting(there, m.there, is_zero(m.value)) {
        return None;
    }
    if there {
        put_signed(d, c, m.value)
    } else {
        Some(c)
    }
}

// se(v), whose absence the record tells elsewhere: zero where it is absent.
pub(crate) fn put_given_signed(d: &mut [u8], c: Cursor, there: bool, v: i32) -> Option<Cursor>
    ensures { PutTo (given there (pos 0) is_zero_z se) v d.old c.at d.new result }
{
    if there {
        return put_signed(d, c, v);
    }
    if is_zero(v) { Some(c) } else { None }
}

// se(v), from -6 to 6. Reading refuses any other by this number.
fn put_offset(d: &mut [u8], c: Cursor, v: i32, number: u8) -> Option<Cursor>
    ensures { PutTo (test offset_fits number (λ z. z) se) v d.old c.at d.new result }
{
    if offset_fits(v) {
        put_signed(d, c, v)
    } else {
        None
    }
}

// slice_alpha_c0_offset_div2 and slice_beta_offset_div2
pub(crate) fn put_offset_if(
    d: &mut [u8],
    c: Cursor,
    there: bool,
    m: Marked<i32>,
    number: u8,
) -> Option<Cursor>
    ensures { PutTo (signed_if there (test offset_fits number (λ z. z) se)) m d.old c.at d.new result }
{
    if !fitting(there, m.there, is_zero(m.value)) {
        return None;
    }
    if there {
        put_offset(d, c, m.value, number)
    } else {
        Some(c)
    }
}

// ---- slice_qp_delta and slice_qs_delta: QP and QS, the sums that they are part of, are tested

// slice_qp_delta
pub(crate) fn put_qp(d: &mut [u8], c: Cursor, v: i32, x: Context) -> Option<Cursor>
    ensures { PutTo (test (qp_fits x) 16 (λ z. z) se) v d.old c.at d.new result }
{
    if qp_fits(x, v) {
        put_signed(d, c, v)
    } else {
        None
    }
}

// slice_qs_delta
fn put_qs(d: &mut [u8], c: Cursor, v: i32, x: Context) -> Option<Cursor>
    ensures { PutTo (test (qs_fits x) 17 (λ z. z) se) v d.old c.at d.new result }
{
    if qs_fits(x, v) {
        put_signed(d, c, v)
    } else {
        None
    }
}

// slice_qs_delta
pub(crate) fn put_qs_if(
    d: &mut [u8],
    c: Cursor,
    there: bool,
    m: Marked<i32>,
    x: Context,
) -> Option<Cursor>
    ensures { PutTo (signed_if there (test (qs_fits x) 17 (λ z. z) se)) m d.old c.at d.new result }
{
    if !fitting(there, m.there, is_zero(m.value)) {
        return None;
    }
    if there {
        put_qs(d, c, m.value, x)
    } else {
        Some(c)
    }
}
