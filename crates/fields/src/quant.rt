// slice_qp_delta and slice_qs_delta: QP and QS, the sums that they are part of, are tested. The sums are made in i64, which holds them for any parameter sets.
#![tactic(auto, unfolding(syntax::specs::Marks::signed_if, fmt::specs::Fmt::shaped, fmt::specs::Fmt::test, fmt::specs::Fmt::when, fmt::specs::Leaves::se))]

ghost use Rattle.std.specs.Prelude.{◌≡◌, ◌*◌, pos, neg_ℤ};
ghost use Rattle.bits.specs.Bits.{bits_of};
ghost use Rattle.fmt.specs.Fmt.{test};
ghost use Rattle.fmt.specs.Leaves.{se};
ghost use Rattle.syntax.specs.Context.{level, qp_fits, qs_fits};
ghost use Rattle.syntax.specs.Marks.{signed_if};
ghost use Rattle.bits.specs.Answers.{as_read};

use crate::marks::{absent, marked};
use bits::read::{Cursor, Read};
use bits::refusals::{QP_RANGE, QS_RANGE, refuse_at};
use syntax::context::Context;
use syntax::marks::Marked;
use table::sets::within_signed;

// QP or QS: 26 + init + d
pub fn level(init: i32, d: i32) -> i64
    ensures { result ≡ level init d }
{
    26 + init as i64 + d as i64
}

// -QpBdOffset, the lowest QP
fn lowest(depth: u32) -> i64
    ensures { result ≡ neg_ℤ (pos (6 * depth)) }
{
    -(6 * depth as i64)
}

// Whether slice_qp_delta puts QP in range.
pub fn qp_fits(x: Context, d: i32) -> bool
    ensures { result ≡ qp_fits x d }
{
    let low = lowest(x.sequence.bit_depth_luma_minus8);
    let p = x.picture;
    within_signed(low, 51, level(p.pic_init_qp_minus26, d))
}

// Whether slice_qs_delta puts QS in range.
pub fn qs_fits(x: Context, d: i32) -> bool
    ensures { result ≡ qs_fits x d }
{
    let p = x.picture;
    within_signed(0, 51, level(p.pic_init_qs_minus26, d))
}

// slice_qp_delta
pub fn qp_delta(s: &[u8], c: Cursor, x: Context) -> Read<i32>
    ensures { as_read result ≡ (test (qp_fits x) 16 (λ d. d) se).read (bits_of s.now) c.at }
{
    let (v, next) = c.se(s)?;
    if qp_fits(x, v) {
        Ok((v, next))
    } else {
        Err(refuse_at(QP_RANGE, v as i64, c.at))
    }
}

fn qs_delta(s: &[u8], c: Cursor, x: Context) -> Read<i32>
    ensures { as_read result ≡ (test (qs_fits x) 17 (λ d. d) se).read (bits_of s.now) c.at }
{
    let (v, next) = c.se(s)?;
    if qs_fits(x, v) {
        Ok((v, next))
    } else {
        Err(refuse_at(QS_RANGE, v as i64, c.at))
    }
}

// slice_qs_delta
pub fn qs_delta_if(s: &[u8], c: Cursor, there: bool, x: Context) -> Read<Marked<i32>>
    ensures { as_read result ≡ (signed_if there (test (qs_fits x) 17 (λ d. d) se)).read (bits_of s.now) c.at }
{
    if there {
        marked(qs_delta(s, c, x))
    } else {
        absent(c, 0)
    }
}
