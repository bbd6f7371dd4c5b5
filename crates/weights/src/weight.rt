// An entry of pred_weight_table( ), in two halves: luma, and chroma.
#![tactic(auto, unfolding(crate::specs::Halves::luma_half, crate::specs::Halves::chroma_half, fmt::specs::Fmt::seq, fmt::specs::Fmt::shaped, syntax::specs::SliceHeader::weight, fmt::specs::Leaves::flag))]

ghost use Rattle.std.specs.Prelude.{◌≡◌};
ghost use Rattle.bits.specs.Bits.{bits_of};
ghost use Rattle.syntax.specs.SliceHeader.{weight};
ghost use Rattle.weights.specs.Steps.{as_luma, as_chroma};
ghost use Rattle.weights.specs.Halves.{luma_half, chroma_half};
ghost use Rattle.bits.specs.Answers.{as_read};

use bits::read::{Cursor, Read};
use bits::refusals::Refusal;
use fields::read::{given_flag, given_signed};
use syntax::record::Weight;

#[derive(Clone, Copy)]
struct Luma {
    flag: bool,
    weight: i32,
    offset: i32,
}

#[derive(Clone, Copy)]
struct Chroma {
    flag: bool,
    cb_weight: i32,
    cb_offset: i32,
    cr_weight: i32,
    cr_offset: i32,
}

fn luma_half(s: &[u8], c: Cursor) -> Read<Luma>
    ensures { as_luma result ≡ luma_half.read (bits_of s.now) c.at }
{
    let (f, c1) = c.flag(s)?;
    let (w, c2) = given_signed(s, c1, f)?;
    let (o, c3) = given_signed(s, c2, f)?;
    Ok((
        Luma {
            flag: f,
            weight: w,
            offset: o,
        },
        c3,
    ))
}

fn chroma_half(s: &[u8], c: Cursor, chroma: bool) -> Read<Chroma>
    ensures { as_chroma result ≡ (chroma_half chroma).read (bits_of s.now) c.at }
{
    let (f, c1) = given_flag(s, c, chroma)?;
    let (bw, c2) = given_signed(s, c1, f)?;
    let (bo, c3) = given_signed(s, c2, f)?;
    let (rw, c4) = given_signed(s, c3, f)?;
    let (ro, c5) = given_signed(s, c4, f)?;
    Ok((
        Chroma {
            flag: f,
            cb_weight: bw,
            cb_offset: bo,
            cr_weight: rw,
            cr_offset: ro,
        },
        c5,
    ))
}

// An entry; its chroma half is there only if `chroma`.
pub fn weight(s: &[u8], c: Cursor, chroma: bool) -> Read<Weight>
    ensures { as_read result ≡ (weight chroma).read (bits_of s.now) c.at }
{
    let (l, c1) = luma_half(s, c)?;
    let (h, c2) = chroma_half(s, c1, chroma)?;
    Ok((
        Weight {
            luma_weight_flag: l.flag,
            luma_weight: l.weight,
            luma_offset: l.offset,
            chroma_weight_flag: h.flag,
            cb_weight: h.cb_weight,
            cb_offset: h.cb_offset,
            cr_weight: h.cr_weight,
            cr_offset: h.cr_offset,
        },
        c2,
    ))
}
