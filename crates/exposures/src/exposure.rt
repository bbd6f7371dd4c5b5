// A picture's exposure: what a stacker weighs it by, from its slices one by one.
ghost use Rattle.std.specs.Prelude.{◌≡◌, suc};
ghost use Rattle.exposures.specs.Exposure.{held, lesser, greater, near, plus, one_slice, more};

use crate::slice::Slice;

// A count is not over this: it stays there.
pub const MOST: usize = 18_446_744_073_709_551_615;

// A QP, or a sum of them, counts as at most this far from zero in the next sum: 2^61.
pub const FAR: i64 = 2_305_843_009_213_693_952;

#[repr(C)]
#[derive(Clone, Copy)]
pub struct Exposure {
    // of the first slice
    pub place: usize,
    // how many slices it has
    pub slices: usize,
    pub qp_least: i64,
    pub qp_greatest: i64,
    pub qp_sum: i64,
    pub frame_num: u32,
    // frame_num is neither that of the picture before nor the one behind it
    pub gap: bool,
    // refused units behind the first slice of the picture before, or the recording's start, and before its own
    pub refused_before: usize,
}

pub(crate) fn one_more(n: usize) -> usize
    ensures { result ≡ held (suc n) }
{
    if n < MOST { n + 1 } else { n }
}

fn lesser_of(a: i64, b: i64) -> i64
    ensures { result ≡ lesser a b }
{
    if a <= b { a } else { b }
}

fn greater_of(a: i64, b: i64) -> i64
    ensures { result ≡ greater a b }
{
    if a <= b { b } else { a }
}

fn near_zero(z: i64) -> i64
    ensures { result ≡ near z }
{
    if z <= -FAR {
        return -FAR;
    }
    if FAR <= z { FAR } else { z }
}

fn sum_of(a: i64, b: i64) -> i64
    ensures { result ≡ plus a b }
{
    near_zero(a) + near_zero(b)
}

// The exposure of a picture that has its first slice alone.
pub(crate) fn first_slice(s: Slice, gap: bool, refused_before: usize) -> Exposure
    ensures { result ≡ one_slice gap refused_before s }
{
    Exposure {
        place: s.place,
        slices: 1,
        qp_least: s.qp,
        qp_greatest: s.qp,
        qp_sum: s.qp,
        frame_num: s.frame_num,
        gap,
        refused_before,
    }
}

// And with a slice more.
pub(crate) fn next_slice(e: Exposure, s: Slice) -> Exposure
    ensures { result ≡ more e s }
{
    Exposure {
        place: e.place,
        slices: one_more(e.slices),
        qp_least: lesser_of(e.qp_least, s.qp),
        qp_greatest: greater_of(e.qp_greatest, s.qp),
        qp_sum: sum_of(e.qp_sum, s.qp),
        frame_num: e.frame_num,
        gap: e.gap,
        refused_before: e.refused_before,
    }
}
