// What two neighbouring slices tell: whether the second begins a new picture, and whether frames are missing between their pictures.
ghost use Rattle.std.specs.Prelude.{◌≡◌};
ghost use Rattle.exposures.specs.Compare.{apart, apart_b, apart_z, frames, fields, references, counts0, counts1, idrs, differ, next_frame, gap_after};

use crate::slice::Slice;
use fields::conditions::{both, either};

fn numbers(a: u32, b: u32) -> bool
    ensures { result ≡ apart a b }
{
    a != b
}

fn flags(a: bool, b: bool) -> bool
    ensures { result ≡ apart_b a b }
{
    if a { !b } else { b }
}

fn signed(a: i64, b: i64) -> bool
    ensures { result ≡ apart_z a b }
{
    if a <= b { !(b <= a) } else { true }
}

// frame_num or pic_parameter_set_id differs.
fn frames_differ(a: Slice, b: Slice) -> bool
    ensures { result ≡ frames a b }
{
    either(
        numbers(a.frame_num, b.frame_num),
        numbers(a.pic_parameter_set_id, b.pic_parameter_set_id),
    )
}

// field_pic_flag or bottom_field_flag differs.
fn fields_differ(a: Slice, b: Slice) -> bool
    ensures { result ≡ fields a b }
{
    either(
        flags(a.field_pic_flag, b.field_pic_flag),
        flags(a.bottom_field_flag, b.bottom_field_flag),
    )
}

// nal_ref_idc differs, and one of them is 0.
fn references_differ(a: Slice, b: Slice) -> bool
    ensures { result ≡ references a b }
{
    both(
        numbers(a.nal_ref_idc, b.nal_ref_idc),
        either(a.nal_ref_idc == 0, b.nal_ref_idc == 0),
    )
}

// Order count type 0 in both, and a field of it differs.
fn counts_0_differ(a: Slice, b: Slice) -> bool
    ensures { result ≡ counts0 a b }
{
    both(
        both(a.pic_order_cnt_type == 0, b.pic_order_cnt_type == 0),
        either(
            numbers(a.pic_order_cnt_lsb, b.pic_order_cnt_lsb),
            signed(a.delta_pic_order_cnt_bottom, b.delta_pic_order_cnt_bottom),
        ),
    )
}

// Order count type 1 in both, and a field of it differs.
fn counts_1_differ(a: Slice, b: Slice) -> bool
    ensures { result ≡ counts1 a b }
{
    both(
        both(a.pic_order_cnt_type == 1, b.pic_order_cnt_type == 1),
        either(
            signed(a.delta_pic_order_cnt_0, b.delta_pic_order_cnt_0),
            signed(a.delta_pic_order_cnt_1, b.delta_pic_order_cnt_1),
        ),
    )
}

// IdrPicFlag differs, or both are IDR and idr_pic_id differs.
fn idrs_differ(a: Slice, b: Slice) -> bool
    ensures { result ≡ idrs a b }
{
    either(
        flags(a.idr_pic_flag, b.idr_pic_flag),
        both(
            both(a.idr_pic_flag, b.idr_pic_flag),
            numbers(a.idr_pic_id, b.idr_pic_id),
        ),
    )
}

// Whether `b`, the slice behind `a`, is the first of a new picture.
pub(crate) fn is_first(a: Slice, b: Slice) -> bool
    ensures { result ≡ differ a b }
{
    if frames_differ(a, b) {
        return true;
    }
    if fields_differ(a, b) {
        return true;
    }
    if references_differ(a, b) {
        return true;
    }
    if counts_0_differ(a, b) {
        return true;
    }
    if counts_1_differ(a, b) {
        return true;
    }
    idrs_differ(a, b)
}

// The frame_num behind n: one more, modulo 2 to the power `log2`.
fn next_frame(n: u32, log2: u32) -> u64
    ensures { result ≡ next_frame n log2 }
{
    let m = n as u64 + 1;
    if log2 < 33 { m % (1 << log2) } else { m }
}

// Whether frames are missing before the picture that `s` is the first slice of, behind a picture with frame_num n.
pub(crate) fn is_gap(n: u32, s: Slice) -> bool
    ensures { result ≡ gap_after n s }
{
    if s.idr_pic_flag {
        return false;
    }
    if s.frame_num == n {
        return false;
    }
    s.frame_num as u64 != next_frame(n, s.log2_max_frame_num)
}
