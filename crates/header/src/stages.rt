// The parts after pic_parameter_set_id, in stages, but for those with lists. Each is laid down behind its reading.
ghost use Rattle.std.specs.Prelude.{◌≡◌, ◌+◌};
ghost use Rattle.bits.specs.Bits.{bits_of};
ghost use Rattle.bits.specs.Refusals.{pick};
ghost use Rattle.syntax.specs.SliceHeader.{active_of};
ghost use Rattle.weights.specs.Counts.{at_most32};
ghost use Rattle.header.specs.Stages.{front_at, first_flag_at, marking_flags_at, back_at};
ghost use Rattle.header.specs.Told.{FrontTold, BackTold};
ghost use Rattle.bits.specs.Answers.{as_read};

use crate::words::{lay_counts, lay_filter, lay_frame, lay_order, lay_quantiser};
use bits::read::{Cursor, Read};
use bits::refusals::{Refusal, why};
use fields::conditions::{both, has_l0};
use fields::read::{flag_if, not_scalable};
use parts::counts::active_counts;
use parts::filter::filter;
use parts::frame::frame;
use parts::order::order_count;
use parts::quantiser::quantiser;
use syntax::context::Context;
use syntax::marks::Marked;
use syntax::record::ActiveCounts;

// The flags of dec_ref_pic_marking( )
#[derive(Clone, Copy)]
pub struct MarkingFlags {
    pub no_output_of_prior_pics_flag: Marked<bool>,
    pub long_term_reference_flag: Marked<bool>,
    pub adaptive_ref_pic_marking_mode_flag: Marked<bool>,
}

// colour_plane_id to num_ref_idx_l1_active_minus1. Only the counts are needed later.
pub(crate) fn front(
    s: &[u8],
    c: Cursor,
    x: Context,
    slice_type: u32,
    numbers: &mut [u32; 57],
    signed: &mut [i32; 7],
) -> Read<ActiveCounts>
    ensures { FrontTold (front_at x slice_type (bits_of s.now) c.at) result numbers.old signed.old numbers.new signed.new }
{
    let a1 = frame(s, c, x);
    let Ok((frame, c1)) = a1 else {
        return Err(why(a1));
    };
    lay_frame(frame, numbers);
    let a2 = order_count(s, c1, x, frame.field_pic_flag.value);
    let Ok((order_count, c2)) = a2 else {
        return Err(why(a2));
    };
    lay_order(order_count, numbers, signed);
    let a3 = active_counts(s, c2, slice_type);
    let Ok((active_counts, c3)) = a3 else {
        return Err(why(a3));
    };
    lay_counts(active_counts, numbers);
    Ok((active_counts, c3))
}

fn own_or(m: Marked<u32>, default: u32) -> u32
    ensures { result ≡ pick m.there m.value default }
{
    if m.there { m.value } else { default }
}

fn one_more(n: u32) -> u32
    ensures { result ≡ at_most32 (n + 1) }
{
    if n < 32 { n + 1 } else { 32 }
}

// How many references a list has; more than 32 count as 32.
pub fn active(m: Marked<u32>, default: u32) -> u32
    ensures { result ≡ at_most32 (active_of m default) }
{
    one_more(own_or(m, default))
}

// ref_pic_list_modification_flag_l0. A scalable slice is refused where it would stand.
pub fn first_flag(s: &[u8], c: Cursor, x: Context, slice_type: u32) -> Read<Marked<bool>>
    ensures { as_read result ≡ first_flag_at x slice_type (bits_of s.now) c.at }
{
    let a1 = not_scalable(c, x);
    let Ok(c1) = a1 else {
        return Err(why(a1));
    };
    flag_if(s, c1, has_l0(slice_type))
}

// The flags of dec_ref_pic_marking( ): two in an IDR picture, one in any other.
pub fn marking_flags(s: &[u8], c: Cursor, x: Context) -> Read<MarkingFlags>
    ensures { as_read result ≡ marking_flags_at x (bits_of s.now) c.at }
{
    let idr = both(x.kind.reference, x.kind.idr);
    let a1 = flag_if(s, c, idr);
    let Ok((no_output, c1)) = a1 else {
        return Err(why(a1));
    };
    let a2 = flag_if(s, c1, idr);
    let Ok((long_term, c2)) = a2 else {
        return Err(why(a2));
    };
    let a3 = flag_if(s, c2, both(x.kind.reference, !x.kind.idr));
    let Ok((adaptive, c3)) = a3 else {
        return Err(why(a3));
    };
    Ok((
        MarkingFlags {
            no_output_of_prior_pics_flag: no_output,
            long_term_reference_flag: long_term,
            adaptive_ref_pic_marking_mode_flag: adaptive,
        },
        c3,
    ))
}

// cabac_init_idc to slice_group_change_cycle
pub(crate) fn back(
    s: &[u8],
    c: Cursor,
    x: Context,
    slice_type: u32,
    numbers: &mut [u32; 57],
    signed: &mut [i32; 7],
) -> Result<Cursor, Refusal>
    ensures { BackTold (back_at x slice_type (bits_of s.now) c.at) result numbers.old signed.old numbers.new signed.new }
{
    let a1 = quantiser(s, c, x, slice_type);
    let Ok((quantiser, c1)) = a1 else {
        return Err(why(a1));
    };
    lay_quantiser(quantiser, numbers, signed);
    let a2 = filter(s, c1, x);
    let Ok((filter, c2)) = a2 else {
        return Err(why(a2));
    };
    lay_filter(filter, numbers, signed);
    Ok(c2)
}
