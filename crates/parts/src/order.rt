// pic_order_cnt_lsb to redundant_pic_cnt. `field` is field_pic_flag.
#![tactic(auto, unfolding(syntax::specs::SliceHeader::deltas, syntax::specs::SliceHeader::order_count, fmt::specs::Fmt::seq, fmt::specs::Fmt::shaped))]

ghost use Rattle.std.specs.Prelude.{not, ◌&&◌, ◌≡◌};
ghost use Rattle.bits.specs.Bits.{bits_of};
ghost use Rattle.syntax.specs.SliceHeader.{deltas, order_count};
ghost use Rattle.bits.specs.Answers.{as_read};

use bits::read::{Cursor, Read};
use bits::refusals::{Refusal, why};
use fields::conditions::both;
use fields::read::{given_signed, lsb_if, number_if, signed_if};
use syntax::context::Context;
use syntax::record::{Deltas, OrderCount};

// Whether the second of a pair of order counts is there: that of the frame's bottom field.
fn has_bottom(x: Context, field: bool) -> bool
    ensures { result ≡ x.picture.bottom_field_pic_order_in_frame_present_flag && not field }
{
    both(
        x.picture.bottom_field_pic_order_in_frame_present_flag,
        !field,
    )
}

// delta_pic_order_cnt[0] and [1]
fn deltas(s: &[u8], c: Cursor, x: Context, field: bool) -> Read<Deltas>
    ensures { as_read result ≡ (deltas x field).read (bits_of s.now) c.at }
{
    let there = x.sequence.pic_order_cnt_type == 1;
    let first_there = both(there, !x.sequence.delta_pic_order_always_zero_flag);
    let a1 = given_signed(s, c, first_there);
    let Ok((first, c1)) = a1 else {
        return Err(why(a1));
    };
    let a2 = given_signed(s, c1, both(first_there, has_bottom(x, field)));
    let Ok((second, c2)) = a2 else {
        return Err(why(a2));
    };
    Ok((
        Deltas {
            there,
            first,
            second,
        },
        c2,
    ))
}

pub fn order_count(s: &[u8], c: Cursor, x: Context, field: bool) -> Read<OrderCount>
    ensures { as_read result ≡ (order_count x field).read (bits_of s.now) c.at }
{
    let there = x.sequence.pic_order_cnt_type == 0;
    let a1 = lsb_if(s, c, there, x.sequence.log2_max_pic_order_cnt_lsb_minus4);
    let Ok((pic_order_cnt_lsb, c1)) = a1 else {
        return Err(why(a1));
    };
    let a2 = signed_if(s, c1, both(there, has_bottom(x, field)));
    let Ok((delta_pic_order_cnt_bottom, c2)) = a2 else {
        return Err(why(a2));
    };
    let a3 = deltas(s, c2, x, field);
    let Ok((delta_pic_order_cnt, c3)) = a3 else {
        return Err(why(a3));
    };
    let a4 = number_if(s, c3, x.picture.redundant_pic_cnt_present_flag);
    let Ok((redundant_pic_cnt, c4)) = a4 else {
        return Err(why(a4));
    };
    Ok((
        OrderCount {
            pic_order_cnt_lsb,
            delta_pic_order_cnt_bottom,
            delta_pic_order_cnt,
            redundant_pic_cnt,
        },
        c4,
    ))
}
