// pic_order_cnt_lsb to redundant_pic_cnt. `field` is field_pic_flag.
ghost use Rattle.syntax.specs.SliceHeader.{deltas, order_count};
ghost use Rattle.writer.specs.Places.{PutTo};

use crate::marks::{fitting, put_given_signed, put_lsb_if, put_number_if, put_signed_if};
use bits::read::Cursor;
use fields::conditions::both;
use syntax::context::Context;
use syntax::record::{Deltas, OrderCount};

// delta_pic_order_cnt[0] and [1]
fn put_deltas(d: &mut [u8], c: Cursor, x: Context, field: bool, v: Deltas) -> Option<Cursor>
    ensures { PutTo (deltas x field) v d.old c.at d.new result }
{
    let there = x.sequence.pic_order_cnt_type == 1;
    if !fitting(there, v.there, true) {
        return None;
    }
    let first_there = both(there, !x.sequence.delta_pic_order_always_zero_flag);
    let bottom = both(
        x.picture.bottom_field_pic_order_in_frame_present_flag,
        !field,
    );
    let c1 = put_given_signed(d, c, first_there, v.first)?;
    put_given_signed(d, c1, both(first_there, bottom), v.second)
}

pub(crate) fn put_order_count(
    d: &mut [u8],
    c: Cursor,
    x: Context,
    field: bool,
    o: OrderCount,
) -> Option<Cursor>
    ensures { PutTo (order_count x field) o d.old c.at d.new result }
{
    let there = x.sequence.pic_order_cnt_type == 0;
    let bottom = both(
        x.picture.bottom_field_pic_order_in_frame_present_flag,
        !field,
    );
    let width = x.sequence.log2_max_pic_order_cnt_lsb_minus4;
    let c1 = put_lsb_if(d, c, there, o.pic_order_cnt_lsb, width)?;
    let c2 = put_signed_if(d, c1, both(there, bottom), o.delta_pic_order_cnt_bottom)?;
    let c3 = put_deltas(d, c2, x, field, o.delta_pic_order_cnt)?;
    put_number_if(
        d,
        c3,
        x.picture.redundant_pic_cnt_present_flag,
        o.redundant_pic_cnt,
    )
}
