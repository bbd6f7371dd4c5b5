// pred_weight_table( ): entries of luma and chroma weights, one for each active reference.
ghost use Rattle.std.specs.Prelude.{◌≤◌};
ghost use Rattle.syntax.specs.SliceHeader.{weight, weight_list, pred_weight_table};
ghost use Rattle.weights.specs.Halves.{chroma_half};
ghost use Rattle.record.specs.Fields.{number_in};
ghost use Rattle.record.specs.Entries.{weights_from};
ghost use Rattle.record.specs.Record.{weight_table_from};
ghost use Rattle.writer.specs.Places.{PutTo};

use crate::marks::{number_of, put_flag, put_given_flag, put_given_signed, put_number_if};
use bits::read::Cursor;
use fields::conditions::{B, both, has_chroma, is_type, is_weighted};
use record::entries::weight_at;
use syntax::context::Context;
use syntax::record::Weight;
use weights::weights::count_if;

// The chroma half of an entry, there only if `chroma`.
fn put_chroma_half(d: &mut [u8], c: Cursor, chroma: bool, w: Weight) -> Option<Cursor>
    ensures { PutTo (chroma_half chroma) (w.chroma_weight_flag, (w.cb_weight, (w.cb_offset, (w.cr_weight, w.cr_offset)))) d.old c.at d.new result }
{
    let f = w.chroma_weight_flag;
    let c1 = put_given_flag(d, c, chroma, f)?;
    let c2 = put_given_signed(d, c1, f, w.cb_weight)?;
    let c3 = put_given_signed(d, c2, f, w.cb_offset)?;
    let c4 = put_given_signed(d, c3, f, w.cr_weight)?;
    put_given_signed(d, c4, f, w.cr_offset)
}

// An entry.
pub(crate) fn put_weight(d: &mut [u8], c: Cursor, chroma: bool, w: Weight) -> Option<Cursor>
    ensures { PutTo (weight chroma) w d.old c.at d.new result }
{
    let f = w.luma_weight_flag;
    let c1 = put_flag(d, c, f)?;
    let c2 = put_given_signed(d, c1, f, w.luma_weight)?;
    let c3 = put_given_signed(d, c2, f, w.luma_offset)?;
    put_chroma_half(d, c3, chroma, w)
}

// A list of n entries, in the first `count` entries of its words.
pub(crate) fn put_weight_list(
    d: &mut [u8],
    c: Cursor,
    chroma: bool,
    n: u32,
    count: u32,
    words: &[i32; 256],
) -> Option<Cursor>
    requires { count ≤ 32 }
    ensures { PutTo (weight_list chroma n) (weights_from count words.now) d.old c.at d.new result }
{
    if count != n {
        return None;
    }
    let mut at = c;
    for i in 0..count {
        let w = weight_at(words, i);
        at = put_weight(d, at, chroma, w)?;
    }
    Some(at)
}

// The table for lists of n0 and n1 references.
pub(crate) fn put_pred_weight_table(
    d: &mut [u8],
    c: Cursor,
    x: Context,
    slice_type: u32,
    n0: u32,
    n1: u32,
    numbers: &[u32; 57],
    w0: &[i32; 256],
    w1: &[i32; 256],
) -> Option<Cursor>
    requires { (number_in numbers.now 37 ≤ 32) × (number_in numbers.now 38 ≤ 32) }
    ensures { PutTo (pred_weight_table x slice_type n0 n1) (weight_table_from numbers.now w0.now w1.now) d.old c.at d.new result }
{
    let weighted = is_weighted(x, slice_type);
    let chroma = has_chroma(x);
    let luma_denom = number_of(numbers[33], numbers[34]);
    let chroma_denom = number_of(numbers[35], numbers[36]);
    let c1 = put_number_if(d, c, weighted, luma_denom)?;
    let c2 = put_number_if(d, c1, both(weighted, chroma), chroma_denom)?;
    let m = count_if(weighted, n0);
    let c3 = put_weight_list(d, c2, chroma, m, numbers[37], w0)?;
    let n = count_if(both(weighted, is_type(slice_type, B)), n1);
    put_weight_list(d, c3, chroma, n, numbers[38], w1)
}
