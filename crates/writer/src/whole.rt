// All parts of the header in order, by the sets that its picture set id names.
ghost use Rattle.std.specs.Prelude.{true, ◌≡◌, ◌≤◌};
ghost use Rattle.syntax.specs.SliceHeader.{of_header};
ghost use Rattle.record.specs.Fields.{number_in};
ghost use Rattle.record.specs.Record.{plain_numbers, header_from};
ghost use Rattle.writer.specs.Places.{PutTo};
ghost use Rattle.writer.specs.Write.{held_words};
ghost use Rattle.writer.specs.Stages.{known_lead, back, middle, fields};

use crate::counts::put_active_counts;
use crate::filter::put_filter;
use crate::frame::put_frame;
use crate::marking::put_marking;
use crate::marks::{put_number, put_tested};
use crate::modification::put_modifications;
use crate::order::put_order_count;
use crate::quantiser::put_quantiser;
use crate::weight_table::put_pred_weight_table;
use bits::read::Cursor;
use bits::refusals::SLICE_TYPE;
use header::stages::active;
use record::parts_of::{active_counts_of, filter_of, frame_of, order_count_of, quantiser_of};
use syntax::context::Context;
use syntax::record::{Filter, Quantiser};

// first_mb_in_slice to pic_parameter_set_id, which has been looked up.
fn put_lead(d: &mut [u8], first_mb: u32, slice_type: u32, picture: u32) -> Option<Cursor>
    ensures { PutTo known_lead (first_mb, (slice_type, picture)) d.old 0 d.new result }
{
    let c1 = put_number(d, Cursor { at: 0 }, first_mb)?;
    let c2 = put_tested(d, c1, slice_type, 9, SLICE_TYPE)?;
    put_number(d, c2, picture)
}

// cabac_init_idc to slice_group_change_cycle.
fn put_back(
    d: &mut [u8],
    c: Cursor,
    x: Context,
    slice_type: u32,
    q: Quantiser,
    f: Filter,
) -> Option<Cursor>
    ensures { PutTo (back x slice_type) (q, f) d.old c.at d.new result }
{
    let c1 = put_quantiser(d, c, x, slice_type, q)?;
    put_filter(d, c1, x, f)
}

// ref_pic_list_modification( ) and all that follows it, for lists of n0 and n1 references.
fn put_middle(
    d: &mut [u8],
    c: Cursor,
    x: Context,
    n0: u32,
    n1: u32,
    numbers: &[u32; 57],
    signed: &[i32; 7],
    l0: &[u32; 198],
    l1: &[u32; 198],
    marking: &[u32; 198],
    w0: &[i32; 256],
    w1: &[i32; 256],
) -> Option<Cursor>
    requires { plain_numbers numbers.now ≡ true }
    ensures { PutTo (middle x (number_in numbers.now 1) n0 n1) (of_header (header_from (held_words numbers.now signed.now l0.now l1.now marking.now w0.now w1.now))).1.1.1.1 d.old c.at d.new result }
{
    let slice_type = numbers[1];
    let c1 = put_modifications(d, c, x, slice_type, numbers, l0, l1)?;
    let c2 = put_pred_weight_table(d, c1, x, slice_type, n0, n1, numbers, w0, w1)?;
    let c3 = put_marking(d, c2, x, numbers, marking)?;
    let q = quantiser_of(numbers, signed);
    let f = filter_of(numbers, signed);
    put_back(d, c3, x, slice_type, q, f)
}

// The header from the buffer's front on, by its sets. The record's seq_parameter_set_id is not looked at.
pub(crate) fn put_header(
    d: &mut [u8],
    x: Context,
    numbers: &[u32; 57],
    signed: &[i32; 7],
    l0: &[u32; 198],
    l1: &[u32; 198],
    marking: &[u32; 198],
    w0: &[i32; 256],
    w1: &[i32; 256],
) -> Option<Cursor>
    requires num_ref_idx_l0_default_active_minus1_bound { (x.picture.num_ref_idx_l0_default_active_minus1 ≤ 31) × (x.picture.num_ref_idx_l1_default_active_minus1 ≤ 31) }
    requires plain { plain_numbers numbers.now ≡ true }
    ensures { PutTo (fields x) (of_header (header_from (held_words numbers.now signed.now l0.now l1.now marking.now w0.now w1.now))) d.old 0 d.new result }
{
    let slice_type = numbers[1];
    let c1 = put_lead(d, numbers[0], slice_type, numbers[2])?;
    let c2 = put_frame(d, c1, x, frame_of(numbers))?;
    let o = order_count_of(numbers, signed);
    let c3 = put_order_count(d, c2, x, numbers[8] != 0, o)?;
    let a = active_counts_of(numbers);
    let c4 = put_active_counts(d, c3, slice_type, a)?;
    let n0 = active(
        a.num_ref_idx_l0_active_minus1,
        x.picture.num_ref_idx_l0_default_active_minus1,
    );
    let n1 = active(
        a.num_ref_idx_l1_active_minus1,
        x.picture.num_ref_idx_l1_default_active_minus1,
    );
    put_middle(d, c4, x, n0, n1, numbers, signed, l0, l1, marking, w0, w1)
}
