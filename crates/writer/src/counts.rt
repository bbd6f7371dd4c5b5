// direct_spatial_mv_pred_flag to num_ref_idx_l1_active_minus1.
ghost use Rattle.syntax.specs.SliceHeader.{active_counts};
ghost use Rattle.writer.specs.Places.{PutTo};

use crate::marks::{put_flag_if, put_tested_if};
use bits::read::Cursor;
use bits::refusals::ACTIVE_COUNT;
use fields::conditions::{B, both, has_l0, is_type};
use syntax::record::ActiveCounts;

// The greatest num_ref_idx_l0_active_minus1 and num_ref_idx_l1_active_minus1.
const MOST: u32 = 31;

pub(crate) fn put_active_counts(
    d: &mut [u8],
    c: Cursor,
    slice_type: u32,
    a: ActiveCounts,
) -> Option<Cursor>
    ensures { PutTo (active_counts slice_type) a d.old c.at d.new result }
{
    let b = is_type(slice_type, B);
    let c1 = put_flag_if(d, c, b, a.direct_spatial_mv_pred_flag)?;
    let over = a.num_ref_idx_active_override_flag;
    let c2 = put_flag_if(d, c1, has_l0(slice_type), over)?;
    let l0 = a.num_ref_idx_l0_active_minus1;
    let c3 = put_tested_if(d, c2, over.value, l0, MOST, ACTIVE_COUNT)?;
    let l1 = a.num_ref_idx_l1_active_minus1;
    put_tested_if(d, c3, both(over.value, b), l1, MOST, ACTIVE_COUNT)
}
