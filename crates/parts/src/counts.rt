// direct_spatial_mv_pred_flag to num_ref_idx_l1_active_minus1.
#![tactic(auto, unfolding(syntax::specs::SliceHeader::active_counts, syntax::specs::SliceHeader::active_minus1, fmt::specs::Fmt::seq, fmt::specs::Fmt::shaped))]

ghost use Rattle.std.specs.Prelude.{◌≡◌};
ghost use Rattle.bits.specs.Bits.{bits_of};
ghost use Rattle.syntax.specs.SliceHeader.{active_counts};
ghost use Rattle.bits.specs.Answers.{as_read};

use bits::read::{Cursor, Read};
use bits::refusals::{ACTIVE_COUNT, Refusal, why};
use fields::conditions::{B, both, has_l0, is_type};
use fields::read::{flag_if, tested_if};
use syntax::record::ActiveCounts;

// The greatest num_ref_idx_l0_active_minus1 and num_ref_idx_l1_active_minus1.
const MOST: u32 = 31;

pub fn active_counts(s: &[u8], c: Cursor, slice_type: u32) -> Read<ActiveCounts>
    ensures { as_read result ≡ (active_counts slice_type).read (bits_of s.now) c.at }
{
    let b = is_type(slice_type, B);
    let a1 = flag_if(s, c, b);
    let Ok((direct_spatial_mv_pred_flag, c1)) = a1 else {
        return Err(why(a1));
    };
    let a2 = flag_if(s, c1, has_l0(slice_type));
    let Ok((num_ref_idx_active_override_flag, c2)) = a2 else {
        return Err(why(a2));
    };
    let a3 = tested_if(
        s,
        c2,
        num_ref_idx_active_override_flag.value,
        MOST,
        ACTIVE_COUNT,
    );
    let Ok((num_ref_idx_l0_active_minus1, c3)) = a3 else {
        return Err(why(a3));
    };
    let a4 = tested_if(
        s,
        c3,
        both(num_ref_idx_active_override_flag.value, b),
        MOST,
        ACTIVE_COUNT,
    );
    let Ok((num_ref_idx_l1_active_minus1, c4)) = a4 else {
        return Err(why(a4));
    };
    Ok((
        ActiveCounts {
            direct_spatial_mv_pred_flag,
            num_ref_idx_active_override_flag,
            num_ref_idx_l0_active_minus1,
            num_ref_idx_l1_active_minus1,
        },
        c4,
    ))
}
