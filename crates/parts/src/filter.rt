// disable_deblocking_filter_idc to slice_group_change_cycle.
#![tactic(auto, unfolding(syntax::specs::SliceHeader::filter, fmt::specs::Fmt::seq, fmt::specs::Fmt::shaped))]

ghost use Rattle.std.specs.Prelude.{◌≡◌};
ghost use Rattle.bits.specs.Bits.{bits_of};
ghost use Rattle.syntax.specs.SliceHeader.{filter};
ghost use Rattle.bits.specs.Answers.{as_read};

use bits::read::{Cursor, Read};
use bits::refusals::{ALPHA_OFFSET, BETA_OFFSET, DEBLOCKING_IDC, Refusal, why};
use fields::conditions::both;
use fields::read::{bits_if, offset_if, tested_if};
use syntax::context::Context;
use syntax::record::Filter;

pub fn filter(s: &[u8], c: Cursor, x: Context) -> Read<Filter>
    ensures { as_read result ≡ (filter x).read (bits_of s.now) c.at }
{
    let a1 = tested_if(
        s,
        c,
        x.picture.deblocking_filter_control_present_flag,
        6,
        DEBLOCKING_IDC,
    );
    let Ok((disable_deblocking_filter_idc, c1)) = a1 else {
        return Err(why(a1));
    };
    let offsets = both(
        disable_deblocking_filter_idc.there,
        disable_deblocking_filter_idc.value != 1,
    );
    let a2 = offset_if(s, c1, offsets, ALPHA_OFFSET);
    let Ok((slice_alpha_c0_offset_div2, c2)) = a2 else {
        return Err(why(a2));
    };
    let a3 = offset_if(s, c2, offsets, BETA_OFFSET);
    let Ok((slice_beta_offset_div2, c3)) = a3 else {
        return Err(why(a3));
    };
    let rate = x.picture.slice_group_change_rate;
    let a4 = bits_if(s, c3, 0 < rate, x.cycle_width);
    let Ok((slice_group_change_cycle, c4)) = a4 else {
        return Err(why(a4));
    };
    Ok((
        Filter {
            disable_deblocking_filter_idc,
            slice_alpha_c0_offset_div2,
            slice_beta_offset_div2,
            slice_group_change_cycle,
        },
        c4,
    ))
}
