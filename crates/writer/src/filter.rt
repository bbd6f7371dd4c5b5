// disable_deblocking_filter_idc to slice_group_change_cycle.
ghost use Rattle.syntax.specs.SliceHeader.{filter};
ghost use Rattle.writer.specs.Places.{PutTo};

use crate::marks::{put_bits_if, put_offset_if, put_tested_if};
use bits::read::Cursor;
use bits::refusals::{ALPHA_OFFSET, BETA_OFFSET, DEBLOCKING_IDC};
use fields::conditions::both;
use syntax::context::Context;
use syntax::record::Filter;

pub(crate) fn put_filter(d: &mut [u8], c: Cursor, x: Context, f: Filter) -> Option<Cursor>
    ensures { PutTo (filter x) f d.old c.at d.new result }
{
    let idc = f.disable_deblocking_filter_idc;
    let control = x.picture.deblocking_filter_control_present_flag;
    let c1 = put_tested_if(d, c, control, idc, 6, DEBLOCKING_IDC)?;
    let offsets = both(idc.there, idc.value != 1);
    let c2 = put_offset_if(d, c1, offsets, f.slice_alpha_c0_offset_div2, ALPHA_OFFSET)?;
    let c3 = put_offset_if(d, c2, offsets, f.slice_beta_offset_div2, BETA_OFFSET)?;
    let rate = x.picture.slice_group_change_rate;
    put_bits_if(d, c3, 0 < rate, f.slice_group_change_cycle, x.cycle_width)
}
