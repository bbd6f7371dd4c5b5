// cabac_init_idc to slice_qs_delta.
ghost use Rattle.std.specs.Prelude.{◌≡◌};
ghost use Rattle.syntax.specs.SliceHeader.{quantiser};
ghost use Rattle.writer.specs.Places.{PutTo};

use crate::marks::{put_flag_if, put_number_if, put_qp, put_qs_if};
use bits::read::Cursor;
use fields::conditions::{SI, SP, either, has_cabac, is_type};
use syntax::context::Context;
use syntax::record::Quantiser;

pub(crate) fn put_quantiser(
    d: &mut [u8],
    c: Cursor,
    x: Context,
    slice_type: u32,
    q: Quantiser,
) -> Option<Cursor>
    ensures { PutTo (quantiser x slice_type) q d.old c.at d.new result }
{
    let c1 = put_number_if(d, c, has_cabac(x, slice_type), q.cabac_init_idc)?;
    let c2 = put_qp(d, c1, q.slice_qp_delta, x)?;
    let sp = is_type(slice_type, SP);
    let c3 = put_flag_if(d, c2, sp, q.sp_for_switch_flag)?;
    let switching = either(sp, is_type(slice_type, SI));
    put_qs_if(d, c3, switching, q.slice_qs_delta, x)
}
