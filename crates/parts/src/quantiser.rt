// cabac_init_idc to slice_qs_delta.
#![tactic(auto, unfolding(syntax::specs::SliceHeader::quantiser, fmt::specs::Fmt::seq, fmt::specs::Fmt::shaped))]

ghost use Rattle.std.specs.Prelude.{◌≡◌};
ghost use Rattle.bits.specs.Bits.{bits_of};
ghost use Rattle.syntax.specs.SliceHeader.{quantiser};
ghost use Rattle.bits.specs.Answers.{as_read};

use bits::read::{Cursor, Read};
use bits::refusals::{Refusal, why};
use fields::conditions::{SI, SP, either, has_cabac, is_type};
use fields::quant::{qp_delta, qs_delta_if};
use fields::read::{flag_if, number_if};
use syntax::context::Context;
use syntax::record::Quantiser;

pub fn quantiser(s: &[u8], c: Cursor, x: Context, slice_type: u32) -> Read<Quantiser>
    ensures { as_read result ≡ (quantiser x slice_type).read (bits_of s.now) c.at }
{
    let a1 = number_if(s, c, has_cabac(x, slice_type));
    let Ok((cabac_init_idc, c1)) = a1 else {
        return Err(why(a1));
    };
    let a2 = qp_delta(s, c1, x);
    let Ok((slice_qp_delta, c2)) = a2 else {
        return Err(why(a2));
    };
    let sp = is_type(slice_type, SP);
    let a3 = flag_if(s, c2, sp);
    let Ok((sp_for_switch_flag, c3)) = a3 else {
        return Err(why(a3));
    };
    let a4 = qs_delta_if(s, c3, either(sp, is_type(slice_type, SI)), x);
    let Ok((slice_qs_delta, c4)) = a4 else {
        return Err(why(a4));
    };
    Ok((
        Quantiser {
            cabac_init_idc,
            slice_qp_delta,
            sp_for_switch_flag,
            slice_qs_delta,
        },
        c4,
    ))
}
