// colour_plane_id to idr_pic_id.
#![tactic(auto, unfolding(syntax::specs::SliceHeader::frame, fmt::specs::Fmt::seq, fmt::specs::Fmt::shaped, fmt::specs::Leaves::u))]

ghost use Rattle.std.specs.Prelude.{◌≡◌};
ghost use Rattle.bits.specs.Bits.{bits_of};
ghost use Rattle.syntax.specs.SliceHeader.{frame};
ghost use Rattle.bits.specs.Answers.{as_read};

use bits::read::{Cursor, Read};
use bits::refusals::{Refusal, why};
use fields::read::{colour_plane_if, flag_if, number_if};
use syntax::context::Context;
use syntax::record::Frame;

pub fn frame(s: &[u8], c: Cursor, x: Context) -> Read<Frame>
    ensures { as_read result ≡ (frame x).read (bits_of s.now) c.at }
{
    let a1 = colour_plane_if(s, c, x.sequence.separate_colour_plane_flag);
    let Ok((colour_plane_id, c1)) = a1 else {
        return Err(why(a1));
    };
    let a2 = c1.bits(s, x.sequence.log2_max_frame_num);
    let Ok((frame_num, c2)) = a2 else {
        return Err(why(a2));
    };
    let a3 = flag_if(s, c2, !x.sequence.frame_mbs_only_flag);
    let Ok((field_pic_flag, c3)) = a3 else {
        return Err(why(a3));
    };
    let a4 = flag_if(s, c3, field_pic_flag.value);
    let Ok((bottom_field_flag, c4)) = a4 else {
        return Err(why(a4));
    };
    let a5 = number_if(s, c4, x.kind.idr);
    let Ok((idr_pic_id, c5)) = a5 else {
        return Err(why(a5));
    };
    Ok((
        Frame {
            colour_plane_id,
            frame_num,
            field_pic_flag,
            bottom_field_flag,
            idr_pic_id,
        },
        c5,
    ))
}
