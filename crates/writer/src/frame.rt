// colour_plane_id to idr_pic_id.
ghost use Rattle.syntax.specs.SliceHeader.{frame};
ghost use Rattle.writer.specs.Places.{PutTo};

use crate::marks::{put_bits, put_colour_plane_if, put_flag_if, put_number_if};
use bits::read::Cursor;
use syntax::context::Context;
use syntax::record::Frame;

pub(crate) fn put_frame(d: &mut [u8], c: Cursor, x: Context, f: Frame) -> Option<Cursor>
    ensures { PutTo (frame x) f d.old c.at d.new result }
{
    let c1 = put_colour_plane_if(
        d,
        c,
        x.sequence.separate_colour_plane_flag,
        f.colour_plane_id,
    )?;
    let c2 = put_bits(d, c1, x.sequence.log2_max_frame_num, f.frame_num)?;
    let field = f.field_pic_flag;
    let c3 = put_flag_if(d, c2, !x.sequence.frame_mbs_only_flag, field)?;
    let c4 = put_flag_if(d, c3, field.value, f.bottom_field_flag)?;
    put_number_if(d, c4, x.kind.idr, f.idr_pic_id)
}
