// first_mb_in_slice, slice_type and pic_parameter_set_id, and the sets that the id names, each looked up once.
ghost use Rattle.std.specs.Prelude.{◌≡◌};
ghost use Rattle.bits.specs.Bits.{bits_of};
ghost use Rattle.bits.specs.Refusals.{got, bind};
ghost use Rattle.syntax.specs.SliceHeader.{lead};
ghost use Rattle.header.specs.Lead.{table_in, led_of};
ghost use Rattle.bits.specs.Answers.{as_read};

use bits::read::{Cursor, Read};
use bits::refusals::{
    NO_PICTURE_SET, NO_SEQUENCE_SET, PICTURE_SET_ID, Refusal, SLICE_TYPE, refuse_at, why,
};
use fields::read::tested;
use table::sets::{Picture, Sequence};
use table::table::Sets;
use table::words::{picture_in, sequence_in};

#[derive(Clone, Copy)]
pub struct Led {
    pub first_mb_in_slice: u32,
    pub slice_type: u32,
    pub pic_parameter_set_id: u32,
    pub picture: Picture,
    pub sequence: Sequence,
    // the change cycle's, as it stands with the picture set
    pub cycle_width: u32,
}

pub fn lead(s: &[u8], c: Cursor, sets: Sets<'_>) -> Read<Led>
    ensures { as_read result ≡ bind ((lead (table_in sets.entry)).read (bits_of s.now) c.at) (λ v e. got (led_of (table_in sets.entry) v) e) }
{
    let a1 = c.ue(s);
    let Ok((first_mb_in_slice, c1)) = a1 else {
        return Err(why(a1));
    };
    let a2 = tested(s, c1, 9, SLICE_TYPE);
    let Ok((slice_type, c2)) = a2 else {
        return Err(why(a2));
    };
    let a3 = tested(s, c2, 255, PICTURE_SET_ID);
    let Ok((id, c3)) = a3 else {
        return Err(why(a3));
    };
    let a4 = picture_in(sets.pictures, id);
    let Some((picture, cycle_width)) = a4 else {
        return Err(refuse_at(NO_PICTURE_SET, id as i64, c2.at));
    };
    let a5 = sequence_in(sets.sequences, picture.seq_parameter_set_id);
    let Some(sequence) = a5 else {
        return Err(refuse_at(NO_SEQUENCE_SET, picture.seq_parameter_set_id as i64, c2.at));
    };
    Ok((
        Led {
            first_mb_in_slice,
            slice_type,
            pic_parameter_set_id: id,
            picture,
            sequence,
            cycle_width,
        },
        c3,
    ))
}
