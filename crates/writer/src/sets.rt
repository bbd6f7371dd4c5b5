// The sets that a record's pic_parameter_set_id names.
ghost use Rattle.std.specs.Prelude.{◌≡◌};
ghost use Rattle.header.specs.Lead.{table_in};
ghost use Rattle.writer.specs.Write.{sets_for};

use bits::refusals::{NO_PICTURE_SET, NO_SEQUENCE_SET, PICTURE_SET_ID, Refusal, refuse};
use table::sets::{Picture, Sequence};
use table::table::Sets;
use table::words::{picture_in, sequence_in};

// The picture set with its change cycle's width, and the sequence set.
#[derive(Clone, Copy)]
pub(crate) struct NamedSets {
    pub picture: Picture,
    pub cycle_width: u32,
    pub sequence: Sequence,
}

// The checks 8, 9 and 10, by the table whose arrays are lent.
pub(crate) fn sets_for(sets: Sets<'_>, id: u32) -> Result<NamedSets, Refusal>
    ensures { result ≡ sets_for (table_in sets.entry) id }
{
    if 255 < id {
        return Err(refuse(PICTURE_SET_ID, id as i64));
    }
    let a1 = picture_in(sets.pictures, id);
    let Some((picture, cycle_width)) = a1 else {
        return Err(refuse(NO_PICTURE_SET, id as i64));
    };
    let a2 = sequence_in(sets.sequences, picture.seq_parameter_set_id);
    let Some(sequence) = a2 else {
        return Err(refuse(NO_SEQUENCE_SET, picture.seq_parameter_set_id as i64));
    };
    Ok(NamedSets {
        picture,
        cycle_width,
        sequence,
    })
}
