// A unit of a recording in its turn: it is read by the parameter table, and where it is a parameter set it goes into it.
ghost use Rattle.std.specs.Prelude.{◌≡◌};
ghost use Rattle.header.specs.Lead.{table_of, table_in};
ghost use Rattle.unit.specs.Known.{unit_known};
ghost use Rattle.unit.specs.Into.{long_answer, lent_in, SameLent, ReadInto};
ghost use Rattle.walk.specs.Walked.{table_after};
ghost use Rattle.walk.specs.WalkedInto.{Turned};

use table::table::Sets;
use table::words::{put_picture_in, put_sequence_in};
use unit::head::head;
use unit::into::{AllWords, ShortAnswer, read_known_into};

// A unit's head and then its body, for a caller who knows that no 00 00 03 begins before `known`. Scratch and words are left as `read_known_into` leaves them; beside a
// refused head scratch is untouched, and all words are zeros.
fn read_unit(
    sets: Sets<'_>,
    unit: &[u8],
    known: usize,
    scratch: &mut [u8],
    w: &mut AllWords<'_>,
) -> ShortAnswer
    ensures read { ReadInto (unit_known known (table_in sets.entry) unit.now scratch.old) result scratch.new (lent_in w.old) (lent_in w.new) }
    ensures same { SameLent w.old w.new }
{
    match head(unit) {
        Ok(h) => read_known_into(h, sets, unit, known, scratch, w),
        Err(r) => {
            w.clear();
            ShortAnswer::Refused(r)
        }
    }
}

// A set that was read goes into the table. It is within the rules' sizes, so no put of one is refused (`sets-sequence-put` and `sets-picture-put` of promises).
pub(crate) fn keep_set(sequences: &mut [u32; 224], pictures: &mut [u32; 2304], answer: ShortAnswer)
    ensures { table_of sequences.new pictures.new ≡ table_after (table_of sequences.old pictures.old) (long_answer answer) }
{
    match answer {
        ShortAnswer::Sequence(v) => {
            let s = v.sequence;
            let _ = put_sequence_in(sequences, pictures, v.seq_parameter_set_id, s);
        }
        ShortAnswer::Picture(v) => {
            let p = v.picture;
            let _ = put_picture_in(sequences, pictures, v.pic_parameter_set_id, p);
        }
        ShortAnswer::Slice(_) => {}
        ShortAnswer::Prefix(_) => {}
        ShortAnswer::Other(_) => {}
        ShortAnswer::Refused(_) => {}
    }
}

// A unit with its body in scratch, for a caller who knows that no 00 00 03 begins before `known`. Scratch and words are left as `read_unit` leaves them.
pub fn body_in_turn(
    sequences: &mut [u32; 224],
    pictures: &mut [u32; 2304],
    unit: &[u8],
    known: usize,
    scratch: &mut [u8],
    w: &mut AllWords<'_>,
) -> ShortAnswer
    ensures turned { Turned (unit_known known) (table_of sequences.old pictures.old) unit.now scratch.old result scratch.new (table_of sequences.new pictures.new) (lent_in w.old) (lent_in w.new) }
    ensures same { SameLent w.old w.new }
{
    let sets = Sets {
        sequences,
        pictures,
    };
    let answer = read_unit(sets, unit, known, scratch, w);
    keep_set(sequences, pictures, answer);
    answer
}
