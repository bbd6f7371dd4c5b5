// The walk that reads headers alone: a slice's header, what a prefix unit holds, or a parameter set is read from the recording itself, and no scratch is lent.
ghost use Rattle.std.specs.Prelude.{[]};
ghost use Rattle.header.specs.Lead.{table_of, table_in};
ghost use Rattle.unit.specs.Into.{lent_in, SameLent, ReadInto};
ghost use Rattle.front.specs.Front.{unit_front};
ghost use Rattle.walk.specs.WalkedInto.{WalkedInto, Turned};
ghost use Rattle.walk.specs.Headers.{walked_headers};

use crate::turn::keep_set;
use crate::walk::{Step, WalkedShort, next_step};
use front::into::read_front_into;
use table::table::Sets;
use unit::head::head;
use unit::into::{AllWords, ShortAnswer};

// A unit's head and then what it holds. Words are left as `read_front_into` leaves them; beside a refused head all are zeros.
fn read_headers(sets: Sets<'_>, unit: &[u8], w: &mut AllWords<'_>) -> ShortAnswer
    ensures read { ReadInto (unit_front (table_in sets.entry) unit.now []) result [] (lent_in w.old) (lent_in w.new) }
    ensures same { SameLent w.old w.new }
{
    match head(unit) {
        Ok(h) => read_front_into(h, sets, unit, w),
        Err(r) => {
            w.clear();
            ShortAnswer::Refused(r)
        }
    }
}

// As `turn::body_in_turn`, by the unit's front. Words are left as `read_headers` leaves them.
pub fn front_in_turn(
    sequences: &mut [u32; 224],
    pictures: &mut [u32; 2304],
    unit: &[u8],
    w: &mut AllWords<'_>,
) -> ShortAnswer
    ensures turned { Turned unit_front (table_of sequences.old pictures.old) unit.now [] result [] (table_of sequences.new pictures.new) (lent_in w.old) (lent_in w.new) }
    ensures same { SameLent w.old w.new }
{
    let sets = Sets {
        sequences,
        pictures,
    };
    let answer = read_headers(sets, unit, w);
    keep_set(sequences, pictures, answer);
    answer
}

// As `walk::walk_into`, by the unit's front.
pub fn walk_headers_into(
    sequences: &mut [u32; 224],
    pictures: &mut [u32; 2304],
    recording: &[u8],
    from: usize,
    w: &mut AllWords<'_>,
) -> WalkedShort
    ensures walked { WalkedInto (walked_headers (table_of sequences.old pictures.old) recording.now from []) result [] (table_of sequences.new pictures.new) (lent_in w.old) (lent_in w.new) }
    ensures same { SameLent w.old w.new }
{
    let step = next_step(recording, from);
    let Step::Unit(place, length, _) = step else {
        return WalkedShort {
            step,
            answer: ShortAnswer::Other(0),
        };
    };
    let end = place + length;
    let answer = front_in_turn(sequences, pictures, &recording[place..end], w);
    WalkedShort { step, answer }
}
