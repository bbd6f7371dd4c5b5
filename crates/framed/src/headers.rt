// The walk over a recording framed by length that reads headers alone.
ghost use Rattle.std.specs.Prelude.{[]};
ghost use Rattle.header.specs.Lead.{table_of};
ghost use Rattle.unit.specs.Into.{lent_in, SameLent};
ghost use Rattle.walk.specs.WalkedInto.{WalkedInto};
ghost use Rattle.framed.specs.Walked.{walked_framed_headers};

use crate::step::next_framed;
use unit::into::{AllWords, ShortAnswer};
use walk::headers::front_in_turn;
use walk::walk::{Step, WalkedShort};

// As `by_length::walk_framed_into`, by the unit's front, and with no scratch.
pub fn walk_framed_headers_into(
    sequences: &mut [u32; 224],
    pictures: &mut [u32; 2304],
    recording: &[u8],
    from: usize,
    w: &mut AllWords<'_>,
) -> WalkedShort
    ensures walked { WalkedInto (walked_framed_headers (table_of sequences.old pictures.old) recording.now from []) result [] (table_of sequences.new pictures.new) (lent_in w.old) (lent_in w.new) }
    ensures same { SameLent w.old w.new }
{
    let step = next_framed(recording, from);
    let Step::Unit(place, length, _) = step else {
        return WalkedShort {
            step,
            answer: ShortAnswer::Other(0),
        };
    };
    let end = place + length;
    let answer = front_in_turn(sequences, pictures, &recording[place..end], w);
    WalkedShort { step, answer }
}
