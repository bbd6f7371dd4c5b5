// The walk over a recording framed by length: the unit whose length stands at a place, read in its turn as a unit behind a start code is.
ghost use Rattle.header.specs.Lead.{table_of};
ghost use Rattle.unit.specs.Into.{lent_in, SameLent};
ghost use Rattle.walk.specs.WalkedInto.{WalkedInto};
ghost use Rattle.framed.specs.Walked.{walked_framed};

use crate::step::next_framed;
use unit::into::{AllWords, ShortAnswer};
use walk::turn::body_in_turn;
use walk::walk::{Step, WalkedShort};

// One step, by the sets in a table's two arrays, which a set that is read changes. Where it comes to no unit, scratch, words and table are untouched.
pub fn walk_framed_into(
    sequences: &mut [u32; 224],
    pictures: &mut [u32; 2304],
    recording: &[u8],
    from: usize,
    scratch: &mut [u8],
    w: &mut AllWords<'_>,
) -> WalkedShort
    ensures walked { WalkedInto (walked_framed (table_of sequences.old pictures.old) recording.now from scratch.old) result scratch.new (table_of sequences.new pictures.new) (lent_in w.old) (lent_in w.new) }
    ensures same { SameLent w.old w.new }
{
    let step = next_framed(recording, from);
    let Step::Unit(place, length, _) = step else {
        return WalkedShort {
            step,
            answer: ShortAnswer::Other(0),
        };
    };
    let end = place + length;
    let answer = body_in_turn(sequences, pictures, &recording[place..end], 0, scratch, w);
    WalkedShort { step, answer }
}
