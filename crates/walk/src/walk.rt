// The walk over a recording: the first unit from a place on, read by the parameter table, into which a parameter set goes as it is met. Asked again from where each
// answer says to go on, it meets every unit once.
ghost use Rattle.std.specs.Prelude.{◌≡◌};
ghost use Rattle.header.specs.Lead.{table_of};
ghost use Rattle.unit.specs.Into.{lent_in, SameLent};
ghost use Rattle.walk.specs.Walked.{next_step, walked};
ghost use Rattle.walk.specs.WalkedInto.{WalkedInto};

use crate::search::{next_seen, next_unit};
use crate::turn::body_in_turn;
use bits::refusals::{LIMIT, Refusal, TOO_LARGE, refuse};
use unit::into::{AllWords, ShortAnswer};

// What a step came to: a unit's place, its length and the place to go on from; the end; or a refusal (27; in a recording framed by length also 29).
// Three outcomes, so neither an `Option` nor a `Result`.
#[derive(Clone, Copy)]
pub enum Step {
    Unit(usize, usize, usize),
    End,
    Refused(Refusal),
}

// The step, and what reading the unit answers: where there is none, nothing (ShortAnswer::Other(0)).
#[derive(Clone, Copy)]
pub struct WalkedShort {
    pub step: Step,
    pub answer: ShortAnswer,
}

// Where the next step comes to, with nothing read: 27 first; then the first unit whose start code begins at `from` or later, or the end.
pub fn next_step(recording: &[u8], from: usize) -> Step
    ensures { result ≡ next_step recording.now from }
{
    if LIMIT < recording.len() {
        return Step::Refused(refuse(TOO_LARGE, 0));
    }
    match next_unit(recording, from) {
        Some(u) => Step::Unit(u.place, u.length, u.next),
        None => Step::End,
    }
}

// One step, by the sets in a table's two arrays, which a set that is read changes. End mark and escapes are sought in one pass. Scratch and words are left as
// `body_in_turn` leaves them; where the step comes to no unit, all are untouched.
pub fn walk_into(
    sequences: &mut [u32; 224],
    pictures: &mut [u32; 2304],
    recording: &[u8],
    from: usize,
    scratch: &mut [u8],
    w: &mut AllWords<'_>,
) -> WalkedShort
    ensures walked { WalkedInto (walked (table_of sequences.old pictures.old) recording.now from scratch.old) result scratch.new (table_of sequences.new pictures.new) (lent_in w.old) (lent_in w.new) }
    ensures same { SameLent w.old w.new }
{
    let n = recording.len();
    if LIMIT < n {
        return WalkedShort {
            step: Step::Refused(refuse(TOO_LARGE, 0)),
            answer: ShortAnswer::Other(0),
        };
    }
    let seen = next_seen(recording, from);
    let found = seen.found;
    let Some(u) = found else {
        return WalkedShort {
            step: Step::End,
            answer: ShortAnswer::Other(0),
        };
    };
    let end = u.place + u.length;
    let answer = body_in_turn(
        sequences,
        pictures,
        &recording[u.place..end],
        seen.clear,
        scratch,
        w,
    );
    WalkedShort {
        step: Step::Unit(u.place, u.length, u.next),
        answer,
    }
}
