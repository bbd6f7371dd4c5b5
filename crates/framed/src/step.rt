// The walk over a recording framed by length: each unit stands behind its length, four bytes, the first the highest.
ghost use Rattle.std.specs.Prelude.{◌≡◌, ◌+◌, ◌<◌, ◌≤◌, length, drop, get_or};
ghost use Rattle.bits.specs.Refusals.{limit};
ghost use Rattle.framed.specs.Framed.{four, framed_at, end_of, next_framed};

use bits::refusals::{BROKEN_LENGTH, LIMIT, Refusal, TOO_LARGE, refuse};
use walk::walk::Step;

fn wide(x: u8) -> usize
    ensures { (result ≡ x) × (result < 256) }
{
    x as usize
}

// The length that stands at `at`.
fn length_at(s: &[u8], at: usize) -> usize
    requires { at + 3 < length s.now }
    ensures { result ≡ four (get_or s.now at 0) (get_or s.now (at + 1) 0) (get_or s.now (at + 2) 0) (get_or s.now (at + 3) 0) }
{
    ((wide(s[at]) * 256 + wide(s[at + 1])) * 256 + wide(s[at + 2])) * 256 + wide(s[at + 3])
}

// The unit whose length stands at `from`; without one the end, 27 or 29. Any place may be asked from: what stands there is taken for a length.
pub fn next_framed(recording: &[u8], from: usize) -> Step
    ensures { result ≡ next_framed recording.now from }
{
    let n = recording.len();
    if LIMIT < n {
        return Step::Refused(refuse(TOO_LARGE, 0));
    }
    if n <= from {
        return Step::End;
    }
    let left = n - from;
    if left < 4 {
        return Step::Refused(refuse(BROKEN_LENGTH, from as i64));
    }
    let size = length_at(recording, from);
    if left - 4 < size {
        return Step::Refused(refuse(BROKEN_LENGTH, from as i64));
    }
    let place = from + 4;
    Step::Unit(place, size, place + size)
}

// Where the units from `from` on end: the recording's end, or the place of a length that is broken.
pub(crate) fn units_end(recording: &[u8], from: usize) -> usize
    requires { length recording.now ≤ limit }
    ensures { result ≡ end_of from (framed_at 0 from (drop from recording.now)) }
{
    let mut i = from;
    loop {
        let Step::Unit(_, _, next) = next_framed(recording, i) else {
            return i;
        };
        i = next;
    }
}
