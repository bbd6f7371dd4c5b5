// Where a recording's units are. The start code is the fixed three bytes 00 00 01; a unit's end mark is 00 00 00 or 00 00 01.
ghost use Rattle.std.specs.Prelude.{◌≡◌, ◌+◌, ◌≤◌, length, drop};
ghost use Rattle.walk.specs.Walk.{upto, kept, unit_at, next_unit};
ghost use Rattle.walk.specs.Seen.{next_seen};

use bits::refusals::Refusal;
use scan::scan::{hit_at, seek};

// Where a unit is: its first byte, its length and the place to go on from.
#[derive(Clone, Copy)]
pub struct Span {
    pub place: usize,
    pub length: usize,
    pub next: usize,
}

// The first start code from `from` on, or the end. It most often begins at `from` or a byte later: only then are blocks searched.
fn seek_start(s: &[u8], from: usize) -> usize
    requires { from ≤ length s.now }
    ensures { result ≡ from + upto 1 (drop from s.now) }
{
    if s.len() - from < 4 {
        return seek(s, from, 1, 1);
    }
    if hit_at(s, from, 1, 1) {
        return from;
    }
    let i = from + 1;
    if hit_at(s, i, 1, 1) {
        return i;
    }
    seek(s, i, 1, 1)
}

// The first end mark from `from` on, or the end. Where a search for marks and escapes stopped, it most often is one.
fn seek_mark(s: &[u8], from: usize) -> usize
    requires { from ≤ length s.now }
    ensures { result ≡ from + upto 0 (drop from s.now) }
{
    if hit_at(s, from, 0, 1) {
        return from;
    }
    seek(s, from, 0, 1)
}

// How many bytes stand from `from` on, without the zero bytes at the end.
fn trim(s: &[u8], from: usize) -> usize
    requires { from ≤ length s.now }
    ensures { result ≡ kept (drop from s.now) }
{
    for i in (from..s.len()).rev() {
        if s[i] != 0 {
            return i + 1 - from;
        }
    }
    0
}

// The unit whose start code begins at `at`, where its end mark begins at `next`, or the recording ends there.
fn unit_to(recording: &[u8], at: usize, next: usize) -> Span
    requires { (at + 3 ≤ length recording.now) × (next ≡ at + 3 + upto 0 (drop (at + 3) recording.now)) }
    ensures { result ≡ unit_at recording.now at }
{
    let place = at + 3;
    if next < recording.len() {
        return Span {
            place,
            length: next - place,
            next,
        };
    }
    let length = trim(recording, place);
    Span {
        place,
        length,
        next,
    }
}

// The first unit whose start code begins at `from` or later.
pub fn next_unit(recording: &[u8], from: usize) -> Option<Span>
    ensures { result ≡ next_unit recording.now from }
{
    let n = recording.len();
    if n <= from {
        return None;
    }
    let at = seek_start(recording, from);
    if n <= at {
        return None;
    }
    let place = at + 3;
    let next = seek(recording, place, 0, 1);
    Some(unit_to(recording, at, next))
}

// What is found, and how many of the unit's first bytes begin neither an end mark nor 00 00 02 or 00 00 03.
#[derive(Clone, Copy)]
pub struct Seen {
    pub found: Option<Span>,
    pub clear: usize,
}

// The same by a search that stops at 00 00 03 too: most units have none, and then nothing of them need be searched again.
pub(crate) fn next_seen(recording: &[u8], from: usize) -> Seen
    ensures { result ≡ next_seen recording.now from }
{
    let n = recording.len();
    if n <= from {
        return Seen {
            found: None,
            clear: 0,
        };
    }
    let at = seek_start(recording, from);
    if n <= at {
        return Seen {
            found: None,
            clear: 0,
        };
    }
    let place = at + 3;
    let stop = seek(recording, place, 0, 3);
    let next = seek_mark(recording, stop);
    Seen {
        found: Some(unit_to(recording, at, next)),
        clear: stop - place,
    }
}
