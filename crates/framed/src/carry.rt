// Which units can be carried from lengths to start codes: those in which no end mark stands, and whose last byte is not zero.
ghost use Rattle.std.specs.Prelude.{true, ◌≡◌, ◌+◌, ◌<◌, ◌≤◌, length};
ghost use Rattle.bits.specs.Refusals.{limit};
ghost use Rattle.scan.specs.Clear.{Clear};
ghost use Rattle.walk.specs.Walk.{upto};
ghost use Rattle.framed.specs.Framed.{framed_units, end_of};
ghost use Rattle.framed.specs.Convert.{carried, first_uncarried};

use crate::step::{next_framed, units_end};
use scan::scan::seek;
use walk::walk::Step;

// A unit shorter than this is looked through by itself: a search, which finds the place too, takes longer to begin.
const SHORT: usize = 130;

// The bytes that are looked through at once.
const BLOCK: usize = 32;

// Whether no two zero bytes stand side by side at `count` places. The loop has no way out, so that the compiler makes vectors of it.
fn is_apart(unit: &[u8], from: usize, count: usize) -> bool
    requires { from + count < length unit.now }
    ensures { result ≡ true → Clear 0 0 unit.now from (from + count) }
{
    let mut m: u8 = 255;
    for k in 0..count {
        let i = from + k;
        let x = unit[i] | unit[i + 1];
        if x < m {
            m = x;
        }
    }
    0 < m
}

// Whether that is so at all places: then no end mark stands in the unit. The last block reaches to the end, over the one before it.
fn has_no_pair(unit: &[u8]) -> bool
    requires { 0 < length unit.now }
    ensures { result ≡ true → upto 0 unit.now ≡ length unit.now }
{
    let last = unit.len() - 1;
    if last < BLOCK {
        return is_apart(unit, 0, last);
    }
    let mut i: usize = 0;
    // No `for`: it goes on by blocks and ends at the first in which a pair stands.
    while BLOCK < last - i {
        if is_apart(unit, i, BLOCK) {
            i += BLOCK;
        } else {
            return false;
        }
    }
    is_apart(unit, last - BLOCK, BLOCK)
}

fn is_carried(unit: &[u8]) -> bool
    ensures { result ≡ carried unit.now }
{
    let n = unit.len();
    if n == 0 {
        return true;
    }
    if unit[n - 1] == 0 {
        return false;
    }
    if n < SHORT {
        if has_no_pair(unit) {
            return true;
        }
    }
    n <= seek(unit, 0, 0, 1)
}

// Where the units end, and which of them is the first that cannot be carried.
#[derive(Clone, Copy)]
pub(crate) struct Surveyed {
    pub end: usize,
    pub first: Option<usize>,
}

pub(crate) fn survey(recording: &[u8]) -> Surveyed
    requires { length recording.now ≤ limit }
    ensures end_value { result.end ≡ end_of 0 (framed_units recording.now) }
    ensures first_value { result.first ≡ first_uncarried (framed_units recording.now) }
{
    let mut i: usize = 0;
    loop {
        let Step::Unit(place, _, next) = next_framed(recording, i) else {
            return Surveyed {
                end: i,
                first: None,
            };
        };
        if is_carried(&recording[place..next]) {
            i = next;
        } else {
            return Surveyed {
                end: units_end(recording, next),
                first: Some(place),
            };
        }
    }
}
