// From lengths to start codes and back, into lent output. A refused call leaves the output as it was.
ghost use Rattle.std.specs.Prelude.{true, ◌≡◌, ◌+◌, ◌/◌, ◌%◌, ◌≤◌, length};
ghost use Rattle.bits.specs.Refusals.{limit};
ghost use Rattle.escape.specs.Body.{start_with};
ghost use Rattle.walk.specs.Units.{units};
ghost use Rattle.framed.specs.Framed.{framed_units};
ghost use Rattle.framed.specs.Convert.{start_code, length_bytes, joined, bytes_of, to_start_codes, to_lengths};

use crate::carry::survey;
use crate::put::put_unit;
use crate::step::next_framed;
use bits::refusals::{
    BROKEN_LENGTH, BUFFER_TOO_SHORT, LIMIT, NOT_CARRIED, Refusal, TOO_LARGE, refuse,
};
use walk::search::next_unit;
use walk::walk::Step;

// The units of a recording framed by length, each behind 00 00 00 01: as long as its length, so all stand where they stood.
fn put_codes(recording: &[u8], out: &mut [u8]) -> usize
    requires { (length recording.now ≤ limit) × (length (joined start_code (bytes_of (framed_units recording.now))) ≤ length out.old) }
    ensures value { result ≡ length (joined start_code (bytes_of (framed_units recording.now))) }
    ensures out_after { out.new ≡ start_with (joined start_code (bytes_of (framed_units recording.now))) out.old }
{
    let mut i: usize = 0;
    let mut o: usize = 0;
    loop {
        let Step::Unit(place, _, next) = next_framed(recording, i) else {
            return o;
        };
        o = put_unit(out, o, 0, 0, 0, 1, &recording[place..next]);
        i = next;
    }
}

pub fn to_start_codes(recording: &[u8], out: &mut [u8]) -> Result<usize, Refusal>
    ensures value { result ≡ (to_start_codes recording.now out.old).answer }
    ensures out_after { out.new ≡ (to_start_codes recording.now out.old).left }
{
    let n = recording.len();
    if LIMIT < n {
        return Err(refuse(TOO_LARGE, 0));
    }
    let found = survey(recording);
    let end = found.end;
    if end < n {
        return Err(refuse(BROKEN_LENGTH, end as i64));
    }
    let first = found.first;
    if let Some(place) = first {
        return Err(refuse(NOT_CARRIED, place as i64));
    }
    if out.len() < n {
        return Err(refuse(BUFFER_TOO_SHORT, n as i64));
    }
    Ok(put_codes(recording, out))
}

// How many bytes the units of a recording with start codes have, each behind its length.
fn size_with_lengths(recording: &[u8]) -> usize
    requires { length recording.now ≤ limit }
    ensures { result ≡ length (joined length_bytes (bytes_of (units recording.now))) }
{
    let mut i: usize = 0;
    let mut o: usize = 0;
    loop {
        let Some(u) = next_unit(recording, i) else {
            return o;
        };
        o += 4 + u.length;
        i = u.next;
    }
}

// A number's low byte.
fn low(n: usize) -> u8
    ensures { result ≡ n % 256 }
{
    (n % 256) as u8
}

fn put_lengths(recording: &[u8], out: &mut [u8]) -> usize
    requires { (length recording.now ≤ limit) × (length (joined length_bytes (bytes_of (units recording.now))) ≤ length out.old) }
    ensures value { result ≡ length (joined length_bytes (bytes_of (units recording.now))) }
    ensures out_after { out.new ≡ start_with (joined length_bytes (bytes_of (units recording.now))) out.old }
{
    let mut i: usize = 0;
    let mut o: usize = 0;
    loop {
        let Some(u) = next_unit(recording, i) else {
            return o;
        };
        let end = u.place + u.length;
        o = put_unit(
            out,
            o,
            low(u.length / 16_777_216),
            low(u.length / 65_536),
            low(u.length / 256),
            low(u.length),
            &recording[u.place..end],
        );
        i = u.next;
    }
}

// Whether there is room for the result whatever the recording holds: a start code has three bytes and a length four. Then no unit is sought twice.
fn is_roomy(n: usize, room: usize) -> bool
    requires { n ≤ limit }
    ensures { result ≡ true → (n + n / 3 ≤ room) × (n + n / 3 ≤ limit) }
{
    let most = n + n / 3;
    if room < most {
        return false;
    }
    most <= LIMIT
}

// Output of a third more bytes than the recording is always long enough, and saves a search.
pub fn to_lengths(recording: &[u8], out: &mut [u8]) -> Result<usize, Refusal>
    ensures value { result ≡ (to_lengths recording.now out.old).answer }
    ensures out_after { out.new ≡ (to_lengths recording.now out.old).left }
{
    let n = recording.len();
    if LIMIT < n {
        return Err(refuse(TOO_LARGE, 0));
    }
    if is_roomy(n, out.len()) {
        return Ok(put_lengths(recording, out));
    }
    let need = size_with_lengths(recording);
    if LIMIT < need {
        return Err(refuse(TOO_LARGE, 0));
    }
    if out.len() < need {
        return Err(refuse(BUFFER_TOO_SHORT, need as i64));
    }
    Ok(put_lengths(recording, out))
}
