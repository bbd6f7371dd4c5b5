// Reads at a bit place of a body: fixed-width bits u(n), a flag, and the codes ue(v) and se(v). Each hands back the value and the moved cursor, or the refusal.
ghost use Rattle.std.specs.Prelude.{◌≡◌, ◌+◌, ◌-◌, ◌*◌, ◌^◌, ◌≤◌, ◌<◌, length};
ghost use Rattle.bits.specs.Bits.{reach, bits_of, bytes_bits};
ghost use Rattle.bits.specs.Codes.{width_of, fixed_at, u_at, flag_at, ue_at, se_at, se_of};
ghost use Rattle.bits.specs.Refusals.{pick};
ghost use Rattle.bits.specs.Windows.{bits_at};
ghost use Rattle.bits.specs.Answers.{as_read};

use crate::refusals::{RAN_OUT, Refusal, TOO_MANY_ZEROS, refuse_at};
use crate::window::{last_window, long_window, reached, short_window, within};

// The place of the next bit. Bit 0 is the top bit of byte 0.
#[derive(Clone, Copy)]
pub struct Cursor {
    pub at: usize,
}

// What reading at a place finds: a value and the place after it, or the refusal.
pub type Read<T> = Result<(T, Cursor), Refusal>;

impl Cursor {
    pub fn new() -> Self
        ensures { result.at ≡ 0 }
    {
        Cursor { at: 0 }
    }

    // The next n bits, u(n). A width over 32 counts as 32.
    pub fn bits(self, s: &[u8], n: u32) -> Read<u32>
        ensures { as_read result ≡ u_at n (bits_of s.now) self.at }
    {
        let at = self.at;
        if n <= 25 && at / 8 + 3 < reached(s.len()) {
            let w = short_window(s, at) as u64;
            let next = at + n as usize;
            return Ok(((w >> (32 - n)) as u32, Cursor { at: next }));
        }
        slow(within(s), at, false, field_width(n))
    }

    // The next bit, a flag.
    pub fn flag(self, s: &[u8]) -> Read<bool>
        ensures { as_read result ≡ flag_at (bits_of s.now) self.at }
    {
        flag_at(within(s), self.at)
    }

    // The next ue(v). With at most 12 zeros in front, which a window of at least 2^19 has, the code lies in the window's 25 bits.
    pub fn ue(self, s: &[u8]) -> Read<u32>
        ensures { as_read result ≡ ue_at (bits_of s.now) self.at }
    {
        let at = self.at;
        if at / 8 + 3 < reached(s.len()) {
            let w = short_window(s, at);
            if 524288 <= w {
                let z = u32::leading_zeros(w);
                let size = 2 * z + 1;
                let next = at + size as usize;
                return Ok(((w >> (32 - size)) - 1, Cursor { at: next }));
            }
        }
        slow(within(s), at, true, 0)
    }

    // The next se(v).
    pub fn se(self, s: &[u8]) -> Read<i32>
        ensures { as_read result ≡ se_at (bits_of s.now) self.at }
    {
        let (k, next) = self.ue(s)?;
        Ok((signed(k), next))
    }
}

// The width of a field: at most 32.
pub(crate) fn field_width(n: u32) -> u32
    ensures { (result ≡ width_of n) × (result ≤ 32) }
{
    if n <= 32 { n } else { 32 }
}

// The flag at a place. Its byte is enough.
fn flag_at(s: &[u8], at: usize) -> Read<bool>
    requires { length s.now ≤ reach }
    ensures { as_read result ≡ flag_at (bytes_bits s.now) at }
{
    let i = at / 8;
    if s.len() <= i {
        return Err(refuse_at(RAN_OUT, 0, at));
    }
    let bit = s[i] >> (7 - at % 8);
    Ok((bit % 2 == 1, Cursor { at: at + 1 }))
}

// The code or the n bits at a place, wherever they lie: what `ue` and `bits` do near the end, and for long codes and wide fields. One function, so that the
// compiler keeps it out of line and what comes before it goes into the callers. A short unit calls it from the last 31 bits alone, so these have a way of their own.
fn slow(s: &[u8], at: usize, code: bool, n: u32) -> Read<u32>
    requires { (length s.now ≤ reach) × (n ≤ 32) }
    ensures { as_read result ≡ pick code (ue_at (bytes_bits s.now) at) (fixed_at n (bytes_bits s.now) at) }
{
    let m = s.len();
    if m * 8 < at {
        return Err(refuse_at(RAN_OUT, 0, at));
    }
    if at < m * 8 && m * 8 - at < 32 && 4 <= m {
        return last_bits(s, at, code, n);
    }
    let w = long_window(s, at);
    if code {
        code_in(s, at, w)
    } else {
        fixed_in(s, at, w, n)
    }
}

// The code or the n bits at a place of the last 31 bits.
fn last_bits(s: &[u8], at: usize, code: bool, n: u32) -> Read<u32>
    requires { (length s.now ≤ reach) × (4 ≤ length s.now) × (8 * length s.now < at + 32) × (at < 8 * length s.now) × (n ≤ 32) }
    ensures { as_read result ≡ pick code (ue_at (bytes_bits s.now) at) (fixed_at n (bytes_bits s.now) at) }
{
    let w = last_window(s, at);
    if code {
        last_code(s, at, w)
    } else {
        last_fixed(s, at, w, n)
    }
}

// The n bits at a place of the last 31 bits, whose window is w.
fn last_fixed(s: &[u8], at: usize, w: u32, n: u32) -> Read<u32>
    requires { (length s.now ≤ reach) × (at ≤ 8 * length s.now) × (w ≡ bits_at s.now at 32) × (n ≤ 32) }
    ensures { as_read result ≡ fixed_at n (bytes_bits s.now) at }
{
    let left = s.len() * 8 - at;
    if left < n as usize {
        return Err(refuse_at(RAN_OUT, 0, at));
    }
    let next = at + n as usize;
    Ok((((w as u64) >> (32 - n)) as u32, Cursor { at: next }))
}

// The ue(v) code at a place of the last 31 bits, whose window is w. Where no bit is set 32 zeros are counted, and a code of 65 bits runs out.
fn last_code(s: &[u8], at: usize, w: u32) -> Read<u32>
    requires { (length s.now ≤ reach) × (at ≤ 8 * length s.now) × (8 * length s.now < at + 32) × (w ≡ bits_at s.now at 32) }
    ensures { as_read result ≡ ue_at (bytes_bits s.now) at }
{
    let left = s.len() * 8 - at;
    let size = 2 * (u32::leading_zeros(w) as usize) + 1;
    if size <= left {
        return Ok(((w >> (32 - size)) - 1, Cursor { at: at + size }));
    }
    Err(refuse_at(RAN_OUT, 0, at))
}

// The n bits at a place, whose window is w.
fn fixed_in(s: &[u8], at: usize, w: u64, n: u32) -> Read<u32>
    requires { (length s.now ≤ reach) × (at ≤ 8 * length s.now) × (w ≡ bits_at s.now at 64) × (n ≤ 32) }
    ensures { as_read result ≡ fixed_at n (bytes_bits s.now) at }
{
    let size = n as usize;
    if s.len() * 8 - at < size {
        return Err(refuse_at(RAN_OUT, 0, at));
    }
    Ok((((w >> 32) >> (32 - n)) as u32, Cursor { at: at + size }))
}

// The ue(v) code at a place, whose window is w. Its zeros are counted at once.
fn code_in(s: &[u8], at: usize, w: u64) -> Read<u32>
    requires { (length s.now ≤ reach) × (at ≤ 8 * length s.now) × (w ≡ bits_at s.now at 64) }
    ensures { as_read result ≡ ue_at (bytes_bits s.now) at }
{
    let left = s.len() * 8 - at;
    let z = u32::leading_zeros((w >> 32) as u32);
    if z < 32 {
        let size = 2 * (z as usize) + 1;
        if left < size {
            return Err(refuse_at(RAN_OUT, 0, at));
        }
        Ok((((w >> (64 - size)) - 1) as u32, Cursor { at: at + size }))
    } else {
        if left < 32 {
            return Err(refuse_at(RAN_OUT, 0, at));
        }
        Err(refuse_at(TOO_MANY_ZEROS, 0, at))
    }
}

// The signed number of a code.
fn signed(k: u32) -> i32
    requires { k < 2 ^ 32 - 1 }
    ensures { result ≡ se_of k }
{
    if k % 2 == 1 {
        (k / 2 + 1) as i32
    } else {
        -((k / 2) as i32)
    }
}
