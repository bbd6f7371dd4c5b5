// Writes at a bit place of a lent buffer: fixed-width bits, a flag, ue(v) and se(v). What stands before the place is kept, the spare low bits of the last byte
// touched are zero, and the bytes after it are untouched. A refused write changes nothing.
ghost use Rattle.std.specs.Prelude.{◌≡◌, true, ◌+◌, ◌-◌, ◌*◌, ◌≤◌, ◌<◌, ◌^◌, ltb, leb, nat_abs, pos, length};
ghost use Rattle.bits.specs.Refusals.{pick};
ghost use Rattle.bits.specs.Bits.{reach};
ghost use Rattle.bits.specs.Codes.{u_bits, u_good, flag_bits, ue_bits, ue_good, se_bits, se_good, se_code};
ghost use Rattle.bits.specs.Put.{written, bytes_for};

use crate::fill::fill;
use crate::read::{Cursor, field_width};
use crate::refusals::{BUFFER_TOO_SHORT, NO_BITS, Refusal, refuse};
use crate::window::reached;

// Writes the n bits of v, u(n). A width over 32 counts as 32.
pub fn put_bits(d: &mut [u8], c: Cursor, n: u32, v: u32) -> Result<Cursor, Refusal>
    ensures value { result ≡ (written (u_good n v) (u_bits n v) d.old c.at).answer }
    ensures d_after { d.new ≡ (written (u_good n v) (u_bits n v) d.old c.at).left }
{
    let at = c.at;
    let w = field_width(n);
    if !fits(v, w) {
        return Err(refuse(NO_BITS, 0));
    }
    if !has_room(d.len(), at, w) {
        return Err(refuse(BUFFER_TOO_SHORT, bytes_for(at, w)));
    }
    fill(d, at, w, v);
    Ok(Cursor {
        at: at + w as usize,
    })
}

// Writes a flag.
pub fn put_flag(d: &mut [u8], c: Cursor, b: bool) -> Result<Cursor, Refusal>
    ensures value { result ≡ (written true (flag_bits b) d.old c.at).answer }
    ensures d_after { d.new ≡ (written true (flag_bits b) d.old c.at).left }
{
    put_bits(d, c, 1, bit(b))
}

// Writes the code ue(v).
pub fn put_ue(d: &mut [u8], c: Cursor, v: u32) -> Result<Cursor, Refusal>
    ensures value { result ≡ (written (ue_good v) (ue_bits v) d.old c.at).answer }
    ensures d_after { d.new ≡ (written (ue_good v) (ue_bits v) d.old c.at).left }
{
    let at = c.at;
    if v == 4294967295 {
        return Err(refuse(NO_BITS, 0));
    }
    let x = v + 1;
    let z = 31 - u32::leading_zeros(x);
    let size = 2 * z + 1;
    if !has_room(d.len(), at, size) {
        return Err(refuse(BUFFER_TOO_SHORT, bytes_for(at, size)));
    }
    fill(d, at, z, 0);
    fill(d, at + z as usize, z + 1, x);
    Ok(Cursor {
        at: at + size as usize,
    })
}

// Writes the code se(v). The least i32 has none.
pub fn put_se(d: &mut [u8], c: Cursor, v: i32) -> Result<Cursor, Refusal>
    ensures value { result ≡ (written (se_good v) (se_bits v) d.old c.at).answer }
    ensures d_after { d.new ≡ (written (se_good v) (se_bits v) d.old c.at).left }
{
    if v == -2147483648 {
        return Err(refuse(NO_BITS, 0));
    }
    put_ue(d, c, se_code(v))
}

fn bit(b: bool) -> u32
    ensures { result ≡ pick b 1 0 }
{
    if b { 1 } else { 0 }
}

// Whether v has at most n binary digits.
fn fits(v: u32, n: u32) -> bool
    requires { n ≤ 32 }
    ensures { result ≡ ltb v (2 ^ n) }
{
    (v as u64) < 1u64 << n
}

// Whether n bits from bit `at` on lie within `len` bytes.
fn has_room(len: usize, at: usize, n: u32) -> bool
    ensures { result ≡ leb (at + n) (8 * pick (ltb len reach) len reach) }
{
    let end = reached(len) * 8;
    if end < at {
        return false;
    }
    n as usize <= end - at
}

// How many bytes the first at + n bits need.
fn bytes_for(at: usize, n: u32) -> i64
    ensures { result ≡ pos (bytes_for (at + n)) }
{
    (at / 8 + (at % 8 + n as usize + 7) / 8) as i64
}

// The code of a signed number.
fn se_code(v: i32) -> u32
    requires { nat_abs v < 2 ^ 31 }
    ensures { (result ≡ se_code v) × (result < 2 ^ 32 - 1) }
{
    if 0 < v {
        2 * (v as u32) - 1
    } else {
        2 * ((-v) as u32)
    }
}
