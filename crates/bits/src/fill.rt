// Bits into a slice, a byte at a time: what stands before them is kept, and zeros follow to the end of the last byte.
ghost use Rattle.std.specs.Prelude.{◌≡◌, ℕ, ◌+◌, ◌-◌, ◌*◌, ◌/◌, ◌%◌, ◌^◌, ◌≤◌, ◌<◌, length};
ghost use Rattle.bits.specs.Bits.{digits};
ghost use Rattle.bits.specs.Put.{put_bits};

use crate::window::wide;

// Puts n bits into the byte that they all stand in.
fn fill_byte(d: &mut [u8], at: usize, n: u32, v: u64)
    requires { (at / 8 < length d.old) × (at % 8 + n ≤ 8) × (0 < n) × (v < 2 ^ n) }
    ensures { d.new ≡ put_bits d.old at (digits n v) }
{
    let k = at / 8;
    let r = (at % 8) as u32;
    let hi = wide(d[k]) >> (8 - r);
    d[k] = (((hi << n) + v) << (8 - r - n)) as u8;
}

// How many of the bits that are left go into the byte of bit `at`.
fn chunk(at: usize, left: u32) -> u32
    requires { 0 < left }
    ensures { (0 < result) × (result ≤ left) × (at % 8 + result ≤ 8) }
{
    let room = 8 - (at % 8) as u32;
    left.min(room)
}

// The first `take` of the low `left` bits of w.
fn piece(w: u64, left: u32, take: u32) -> u64
    requires { (left ≤ 32) × (take ≤ left) }
    ensures { result ≡ w / 2 ^ (left - take) % 2 ^ take }
{
    (w >> (left - take)) % (1u64 << take)
}

// Puts the n bits of v at bit `at`.
pub(crate) fn fill(d: &mut [u8], at: usize, n: u32, v: u32)
    requires { (at + n ≤ 8 * length d.old) × (at + n < 2 ^ 64) × (n ≤ 32) × (v < 2 ^ n) }
    ensures { d.new ≡ put_bits d.old at (digits n v) }
{
    let w = v as u64;
    let mut p = at;
    let mut left = n;
    // No `for`: each turn takes as many bits as its byte has room for.
    while 0 < left {
        let take = chunk(p, left);
        fill_byte(d, p, take, piece(w, left, take));
        p += take as usize;
        left -= take;
    }
}
