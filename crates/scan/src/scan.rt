// The search for 00 00 and a byte within bounds.
ghost use Rattle.std.specs.Prelude.{◌≡◌, ◌+◌, ◌≤◌, length, drop};
ghost use Rattle.scan.specs.Scan.{hit, upto};

use crate::blocks::{pass_over, pass_soon};

// Whether 00 00 and a byte from `low` to `high` stand at `i`.
pub fn hit_at(s: &[u8], i: usize, low: u8, high: u8) -> bool
    ensures { result ≡ hit low high (drop i s.now) }
{
    if s.len() < 3 {
        return false;
    }
    if s.len() - 3 < i {
        return false;
    }
    if s[i] != 0 {
        return false;
    }
    if s[i + 1] != 0 {
        return false;
    }
    let c = s[i + 2];
    if c < low {
        return false;
    }
    c <= high
}

// The plain search. A byte over `high` is none of the three that are sought, so that it goes on behind it.
fn seek_plain(s: &[u8], from: usize, low: u8, high: u8) -> usize
    requires { from ≤ length s.now }
    ensures { result ≡ from + upto low high (drop from s.now) }
{
    let n = s.len();
    let mut i = from;
    // No `for`: it goes on by one or by three.
    while 2 < n - i {
        if high < s[i + 2] {
            i += 3;
        } else {
            if hit_at(s, i, low, high) {
                return i;
            }
            i += 1;
        }
    }
    n
}

// A place from `from` on with no hit before it. For bytes up to 3 it passes over blocks; an end mark may well be near, a byte by itself is not.
fn near(s: &[u8], from: usize, low: u8, high: u8) -> usize
    requires { from ≤ length s.now }
    ensures { (result ≤ length s.now) × (from + upto low high (drop from s.now) ≡ result + upto low high (drop result s.now)) }
{
    if 3 < high {
        return from;
    }
    if low == high {
        return pass_over(s, from, 255, low);
    }
    if high <= 1 {
        return pass_soon(s, from, 254, 0);
    }
    pass_soon(s, from, 252, 0)
}

// The first place from `from` on where 00 00 and a byte from `low` to `high` stand, or the end; `from` itself where that lies behind the end.
pub fn seek(s: &[u8], from: usize, low: u8, high: u8) -> usize
    ensures { result ≡ from + upto low high (drop from s.now) }
{
    if s.len() <= from {
        return from;
    }
    let i = near(s, from, low, high);
    seek_plain(s, i, low, high)
}
