// The part of a unit's body that is unescaped, in a local array.
ghost use Rattle.std.specs.Prelude.{◌≡◌, ◌≤◌, ◌<◌, length, take, drop};
ghost use Rattle.bits.specs.Refusals.{pick, limit};
ghost use Rattle.escape.specs.Body.{body, start_with};
ghost use Rattle.cut.specs.Seam.{near_body, far_body, may_change};

use crate::rest::{any_kept, zeros_before};
use bits::refusals::{NOTHING_FOLLOWS, RAN_OUT, Refusal};
use escape::escape::unescape;
use fields::conditions::either;

// Nearly every header stands in the body of so many bytes: a block of the search (`scan::blocks`) and the two bytes behind it, so that one test passes over them.
pub const NEAR: usize = 130;

// A header looks at no more than 63,173 bits, which the body of so many bytes has.
const FAR: usize = 12288;

// Whether more of the unit may change a refusal.
pub fn may_change(r: Refusal) -> bool
    ensures { result ≡ may_change r }
{
    either(r.number == RAN_OUT, r.number == NOTHING_FOLLOWS)
}

// The body of a unit's first bytes, at the front of an array that has room for them; how many bytes it has.
fn first_bytes(unit: &[u8], from: usize, end: usize, local: &mut [u8]) -> usize
    requires { (end ≤ length unit.now) × ((end ≤ length local.old) × (end ≤ limit)) }
    ensures value { result ≡ length (body 0 (drop from (take end unit.now))) }
    ensures local_after { local.new ≡ start_with (body 0 (drop from (take end unit.now))) local.old }
{
    match unescape(&unit[..end], from, local) {
        Ok(n) => n,
        Err(_) => 0,
    }
}

// The body of the first bytes.
pub fn near_body(unit: &[u8], from: usize, local: &mut [u8; 130]) -> usize
    ensures value { result ≡ length (near_body unit.now from) }
    ensures local_after { local.new ≡ start_with (near_body unit.now from) local.old }
{
    let n = unit.len();
    if n < NEAR {
        return first_bytes(unit, from, n, local);
    }
    first_bytes(unit, from, NEAR, local)
}

fn set_byte(b: bool) -> u8
    ensures { result ≡ pick b 1 0 }
{
    if b { 1 } else { 0 }
}

// The body of as many bytes as hold every header, and a byte that stands for all behind them.
pub fn far_body(unit: &[u8], from: usize, local: &mut [u8; 12289]) -> usize
    ensures value { result ≡ length (far_body unit.now from) }
    ensures local_after { local.new ≡ start_with (far_body unit.now from) local.old }
{
    let n = unit.len();
    if n <= FAR {
        return first_bytes(unit, from, n, local);
    }
    let k = first_bytes(unit, from, FAR, local);
    local[k] = set_byte(any_kept(unit, FAR, zeros_before(unit, from, FAR)));
    k + 1
}
