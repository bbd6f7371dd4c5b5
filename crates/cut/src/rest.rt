// What lies behind the part of a body that was unescaped: whether a bit is set there, without storing it.
ghost use Rattle.std.specs.Prelude.{◌≡◌, not, ◌&&◌, ◌≤◌, ◌<◌, eqb, length, take, drop};
ghost use Rattle.bits.specs.Bits.{bytes_bits};
ghost use Rattle.escape.specs.Body.{drops, zeros, body};
ghost use Rattle.syntax.specs.SliceHeader.{any_set};
ghost use Rattle.cut.specs.Seam.{zeros_over};

use fields::conditions::both;

// How many zero bytes stand right before the byte after `a`, where `z` stand before `a`.
pub(crate) fn zeros_after(z: usize, a: u8) -> usize
    requires { z < 9223372036854775808 }
    ensures { result ≡ zeros z a }
{
    if a == 0 { z + 1 } else { 0 }
}

// Whether a byte is dropped.
pub(crate) fn is_dropped(z: usize, a: u8) -> bool
    ensures { result ≡ drops z a }
{
    both(2 <= z, a == 3)
}

// Whether a byte is kept and has a bit set.
fn stands(z: usize, a: u8) -> bool
    ensures { result ≡ not (drops z a) && not (eqb a 0) }
{
    both(!is_dropped(z, a), a != 0)
}

// How many zero bytes stand right before `to`, from `from` on.
pub(crate) fn zeros_before(unit: &[u8], from: usize, to: usize) -> usize
    requires { to ≤ length unit.now }
    ensures { (result ≡ zeros_over 0 (drop from (take to unit.now))) × (result ≤ to) }
{
    let mut z: usize = 0;
    for i in from..to {
        z = zeros_after(z, unit[i]);
    }
    z
}

// Whether a byte from `from` on is kept and has a bit set, where `z` zero bytes stand right before the first.
pub(crate) fn any_kept(unit: &[u8], from: usize, z: usize) -> bool
    requires { z ≤ from }
    ensures { result ≡ any_set (bytes_bits (body z (drop from unit.now))) }
{
    let mut zeros = z;
    for i in from..unit.len() {
        let a = unit[i];
        if stands(zeros, a) {
            return true;
        }
        zeros = zeros_after(zeros, a);
    }
    false
}
