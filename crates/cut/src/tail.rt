// A part of a body that lies further back: found by passing over the unit, without storing what stands before it.
ghost use Rattle.std.specs.Prelude.{◌≡◌, ◌+◌, ◌≤◌, ◌<◌, length, take, drop, set};
ghost use Rattle.bits.specs.Refusals.{pick};
ghost use Rattle.escape.specs.Body.{drops, body, start_with};
ghost use Rattle.cut.specs.Seam.{tail_body};

use crate::rest::{is_dropped, zeros_after};

// A place in a unit, and how many zero bytes stand right before it.
#[derive(Clone, Copy)]
struct Spot {
    at: usize,
    zeros: usize,
}

// How many bytes of a body a byte is.
fn kept(z: usize, a: u8) -> usize
    ensures { result ≡ pick (drops z a) 0 1 }
{
    if is_dropped(z, a) { 0 } else { 1 }
}

// How many bytes the body has.
pub fn body_bytes(unit: &[u8], from: usize) -> usize
    ensures { result ≡ length (body 0 (drop from unit.now)) }
{
    let mut n: usize = 0;
    let mut zeros: usize = 0;
    for i in from..unit.len() {
        let a = unit[i];
        n += kept(zeros, a);
        zeros = zeros_after(zeros, a);
    }
    n
}

// Where the body's byte k stands.
fn spot_of(unit: &[u8], from: usize, k: usize) -> Spot
    ensures { (body result.zeros (drop result.at unit.now) ≡ drop k (body 0 (drop from unit.now))) × (result.zeros ≤ result.at) }
{
    let mut n: usize = 0;
    let mut zeros: usize = 0;
    for i in from..unit.len() {
        if k <= n {
            return Spot { at: i, zeros };
        }
        let a = unit[i];
        n += kept(zeros, a);
        zeros = zeros_after(zeros, a);
    }
    Spot {
        at: unit.len(),
        zeros,
    }
}

// A byte behind n that are kept, if it is kept too; how many there are then.
fn keep(local: &mut [u8], n: usize, z: usize, a: u8) -> usize
    requires { n < length local.old }
    ensures value { result ≡ n + pick (drops z a) 0 1 }
    ensures local_after { local.new ≡ pick (drops z a) local.old (set local.old n a) }
{
    if is_dropped(z, a) {
        return n;
    }
    local[n] = a;
    n + 1
}

// The bytes that are kept from a place on, as many as there is room for.
fn keep_from(unit: &[u8], from: usize, z: usize, local: &mut [u8]) -> usize
    requires { (z ≤ from) × (256 ≤ length local.old) }
    ensures value { result ≡ length (take 256 (body z (drop from unit.now))) }
    ensures local_after { local.new ≡ start_with (take 256 (body z (drop from unit.now))) local.old }
{
    let mut n: usize = 0;
    let mut zeros = z;
    for i in from..unit.len() {
        if 256 <= n {
            return n;
        }
        let a = unit[i];
        n = keep(local, n, zeros, a);
        zeros = zeros_after(zeros, a);
    }
    n
}

// The body from its byte k on, 256 bytes of it or all that there are; how many.
pub fn tail_body(unit: &[u8], from: usize, k: usize, local: &mut [u8; 256]) -> usize
    ensures value { result ≡ length (tail_body unit.now from k) }
    ensures local_after { local.new ≡ start_with (tail_body unit.now from k) local.old }
{
    let spot = spot_of(unit, from, k);
    keep_from(unit, spot.at, spot.zeros, local)
}
