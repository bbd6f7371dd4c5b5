// A unit's body, from a place of the unit on, with its emulation prevention bytes dropped (H.264, 7.3.1).
ghost use Rattle.std.specs.Prelude.{◌≡◌, ◌++◌, ◌≤◌, max, length, drop};
ghost use Rattle.escape.specs.Body.{body, unescaped};
ghost use Rattle.escape.specs.Known.{known_body, unescaped_known};

use bits::copy::copy_in;
use bits::refusals::{BUFFER_TOO_SHORT, LIMIT, Refusal, TOO_LARGE, refuse};
use scan::scan::seek;

// Puts what stands in `unit` from `from` on, unescaped, at the front of `scratch`, which needs as many bytes as the unit has. What stands before `from`, a first
// byte or an extension, does not count as zeros before a dropped 03. A refused call changes nothing.
pub fn unescape(unit: &[u8], from: usize, scratch: &mut [u8]) -> Result<usize, Refusal>
    ensures value { result ≡ (unescaped unit.now from scratch.old).answer }
    ensures scratch_after { scratch.new ≡ (unescaped unit.now from scratch.old).left }
{
    unescape_known(unit, from, 0, scratch)
}

// The same for a caller who knows that no 00 00 03 begins before `known`: bytes before it are copied as they stand, and not searched again.
pub fn unescape_known(
    unit: &[u8],
    from: usize,
    known: usize,
    scratch: &mut [u8],
) -> Result<usize, Refusal>
    ensures value { result ≡ (unescaped_known unit.now from known scratch.old).answer }
    ensures scratch_after { scratch.new ≡ (unescaped_known unit.now from known scratch.old).left }
{
    let n = unit.len();
    if LIMIT < n {
        return Err(refuse(TOO_LARGE, 0));
    }
    if scratch.len() < n {
        return Err(refuse(BUFFER_TOO_SHORT, n as i64));
    }
    Ok(copy_kept(unit, from, known, scratch))
}

// The later of two places.
fn later(a: usize, b: usize) -> usize
    ensures { result ≡ max a b }
{
    if a < b { b } else { a }
}

// The loop: the bytes of `unit` from `from` on that are kept, to the front of `scratch`; how many they are. Up to the next 00 00 03 all are, and its 03 is not.
// Zeros before that 03 do not count again, so each run starts as the body does.
fn copy_kept(unit: &[u8], from: usize, known: usize, scratch: &mut [u8]) -> usize
    requires { length unit.now ≤ length scratch.old }
    ensures value { result ≡ length (known_body unit.now from known) }
    ensures scratch_after { scratch.new ≡ known_body unit.now from known ++ drop result scratch.old }
{
    let n = unit.len();
    if n < from {
        return 0;
    }
    let mut i = from;
    let mut o: usize = 0;
    let mut seen = later(from, known);
    loop {
        let e = seek(unit, seen, 3, 3);
        if n <= e {
            return copy_in(&unit[i..], scratch, o);
        }
        let stop = e + 2;
        o = copy_in(&unit[i..stop], scratch, o);
        i = e + 3;
        seen = i;
    }
}
