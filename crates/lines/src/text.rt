// Pieces of text, each put into a line's buffer at a place; the answer is the place after it.
ghost use Rattle.std.specs.Prelude.{◌≡◌, ◌++◌, ◌+◌, ◌≤◌, length, nat_abs};
ghost use Rattle.lines.specs.Text.{decimal, signed, Put};

use bits::copy::copy_in;

pub(crate) fn words(d: &mut [u8; 128], at: usize, w: &[u8]) -> usize
    requires { at + length w.now ≤ 128 }
    ensures { Put d.old at w.now result d.new }
{
    copy_in(w, d, at)
}

// Decimal digits, as the definition has them: those of a tenth, then the last.
pub(crate) fn number(d: &mut [u8; 128], at: usize, n: u64) -> usize
    requires { at + length (decimal n) ≤ 128 }
    ensures { Put d.old at (decimal n) result d.new }
{
    if n < 10 {
        d[at] = 48 + n as u8;
        return at + 1;
    }
    let last = number(d, at, n / 10);
    d[last] = 48 + (n % 10) as u8;
    last + 1
}

// How far from zero a number is.
fn magnitude(z: i64) -> u64
    ensures { result ≡ nat_abs z }
{
    if z < 0 {
        (-(z + 1)) as u64 + 1
    } else {
        z as u64
    }
}

pub(crate) fn signed_number(d: &mut [u8; 128], at: usize, z: i64) -> usize
    requires { at + length (signed z) ≤ 128 }
    ensures { Put d.old at (signed z) result d.new }
{
    if z < 0 {
        let digits = words(d, at, b"-");
        return number(d, digits, magnitude(z));
    }
    number(d, at, magnitude(z))
}

// A name and its number.
pub(crate) fn field(d: &mut [u8; 128], at: usize, name: &[u8], n: u64) -> usize
    requires { at + length name.now + length (decimal n) ≤ 128 }
    ensures { Put d.old at (name.now ++ decimal n) result d.new }
{
    let digits = words(d, at, name);
    number(d, digits, n)
}
