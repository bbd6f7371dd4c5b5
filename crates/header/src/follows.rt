// What must follow a header: a set bit strictly after the bit at the place where the header ends.
ghost use Rattle.std.specs.Prelude.{◌≡◌, ◌+◌, drop};
ghost use Rattle.bits.specs.Bits.{bits_of, bytes_bits};
ghost use Rattle.syntax.specs.SliceHeader.{any_set};

use bits::window::within;

// Whether a byte from `from` on is not zero.
fn any_from(s: &[u8], from: usize) -> bool
    ensures { result ≡ any_set (bytes_bits (drop from s.now)) }
{
    for i in from..s.len() {
        if s[i] != 0 {
            return true;
        }
    }
    false
}

// The rest of the byte that bit `at` stands in, then whole bytes.
fn any_after(s: &[u8], at: usize) -> bool
    ensures { result ≡ any_set (drop (at + 1) (bytes_bits s.now)) }
{
    let i = at / 8;
    if s.len() <= i {
        return false;
    }
    let left = 1u8 << (7 - at % 8);
    if s[i] % left != 0 {
        return true;
    }
    any_from(s, i + 1)
}

// Whether a bit is set strictly after bit `at`.
pub fn any_set_after(s: &[u8], at: usize) -> bool
    ensures { result ≡ any_set (drop (at + 1) (bits_of s.now)) }
{
    any_after(within(s), at)
}
