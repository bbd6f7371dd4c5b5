// A unit into lent output, behind the four bytes that stand before it.
ghost use Rattle.std.specs.Prelude.{◌≡◌, ◌++◌, ◌∷◌, ◌+◌, ◌≤◌, length, take, drop};

use bits::copy::copy_in;

// Puts four bytes at `at` and a unit behind them; the place after it.
pub(crate) fn put_unit(out: &mut [u8], at: usize, a: u8, b: u8, c: u8, d: u8, unit: &[u8]) -> usize
    requires { at + (4 + length unit.now) ≤ length out.old }
    ensures value { result ≡ at + (4 + length unit.now) }
    ensures out_after { out.new ≡ take at out.old ++ (a ∷ b ∷ c ∷ d ∷ unit.now) ++ drop result out.old }
{
    out[at] = a;
    out[at + 1] = b;
    out[at + 2] = c;
    out[at + 3] = d;
    copy_in(unit, out, at + 4)
}
