// Numbers out of a slice: 64 bits at once from any bit place, zeros past the end; and 25 where none of them is past it.
ghost use Rattle.std.specs.Prelude.{◌≡◌, ℕ, ◌+◌, ◌-◌, ◌*◌, ◌/◌, ◌^◌, ◌≤◌, ◌<◌, length, take};
ghost use Rattle.bits.specs.Bits.{reach};
ghost use Rattle.bits.specs.Windows.{bits_at};

// The bytes whose bits have a place: all of them, for any slice that fits in a machine.
const REACH: usize = 2_305_843_009_213_693_951;

// The part of a slice whose bits have a place: the bytes whose bits `bits_of` has.
pub fn within(s: &[u8]) -> &[u8]
    ensures { result.now ≡ take reach s.now }
{
    let n = reached(s.len());
    &s[..n]
}

pub(crate) fn reached(n: usize) -> usize
    ensures { (result ≤ n) × (result ≤ reach) × (result < reach → result ≡ n) }
{
    if n < REACH { n } else { REACH }
}

pub(crate) fn wide(x: u8) -> u64
    ensures { result ≡ x }
{
    x as u64
}

// The 8 bits of byte i.
fn one(s: &[u8], i: usize) -> u64
    requires { i < length s.now }
    ensures { result ≡ bits_at s.now (8 * i) 8 }
{
    wide(s[i])
}

// The 64 bits from byte i on. The compiler makes one load of this form, and of no sum or nested form.
fn eight(s: &[u8], i: usize) -> u64
    requires { i + 7 < length s.now }
    ensures { result ≡ bits_at s.now (8 * i) 64 }
{
    one(s, i) << 56
        | one(s, i + 1) << 48
        | one(s, i + 2) << 40
        | one(s, i + 3) << 32
        | one(s, i + 4) << 24
        | one(s, i + 5) << 16
        | one(s, i + 6) << 8
        | one(s, i + 7)
}

// The 32 bits from byte i on.
fn four(s: &[u8], i: usize) -> u32
    requires { i + 3 < length s.now }
    ensures { result ≡ bits_at s.now (8 * i) 32 }
{
    (one(s, i) << 24 | one(s, i + 1) << 16 | one(s, i + 2) << 8 | one(s, i + 3)) as u32
}

// The bits from bit `at` on, 25 of them at least, from the top of the result down.
pub(crate) fn short_window(s: &[u8], at: usize) -> u32
    requires { at / 8 + 3 < length s.now }
    ensures { (n : ℕ) → n ≤ 25 → result / 2 ^ (32 - n) ≡ bits_at s.now at n }
{
    four(s, at / 8) << (at % 8)
}

// The 32 bits from bit `at` on, of which the slice has the first 31 at most: its last 32 bits, shifted up.
pub(crate) fn last_window(s: &[u8], at: usize) -> u32
    requires { (length s.now ≤ reach) × (4 ≤ length s.now) × (8 * length s.now < at + 32) × (at < 8 * length s.now) }
    ensures { result ≡ bits_at s.now at 32 }
{
    let m = s.len();
    four(s, m - 4) << (32 - (m * 8 - at))
}

// The 8 bits of byte i, zeros past the end.
fn one_or_zeros(s: &[u8], i: usize) -> u64
    ensures { result ≡ bits_at s.now (8 * i) 8 }
{
    if i < s.len() { one(s, i) } else { 0 }
}

// The 64 bits from byte k on, zeros past the end, a byte at a time.
fn eight_or_zeros(s: &[u8], k: usize) -> u64
    requires { k < 2 ^ 62 }
    ensures { result ≡ bits_at s.now (8 * k) 64 }
{
    let mut g: u64 = 0;
    for j in 0..8 {
        g = g * 256 + one_or_zeros(s, k + j);
    }
    g
}

// The 64 bits from byte k on, where the slice ends before they do: its last 64 bits, shifted up. Only a slice under 8 bytes goes a byte at a time.
fn late(s: &[u8], k: usize) -> u64
    requires { (k < 2 ^ 62) × (length s.now ≤ k + 7) }
    ensures { result ≡ bits_at s.now (8 * k) 64 }
{
    let n = s.len();
    if n < 8 {
        return eight_or_zeros(s, k);
    }
    if n <= k {
        return 0;
    }
    let from = n - 8;
    eight(s, from) << (8 * (k - from))
}

// The 64 bits from byte k on, zeros past the end.
fn gather(s: &[u8], k: usize) -> u64
    requires { k < 2 ^ 62 }
    ensures { result ≡ bits_at s.now (8 * k) 64 }
{
    if k + 7 < s.len() {
        eight(s, k)
    } else {
        late(s, k)
    }
}

// The 64 bits from bit `at` on, zeros past the end.
pub(crate) fn long_window(s: &[u8], at: usize) -> u64
    ensures { result ≡ bits_at s.now at 64 }
{
    let k = at / 8;
    let r = at % 8;
    gather(s, k) << r | one_or_zeros(s, k + 8) >> (8 - r)
}
