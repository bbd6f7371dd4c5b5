// Passing over blocks in which nothing begins that is sought. One test of three bytes serves every kind: `mask` and `flip` take the third byte to 0 where it is
// one that is sought, and none over 3 is. Before it stands a cheaper one, for a pair of low bytes, which passes most blocks. The loops of a block have a fixed count
// and no branch, so that the compiler makes vectors of them.
ghost use Rattle.std.specs.Prelude.{true, ◌≡◌, ◌+◌, ◌*◌, ◌<◌, ◌≤◌, length};
ghost use Rattle.scan.specs.Clear.{Spot, Clear, pair_at, Low, Quiet};

// 0 where 00 00 and a byte that is sought stand at `j`.
fn trace(s: &[u8], j: usize, mask: u8, flip: u8) -> u8
    requires { j + 2 < length s.now }
    ensures { Spot mask flip s.now j → result ≡ 0 }
{
    s[j] | s[j + 1] | ((s[j + 2] & mask) ^ flip)
}

// Whether nothing that is sought begins at any of `count` places.
fn is_clear(s: &[u8], i: usize, count: usize, mask: u8, flip: u8) -> bool
    requires { i + count + 2 ≤ length s.now }
    ensures { result ≡ true → Clear mask flip s.now i (i + count) }
{
    let mut m: u8 = 255;
    for k in 0..count {
        m = m.min(trace(s, i + k, mask, flip));
    }
    0 < m
}

fn wide(x: u8) -> u16
    ensures { result ≡ x }
{
    x as u16
}

// The bytes at `j` and behind it as one number. A function of its own, so that the compiler makes one load of them before it sees what is asked of the number.
fn two(s: &[u8], j: usize) -> u16
    requires { j + 1 < length s.now }
    ensures { result ≡ pair_at s.now j }
{
    wide(s[j]) | wide(s[j + 1]) << 8
}

// 1 where 00 and a byte up to 03 stand at `j`.
fn low(s: &[u8], j: usize) -> u16
    requires { j + 1 < length s.now }
    ensures { Low s.now j → result ≡ 1 }
{
    if two(s, j) & 0xFCFF == 0 { 1 } else { 0 }
}

// Whether 00 and a byte up to 03 stand at none of `half` places, every other one behind `i`. Of the three bytes that are sought, those at the first two places or
// those at the last two are such a pair, so that one of them is seen: half the tests, and each byte is loaded once.
fn is_quiet(s: &[u8], i: usize, half: usize) -> bool
    requires { i + 2 * half + 2 ≤ length s.now }
    ensures { result ≡ true → Quiet s.now i half }
{
    let mut m: u16 = 0;
    for k in 0..half {
        m = m | low(s, i + 1 + 2 * k);
    }
    m == 0
}

// Whether nothing that is sought begins at any of `2 * half` places, by two tests: most blocks are quiet, which costs a third.
fn is_passed(s: &[u8], i: usize, half: usize, mask: u8, flip: u8) -> bool
    requires { i + 2 * half + 2 ≤ length s.now }
    ensures { result ≡ true → Clear mask flip s.now i (i + 2 * half) }
{
    if is_quiet(s, i, half) {
        return true;
    }
    is_clear(s, i, 2 * half, mask, flip)
}

// Whether 00 and a byte up to 03 stand at none of 64 places, every other one behind `i`, told by the least of the four bytes that stand 32 places apart: a pair in one
// of the four quarters is one among the least too, so that 16 tests do for 64. Two quarters together may look like a pair: of random blocks one in 64 is not calm,
// where one in 256 is not quiet.
fn is_calm(s: &[u8], i: usize) -> bool
    requires { i + 130 ≤ length s.now }
    ensures { result ≡ true → Quiet s.now i 64 }
{
    let mut t = [0u8; 32];
    for k in 0..32 {
        let j = i + 1 + k;
        t[k] = s[j].min(s[j + 32]).min(s[j + 64].min(s[j + 96]));
    }
    let mut m: u16 = 0;
    for p in 0..16 {
        m = m | low(&t, 2 * p);
    }
    m == 0
}

// Whether nothing that is sought begins at any of 128 places: as `is_passed` tells it, with fewer steps for a block that is calm, as most are.
fn is_passed_large(s: &[u8], i: usize, mask: u8, flip: u8) -> bool
    requires { i + 130 ≤ length s.now }
    ensures { result ≡ true → Clear mask flip s.now i (i + 128) }
{
    if is_calm(s, i) {
        return true;
    }
    is_clear(s, i, 128, mask, flip)
}

// `k` where `x` is 0, and else `count`.
fn place_of(x: u8, k: u8, count: u8) -> u8
    ensures { x ≡ 0 → result ≤ k }
{
    if x == 0 { k } else { count }
}

// The first of `count` places where something begins that is sought; `count` where nothing does.
fn first_of(s: &[u8], i: usize, count: u8, mask: u8, flip: u8) -> u8
    requires { i + count + 2 ≤ length s.now }
    ensures { (result ≤ count) × Clear mask flip s.now i (i + result) }
{
    let mut m = count;
    for k in 0..count {
        let x = trace(s, i + k as usize, mask, flip);
        m = place_of(x, k, count).min(m);
    }
    m
}

// A place from `from` on before which nothing begins that is sought: by blocks of 128 bytes. This, `is_passed_large` and `is_calm` have one caller each,
// so that the compiler makes one loop of them.
fn pass_large(s: &[u8], from: usize, mask: u8, flip: u8) -> usize
    requires { from ≤ length s.now }
    ensures { (from ≤ result) × (result ≤ length s.now) × Clear mask flip s.now from result }
{
    let n = s.len();
    let mut i = from;
    // No `for`: it goes on by blocks and ends at the first that is not clear.
    while 130 <= n - i {
        if is_passed_large(s, i, mask, flip) {
            i += 128;
        } else {
            return i;
        }
    }
    i
}

// The same by blocks of 16.
fn pass_small(s: &[u8], from: usize, mask: u8, flip: u8) -> usize
    requires { from ≤ length s.now }
    ensures { (from ≤ result) × (result ≤ length s.now) × Clear mask flip s.now from result }
{
    let n = s.len();
    let mut i = from;
    // No `for`, for the same reason.
    while 18 <= n - i {
        if is_passed(s, i, 8, mask, flip) {
            i += 16;
        } else {
            return i;
        }
    }
    i
}

// The same for the last bytes: one block that reaches to the end, which most often is clear, and else blocks of 16.
fn pass_end(s: &[u8], from: usize, mask: u8, flip: u8) -> usize
    requires { (from ≤ length s.now) × (length s.now < from + 130) }
    ensures { (from ≤ result) × (result ≤ length s.now) × Clear mask flip s.now from result }
{
    let n = s.len();
    if 130 <= n && is_passed(s, n - 130, 64, mask, flip) {
        return from.max(n - 2);
    }
    pass_small(s, from, mask, flip)
}

// The same within 128 bytes: the place itself, or near the end a place that is near it.
fn pass_near(s: &[u8], from: usize, mask: u8, flip: u8) -> usize
    requires { from ≤ length s.now }
    ensures { (from ≤ result) × (result ≤ length s.now) × Clear mask flip s.now from result }
{
    if s.len() - from < 130 {
        return pass_end(s, from, mask, flip);
    }
    let m = first_of(s, from, 128, mask, flip);
    from + m as usize
}

// The same for any distance: what is sought begins at most 18 bytes behind the place, or the end is there.
pub(crate) fn pass_over(s: &[u8], from: usize, mask: u8, flip: u8) -> usize
    requires { from ≤ length s.now }
    ensures { (from ≤ result) × (result ≤ length s.now) × Clear mask flip s.now from result }
{
    let i = pass_large(s, from, mask, flip);
    pass_near(s, i, mask, flip)
}

// The same where what is sought may well be near: the first 32 places are tried by themselves.
pub(crate) fn pass_soon(s: &[u8], from: usize, mask: u8, flip: u8) -> usize
    requires { from ≤ length s.now }
    ensures { (from ≤ result) × (result ≤ length s.now) × Clear mask flip s.now from result }
{
    if s.len() - from < 34 {
        return pass_over(s, from, mask, flip);
    }
    let m = first_of(s, from, 32, mask, flip);
    if m < 32 {
        return from + m as usize;
    }
    pass_over(s, from, mask, flip)
}
