// Bytes into a slice, from a place on.
ghost use Rattle.std.specs.Prelude.{◌≡◌, ◌+◌, ◌≤◌, length, drop};
ghost use Rattle.std.proofs.Math.Seq.{paste};
ghost use Rattle.bits.specs.Copy.{has_room, copied};
ghost use Rattle.bits.specs.Refusals.{pick};

// One byte after the other; compiled, it is a loop of vectors.
fn copy_bytes(src: &[u8], dst: &mut [u8], at: usize) -> usize
    requires { at + length src.now ≤ length dst.old }
    ensures value { result ≡ at + length src.now }
    ensures dst_after { dst.new ≡ paste dst.old at src.now (length src.now) }
{
    for j in 0..src.len() {
        dst[at + j] = src[j];
    }
    at + src.len()
}

// N bytes of `src` from i on, to `dst` from o on. All are read before one is stored: compiled, it is one load and one store.
fn move_by<const N: usize>(src: &[u8], i: usize, dst: &mut [u8], o: usize)
    requires { (i + N ≤ length src.now) × (o + N ≤ length dst.old) }
    ensures { dst.new ≡ paste dst.old o (drop i src.now) N }
{
    let mut b: [u8; N] = [0; N];
    let e = i + N;
    copy_bytes(&src[i..e], &mut b, 0);
    copy_bytes(&b, dst, o);
}

// 8 to 255 bytes in few moves, of which the last ends with `src` and may repeat bytes of the one before.
fn copy_all(src: &[u8], dst: &mut [u8], at: usize) -> usize
    requires { at + length src.now ≤ length dst.old }
    ensures value { result ≡ at + length src.now }
    ensures dst_after { dst.new ≡ paste dst.old at src.now (length src.now) }
{
    let n = src.len();
    if n < 8 {
        return copy_bytes(src, dst, at);
    }
    if n < 16 {
        move_by::<8>(src, 0, dst, at);
        move_by::<8>(src, n - 8, dst, at + (n - 8));
        return at + n;
    }
    if 256 <= n {
        return copy_bytes(src, dst, at);
    }
    // Not by `step_by`, which the compiler unrolls eight times over: a short copy pays for that and gains nothing.
    let mut j: usize = 0;
    while j + 16 < n {
        move_by::<16>(src, j, dst, at + j);
        j += 16;
    }
    move_by::<16>(src, n - 16, dst, at + (n - 16));
    at + n
}

// Copies all of `src` into `dst` from `at` on; the place after it. Where there is no room for all of it, nothing is copied, and the place stays.
pub fn copy_in(src: &[u8], dst: &mut [u8], at: usize) -> usize
    ensures value { result ≡ pick (has_room src.now dst.old at) (at + length src.now) at }
    ensures dst_after { dst.new ≡ copied src.now dst.old at }
{
    let n = src.len();
    let m = dst.len();
    if m < n || m - n < at {
        return at;
    }
    copy_all(src, dst, at)
}
