// A unit made of a first byte, an extension and a body, escaped.
use super::show::byte_at;
use writer::given::ExtensionGiven;

// Where the next byte goes, and how many zeros stand before it, 2 for more.
#[derive(Clone, Copy)]
pub(crate) struct Built {
    pub(crate) at: usize,
    pub(crate) zeros: u32,
}

fn put(u: &mut [u8; 9216], at: usize, b: u8) {
    if at < 9216 {
        u[at] = b;
    }
}

// A unit that would have more than 9,216 bytes stays at its last: such a one would not be the same any more.
fn after(at: usize) -> usize {
    if at < 9216 { at + 1 } else { at }
}

fn raw(u: &mut [u8; 9216], at: usize, b: u8) -> usize {
    put(u, at, b);
    after(at)
}

fn zeros_after(zeros: u32, b: u8) -> u32 {
    if b != 0 {
        return 0;
    }
    if zeros == 0 { 1 } else { 2 }
}

// A 03 first where 00 00 stands before a byte of 00 to 03.
fn next(u: &mut [u8; 9216], s: Built, b: u8) -> Built {
    if s.zeros == 2 {
        if b <= 3 {
            let at = raw(u, s.at, 3);
            return Built {
                at: raw(u, at, b),
                zeros: zeros_after(0, b),
            };
        }
    }
    Built {
        at: raw(u, s.at, b),
        zeros: zeros_after(s.zeros, b),
    }
}

// The first n bytes of a body, escaped, from a place of the unit on. The place after them.
fn escape(u: &mut [u8; 9216], from: usize, d: &[u8], n: usize) -> usize {
    let mut s = Built { at: from, zeros: 0 };
    for i in 0..n {
        s = next(u, s, byte_at(d, i));
    }
    s.at
}

// Types 20 and 21 have an extension, which is not escaped.
fn extension(u: &mut [u8; 9216], first: u8, x: ExtensionGiven) -> usize {
    if first % 32 < 20 {
        return 1;
    }
    put(u, 1, x.b1);
    put(u, 2, x.b2);
    put(u, 3, x.b3);
    4
}

// The unit, and how many bytes it has.
pub(crate) fn unit(u: &mut [u8; 9216], first: u8, x: ExtensionGiven, d: &[u8], n: usize) -> usize {
    put(u, 0, first);
    let from = extension(u, first, x);
    escape(u, from, d, n)
}
