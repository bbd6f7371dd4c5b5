// The input: how many cases there are, and then each: its name up to a colon, what is asked, a place, a width, a value, how many bytes are given, and these.
// What is asked: 0 to 3 read bits, a flag, ue(v) and se(v); 4 to 7 write them; 8 is the change cycle's width; 9 a unit type, 10 a first byte, 11 an extension,
// 12 a body. At most 16 bytes are given. A place with a sign counts back from the last that there is.
use super::numbers::{Number, number_at};
use super::{puts, reads, show, units};
use std::io;

const LAST: usize = 18446744073709551615;

// The place after a name's colon.
fn name_end(s: &[u8], from: usize) -> usize {
    for i in from..s.len() {
        if s[i] == 58 {
            return i + 1;
        }
    }
    from.max(s.len())
}

fn name(rt: &impl Print, s: &[u8], from: usize, to: usize) -> io::Result<()> {
    if from <= to {
        if to <= s.len() {
            show::text(rt, &s[from..to])?;
            show::text(rt, b" ")?;
        }
    }
    Ok(())
}

fn place(a: Number) -> usize {
    if a.negative {
        LAST - a.size as usize
    } else {
        a.size as usize
    }
}

fn put(d: &mut [u8], i: usize, b: u8) {
    if i < d.len() {
        d[i] = b;
    }
}

// The bytes that are given. The place after them.
fn bytes(d: &mut [u8], s: &[u8], from: usize, n: u32) -> usize {
    let mut at = from;
    for i in 0..n {
        let b = number_at(s, at);
        put(d, i as usize, (b.size % 256) as u8);
        at = b.next;
    }
    at
}

fn answer(rt: &impl Print, kind: u32, at: usize, n: u32, v: Number, s: &[u8]) -> io::Result<()> {
    if kind < 4 {
        reads::answer(rt, kind, at, n, s)?;
    } else if kind < 9 {
        puts::answer(rt, kind, at, n, v)?;
    } else {
        units::answer(rt, kind, at, n, s)?;
    }
    show::text(rt, b"\n")
}

// The answer to what is asked of the first bytes of d.
fn asked(
    rt: &impl Print,
    kind: u32,
    at: usize,
    n: u32,
    v: Number,
    d: &[u8],
    count: usize,
) -> io::Result<()> {
    if count <= d.len() {
        answer(rt, kind, at, n, v, &d[..count])?;
    }
    Ok(())
}

// A case and its line. The place after it.
fn case(rt: &impl Print, s: &[u8], from: usize) -> io::Result<usize> {
    let to = name_end(s, from);
    name(rt, s, from, to)?;
    let kind = number_at(s, to);
    let at = number_at(s, kind.next);
    let n = number_at(s, at.next);
    let v = number_at(s, n.next);
    let count = number_at(s, v.next);
    let mut d = [0u8; 16];
    let next = bytes(&mut d, s, count.next, count.size);
    asked(rt, kind.size, place(at), n.size, v, &d, count.size as usize)?;
    Ok(next)
}

pub(crate) fn all(rt: &impl Print, s: &[u8]) -> io::Result<()> {
    let n = number_at(s, 0);
    let mut at = n.next;
    for _ in 0..n.size {
        at = case(rt, s, at)?;
    }
    Ok(())
}
