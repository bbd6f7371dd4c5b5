// Answers and bytes as text.
use bits::refusals::Refusal;
use std::io;

pub(crate) fn text(rt: &impl Print, t: &[u8]) -> io::Result<()> {
    rt.write_all(t)
}

pub(crate) fn number(rt: &impl Print, n: u64) -> io::Result<()> {
    rt.print(n)
}

// The writer's refusals have no value below zero.
fn value(rt: &impl Print, z: i64) -> io::Result<()> {
    if z < 0 {
        text(rt, b"below zero")
    } else {
        rt.print(z)
    }
}

// Nothing that the writer refuses has a place; what is refused when it is read back has.
fn place(rt: &impl Print, r: Refusal) -> io::Result<()> {
    if r.has_bit {
        text(rt, b" bit=")?;
        number(rt, r.bit as u64)?;
    }
    Ok(())
}

pub(crate) fn refusal(rt: &impl Print, r: Refusal) -> io::Result<()> {
    text(rt, b"refused ")?;
    number(rt, r.number as u64)?;
    text(rt, b" value=")?;
    value(rt, r.value)?;
    place(rt, r)
}

pub(crate) fn byte_at(d: &[u8], i: usize) -> u8 {
    if i < d.len() { d[i] } else { 0 }
}

fn wide(b: u8) -> u32 {
    b as u32
}

fn byte(rt: &impl Print, b: u8) -> io::Result<()> {
    print!(rt; "{b:02x}")
}

fn bytes(rt: &impl Print, d: &[u8], n: usize) -> io::Result<()> {
    for i in 0..n {
        byte(rt, byte_at(d, i))?;
    }
    Ok(())
}

fn added(a: u32, b: u32) -> u32 {
    ((a as u64 + b as u64) % 65521) as u32
}

fn half(rt: &impl Print, n: u32) -> io::Result<()> {
    print!(rt; "{n:04x}")
}

// The Adler-32 sum of the first n bytes.
fn sum(rt: &impl Print, d: &[u8], n: usize) -> io::Result<()> {
    let mut a: u32 = 1;
    let mut b: u32 = 0;
    for i in 0..n {
        a = added(a, wide(byte_at(d, i)));
        b = added(b, a);
    }
    half(rt, b)?;
    half(rt, a)
}

// The first n bytes, cut after 24 and then with a sum over all, and how many they are.
pub(crate) fn written(rt: &impl Print, d: &[u8], n: usize) -> io::Result<()> {
    if n <= 24 {
        bytes(rt, d, n)?;
    } else {
        bytes(rt, d, 24)?;
        text(rt, b"..adler32=")?;
        sum(rt, d, n)?;
    }
    text(rt, b" of ")?;
    number(rt, n as u64)
}

// Whether all bytes from a place on are still those that the buffer was filled with.
pub(crate) fn is_filled(d: &[u8], from: usize) -> bool {
    for i in from..d.len() {
        if d[i] != 0xa5 {
            return false;
        }
    }
    true
}
