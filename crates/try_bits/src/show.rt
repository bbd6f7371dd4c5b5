// Answers as text.
use bits::read::{Cursor, Read};
use bits::refusals::Refusal;
use std::io;

pub(crate) fn text(rt: &impl Print, t: &[u8]) -> io::Result<()> {
    rt.write_all(t)
}

pub(crate) fn number(rt: &impl Print, n: u64) -> io::Result<()> {
    rt.print(n)
}

pub(crate) fn signed(rt: &impl Print, n: i64) -> io::Result<()> {
    rt.print(n)
}

pub(crate) fn bytes(rt: &impl Print, d: &[u8]) -> io::Result<()> {
    for b in d {
        byte(rt, *b)?;
    }
    Ok(())
}

fn byte(rt: &impl Print, b: u8) -> io::Result<()> {
    print!(rt; " {b:02x}")
}

// The place of a refusal, if it has one.
fn place(rt: &impl Print, r: Refusal) -> io::Result<()> {
    if r.has_bit {
        text(rt, b" bit=")?;
        number(rt, r.bit as u64)?;
    }
    Ok(())
}

pub(crate) fn refusal(rt: &impl Print, r: Refusal) -> io::Result<()> {
    text(rt, b"refused ")?;
    number(rt, r.number as u64)?;
    text(rt, b" value=")?;
    signed(rt, r.value)?;
    place(rt, r)
}

pub(crate) fn read(rt: &impl Print, a: Read<u32>) -> io::Result<()> {
    match a {
        Ok((v, c)) => {
            number(rt, v as u64)?;
            text(rt, b" next=")?;
            number(rt, c.at as u64)
        }
        Err(r) => refusal(rt, r),
    }
}

pub(crate) fn read_signed(rt: &impl Print, a: Read<i32>) -> io::Result<()> {
    match a {
        Ok((v, c)) => {
            signed(rt, v as i64)?;
            text(rt, b" next=")?;
            number(rt, c.at as u64)
        }
        Err(r) => refusal(rt, r),
    }
}

pub(crate) fn read_flag(rt: &impl Print, a: Read<bool>) -> io::Result<()> {
    match a {
        Ok((v, c)) => {
            if v {
                text(rt, b"set")?;
            } else {
                text(rt, b"clear")?;
            }
            text(rt, b" next=")?;
            number(rt, c.at as u64)
        }
        Err(r) => refusal(rt, r),
    }
}

// A write's answer, and the buffer after it.
pub(crate) fn wrote(rt: &impl Print, a: Result<Cursor, Refusal>, d: &[u8]) -> io::Result<()> {
    match a {
        Ok(c) => {
            text(rt, b"next=")?;
            number(rt, c.at as u64)?;
        }
        Err(r) => refusal(rt, r)?,
    }
    text(rt, b" buffer")?;
    bytes(rt, d)
}
