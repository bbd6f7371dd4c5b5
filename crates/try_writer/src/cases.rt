// The input: how many records there are, and then each: its name up to a colon, the unit's first byte, whether there is an extension, its first byte, the room
// that is lent, how many changes make its words of zeros, and these. A change is a slot of `words`, a step and how many slots it is for, so many steps apart, and a value.
use super::numbers::{Number, number_at};
use super::shown::{line, started};
use super::words::put;
use super::{sets, show};
use std::io;
use table::table::Sets;

// The place after a name's colon.
fn name_end(s: &[u8], from: usize) -> usize {
    for i in from..s.len() {
        if s[i] == 58 {
            return i + 1;
        }
    }
    from.max(s.len())
}

fn name(rt: &impl Print, s: &[u8], from: usize, to: usize) -> io::Result<()> {
    if from <= to {
        if to <= s.len() {
            show::text(rt, &s[from..to])?;
            show::text(rt, b" ")?;
        }
    }
    Ok(())
}

// Far behind the last slot it stays where it is.
fn later(at: usize, step: u32) -> usize {
    if at < 4096 { at + step as usize } else { at }
}

fn fill(
    numbers: &mut [u32; 57],
    signed: &mut [i32; 7],
    l0: &mut [u32; 198],
    l1: &mut [u32; 198],
    marking: &mut [u32; 198],
    w0: &mut [i32; 256],
    w1: &mut [i32; 256],
    from: u32,
    step: u32,
    times: u32,
    v: Number,
) {
    let mut at = from as usize;
    for _ in 0..times {
        put(numbers, signed, l0, l1, marking, w0, w1, at, v);
        at = later(at, step);
    }
}

// A change. The place after it.
fn change(
    numbers: &mut [u32; 57],
    signed: &mut [i32; 7],
    l0: &mut [u32; 198],
    l1: &mut [u32; 198],
    marking: &mut [u32; 198],
    w0: &mut [i32; 256],
    w1: &mut [i32; 256],
    s: &[u8],
    at: usize,
) -> usize {
    let slot = number_at(s, at);
    let step = number_at(s, slot.next);
    let times = number_at(s, step.next);
    let v = number_at(s, times.next);
    fill(
        numbers, signed, l0, l1, marking, w0, w1, slot.size, step.size, times.size, v,
    );
    v.next
}

// So many changes. The place after them.
fn changes(
    numbers: &mut [u32; 57],
    signed: &mut [i32; 7],
    l0: &mut [u32; 198],
    l1: &mut [u32; 198],
    marking: &mut [u32; 198],
    w0: &mut [i32; 256],
    w1: &mut [i32; 256],
    s: &[u8],
    from: usize,
    n: u32,
) -> usize {
    let mut at = from;
    for _ in 0..n {
        at = change(numbers, signed, l0, l1, marking, w0, w1, s, at);
    }
    at
}

// A record, written and read back. The place after it.
fn case(rt: &impl Print, sets: Sets<'_>, s: &[u8], from: usize) -> io::Result<usize> {
    let at = name_end(s, from);
    name(rt, s, from, at)?;
    let first = number_at(s, at);
    let there = number_at(s, first.next);
    let b1 = number_at(s, there.next);
    let room = number_at(s, b1.next);
    let n = number_at(s, room.next);
    let mut numbers = [0u32; 57];
    let mut signed = [0i32; 7];
    let mut l0 = [0u32; 198];
    let mut l1 = [0u32; 198];
    let mut marking = [0u32; 198];
    let mut w0 = [0i32; 256];
    let mut w1 = [0i32; 256];
    let next = changes(
        &mut numbers,
        &mut signed,
        &mut l0,
        &mut l1,
        &mut marking,
        &mut w0,
        &mut w1,
        s,
        n.next,
        n.size,
    );
    line(
        rt,
        sets,
        started(first.size, there.size, b1.size),
        &numbers,
        &signed,
        &l0,
        &l1,
        &marking,
        &w0,
        &w1,
        room.size as usize,
    )?;
    Ok(next)
}

fn each(rt: &impl Print, sets: Sets<'_>, s: &[u8], from: usize, n: u32) -> io::Result<()> {
    let mut at = from;
    for _ in 0..n {
        at = case(rt, sets, s, at)?;
    }
    Ok(())
}

pub(crate) fn all(rt: &impl Print, s: &[u8]) -> io::Result<()> {
    let t = sets::all();
    let n = number_at(s, 0);
    let lent = Sets {
        sequences: &t.sequences,
        pictures: &t.pictures,
    };
    each(rt, lent, s, n.next, n.size)
}
