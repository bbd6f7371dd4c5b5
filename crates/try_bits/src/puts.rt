// Writes into a buffer that held FF everywhere, and the change cycle's width.
use super::numbers::{Number, signed};
use super::show;
use bits::put::{put_bits, put_flag, put_se, put_ue};
use bits::read::Cursor;
use bits::width::change_cycle_width;
use std::io;

fn bits_at(rt: &impl Print, at: usize, n: u32, v: u32) -> io::Result<()> {
    let mut d = [0xffu8; 6];
    let a = put_bits(&mut d, Cursor { at }, n, v);
    show::wrote(rt, a, &d)
}

fn flag_at(rt: &impl Print, at: usize, b: bool) -> io::Result<()> {
    let mut d = [0xffu8; 2];
    let a = put_flag(&mut d, Cursor { at }, b);
    show::wrote(rt, a, &d)
}

fn ue_at(rt: &impl Print, at: usize, v: u32) -> io::Result<()> {
    let mut d = [0xffu8; 9];
    let a = put_ue(&mut d, Cursor { at }, v);
    show::wrote(rt, a, &d)
}

fn se_at(rt: &impl Print, at: usize, v: i32) -> io::Result<()> {
    let mut d = [0xffu8; 9];
    let a = put_se(&mut d, Cursor { at }, v);
    show::wrote(rt, a, &d)
}

fn code(rt: &impl Print, kind: u32, at: usize, v: Number) -> io::Result<()> {
    if kind == 6 {
        ue_at(rt, at, v.size)
    } else {
        se_at(rt, at, signed(v.negative, v.size))
    }
}

pub(crate) fn answer(rt: &impl Print, kind: u32, at: usize, n: u32, v: Number) -> io::Result<()> {
    if kind == 4 {
        bits_at(rt, at, n, v.size)
    } else if kind == 5 {
        flag_at(rt, at, v.size == 1)
    } else if kind == 8 {
        show::number(rt, change_cycle_width(n, v.size) as u64)
    } else {
        code(rt, kind, at, v)
    }
}
