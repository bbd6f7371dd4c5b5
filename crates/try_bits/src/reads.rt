// Reads: fixed-width bits, a flag, and codes.
use super::show;
use bits::read::Cursor;
use std::io;

pub(crate) fn answer(rt: &impl Print, kind: u32, at: usize, n: u32, s: &[u8]) -> io::Result<()> {
    if kind == 0 {
        show::read(rt, Cursor { at }.bits(s, n))
    } else if kind == 1 {
        show::read_flag(rt, Cursor { at }.flag(s))
    } else if kind == 2 {
        show::read(rt, Cursor { at }.ue(s))
    } else {
        show::read_signed(rt, Cursor { at }.se(s))
    }
}
