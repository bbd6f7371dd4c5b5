// A record's line: the writer's answer, the bytes, and whether the unit that they make reads back as the record, into words that are zero.
use super::{built, same, show};
use bits::put::put_bits;
use bits::read::Cursor;
use bits::refusals::Refusal;
use header::slice::Words;
use std::io;
use table::table::Sets;
use unit::head::head;
use unit::into::{AllWords, ShortAnswer, read_body_into};
use writer::given::ExtensionGiven;
use writer::write::write_words_in;

// What the unit starts with.
#[derive(Clone, Copy)]
pub(crate) struct Start {
    pub(crate) first: u8,
    pub(crate) extension: ExtensionGiven,
}

fn byte(n: u32) -> u8 {
    (n % 256) as u8
}

// The extension, or none, has the bytes b1, 0 and 1.
pub(crate) fn started(first: u32, there: u32, b1: u32) -> Start {
    Start {
        first: byte(first),
        extension: ExtensionGiven {
            there: there != 0,
            b1: byte(b1),
            b2: 0,
            b3: 1,
        },
    }
}

fn whole_bytes(bits: usize) -> usize {
    if bits % 8 == 0 {
        bits / 8
    } else {
        bits / 8 + 1
    }
}

// The low bits of the last byte that hold nothing of the header.
fn spare(b: u8, bits: usize) -> u8 {
    match bits % 8 {
        1 => b % 128,
        2 => b % 64,
        3 => b % 32,
        4 => b % 16,
        5 => b % 8,
        6 => b % 4,
        7 => b % 2,
        _ => 0,
    }
}

fn last(d: &[u8], n: usize) -> u8 {
    if n == 0 { 0 } else { show::byte_at(d, n - 1) }
}

fn kept(rt: &impl Print, d: &[u8], from: usize) -> io::Result<()> {
    if show::is_filled(d, from) {
        show::text(rt, b" kept")
    } else {
        show::text(rt, b" touched")
    }
}

// The bytes that the header's bits take, their spare bits, and what stands behind them.
fn bytes(rt: &impl Print, d: &[u8], bits: usize) -> io::Result<()> {
    let n = whole_bytes(bits);
    show::text(rt, b"bits=")?;
    show::number(rt, bits as u64)?;
    show::text(rt, b" bytes=")?;
    show::written(rt, d, n)?;
    show::text(rt, b" spare=")?;
    show::number(rt, spare(last(d, n), bits) as u64)?;
    show::text(rt, b" rest")?;
    kept(rt, d, n)
}

fn told(rt: &impl Print, answer: ShortAnswer, bits: usize, is_same: bool) -> io::Result<()> {
    match answer {
        ShortAnswer::Slice(n) => {
            if n != bits {
                show::text(rt, b"other bits")
            } else if is_same {
                show::text(rt, b"same")
            } else {
                show::text(rt, b"other")
            }
        }
        ShortAnswer::Prefix(_) => show::text(rt, b"prefix"),
        ShortAnswer::Sequence(_) => show::text(rt, b"no slice"),
        ShortAnswer::Picture(_) => show::text(rt, b"no slice"),
        ShortAnswer::Other(_) => show::text(rt, b"no slice"),
        ShortAnswer::Refused(x) => show::refusal(rt, x),
    }
}

// A unit's head, and then its body.
fn read_in_turn(sets: Sets<'_>, u: &[u8], scratch: &mut [u8], w: &mut AllWords<'_>) -> ShortAnswer {
    match head(u) {
        Ok(h) => read_body_into(h, sets, u, scratch, w),
        Err(r) => ShortAnswer::Refused(r),
    }
}

// The first n bytes read as a unit, and its record compared.
fn read_part(
    rt: &impl Print,
    sets: Sets<'_>,
    u: &[u8],
    n: usize,
    numbers: &[u32; 57],
    signed: &[i32; 7],
    l0: &[u32; 198],
    l1: &[u32; 198],
    marking: &[u32; 198],
    w0: &[i32; 256],
    w1: &[i32; 256],
    bits: usize,
) -> io::Result<()> {
    if n <= u.len() {
        let mut scratch = [0u8; 9216];
        let mut numbers2 = [0u32; 57];
        let mut signed2 = [0i32; 7];
        let mut m0 = [0u32; 198];
        let mut m1 = [0u32; 198];
        let mut marking2 = [0u32; 198];
        let mut v0 = [0i32; 256];
        let mut v1 = [0i32; 256];
        let mut base = [0u32; 198];
        let header = Words {
            numbers: &mut numbers2,
            signed: &mut signed2,
            l0: &mut m0,
            l1: &mut m1,
            marking: &mut marking2,
            w0: &mut v0,
            w1: &mut v1,
        };
        let mut w = AllWords {
            header,
            base: &mut base,
        };
        let answer = read_in_turn(sets, &u[..n], &mut scratch, &mut w);
        let is_same = same::header(
            numbers, signed, l0, l1, marking, w0, w1, &numbers2, &signed2, &m0, &m1, &marking2,
            &v0, &v1,
        );
        show::text(rt, b" back=")?;
        told(rt, answer, bits, is_same)?;
    }
    Ok(())
}

fn read_back(
    rt: &impl Print,
    sets: Sets<'_>,
    u: &[u8; 9216],
    n: usize,
    numbers: &[u32; 57],
    signed: &[i32; 7],
    l0: &[u32; 198],
    l1: &[u32; 198],
    marking: &[u32; 198],
    w0: &[i32; 256],
    w1: &[i32; 256],
    bits: usize,
) -> io::Result<()> {
    read_part(
        rt, sets, u, n, numbers, signed, l0, l1, marking, w0, w1, bits,
    )
}

// Nine set bits follow the header, and so something after the first bit.
fn back(
    rt: &impl Print,
    sets: Sets<'_>,
    s: Start,
    numbers: &[u32; 57],
    signed: &[i32; 7],
    l0: &[u32; 198],
    l1: &[u32; 198],
    marking: &[u32; 198],
    w0: &[i32; 256],
    w1: &[i32; 256],
    d: &mut [u8; 6144],
    bits: usize,
) -> io::Result<()> {
    let _ = put_bits(d, Cursor { at: bits }, 9, 511);
    let mut u = [0u8; 9216];
    let n = built::unit(&mut u, s.first, s.extension, d, bits / 8 + 3);
    read_back(
        rt, sets, &u, n, numbers, signed, l0, l1, marking, w0, w1, bits,
    )
}

// The first `room` bytes of the buffer are lent, or all of it.
fn written(
    sets: Sets<'_>,
    s: Start,
    numbers: &[u32; 57],
    signed: &[i32; 7],
    l0: &[u32; 198],
    l1: &[u32; 198],
    marking: &[u32; 198],
    w0: &[i32; 256],
    w1: &[i32; 256],
    d: &mut [u8],
    room: usize,
) -> Result<usize, Refusal> {
    if room <= d.len() {
        return write_words_in(
            sets,
            s.first,
            s.extension,
            numbers,
            signed,
            l0,
            l1,
            marking,
            w0,
            w1,
            &mut d[..room],
        );
    }
    write_words_in(
        sets,
        s.first,
        s.extension,
        numbers,
        signed,
        l0,
        l1,
        marking,
        w0,
        w1,
        d,
    )
}

// A record written into the first `room` bytes of a buffer that is filled with a5.
pub(crate) fn line(
    rt: &impl Print,
    sets: Sets<'_>,
    s: Start,
    numbers: &[u32; 57],
    signed: &[i32; 7],
    l0: &[u32; 198],
    l1: &[u32; 198],
    marking: &[u32; 198],
    w0: &[i32; 256],
    w1: &[i32; 256],
    room: usize,
) -> io::Result<()> {
    let mut d = [0xa5u8; 6144];
    match written(
        sets, s, numbers, signed, l0, l1, marking, w0, w1, &mut d, room,
    ) {
        Ok(n) => {
            bytes(rt, &d, n)?;
            back(
                rt, sets, s, numbers, signed, l0, l1, marking, w0, w1, &mut d, n,
            )?;
        }
        Err(r) => {
            show::refusal(rt, r)?;
            kept(rt, &d, 0)?;
        }
    }
    show::text(rt, b"\n")
}
