// The units. A refusal's value is told by the word that stands beside the value it must have.
use super::show::{shown, shown_for};
use std::io;

fn active_counts(rt: &impl Print) -> io::Result<()> {
    shown(
        rt,
        b"active minus1 31",
        b"\x01\x9a\xb0\x40\xff\xc0",
        0,
        b"0",
    )?;
    shown(
        rt,
        b"active minus1 32",
        b"\x01\x9a\xb0\x42\xff\xc0",
        32,
        b"32",
    )
}

fn levels(rt: &impl Print) -> io::Result<()> {
    shown(rt, b"QP delta 25", b"\x01\x9a\xa0\x32\xff\x80", 0, b"0")?;
    shown(rt, b"QP delta 26", b"\x01\x9a\xa0\x34\xff\x80", 26, b"26")?;
    shown(rt, b"QP delta -26", b"\x01\x9a\xa0\x35\xff\x80", 0, b"0")?;
    shown(
        rt,
        b"QP delta -27",
        b"\x01\x9a\xa0\x37\xff\x80",
        -27,
        b"-27",
    )
}

fn deblocking(rt: &impl Print) -> io::Result<()> {
    shown(rt, b"deblocking idc 0", b"\x01\x99\x29\xff\xf0", 0, b"0")?;
    shown(rt, b"deblocking idc 1", b"\x01\x99\x29\x5f\xf0", 0, b"0")?;
    shown(rt, b"deblocking idc 6", b"\x01\x99\x29\x3f\xff", 0, b"0")?;
    shown(
        rt,
        b"deblocking idc 7",
        b"\x01\x99\x29\x11\xff\xc0",
        7,
        b"7",
    )
}

fn lists(rt: &impl Print) -> io::Result<()> {
    shown(rt, b"a list of 0", b"\x01\x9a\xa9\x3f\xf0", 0, b"0")?;
    shown(
        rt,
        b"a list of 66",
        b"\x01\x9a\xaf\xff\xff\xff\xff\xff\xff\xff\xff\xff\xff\xff\xff\xff\xff\xff\xff\x93\xff",
        0,
        b"0",
    )?;
    shown(
        rt,
        b"a list of 67",
        b"\x01\x9a\xaf\xff\xff\xff\xff\xff\xff\xff\xff\xff\xff\xff\xff\xff\xff\xff\xff\xe4\xff\xc0",
        0,
        b"0",
    )
}

fn views(rt: &impl Print) -> io::Result<()> {
    shown(
        rt,
        b"modification idc 4",
        b"\x01\x9a\xa9\x64\xff\xc0",
        4,
        b"4",
    )?;
    shown(
        rt,
        b"modification idc 4 of a view",
        b"\x14\x40\x00\x01\x9a\xa9\x64\xff\xc0",
        0,
        b"0",
    )?;
    shown(
        rt,
        b"a scalable slice",
        b"\x14\x80\x00\x00\x9a\xa9\x64\xff\xc0",
        0,
        b"0",
    )
}

fn prefixes(rt: &impl Print) -> io::Result<()> {
    shown(
        rt,
        b"a prefix of a view",
        b"\x6e\x40\x00\x07\xbf\xf0",
        0,
        b"0",
    )?;
    shown(
        rt,
        b"a prefix that neither stores nor uses",
        b"\x6e\x80\x00\x07\x7f\xe0",
        0,
        b"0",
    )?;
    shown(
        rt,
        b"a prefix that stores, sliding window",
        b"\x6e\x80\x00\x07\xbf\xf0",
        0,
        b"0",
    )?;
    shown(
        rt,
        b"a prefix that uses, sliding window",
        b"\x6e\x80\x00\x17\x3f\xf0",
        0,
        b"0",
    )?;
    shown(
        rt,
        b"a prefix of an IDR picture",
        b"\x6e\xc0\x00\x17\xbf\xe0",
        0,
        b"0",
    )?;
    shown(
        rt,
        b"a base marking list of 0",
        b"\x6e\x80\x00\x07\xff\xf8",
        0,
        b"0",
    )?;
    shown(
        rt,
        b"a base marking list of 66",
        b"\x6e\x80\x00\x07\xd5\x55\x55\x55\x55\x55\x55\x55\x55\x55\x55\x55\x55\x55\x55\x55\x55\x55\x55\x55\x55\x55\x55\x55\x55\x55\x55\x55\x55\x55\x55\x55\x55\x7f\xf8",
        0,
        b"0",
    )?;
    shown(
        rt,
        b"a base marking list of 67",
        b"\x6e\x80\x00\x07\xd5\x55\x55\x55\x55\x55\x55\x55\x55\x55\x55\x55\x55\x55\x55\x55\x55\x55\x55\x55\x55\x55\x55\x55\x55\x55\x55\x55\x55\x55\x55\x55\x55\x57\xff\x80",
        0,
        b"0",
    )?;
    shown(
        rt,
        b"a base marking operation 2",
        b"\x6e\x80\x00\x17\x59\xaf\xf8",
        0,
        b"0",
    )?;
    shown(
        rt,
        b"a base marking operation 3",
        b"\x6e\x80\x00\x17\x48\x6f\xf8",
        3,
        b"3",
    )
}

// A head is the answer where it is refused. Else a body is read for its own head alone: not for that of another type, of another nal_ref_idc, with another extension; and
// not where the unit has none.
fn heads(rt: &impl Print) -> io::Result<()> {
    shown(rt, b"a first byte over 127", b"\x81", 0, b"0")?;
    shown(rt, b"an extension of one byte", b"\x6e\x80", 0, b"0")?;
    shown_for(
        rt,
        b"a head of another type",
        b"\x05",
        b"\x01\x9a\xa0\x32\xff\x80",
        0,
        b"0",
    )?;
    shown_for(
        rt,
        b"a head of another nal_ref_idc",
        b"\x21",
        b"\x01\x9a\xa0\x32\xff\x80",
        0,
        b"0",
    )?;
    shown_for(
        rt,
        b"a head with another extension",
        b"\x6e\x80\x00\x17",
        b"\x6e\x80\x00\x07\xbf\xf0",
        0,
        b"0",
    )?;
    shown_for(
        rt,
        b"a head for a unit without one",
        b"\x01",
        b"\x81",
        0,
        b"0",
    )?;
    shown_for(
        rt,
        b"its own head",
        b"\x01",
        b"\x01\x9a\xa0\x32\xff\x80",
        0,
        b"0",
    )
}

pub(crate) fn all(rt: &impl Print) -> io::Result<()> {
    active_counts(rt)?;
    levels(rt)?;
    deblocking(rt)?;
    lists(rt)?;
    views(rt)?;
    prefixes(rt)?;
    heads(rt)
}
