// The lines of a listing of kinds: what a unit's head says. The longest, that of a view unit, takes 59 bytes to the end of its length, and ends 40 bytes later.
ghost use Rattle.std.specs.Prelude.{◌≡◌, [], ◌+◌, ◌≤◌, ◌<◌};
ghost use Rattle.bits.specs.Refusals.{pick};
ghost use Rattle.unit.specs.Begin.{has_extension};
ghost use Rattle.lines.specs.Text.{words, Put};
ghost use Rattle.lines.specs.Lines.{Written};
ghost use Rattle.lines.specs.Kinds.{hex_digit, hex_text, extension_text, kind_text, head_text, head_line};

use crate::line::refused_words;
use crate::text::{field, words};
use bits::refusals::Refusal;
use nal::extension::NalHeaderExtension;
use unit::begin::has_extension;
use unit::head::UnitHead;

fn hex_digit(n: u8) -> u8
    requires { n < 16 }
    ensures { result ≡ hex_digit n }
{
    if n < 10 { 48 + n } else { 87 + n }
}

fn hex(d: &mut [u8; 128], at: usize, b: u8) -> usize
    requires { at + 2 ≤ 128 }
    ensures { Put d.old at (hex_text b) result d.new }
{
    let high = hex_digit(b / 16);
    let low = hex_digit(b % 16);
    d[at] = high;
    d[at + 1] = low;
    at + 2
}

fn extension_name(d: &mut [u8; 128], at: usize, svc: bool) -> usize
    requires { at + 9 ≤ 128 }
    ensures { Put d.old at (pick svc (words " ext=svc ") (words " ext=mvc ")) result d.new × (result ≡ at + 9) }
{
    if svc {
        return words(d, at, b" ext=svc ");
    }
    words(d, at, b" ext=mvc ")
}

fn extension_words(d: &mut [u8; 128], at: usize, h: UnitHead) -> usize
    requires { at ≤ 84 }
    ensures { Put d.old at (extension_text h) result d.new × (result ≤ 99) }
{
    let svc = NalHeaderExtension::from_bytes(h.b1, h.b2, h.b3).is_svc();
    let a = extension_name(d, at, svc);
    let b = hex(d, a, h.b1);
    let c = hex(d, b, h.b2);
    hex(d, c, h.b3)
}

fn extension_words_if(d: &mut [u8; 128], at: usize, h: UnitHead) -> usize
    requires { at ≤ 84 }
    ensures { Put d.old at (pick (has_extension h.nal_unit_type) (extension_text h) []) result d.new × (result ≤ 127) }
{
    if has_extension(h.nal_unit_type) {
        return extension_words(d, at, h);
    }
    at
}

fn kind_words(d: &mut [u8; 128], at: usize, h: UnitHead) -> usize
    requires { at ≤ 59 }
    ensures { Put d.old at (kind_text h) result d.new × (result ≤ 127) }
{
    let a = field(d, at, b" type=", h.nal_unit_type as u64);
    let b = field(d, a, b" nal_ref_idc=", h.nal_ref_idc as u64);
    extension_words_if(d, b, h)
}

fn head_words(d: &mut [u8; 128], at: usize, a: Result<UnitHead, Refusal>) -> usize
    requires { at ≤ 59 }
    ensures { Put d.old at (head_text a) result d.new × (result ≤ 127) }
{
    match a {
        Ok(h) => kind_words(d, at, h),
        Err(r) => refused_words(d, at, r),
    }
}

// A unit's line: its place, its length, and what its head says.
pub fn head_line(
    line: &mut [u8; 128],
    place: usize,
    length: usize,
    answer: Result<UnitHead, Refusal>,
) -> usize
    ensures { Written (head_line place length answer) line.old result line.new }
{
    let a = field(line, 0, b"unit place=", place as u64);
    let b = field(line, a, b" length=", length as u64);
    let c = head_words(line, b, answer);
    words(line, c, b"\n")
}
