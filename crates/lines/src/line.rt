// The lines. A line of a unit takes at most 59 bytes to the end of its length, and at most 127 before the newline.
ghost use Rattle.std.specs.Prelude.{◌≡◌, ◌≤◌};
ghost use Rattle.lines.specs.Text.{Put};
ghost use Rattle.lines.specs.Lines.{is_svc, slice_text, prefix_text, bit_text, refused_text, lent_text, lent_line, end_line, broken_line, too_long_line, Written};

use crate::level::final_qp;
use crate::text::{field, signed_number, words};
use bits::refusals::Refusal;
use nal::extension::extension_of;
use unit::into::ShortAnswer;

// Whether a unit's extension is SVC's.
fn is_svc(unit: &[u8]) -> bool
    ensures { result ≡ is_svc unit.now }
{
    match extension_of(unit) {
        Ok(e) => e.is_svc(),
        Err(_) => false,
    }
}

fn slice_words(d: &mut [u8; 128], at: usize, slice_type: u32, frame_num: u32, qp: i64) -> usize
    requires { at ≤ 59 }
    ensures { Put d.old at (slice_text slice_type frame_num qp) result d.new × (result ≤ 127) }
{
    let a = field(d, at, b" slice type=", slice_type as u64);
    let b = field(d, a, b" frame=", frame_num as u64);
    let c = words(d, b, b" qp=");
    signed_number(d, c, qp)
}

fn prefix_words(d: &mut [u8; 128], at: usize, svc: bool) -> usize
    requires { at ≤ 59 }
    ensures { Put d.old at (prefix_text svc) result d.new × (result ≤ 127) }
{
    if svc {
        return words(d, at, b" prefix ext=svc");
    }
    words(d, at, b" prefix ext=mvc")
}

fn bit_words(d: &mut [u8; 128], at: usize, has_bit: bool, bit: usize) -> usize
    requires { at ≤ 98 }
    ensures { Put d.old at (bit_text has_bit bit) result d.new × (result ≤ 127) }
{
    if has_bit {
        return field(d, at, b" bit=", bit as u64);
    }
    at
}

// The longest of the lines: 9 bytes and 3 digits, 7 bytes, a sign and 19 digits, 5 bytes and 20 digits end at byte 123.
pub(crate) fn refused_words(d: &mut [u8; 128], at: usize, r: Refusal) -> usize
    requires { at ≤ 59 }
    ensures { Put d.old at (refused_text r) result d.new × (result ≤ 127) }
{
    let a = field(d, at, b" refused ", r.number as u64);
    let b = words(d, a, b" value=");
    let v = r.value;
    let c = signed_number(d, b, v);
    bit_words(d, c, r.has_bit, r.bit)
}

// What reading a unit answers; a slice's header stands in the words.
fn answer_words(
    d: &mut [u8; 128],
    at: usize,
    pictures: &[u32; 2304],
    unit: &[u8],
    answer: ShortAnswer,
    numbers: &[u32; 57],
    signed: &[i32; 7],
) -> usize
    requires { at ≤ 59 }
    ensures { Put d.old at (lent_text pictures.now unit.now numbers.now signed.now answer) result d.new × (result ≤ 127) }
{
    match answer {
        ShortAnswer::Slice(_) => {
            let qp = final_qp(pictures, numbers[2], signed[3]);
            slice_words(d, at, numbers[1], numbers[6], qp)
        }
        ShortAnswer::Prefix(_) => prefix_words(d, at, is_svc(unit)),
        ShortAnswer::Sequence(v) => field(d, at, b" sps id=", v.seq_parameter_set_id as u64),
        ShortAnswer::Picture(v) => field(d, at, b" pps id=", v.pic_parameter_set_id as u64),
        ShortAnswer::Other(id) => field(d, at, b" other type=", id as u64),
        ShortAnswer::Refused(r) => refused_words(d, at, r),
    }
}

// A unit's line: its place, its length, and what reading it answered. Of its bytes a prefix unit's extension alone is looked at, so that those of a unit that is too
// long need not be at hand.
pub fn unit_line(
    line: &mut [u8; 128],
    pictures: &[u32; 2304],
    place: usize,
    length: usize,
    unit: &[u8],
    answer: ShortAnswer,
    numbers: &[u32; 57],
    signed: &[i32; 7],
) -> usize
    ensures { Written (lent_line pictures.now place length unit.now answer numbers.now signed.now) line.old result line.new }
{
    let a = field(line, 0, b"unit place=", place as u64);
    let b = field(line, a, b" length=", length as u64);
    let c = answer_words(line, b, pictures, unit, answer, numbers, signed);
    words(line, c, b"\n")
}

// The last line of a listing.
pub fn end_line(line: &mut [u8; 128], units: usize, refused: usize) -> usize
    ensures { Written (end_line units refused) line.old result line.new }
{
    let a = field(line, 0, b"end units=", units as u64);
    let b = field(line, a, b" refused=", refused as u64);
    words(line, b, b"\n")
}

// The line of a length that is broken, which ends a recording framed by length.
pub fn broken_line(line: &mut [u8; 128], place: usize) -> usize
    ensures { Written (broken_line place) line.old result line.new }
{
    let a = field(line, 0, b"refused 29 value=", place as u64);
    words(line, a, b"\n")
}

// The one line for a recording that is too long.
pub fn too_long_line(line: &mut [u8; 128]) -> usize
    ensures { Written too_long_line line.old result line.new }
{
    words(line, 0, b"end too long\n")
}
