// The lines of a listing, for a host that walks by itself: each is written to the front of a lent buffer of 128 bytes, and the answer is its length.
ghost use Rattle.std.specs.Prelude.{◌≡◌};
ghost use Rattle.lines.specs.Lines.{lent_line, end_line, broken_line, Written};
ghost use Rattle.lines.specs.Kinds.{head_line};
ghost use Rattle.exports.specs.Listings.{heard};
ghost use Rattle.exports.specs.Heads.{head_heard};

use crate::heads::{HeadOut, hear_head};
use crate::sets::{no_picture, no_sequence};
use bits::refusals::Refusal;
use lines::kinds::head_line;
use lines::line::{broken_line, end_line, unit_line};
use parameter_sets::picture::PictureSet;
use parameter_sets::sequence::SequenceSet;
use unit::answer::no_prefix;
use unit::into::ShortAnswer;

// What a ReadOut's numbers tell, as far as a line speaks of it.
pub(crate) fn hear(answer: u32, number: u8, value: i64, has_bit: bool, bit: usize) -> ShortAnswer
    ensures { result ≡ heard answer number value has_bit bit }
{
    if answer == 0 {
        return ShortAnswer::Other(number);
    }
    if answer == 1 {
        return ShortAnswer::Slice(0);
    }
    if answer == 2 {
        return ShortAnswer::Prefix(no_prefix());
    }
    if answer == 4 {
        return ShortAnswer::Sequence(SequenceSet {
            seq_parameter_set_id: number as u32,
            sequence: no_sequence(),
        });
    }
    if answer == 5 {
        return ShortAnswer::Picture(PictureSet {
            pic_parameter_set_id: number as u32,
            picture: no_picture(),
        });
    }
    ShortAnswer::Refused(Refusal {
        number,
        has_bit,
        value,
        bit,
    })
}

// A unit's line: its place and length in the recording, its bytes, which only a prefix unit's line looks at, `answer`, `number`,
// `value`, `has_bit` and `bit` of its ReadOut, and the words of a slice's fields.
#[unsafe(no_mangle)]
pub extern "C" fn tuz_unit_line(
    line: &mut [u8; 128],
    pictures: &[u32; 2304],
    place: usize,
    length: usize,
    unit: &[u8],
    answer: u32,
    number: u8,
    value: i64,
    has_bit: bool,
    bit: usize,
    numbers: &[u32; 57],
    signed: &[i32; 7],
) -> usize
    ensures { Written (lent_line pictures.now place length unit.now (heard answer number value has_bit bit) numbers.now signed.now) line.old result line.new }
{
    let a = hear(answer, number, value, has_bit, bit);
    unit_line(line, pictures, place, length, unit, a, numbers, signed)
}

// A unit's line in a listing of kinds: its place and length in the recording, and what `tuz_head` answers.
#[unsafe(no_mangle)]
pub extern "C" fn tuz_head_line(
    line: &mut [u8; 128],
    place: usize,
    length: usize,
    out: HeadOut,
) -> usize
    ensures { Written (head_line place length (head_heard out)) line.old result line.new }
{
    head_line(line, place, length, hear_head(out))
}

// The last line: how many units there were, and how many of them were refused.
#[unsafe(no_mangle)]
pub extern "C" fn tuz_end_line(line: &mut [u8; 128], units: usize, refused: usize) -> usize
    ensures { Written (end_line units refused) line.old result line.new }
{
    end_line(line, units, refused)
}

// The line of a broken length, which stands before the last one in the listing of a recording framed by length.
#[unsafe(no_mangle)]
pub extern "C" fn tuz_broken_line(line: &mut [u8; 128], place: usize) -> usize
    ensures { Written (broken_line place) line.old result line.new }
{
    broken_line(line, place)
}
