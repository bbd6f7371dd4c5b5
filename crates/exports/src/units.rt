// A unit's body.
ghost use Rattle.std.specs.Prelude.{◌≡◌};
ghost use Rattle.header.specs.Lead.{table_of};
ghost use Rattle.unit.specs.Head.{body_read};
ghost use Rattle.unit.specs.Into.{lent_words, words_after};
ghost use Rattle.exports.specs.Units.{flag_out, prefix_out, nothing, told, unit_out};

use crate::sets::{no_picture, no_sequence};
use bits::refusals::Refusal;
use header::slice::Words;
use lists::list_words;
use syntax::marks::Marked;
use table::sets::{Picture, Sequence};
use table::table::Sets;
use unit::answer::no_prefix;
use unit::head::UnitHead;
use unit::into::{AllWords, ShortAnswer, read_body_into};

// A flag that may be absent: its mark, and its value, which is clear where it is not there.
#[repr(C)]
#[derive(Clone, Copy)]
pub struct MarkedFlag {
    pub there: bool,
    pub value: bool,
}

// prefix_nal_unit_svc( ) without its list, of which it has the count.
#[repr(C)]
#[derive(Clone, Copy)]
pub struct PrefixShort {
    pub store_ref_base_pic_flag: MarkedFlag,
    pub adaptive_ref_base_pic_marking_mode_flag: MarkedFlag,
    pub base_markings: u32,
    pub additional_prefix_nal_unit_extension_flag: MarkedFlag,
}

// What reading a unit answers. What the answer does not speak of is zero.
#[repr(C)]
#[derive(Clone, Copy)]
pub struct ReadOut {
    // 0: a unit of another type; 1: a slice; 2: a prefix unit; 3: refused; 4: a sequence set; 5: a picture set
    pub answer: u32,
    // the type of another unit, the refusal's number, or the set's id
    pub number: u32,
    // the refusal's value
    pub value: i64,
    // where the refused field begins in the unescaped body, of a refusal that arises there
    pub has_bit: bool,
    pub bit: usize,
    // the slice header's length in bits
    pub bits: usize,
    // its list stands in words that the caller lends, as a slice's header does
    pub prefix: PrefixShort,
    // a parameter set
    pub sequence: Sequence,
    pub picture: Picture,
}

fn flag_out(m: Marked<bool>) -> MarkedFlag
    ensures { result ≡ flag_out m }
{
    MarkedFlag {
        there: m.there,
        value: m.value,
    }
}

fn prefix_out(p: list_words::PrefixShort) -> PrefixShort
    ensures { result ≡ prefix_out p }
{
    PrefixShort {
        store_ref_base_pic_flag: flag_out(p.store_ref_base_pic_flag),
        adaptive_ref_base_pic_marking_mode_flag: flag_out(
            p.adaptive_ref_base_pic_marking_mode_flag,
        ),
        base_markings: p.base_markings,
        additional_prefix_nal_unit_extension_flag: flag_out(
            p.additional_prefix_nal_unit_extension_flag,
        ),
    }
}

// An answer that speaks of nothing: a unit of type 0.
fn nothing() -> ReadOut
    ensures { result ≡ nothing }
{
    ReadOut {
        answer: 0,
        number: 0,
        value: 0,
        has_bit: false,
        bit: 0,
        bits: 0,
        prefix: prefix_out(no_prefix()),
        sequence: no_sequence(),
        picture: no_picture(),
    }
}

pub(crate) fn tell(a: ShortAnswer) -> ReadOut
    ensures { result ≡ told a }
{
    let none = nothing();
    match a {
        ShortAnswer::Slice(bits) => ReadOut {
            answer: 1,
            bits,
            ..none
        },
        ShortAnswer::Prefix(prefix) => ReadOut {
            answer: 2,
            prefix: prefix_out(prefix),
            ..none
        },
        ShortAnswer::Sequence(v) => ReadOut {
            answer: 4,
            number: v.seq_parameter_set_id,
            sequence: v.sequence,
            ..none
        },
        ShortAnswer::Picture(v) => ReadOut {
            answer: 5,
            number: v.pic_parameter_set_id,
            picture: v.picture,
            ..none
        },
        ShortAnswer::Other(id) => ReadOut {
            number: id as u32,
            ..none
        },
        ShortAnswer::Refused(why) => ReadOut {
            answer: 3,
            number: why.number as u32,
            value: why.value,
            has_bit: why.has_bit,
            bit: why.bit,
            ..none
        },
    }
}

// The body of a unit, for whoever has its head (`tuz_head`), by the sets in a table's two arrays; another's head is 34. Scratch needs as many bytes as the unit has. A slice's header goes to `numbers` and `signed` (fields) and to l0,
// l1, marking, w0 and w1 (lists), a prefix unit's list to `base`; all other words stay as they were, so words that were zeros behind their counts stay so. Beside a refusal all words are zeros.
#[unsafe(no_mangle)]
pub extern "C" fn tuz_body<'a>(
    head: UnitHead,
    sequences: &'a [u32; 224],
    pictures: &'a [u32; 2304],
    unit: &[u8],
    scratch: &mut [u8],
    numbers: &'a mut [u32; 57],
    signed: &'a mut [i32; 7],
    l0: &'a mut [u32; 198],
    l1: &'a mut [u32; 198],
    marking: &'a mut [u32; 198],
    w0: &'a mut [i32; 256],
    w1: &'a mut [i32; 256],
    base: &'a mut [u32; 198],
) -> ReadOut
    ensures value { (result ≡ unit_out (body_read (table_of sequences.now pictures.now) head unit.now scratch.old).read) × (scratch.new ≡ (body_read (table_of sequences.now pictures.now) head unit.now scratch.old).left) }
    ensures words { (lent_words numbers signed l0 l1 marking w0 w1 base).exit ≡ words_after (body_read (table_of sequences.now pictures.now) head unit.now scratch.old).read (lent_words numbers signed l0 l1 marking w0 w1 base).entry }
{
    let sets = Sets {
        sequences,
        pictures,
    };
    let mut words = AllWords {
        header: Words {
            numbers,
            signed,
            l0,
            l1,
            marking,
            w0,
            w1,
        },
        base,
    };
    tell(read_body_into(head, sets, unit, scratch, &mut words))
}
