// What reading a unit answers, with its records.
ghost use Rattle.std.specs.Prelude.{◌≡◌};
ghost use Rattle.syntax.specs.Absent.{no_prefix};
ghost use Rattle.lists.specs.ListsLent.{prefix_short};
ghost use Rattle.unit.specs.Into.{long_answer, prefix_in};

use crate::into::ShortAnswer;
use bits::refusals::Refusal;
use lists::list_words::PrefixShort;
use parameter_sets::picture::PictureSet;
use parameter_sets::sequence::SequenceSet;
use syntax::marks::Marked;
use syntax::record::{Prefix, SliceHeader};

#[derive(Clone, Copy)]
pub enum UnitAnswer {
    // a slice header, of so many bits
    Slice(usize),
    Prefix,
    // a parameter set, with its id
    Sequence(SequenceSet),
    Picture(PictureSet),
    // a unit of another type
    Other(u8),
    Refused(Refusal),
}

// The answer, and the records: what the answer does not speak of is zero.
#[derive(Clone, Copy)]
pub struct UnitRead {
    pub answer: UnitAnswer,
    pub header: SliceHeader,
    pub prefix: Prefix,
}

pub(crate) fn long_answer(a: ShortAnswer) -> UnitAnswer
    ensures { result ≡ long_answer a }
{
    match a {
        ShortAnswer::Slice(n) => UnitAnswer::Slice(n),
        ShortAnswer::Prefix(_) => UnitAnswer::Prefix,
        ShortAnswer::Sequence(v) => UnitAnswer::Sequence(v),
        ShortAnswer::Picture(v) => UnitAnswer::Picture(v),
        ShortAnswer::Other(id) => UnitAnswer::Other(id),
        ShortAnswer::Refused(r) => UnitAnswer::Refused(r),
    }
}

// A prefix that is absent, without its list.
pub fn no_prefix() -> PrefixShort
    ensures { result ≡ prefix_short no_prefix }
{
    let absent = Marked {
        there: false,
        value: false,
    };
    PrefixShort {
        store_ref_base_pic_flag: absent,
        adaptive_ref_base_pic_marking_mode_flag: absent,
        base_markings: 0,
        additional_prefix_nal_unit_extension_flag: absent,
    }
}

// The prefix of an answer, without its list.
pub(crate) fn prefix_in(a: ShortAnswer) -> PrefixShort
    ensures { result ≡ prefix_in a }
{
    match a {
        ShortAnswer::Slice(_) => no_prefix(),
        ShortAnswer::Prefix(p) => p,
        ShortAnswer::Sequence(_) => no_prefix(),
        ShortAnswer::Picture(_) => no_prefix(),
        ShortAnswer::Other(_) => no_prefix(),
        ShortAnswer::Refused(_) => no_prefix(),
    }
}
