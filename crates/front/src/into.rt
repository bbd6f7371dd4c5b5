// A unit read into words that the caller lends, from the unit itself: its body goes nowhere.
ghost use Rattle.std.specs.Prelude.{◌≡◌, [], ◌≤◌, length};
ghost use Rattle.bits.specs.Refusals.{limit};
ghost use Rattle.header.specs.Lead.{table_in};
ghost use Rattle.unit.specs.Unit.{slice_bits, prefix_bits, sequence_bits, picture_bits};
ghost use Rattle.unit.specs.Into.{lent_in, SameLent, short_answer, words_after, ReadInto};
ghost use Rattle.cut.specs.Seam.{body_bits};
ghost use Rattle.front.specs.Front.{body_front};

use crate::body::prefix_body;
use crate::sets::{picture_body, sequence_body};
use bits::refusals::{NOT_ITS_HEAD, refuse};
use header::escaped::read_escaped_into;
use lists::list_words::clear_list;
use syntax::context::{PrefixKind, UnitKind};
use table::table::Sets;
use unit::begin::{Begun, begun_by};
use unit::head::{UnitHead, is_head_of};
use unit::into::{AllWords, ShortAnswer};

// A slice's header.
fn slice_into(
    sets: Sets<'_>,
    unit: &[u8],
    kind: UnitKind,
    from: usize,
    w: &mut AllWords<'_>,
) -> ShortAnswer
    ensures value { result ≡ short_answer (slice_bits (table_in sets.entry) kind (body_bits unit.now from)) }
    ensures words { lent_in w.new ≡ words_after (slice_bits (table_in sets.entry) kind (body_bits unit.now from)) (lent_in w.old) }
    ensures same { SameLent w.old w.new }
{
    match read_escaped_into(unit, from, kind, sets, &mut w.header) {
        Ok(c) => ShortAnswer::Slice(c.at),
        Err(r) => {
            // `read_escaped_into` has left zeros in the header's words, and to write them again would cost time: only the words of a prefix unit's list are still to be cleared.
            clear_list(w.base);
            ShortAnswer::Refused(r)
        }
    }
}

// What a prefix unit holds.
fn prefix_into(unit: &[u8], kind: PrefixKind, w: &mut AllWords<'_>) -> ShortAnswer
    ensures value { result ≡ short_answer (prefix_bits kind (body_bits unit.now 4)) }
    ensures words { lent_in w.new ≡ words_after (prefix_bits kind (body_bits unit.now 4)) (lent_in w.old) }
    ensures same { SameLent w.old w.new }
{
    match prefix_body(unit, kind, w.base) {
        Ok((p, _)) => ShortAnswer::Prefix(p),
        Err(r) => {
            w.clear();
            ShortAnswer::Refused(r)
        }
    }
}

// A sequence set.
fn sequence_into(unit: &[u8], w: &mut AllWords<'_>) -> ShortAnswer
    ensures value { result ≡ short_answer (sequence_bits (body_bits unit.now 1)) }
    ensures words { lent_in w.new ≡ words_after (sequence_bits (body_bits unit.now 1)) (lent_in w.old) }
    ensures same { SameLent w.old w.new }
{
    match sequence_body(unit) {
        Ok((v, _)) => ShortAnswer::Sequence(v),
        Err(r) => {
            w.clear();
            ShortAnswer::Refused(r)
        }
    }
}

// A picture set.
fn picture_into(unit: &[u8], w: &mut AllWords<'_>) -> ShortAnswer
    requires { length unit.now ≤ limit }
    ensures value { result ≡ short_answer (picture_bits (body_bits unit.now 1)) }
    ensures words { lent_in w.new ≡ words_after (picture_bits (body_bits unit.now 1)) (lent_in w.old) }
    ensures same { SameLent w.old w.new }
{
    match picture_body(unit) {
        Ok((v, _)) => ShortAnswer::Picture(v),
        Err(r) => {
            w.clear();
            ShortAnswer::Refused(r)
        }
    }
}

// As `unit::into::read_body_into`, but that no body goes to scratch: none is lent, and 26 does not come.
pub fn read_front_into(
    head: UnitHead,
    sets: Sets<'_>,
    unit: &[u8],
    w: &mut AllWords<'_>,
) -> ShortAnswer
    ensures read { ReadInto (body_front (table_in sets.entry) head unit.now []) result [] (lent_in w.old) (lent_in w.new) }
    ensures same { SameLent w.old w.new }
{
    if !is_head_of(head, unit) {
        w.clear();
        return ShortAnswer::Refused(refuse(NOT_ITS_HEAD, 0));
    }
    match begun_by(head) {
        Begun::Slice(kind, from) => slice_into(sets, unit, kind, from, w),
        Begun::Prefix(kind) => prefix_into(unit, kind, w),
        Begun::SequenceSet => sequence_into(unit, w),
        Begun::PictureSet => picture_into(unit, w),
        Begun::Other(id) => ShortAnswer::Other(id),
        Begun::Refused(r) => {
            w.clear();
            ShortAnswer::Refused(r)
        }
    }
}
