// A unit's body read into words that the caller lends: the answer holds neither fields nor lists of a header, so no record is copied on its way to the caller.
ghost use Rattle.std.specs.Prelude.{◌≡◌, List, ℕ, ◌≤◌, length};
ghost use Rattle.bits.specs.Refusals.{limit};
ghost use Rattle.header.specs.Lead.{table_in};
ghost use Rattle.unit.specs.Unit.{slice_bits, prefix_bits, sequence_bits, picture_bits};
ghost use Rattle.unit.specs.Known.{in_known, unit_known, body_known};
ghost use Rattle.unit.specs.Begin.{begun, begun_by};
ghost use Rattle.unit.specs.Head.{body_read};
ghost use Rattle.header.specs.Short.{HeaderWords, words_in, SameArrays};
ghost use Rattle.unit.specs.Into.{Lent, lent_in, SameLent, blank, slice_short, body_short, sequence_short, picture_short, Taken, ReadInto};

use crate::begin::{Begun, begun_by};
use crate::head::{UnitHead, is_head_of};
use bits::read::{Cursor, Read};
use bits::refusals::{NOT_ITS_HEAD, Refusal, refuse};
use escape::escape::unescape_known;
use header::slice::{Words, read_header_into};
use lists::list_words::{PrefixShort, clear_list, prefix_into};
use parameter_sets::picture::{PictureSet, picture_set};
use parameter_sets::sequence::{SequenceSet, sequence_set};
use syntax::context::{PrefixKind, UnitKind};
use table::table::Sets;

// All words that a caller lends.
#[derive(Drop)]
pub struct AllWords<'a> {
    pub header: Words<'a>,
    pub base: &'a mut [u32; 198],
}

// A report has one of six outcomes, and a refusal is one of them: nobody goes on behind another, so it is no `Result`.
#[derive(Clone, Copy)]
pub enum ShortAnswer {
    // a slice header, of so many bits, which stands in the words
    Slice(usize),
    Prefix(PrefixShort),
    // a parameter set, with its id
    Sequence(SequenceSet),
    Picture(PictureSet),
    // a unit of another type
    Other(u8),
    Refused(Refusal),
}

fn slice_short(a: Result<Cursor, Refusal>) -> ShortAnswer
    ensures { result ≡ slice_short a }
{
    match a {
        Ok(c) => ShortAnswer::Slice(c.at),
        Err(r) => ShortAnswer::Refused(r),
    }
}

fn body_short(a: Read<PrefixShort>) -> ShortAnswer
    ensures { result ≡ body_short a }
{
    match a {
        Ok((p, _)) => ShortAnswer::Prefix(p),
        Err(r) => ShortAnswer::Refused(r),
    }
}

fn sequence_short(a: Read<SequenceSet>) -> ShortAnswer
    ensures { result ≡ sequence_short a }
{
    match a {
        Ok((v, _)) => ShortAnswer::Sequence(v),
        Err(r) => ShortAnswer::Refused(r),
    }
}

fn picture_short(a: Read<PictureSet>) -> ShortAnswer
    ensures { result ≡ picture_short a }
{
    match a {
        Ok((v, _)) => ShortAnswer::Picture(v),
        Err(r) => ShortAnswer::Refused(r),
    }
}

// The body of a slice, which goes to scratch.
fn slice_into(
    sets: Sets<'_>,
    unit: &[u8],
    known: usize,
    scratch: &mut [u8],
    kind: UnitKind,
    from: usize,
    w: &mut Words<'_>,
) -> ShortAnswer
    requires { length unit.now ≤ limit }
    ensures taken { (b : List ℕ) → Taken (in_known known (slice_bits (table_in sets.entry) kind) unit.now from scratch.old) result scratch.new (record { header = words_in w.old; base = b }) (record { header = words_in w.new; base = b }) }
    ensures same { SameArrays w.old w.new }
{
    match unescape_known(unit, from, known, scratch) {
        Ok(n) => slice_short(read_header_into(&scratch[..n], kind, sets, w)),
        Err(r) => ShortAnswer::Refused(r),
    }
}

// The body of a prefix unit, which goes to scratch.
fn body_into(
    unit: &[u8],
    known: usize,
    scratch: &mut [u8],
    kind: PrefixKind,
    base: &mut [u32; 198],
) -> ShortAnswer
    requires { length unit.now ≤ limit }
    ensures { (h : HeaderWords) → Taken (in_known known (prefix_bits kind) unit.now 4 scratch.old) result scratch.new (record { header = h; base = base.old }) (record { header = h; base = base.new }) }
{
    match unescape_known(unit, 4, known, scratch) {
        Ok(n) => body_short(prefix_into(&scratch[..n], Cursor { at: 0 }, kind, base)),
        Err(r) => ShortAnswer::Refused(r),
    }
}

// The body of a parameter set, which goes to scratch.
fn sequence_into(unit: &[u8], known: usize, scratch: &mut [u8]) -> ShortAnswer
    requires { length unit.now ≤ limit }
    ensures { (w : Lent) → Taken (in_known known sequence_bits unit.now 1 scratch.old) result scratch.new w w }
{
    match unescape_known(unit, 1, known, scratch) {
        Ok(n) => sequence_short(sequence_set(&scratch[..n], Cursor { at: 0 })),
        Err(r) => ShortAnswer::Refused(r),
    }
}

fn picture_into(unit: &[u8], known: usize, scratch: &mut [u8]) -> ShortAnswer
    requires { length unit.now ≤ limit }
    ensures { (w : Lent) → Taken (in_known known picture_bits unit.now 1 scratch.old) result scratch.new w w }
{
    match unescape_known(unit, 1, known, scratch) {
        Ok(n) => picture_short(picture_set(&scratch[..n], Cursor { at: 0 })),
        Err(r) => ShortAnswer::Refused(r),
    }
}

// A unit whose head has been compared; of the words beside a refusal nothing is said.
fn take(
    head: UnitHead,
    sets: Sets<'_>,
    unit: &[u8],
    known: usize,
    scratch: &mut [u8],
    w: &mut AllWords<'_>,
) -> ShortAnswer
    requires { begun unit.now ≡ begun_by head }
    ensures taken { Taken (unit_known known (table_in sets.entry) unit.now scratch.old) result scratch.new (lent_in w.old) (lent_in w.new) }
    ensures same { SameLent w.old w.new }
{
    match begun_by(head) {
        Begun::Slice(kind, from) => slice_into(
            sets,
            unit,
            known,
            scratch,
            kind,
            from,
            &mut w.header,
        ),
        Begun::Prefix(kind) => body_into(unit, known, scratch, kind, w.base),
        Begun::SequenceSet => sequence_into(unit, known, scratch),
        Begun::PictureSet => picture_into(unit, known, scratch),
        Begun::Other(id) => ShortAnswer::Other(id),
        Begun::Refused(r) => ShortAnswer::Refused(r),
    }
}

impl AllWords<'_> {
    // All words become zeros, as beside a refusal.
    pub fn clear(&mut self)
        ensures words { lent_in self.new ≡ blank }
        ensures same { SameLent self.old self.new }
    {
        self.header.clear();
        clear_list(self.base);
    }
}

// A unit whose head has been compared, with zeros in all words beside a refusal.
fn read_into(
    head: UnitHead,
    sets: Sets<'_>,
    unit: &[u8],
    known: usize,
    scratch: &mut [u8],
    w: &mut AllWords<'_>,
) -> ShortAnswer
    requires { begun unit.now ≡ begun_by head }
    ensures read { ReadInto (unit_known known (table_in sets.entry) unit.now scratch.old) result scratch.new (lent_in w.old) (lent_in w.new) }
    ensures same { SameLent w.old w.new }
{
    match take(head, sets, unit, known, scratch, w) {
        ShortAnswer::Slice(n) => ShortAnswer::Slice(n),
        ShortAnswer::Prefix(p) => ShortAnswer::Prefix(p),
        ShortAnswer::Sequence(v) => ShortAnswer::Sequence(v),
        ShortAnswer::Picture(v) => ShortAnswer::Picture(v),
        ShortAnswer::Other(id) => ShortAnswer::Other(id),
        ShortAnswer::Refused(r) => {
            w.clear();
            ShortAnswer::Refused(r)
        }
    }
}

// The body of a unit, for whoever has its head (`head::head`) and knows that no 00 00 03 begins before `known`; 0 where nothing is known. Another's head is 34,
// before all else. The unit is read by the sets in a table's two arrays; its bytes before `known` are taken as they stand, and not searched. Until the body is known to
// fit, scratch is untouched; after that it starts with the body, whatever the answer. A slice's header goes to the words of its fields and lists, over zeros where the
// counts said that a list was, and a prefix unit's list to `base`, over zeros; all other words stay as they were. Beside a refusal all words are zeros.
pub fn read_known_into(
    head: UnitHead,
    sets: Sets<'_>,
    unit: &[u8],
    known: usize,
    scratch: &mut [u8],
    w: &mut AllWords<'_>,
) -> ShortAnswer
    ensures read { ReadInto (body_known known (table_in sets.entry) head unit.now scratch.old) result scratch.new (lent_in w.old) (lent_in w.new) }
    ensures same { SameLent w.old w.new }
{
    if !is_head_of(head, unit) {
        w.clear();
        return ShortAnswer::Refused(refuse(NOT_ITS_HEAD, 0));
    }
    read_into(head, sets, unit, known, scratch, w)
}

// The same where nothing is known.
pub fn read_body_into(
    head: UnitHead,
    sets: Sets<'_>,
    unit: &[u8],
    scratch: &mut [u8],
    w: &mut AllWords<'_>,
) -> ShortAnswer
    ensures read { ReadInto (body_read (table_in sets.entry) head unit.now scratch.old) result scratch.new (lent_in w.old) (lent_in w.new) }
    ensures same { SameLent w.old w.new }
{
    read_known_into(head, sets, unit, 0, scratch, w)
}
