// A list read into words that the caller lends: three words an entry, its code and its two operands. No list is copied, and words behind the last entry stay as they were: `empty_list` makes them zeros.
#![tactic(auto, unfolding(crate::specs::ListsLent::at_most66, syntax::specs::Prefix::has_base_marking))]

ghost use Rattle.std.specs.Prelude.{◌≡◌, true, replicate};
ghost use Rattle.std.proofs.lemmas.List.Edits.{sets};
ghost use Rattle.bits.specs.Bits.{bits_of};
ghost use Rattle.syntax.specs.Lists.{operations, operations_if};
ghost use Rattle.syntax.specs.Prefix.{base_marking_kind, has_base_marking, prefix};
ghost use Rattle.lists.specs.Kinds.{kind_of};
ghost use Rattle.lists.specs.ListsLent.{list_step, list_left, list_begun, at_most66, emptied_list, prefix_step, prefix_left};

use crate::operations::{ListKind, has_first, has_second};
use bits::read::{Cursor, Read};
use bits::refusals::{BASE_MARKING_OPERATION, LIST_FULL, Refusal, refuse_at, why};
use fields::conditions::{both, either};
use fields::read::{flag_if, given, tested};
use syntax::context::PrefixKind;
use syntax::marks::Marked;

pub fn clear_list(words: &mut [u32; 198])
    ensures { words.new ≡ replicate 198 0 }
{
    *words = [0; 198];
}

// A count over 66 counts as 66.
pub fn at_most_66(n: u32) -> u32
    ensures { result ≡ at_most66 n }
{
    if n <= 66 { n } else { 66 }
}

// The entries that a count says are in use become zeros; no other word is touched, so that an empty list costs a test.
pub fn empty_list(words: &mut [u32; 198], count: u32)
    ensures { words.new ≡ emptied_list count words.old }
{
    let end = 3 * at_most_66(count) as usize;
    for k in 0..end {
        words[k] = 0;
    }
}

// A list that has been read: its count, and the place after the closing code.
#[derive(Clone, Copy)]
struct Filled {
    count: u32,
    at: Cursor,
}

// The loop of `operations`. After a refusal the words hold the entries that were read before it.
fn fill(s: &[u8], c: Cursor, kind: ListKind, words: &mut [u32; 198]) -> Read<u32>
    ensures value { result ≡ list_step ((operations (kind_of kind)).read (bits_of s.now) c.at) }
    ensures words_after { words.new ≡ sets words.old 0 (list_begun true (kind_of kind) (bits_of s.now) c.at) }
{
    let mut count: u32 = 0;
    let mut at = c;
    let got = loop {
        let (code, c1) = tested(s, at, kind.greatest as u32, kind.number)?;
        if code == kind.closing as u32 {
            break Filled { count, at: c1 };
        }
        if 66 <= count {
            return Err(refuse_at(LIST_FULL, 0, at.at));
        }
        let (x, c2) = given(s, c1, has_first(kind, code))?;
        let (y, c3) = given(s, c2, has_second(kind, code))?;
        let k = 3 * count as usize;
        words[k] = code;
        words[k + 1] = x;
        words[k + 2] = y;
        count += 1;
        at = c3;
    };
    let end = got.at;
    Ok((got.count, end))
}

// A list that is there only under a condition, over the words as far as it is read: beside a refusal they hold the entries that were read before it. Where the
// same list is read again from a longer input, its entries stand over these.
pub fn operations_onto(
    s: &[u8],
    c: Cursor,
    there: bool,
    kind: ListKind,
    words: &mut [u32; 198],
) -> Read<u32>
    ensures value { result ≡ list_step ((operations_if there (kind_of kind)).read (bits_of s.now) c.at) }
    ensures words_after { words.new ≡ sets words.old 0 (list_begun there (kind_of kind) (bits_of s.now) c.at) }
{
    if !there {
        return Ok((0, c));
    }
    fill(s, c, kind, words)
}

// The same, with zeros in all words beside a refusal. `fill` has two callers for the compiler's sake: it is then no part of `operations_onto`, which costs a header
// without lists a test for each.
pub fn operations_into(
    s: &[u8],
    c: Cursor,
    there: bool,
    kind: ListKind,
    words: &mut [u32; 198],
) -> Read<u32>
    ensures value { result ≡ list_step ((operations_if there (kind_of kind)).read (bits_of s.now) c.at) }
    ensures words_after { words.new ≡ list_left ((operations_if there (kind_of kind)).read (bits_of s.now) c.at) words.old }
{
    if !there {
        return Ok((0, c));
    }
    let a = fill(s, c, kind, words);
    let Ok((_, _)) = a else {
        clear_list(words);
        return a;
    };
    a
}

// prefix_nal_unit_svc( ) without its list, of which it has the count.
#[derive(Clone, Copy)]
pub struct PrefixShort {
    pub store_ref_base_pic_flag: Marked<bool>,
    pub adaptive_ref_base_pic_marking_mode_flag: Marked<bool>,
    pub base_markings: u32,
    pub additional_prefix_nal_unit_extension_flag: Marked<bool>,
}

fn base_marking_kind() -> ListKind
    ensures { kind_of result ≡ base_marking_kind }
{
    ListKind {
        closing: 0,
        greatest: 2,
        number: BASE_MARKING_OPERATION,
        marking: false,
    }
}

// dec_ref_base_pic_marking( ) is there.
fn has_base_marking(kind: PrefixKind, store: bool) -> bool
    ensures { result ≡ has_base_marking kind store }
{
    let marks = both(either(kind.use_ref_base_pic_flag, store), !kind.idr_flag);
    both(kind.there, marks)
}

// The body of a prefix unit, by what its first bytes say of it. Words that hold no entry of its list are zeros, and so are all beside a refusal.
pub fn prefix_into(
    s: &[u8],
    c: Cursor,
    kind: PrefixKind,
    words: &mut [u32; 198],
) -> Read<PrefixShort>
    ensures value { result ≡ prefix_step ((prefix kind).read (bits_of s.now) c.at) }
    ensures words_after { words.new ≡ prefix_left ((prefix kind).read (bits_of s.now) c.at) }
{
    clear_list(words);
    let (store, c1) = flag_if(s, c, kind.there)?;
    let (adaptive, c2) = flag_if(s, c1, has_base_marking(kind, store.value))?;
    let (count, c3) = operations_into(s, c2, adaptive.value, base_marking_kind(), words)?;
    let a4 = flag_if(s, c3, kind.there);
    let Ok((more, c4)) = a4 else {
        clear_list(words);
        return Err(why(a4));
    };
    Ok((
        PrefixShort {
            store_ref_base_pic_flag: store,
            adaptive_ref_base_pic_marking_mode_flag: adaptive,
            base_markings: count,
            additional_prefix_nal_unit_extension_flag: more,
        },
        c4,
    ))
}
