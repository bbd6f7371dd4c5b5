// The header read into lent words: its fields in two arrays, one of numbers and flags and one of signed numbers, and each list in an array of its own. A record
// handed back by value would be copied by every function on its way.
ghost use Rattle.std.specs.Prelude.{◌≡◌, ◌++◌, ◌≤◌, length};
ghost use Rattle.std.proofs.lemmas.List.Edits.{sets};
ghost use Rattle.bits.specs.Bits.{bits_of};
ghost use Rattle.syntax.specs.SliceHeader.{read_header, modifications, pred_weight_table, dec_ref_pic_marking, active_l0, active_l1};
ghost use Rattle.weights.specs.Counts.{at_most32};
ghost use Rattle.header.specs.Lead.{table_in};
ghost use Rattle.lists.specs.Leaves.{Covered};
ghost use Rattle.lists.specs.ListsLent.{list_words};
ghost use Rattle.weights.specs.WeightsLent.{weights_step, l0_begun, l1_begun};
ghost use Rattle.header.specs.Short.{words_in, SameArrays, emptied, zeros, header_end, header_left};
ghost use Rattle.header.specs.Told.{ListsTold, MarksTold, FrontIn, EachFront, Filled, Kept, behind};

use crate::follows::any_set_after;
use crate::lead::{Led, lead};
use crate::stages::{MarkingFlags, active, back, first_flag, front, marking_flags};
use crate::words::{
    MARKINGS, MODIFICATIONS_L0, MODIFICATIONS_L1, WEIGHTS_L0, WEIGHTS_L1, lay_lead, lay_lists,
    lay_marks, lay_weights, long_numbers, long_signed,
};
use bits::read::{Cursor, Read};
use bits::refusals::{NOTHING_FOLLOWS, Refusal, refuse_at, why};
use fields::conditions::{B, is_type};
use fields::read::flag_if;
use lists::list_words::{clear_list, empty_list, operations_onto};
use lists::marking::marking_kind;
use lists::modification::modification_kind;
use syntax::context::{Context, UnitKind};
use syntax::marks::Marked;
use syntax::record::ActiveCounts;
use table::table::Sets;
use weights::weight_words::{WeightsShort, clear_weights, empty_weights, weights_onto};

// The words of a header: each array as it is lent.
#[derive(Drop)]
pub struct Words<'a> {
    pub numbers: &'a mut [u32; 57],
    pub signed: &'a mut [i32; 7],
    pub l0: &'a mut [u32; 198],
    pub l1: &'a mut [u32; 198],
    pub marking: &'a mut [u32; 198],
    pub w0: &'a mut [i32; 256],
    pub w1: &'a mut [i32; 256],
}

// ref_pic_list_modification( ) without its lists
#[derive(Clone, Copy)]
pub(crate) struct Lists {
    pub(crate) flag0: Marked<bool>,
    pub(crate) count0: u32,
    pub(crate) flag1: Marked<bool>,
    pub(crate) count1: u32,
}

// dec_ref_pic_marking( ) without its list
#[derive(Clone, Copy)]
pub(crate) struct Marks {
    pub(crate) flags: MarkingFlags,
    pub(crate) count: u32,
}

// The private stages clear no words beside a refusal: what was read before it is read again where more bits are tried, and `read_header_into` clears them at the end.
fn lists_into(
    s: &[u8],
    c: Cursor,
    x: Context,
    slice_type: u32,
    l0: &mut [u32; 198],
    l1: &mut [u32; 198],
) -> Read<Lists>
    ensures lists_told { ListsTold ((modifications x slice_type).read (bits_of s.now) c.at) result l0.old l1.old l0.new l1.new }
    ensures covered { Covered (λ m. list_words m.l0.operations) (modifications x slice_type) (bits_of s.now) c.at l0.old l0.new }
    ensures covered_2 { Covered (λ m. list_words m.l1.operations) (modifications x slice_type) (bits_of s.now) c.at l1.old l1.new }
{
    let a1 = first_flag(s, c, x, slice_type);
    let Ok((flag0, c1)) = a1 else {
        return Err(why(a1));
    };
    let codes = modification_kind(x.kind.mvc);
    let a2 = operations_onto(s, c1, flag0.value, codes, l0);
    let Ok((count0, c2)) = a2 else {
        return Err(why(a2));
    };
    let a3 = flag_if(s, c2, is_type(slice_type, B));
    let Ok((flag1, c3)) = a3 else {
        return Err(why(a3));
    };
    let a4 = operations_onto(s, c3, flag1.value, codes, l1);
    let Ok((count1, c4)) = a4 else {
        return Err(why(a4));
    };
    Ok((
        Lists {
            flag0,
            count0,
            flag1,
            count1,
        },
        c4,
    ))
}

fn marks_into(s: &[u8], c: Cursor, x: Context, words: &mut [u32; 198]) -> Read<Marks>
    ensures marks_told { MarksTold ((dec_ref_pic_marking x).read (bits_of s.now) c.at) result words.old words.new }
    ensures covered { Covered (λ d. list_words d.operations) (dec_ref_pic_marking x) (bits_of s.now) c.at words.old words.new }
{
    let a1 = marking_flags(s, c, x);
    let Ok((flags, c1)) = a1 else {
        return Err(why(a1));
    };
    let adaptive = flags.adaptive_ref_pic_marking_mode_flag;
    let a2 = operations_onto(s, c1, adaptive.value, marking_kind(), words);
    let Ok((count, c2)) = a2 else {
        return Err(why(a2));
    };
    Ok((Marks { flags, count }, c2))
}

fn weights_for_into(
    s: &[u8],
    c: Cursor,
    x: Context,
    slice_type: u32,
    a: ActiveCounts,
    w0: &mut [i32; 256],
    w1: &mut [i32; 256],
) -> Read<WeightsShort>
    ensures value { result ≡ weights_step ((pred_weight_table x slice_type (at_most32 (active_l0 x a)) (at_most32 (active_l1 x a))).read (bits_of s.now) c.at) }
    ensures w0_after { w0.new ≡ sets w0.old 0 (l0_begun x slice_type (at_most32 (active_l0 x a)) (bits_of s.now) c.at) }
    ensures w1_after { w1.new ≡ sets w1.old 0 (l1_begun x slice_type (at_most32 (active_l0 x a)) (at_most32 (active_l1 x a)) (bits_of s.now) c.at) }
{
    let n0 = active(
        a.num_ref_idx_l0_active_minus1,
        x.picture.num_ref_idx_l0_default_active_minus1,
    );
    let n1 = active(
        a.num_ref_idx_l1_active_minus1,
        x.picture.num_ref_idx_l1_default_active_minus1,
    );
    weights_onto(s, c, x, slice_type, n0, n1, w0, w1)
}

// What follows num_ref_idx_l1_active_minus1. A function of its own, so that no stage stands behind many tests: the compiler takes what does for rare, and neither
// inlines it nor keeps its values in registers.
fn behind(
    s: &[u8],
    c: Cursor,
    kind: UnitKind,
    l: Led,
    a: ActiveCounts,
    w: &mut Words<'_>,
) -> Result<Cursor, Refusal>
    ensures each_front { EachFront a (λ f. FrontIn l f (words_in w.old) → Filled (behind kind l f (bits_of s.now) c.at) result (words_in w.old) (words_in w.new)) }
    ensures each_front_2 { EachFront a (λ f. c.at ≤ length (bits_of s.now) → Kept (λ t. behind kind l f (bits_of s.now ++ t) c.at) (words_in w.old) (words_in w.new)) }
    ensures same { SameArrays w.old w.new }
{
    let picture = l.picture;
    let sequence = l.sequence;
    let x = Context {
        kind,
        picture,
        sequence,
        cycle_width: l.cycle_width,
    };
    long_numbers(w.numbers);
    long_signed(w.signed);
    let a3 = lists_into(s, c, x, l.slice_type, w.l0, w.l1);
    let Ok((o, c3)) = a3 else {
        return Err(why(a3));
    };
    lay_lists(o, w.numbers);
    let a4 = weights_for_into(s, c3, x, l.slice_type, a, w.w0, w.w1);
    let Ok((weights, c4)) = a4 else {
        return Err(why(a4));
    };
    lay_weights(weights, w.numbers);
    let a5 = marks_into(s, c4, x, w.marking);
    let Ok((m, c5)) = a5 else {
        return Err(why(a5));
    };
    lay_marks(m, w.numbers);
    let a6 = back(s, c5, x, l.slice_type, w.numbers, w.signed);
    let Ok(c6) = a6 else {
        return a6;
    };
    if !any_set_after(s, c6.at) {
        return Err(refuse_at(NOTHING_FOLLOWS, 0, c6.at));
    }
    Ok(c6)
}

pub(crate) fn fill(
    s: &[u8],
    kind: UnitKind,
    sets: Sets<'_>,
    w: &mut Words<'_>,
) -> Result<Cursor, Refusal>
    ensures filled { Filled (read_header (table_in sets.entry) kind (bits_of s.now)) result (words_in w.old) (words_in w.new) }
    ensures kept { Kept (λ t. read_header (table_in sets.entry) kind (bits_of s.now ++ t)) (words_in w.old) (words_in w.new) }
    ensures same { SameArrays w.old w.new }
{
    let a1 = lead(s, Cursor { at: 0 }, sets);
    let Ok((l, c1)) = a1 else {
        return Err(why(a1));
    };
    let picture = l.picture;
    let sequence = l.sequence;
    let x = Context {
        kind,
        picture,
        sequence,
        cycle_width: l.cycle_width,
    };
    long_numbers(w.numbers);
    long_signed(w.signed);
    lay_lead(
        l.first_mb_in_slice,
        l.slice_type,
        l.pic_parameter_set_id,
        picture.seq_parameter_set_id,
        w.numbers,
    );
    let a2 = front(s, c1, x, l.slice_type, w.numbers, w.signed);
    let Ok((a, c2)) = a2 else {
        return Err(why(a2));
    };
    behind(s, c2, kind, l, a, w)
}

impl Words<'_> {
    // All words of a header.
    pub fn clear(&mut self)
        ensures words { words_in self.new ≡ zeros }
        ensures same { SameArrays self.old self.new }
    {
        *self.numbers = [0; 57];
        *self.signed = [0; 7];
        clear_list(self.l0);
        clear_list(self.l1);
        clear_list(self.marking);
        clear_weights(self.w0);
        clear_weights(self.w1);
    }

    // Before a header is laid down, what the counts of the one before say is in use becomes zeros. Where all counts are 0 that is a test for each.
    pub(crate) fn empty_lists(&mut self)
        ensures words { words_in self.new ≡ emptied (words_in self.old) }
        ensures same { SameArrays self.old self.new }
    {
        empty_list(self.l0, self.numbers[MODIFICATIONS_L0]);
        empty_list(self.l1, self.numbers[MODIFICATIONS_L1]);
        empty_list(self.marking, self.numbers[MARKINGS]);
        empty_weights(self.w0, self.numbers[WEIGHTS_L0]);
        empty_weights(self.w1, self.numbers[WEIGHTS_L1]);
    }
}

// The header at the start of a slice unit's unescaped body, by the table whose arrays are lent. All words of its fields are written. Words that were zeros behind a
// list's count are zeros behind the new one. Beside a refusal all words are zeros.
pub fn read_header_into(
    s: &[u8],
    kind: UnitKind,
    sets: Sets<'_>,
    w: &mut Words<'_>,
) -> Result<Cursor, Refusal>
    ensures value { result ≡ header_end (read_header (table_in sets.entry) kind (bits_of s.now)) }
    ensures words { words_in w.new ≡ header_left (read_header (table_in sets.entry) kind (bits_of s.now)) (words_in w.old) }
    ensures same { SameArrays w.old w.new }
{
    w.empty_lists();
    let a = fill(s, kind, sets, w);
    let Ok(_) = a else {
        w.clear();
        return a;
    };
    a
}
