// pred_weight_table( ) with its entries in words that the caller lends: an array by value is copied at each call that passes it on.
ghost use Rattle.std.specs.Prelude.{◌≡◌, ◌*◌, ◌<◌, pos, replicate};
ghost use Rattle.std.proofs.lemmas.List.Edits.{sets};
ghost use Rattle.bits.specs.Bits.{bits_of};
ghost use Rattle.bits.specs.Refusals.{pick};
ghost use Rattle.syntax.specs.SliceHeader.{weight_list, pred_weight_table};
ghost use Rattle.weights.specs.Counts.{at_most32};
ghost use Rattle.weights.specs.WeightsLent.{flag_word, entry_words, entries_begun, l0_begun, l1_begun, emptied_weights, weights_step, list_step};

use crate::list::at_most_32;
use crate::weight::weight;
use bits::read::{Cursor, Read};
use bits::refusals::Refusal;
use fields::conditions::{B, has_chroma, is_type, is_weighted};
use fields::read::number_if;
use syntax::context::Context;
use syntax::marks::Marked;
use syntax::record::Weight;

// The table without its entries: l0 and l1 are their counts. An entry is eight words, in the syntax's order, with flags as 0 and 1. A mark and no
// Option: it is laid down as a word.
#[repr(C)]
#[derive(Clone, Copy)]
pub struct WeightsShort {
    pub there: bool,
    pub luma_log2_weight_denom: u32,
    pub chroma_log2_weight_denom: Marked<u32>,
    pub l0: u32,
    pub l1: u32,
}

// The array is set whole: a loop would have to show how long a lent array is.
pub fn clear_weights(words: &mut [i32; 256])
    ensures { words.new ≡ replicate 256 (pos 0) }
{
    *words = [0; 256];
}

// As `empty_list`, for the eight words of an entry.
pub fn empty_weights(words: &mut [i32; 256], count: u32)
    ensures { words.new ≡ emptied_weights count words.old }
{
    let end = 8 * at_most_32(count) as usize;
    for k in 0..end {
        words[k] = 0;
    }
}

fn flag_word(b: bool) -> i32
    ensures { result ≡ flag_word b }
{
    if b { 1 } else { 0 }
}

// Entry i. A signed field is stored from a local.
fn store(words: &mut [i32; 256], i: usize, w: Weight)
    requires { i < 32 }
    ensures { words.new ≡ sets words.old (8 * i) (entry_words w) }
{
    let luma_weight_flag = flag_word(w.luma_weight_flag);
    let luma_weight = w.luma_weight;
    let luma_offset = w.luma_offset;
    let chroma_weight_flag = flag_word(w.chroma_weight_flag);
    let cb_weight = w.cb_weight;
    let cb_offset = w.cb_offset;
    let cr_weight = w.cr_weight;
    let cr_offset = w.cr_offset;
    let k = 8 * i;
    words[k] = luma_weight_flag;
    words[k + 1] = luma_weight;
    words[k + 2] = luma_offset;
    words[k + 3] = chroma_weight_flag;
    words[k + 4] = cb_weight;
    words[k + 5] = cb_offset;
    words[k + 6] = cr_weight;
    words[k + 7] = cr_offset;
}

// n entries, at most 32. After a refusal the words hold the entries that were read before it.
fn list_into(s: &[u8], c: Cursor, chroma: bool, n: u32, words: &mut [i32; 256]) -> Read<u32>
    ensures value { result ≡ list_step ((weight_list chroma (at_most32 n)).read (bits_of s.now) c.at) }
    ensures words_after { words.new ≡ sets words.old 0 (entries_begun chroma (at_most32 n) (bits_of s.now) c.at) }
{
    let count = at_most_32(n);
    let mut at = c;
    for i in 0..count {
        let (w, next) = weight(s, at, chroma)?;
        store(words, i as usize, w);
        at = next;
    }
    Ok((count, at))
}

// A list that is there only under a condition: where it is not, it costs no call.
fn list_if(
    s: &[u8],
    c: Cursor,
    there: bool,
    chroma: bool,
    n: u32,
    words: &mut [i32; 256],
) -> Read<u32>
    ensures value { result ≡ list_step ((weight_list chroma (pick there (at_most32 n) 0)).read (bits_of s.now) c.at) }
    ensures words_after { words.new ≡ sets words.old 0 (entries_begun chroma (pick there (at_most32 n) 0) (bits_of s.now) c.at) }
{
    if !there {
        return Ok((0, c));
    }
    list_into(s, c, chroma, n, words)
}

// The table for lists of n0 and n1 references, at most 32 each. Words that hold no entry stay as they were; beside a refusal the words hold the entries that were
// read before it, as with `operations_onto`.
pub fn weights_onto(
    s: &[u8],
    c: Cursor,
    x: Context,
    slice_type: u32,
    n0: u32,
    n1: u32,
    w0: &mut [i32; 256],
    w1: &mut [i32; 256],
) -> Read<WeightsShort>
    ensures value { result ≡ weights_step ((pred_weight_table x slice_type (at_most32 n0) (at_most32 n1)).read (bits_of s.now) c.at) }
    ensures w0_after { w0.new ≡ sets w0.old 0 (l0_begun x slice_type (at_most32 n0) (bits_of s.now) c.at) }
    ensures w1_after { w1.new ≡ sets w1.old 0 (l1_begun x slice_type (at_most32 n0) (at_most32 n1) (bits_of s.now) c.at) }
{
    if !is_weighted(x, slice_type) {
        return Ok((
            WeightsShort {
                there: false,
                luma_log2_weight_denom: 0,
                chroma_log2_weight_denom: Marked {
                    there: false,
                    value: 0,
                },
                l0: 0,
                l1: 0,
            },
            c,
        ));
    }
    let chroma = has_chroma(x);
    let (luma, c1) = c.ue(s)?;
    let (m, c2) = number_if(s, c1, chroma)?;
    let (k0, c3) = list_into(s, c2, chroma, n0, w0)?;
    let (k1, c4) = list_if(s, c3, is_type(slice_type, B), chroma, n1, w1)?;
    Ok((
        WeightsShort {
            there: true,
            luma_log2_weight_denom: luma,
            chroma_log2_weight_denom: m,
            l0: k0,
            l1: k1,
        },
        c4,
    ))
}
