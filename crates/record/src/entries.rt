// Lists out of their words: the entries that a count says are in use. Words behind them are not looked at.
ghost use Rattle.std.specs.Prelude.{◌≡◌, ◌*◌, ◌<◌, pos, get_or, drop, replicate};
ghost use Rattle.syntax.specs.SliceHeader.{no_weight};
ghost use Rattle.record.specs.Entries.{operations_from, is_set_z, weight_from, weights_from};

use lists::list_words::at_most_66;
use syntax::record::{Operations, Weight, WeightList};
use weights::list::at_most_32;

pub fn operations_of(count: u32, words: &[u32; 198]) -> Operations
    ensures { result ≡ operations_from count words.now }
{
    let used = at_most_66(count);
    let mut codes = [0u32; 66];
    let mut first = [0u32; 66];
    let mut second = [0u32; 66];
    for i in 0..used {
        let j = i as usize;
        let k = 3 * j;
        codes[j] = words[k];
        first[j] = words[k + 1];
        second[j] = words[k + 2];
    }
    Operations {
        count: used,
        codes,
        first,
        second,
    }
}

fn flag_at(words: &[i32; 256], k: usize) -> bool
    requires { k < 256 }
    ensures { result ≡ is_set_z (get_or words.now k (pos 0)) }
{
    words[k] != 0
}

fn no_entry() -> Weight
    ensures { result ≡ no_weight }
{
    Weight {
        luma_weight_flag: false,
        luma_weight: 0,
        luma_offset: 0,
        chroma_weight_flag: false,
        cb_weight: 0,
        cb_offset: 0,
        cr_weight: 0,
        cr_offset: 0,
    }
}

// The entry at i: eight words in the syntax's order; zeros behind the last.
pub fn weight_at(words: &[i32; 256], i: u32) -> Weight
    ensures { result ≡ weight_from (drop (8 * i) words.now) }
{
    if 32 <= i {
        return no_entry();
    }
    let k = 8 * i as usize;
    Weight {
        luma_weight_flag: flag_at(words, k),
        luma_weight: words[k + 1],
        luma_offset: words[k + 2],
        chroma_weight_flag: flag_at(words, k + 3),
        cb_weight: words[k + 4],
        cb_offset: words[k + 5],
        cr_weight: words[k + 6],
        cr_offset: words[k + 7],
    }
}

pub fn weights_of(count: u32, words: &[i32; 256]) -> WeightList
    ensures { result ≡ weights_from count words.now }
{
    let used = at_most_32(count);
    let mut entries = [no_entry(); 32];
    for i in 0..used {
        entries[i as usize] = weight_at(words, i);
    }
    WeightList {
        count: used,
        entries,
    }
}
