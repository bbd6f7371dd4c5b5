// How many bits a header has at most, by the lengths of its lists and its counts of active references.
ghost use Rattle.std.specs.Prelude.{◌≡◌, ◌+◌};
ghost use Rattle.bits.specs.Refusals.{pick};
ghost use Rattle.table.specs.Tables as tables;
ghost use Rattle.syntax.specs.Context.{picture_in};
ghost use Rattle.size.specs.Size.{most_bits};
ghost use Rattle.size.specs.InWords.{bound_in};

use lists::list_words::at_most_66;
use record::parts_of::active_counts_of;
use syntax::marks::Marked;
use table::words::picture_in;

// The counts minus 1 that a slice has by its picture set.
#[derive(Clone, Copy)]
struct Defaults {
    l0: u32,
    l1: u32,
}

// A set that the table does not have counts as zeros.
fn default_counts(pictures: &[u32; 2304], id: u32) -> Defaults
    ensures { (result.l0 ≡ (picture_in (tables.picture_in pictures.now id)).num_ref_idx_l0_default_active_minus1) × (result.l1 ≡ (picture_in (tables.picture_in pictures.now id)).num_ref_idx_l1_default_active_minus1) }
{
    match picture_in(pictures, id) {
        Some((p, _)) => Defaults {
            l0: p.num_ref_idx_l0_default_active_minus1,
            l1: p.num_ref_idx_l1_default_active_minus1,
        },
        None => Defaults { l0: 0, l1: 0 },
    }
}

fn own_or(m: Marked<u32>, default: u32) -> u32
    ensures { result ≡ pick m.there m.value default }
{
    if m.there { m.value } else { default }
}

// Bits that do not depend on any length: the parts without lists, and of those with lists their flags, closing codes and denominators.
const FIXED: usize = 659;

// For lists of m0 and m1 modifications, d operations of marking, and active counts minus 1 of n0 and n1. No sum of numbers of 32 bits comes near the end of 64.
fn most_bits(m0: u32, m1: u32, d: u32, n0: u32, n1: u32) -> usize
    ensures { result ≡ most_bits m0 m1 d (n0 + 1) (n1 + 1) }
{
    let modifications = m0 as usize + m1 as usize;
    let references = n0 as usize + n1 as usize + 2;
    FIXED + 68 * modifications + 131 * d as usize + 380 * references
}

// The most bits of the header that words hold, by the table's array of picture sets. Its numbers are all that it takes.
pub fn header_bound(pictures: &[u32; 2304], numbers: &[u32; 57]) -> usize
    ensures { result ≡ bound_in pictures.now numbers.now }
{
    let p = default_counts(pictures, numbers[2]);
    let a = active_counts_of(numbers);
    most_bits(
        at_most_66(numbers[29]),
        at_most_66(numbers[32]),
        at_most_66(numbers[45]),
        own_or(a.num_ref_idx_l0_active_minus1, p.l0),
        own_or(a.num_ref_idx_l1_active_minus1, p.l1),
    )
}
