// Taking a recording's units one by one. A slice goes to the picture of the slice before it, or closes that picture's exposure and begins a new one; all other
// units are counted, and split no picture.
ghost use Rattle.std.specs.Prelude.{◌≡◌};
ghost use Rattle.exposures.specs.Take.{no_slice, no_counts, start, slice_taken, refused_with, unit_taken, take_of, finish_of};
ghost use Rattle.exposures.specs.Words.{words, lent, state_in, words_of, counts_in};

use crate::compare::{is_first, is_gap};
use crate::counts::{Counts, count};
use crate::exposure::{Exposure, first_slice, next_slice, one_more};
use crate::slice::{Item, Kind, Slice};
use crate::words::{exposure_in, last_in, lay};

// What stands for the last slice where none was taken.
fn no_slice() -> Slice
    ensures { result ≡ no_slice }
{
    Slice {
        place: 0,
        qp: 0,
        nal_ref_idc: 0,
        idr_pic_flag: false,
        frame_num: 0,
        pic_parameter_set_id: 0,
        field_pic_flag: false,
        bottom_field_flag: false,
        pic_order_cnt_type: 0,
        pic_order_cnt_lsb: 0,
        delta_pic_order_cnt_bottom: 0,
        delta_pic_order_cnt_0: 0,
        delta_pic_order_cnt_1: 0,
        idr_pic_id: 0,
        log2_max_frame_num: 0,
    }
}

fn no_counts() -> Counts
    ensures { result ≡ no_counts }
{
    Counts {
        slices: 0,
        redundant: 0,
        refused: 0,
        prefixes: 0,
        views: 0,
        others: 0,
    }
}

// The state where nothing was taken.
pub fn start(sizes: &mut [usize; 11], numbers: &mut [u32; 13], levels: &mut [i64; 7])
    ensures { (lent sizes numbers levels).exit ≡ words_of start }
{
    let last = no_slice();
    let e = first_slice(last, false, 0);
    lay(false, e, last, 0, no_counts(), sizes, numbers, levels);
}

// How many units of each kind were taken.
pub fn counts(sizes: &[usize; 11]) -> Counts
    ensures { result ≡ counts_in sizes.now }
{
    Counts {
        slices: sizes[5],
        redundant: sizes[6],
        refused: sizes[7],
        prefixes: sizes[8],
        views: sizes[9],
        others: sizes[10],
    }
}

fn take_slice(
    s: Slice,
    c: Counts,
    sizes: &mut [usize; 11],
    numbers: &mut [u32; 13],
    levels: &mut [i64; 7],
) -> Option<Exposure>
    ensures { (result ≡ (slice_taken (state_in (lent sizes numbers levels).entry) s c).closed) × ((lent sizes numbers levels).exit ≡ words_of (slice_taken (state_in (lent sizes numbers levels).entry) s c).state) }
{
    let refused = sizes[4];
    if numbers[0] == 0 {
        let opened = first_slice(s, false, refused);
        lay(true, opened, s, 0, c, sizes, numbers, levels);
        return None;
    }
    let last = last_in(sizes, numbers, levels);
    if is_first(last, s) {
        let e = exposure_in(sizes, numbers, levels);
        let gap = is_gap(e.frame_num, s);
        let opened = first_slice(s, gap, refused);
        lay(true, opened, s, 0, c, sizes, numbers, levels);
        return Some(e);
    }
    let e = exposure_in(sizes, numbers, levels);
    let more = next_slice(e, s);
    lay(true, more, s, refused, c, sizes, numbers, levels);
    None
}

// Refused units since a picture's first slice, with a unit more.
fn refused_with(n: usize, kind: Kind) -> usize
    ensures { result ≡ refused_with n kind }
{
    match kind {
        Kind::Redundant => n,
        Kind::Refused => one_more(n),
        Kind::Prefix => n,
        Kind::View => n,
        Kind::Other => n,
    }
}

fn take_unit(
    kind: Kind,
    c: Counts,
    sizes: &mut [usize; 11],
    numbers: &mut [u32; 13],
    levels: &mut [i64; 7],
)
    ensures { (lent sizes numbers levels).exit ≡ words_of (unit_taken (state_in (lent sizes numbers levels).entry) kind c).state }
{
    let begun = numbers[0] != 0;
    let refused = refused_with(sizes[4], kind);
    let e = exposure_in(sizes, numbers, levels);
    let last = last_in(sizes, numbers, levels);
    lay(begun, e, last, refused, c, sizes, numbers, levels);
}

// A unit is taken: what it closes.
pub fn take(
    item: Item,
    sizes: &mut [usize; 11],
    numbers: &mut [u32; 13],
    levels: &mut [i64; 7],
) -> Option<Exposure>
    ensures { (result ≡ (take_of (state_in (lent sizes numbers levels).entry) item).closed) × ((lent sizes numbers levels).exit ≡ words_of (take_of (state_in (lent sizes numbers levels).entry) item).state) }
{
    let c = count(counts(sizes), item);
    match item {
        Item::Slice(s) => take_slice(s, c, sizes, numbers, levels),
        Item::Unit(k) => {
            take_unit(k, c, sizes, numbers, levels);
            None
        }
    }
}

// The last exposure: nothing more is taken.
pub fn finish<'a>(
    sizes: &'a [usize; 11],
    numbers: &'a [u32; 13],
    levels: &'a [i64; 7],
) -> Option<Exposure>
    ensures { result ≡ finish_of (state_in (words sizes.now numbers.now levels.now)) }
{
    if numbers[0] == 0 {
        return None;
    }
    let e = exposure_in(sizes, numbers, levels);
    Some(e)
}
