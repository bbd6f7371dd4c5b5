// Exposures, for a host that reads units by itself: it takes them one by one.
ghost use Rattle.std.specs.Prelude.{◌≡◌};
ghost use Rattle.header.specs.Lead.{table_of};
ghost use Rattle.exposures.specs.Take.{start, finish_of};
ghost use Rattle.exposures.specs.Words.{words, lent, counts_in, state_in, words_of};
ghost use Rattle.exports.specs.Takes.{no_exposure, closed_out, taken_out};

use crate::listings::hear;
use exposures::counts::Counts;
use exposures::exposure::Exposure;
use exposures::take::{counts, finish, start, take};
use stacking::item::item_of;
use table::table::Sets;

// An exposure that is closed, or none: then `there` is false and every field zero.
#[repr(C)]
#[derive(Clone, Copy)]
pub struct ClosedOut {
    pub there: bool,
    pub exposure: Exposure,
}

fn no_exposure() -> Exposure
    ensures { result ≡ no_exposure }
{
    Exposure {
        place: 0,
        slices: 0,
        qp_least: 0,
        qp_greatest: 0,
        qp_sum: 0,
        frame_num: 0,
        gap: false,
        refused_before: 0,
    }
}

fn closed_out(c: Option<Exposure>) -> ClosedOut
    ensures { result ≡ closed_out c }
{
    match c {
        None => ClosedOut {
            there: false,
            exposure: no_exposure(),
        },
        Some(exposure) => ClosedOut {
            there: true,
            exposure,
        },
    }
}

// The state where no unit was taken, in words that the host lends: any words hold a state, and what these hold before is not looked at.
#[unsafe(no_mangle)]
pub extern "C" fn tuz_exposures_start(
    state_sizes: &mut [usize; 11],
    state_numbers: &mut [u32; 13],
    state_levels: &mut [i64; 7],
)
    ensures { (lent state_sizes state_numbers state_levels).exit ≡ words_of start }
{
    start(state_sizes, state_numbers, state_levels);
}

// A unit is taken, by the sets in force in a table's two arrays: its place, its head's type and nal_ref_idc, `answer` of its ReadOut, and the words of a slice's fields.
// The state's words are changed where they stand; the answer is the exposure that the unit closed.
#[unsafe(no_mangle)]
pub extern "C" fn tuz_take<'a>(
    state_sizes: &mut [usize; 11],
    state_numbers: &mut [u32; 13],
    state_levels: &mut [i64; 7],
    sequences: &'a [u32; 224],
    pictures: &'a [u32; 2304],
    place: usize,
    nal_unit_type: u8,
    nal_ref_idc: u8,
    answer: u32,
    numbers: &'a [u32; 57],
    signed: &'a [i32; 7],
) -> ClosedOut
    ensures { (result ≡ (taken_out (lent state_sizes state_numbers state_levels).entry (table_of sequences.now pictures.now) place nal_unit_type nal_ref_idc answer numbers.now signed.now).closed) × ((lent state_sizes state_numbers state_levels).exit ≡ (taken_out (lent state_sizes state_numbers state_levels).entry (table_of sequences.now pictures.now) place nal_unit_type nal_ref_idc answer numbers.now signed.now).left) }
{
    let a = hear(answer, 0, 0, false, 0);
    let sets = Sets {
        sequences,
        pictures,
    };
    let item = item_of(sets, place, nal_unit_type, nal_ref_idc, a, numbers, signed);
    closed_out(take(item, state_sizes, state_numbers, state_levels))
}

// The last exposure: nothing more is taken.
#[unsafe(no_mangle)]
pub extern "C" fn tuz_finish<'a>(
    state_sizes: &'a [usize; 11],
    state_numbers: &'a [u32; 13],
    state_levels: &'a [i64; 7],
) -> ClosedOut
    ensures { result ≡ closed_out (finish_of (state_in (words state_sizes.now state_numbers.now state_levels.now))) }
{
    closed_out(finish(state_sizes, state_numbers, state_levels))
}

// How many units of each kind were taken.
#[unsafe(no_mangle)]
pub extern "C" fn tuz_counts(state_sizes: &[usize; 11]) -> Counts
    ensures { result ≡ counts_in state_sizes.now }
{
    counts(state_sizes)
}
