// The record that lent words hold, taken out of them.
#![tactic(auto, unfolding(crate::specs::Record::header_from, crate::specs::Record::prefix_from))]

ghost use Rattle.std.specs.Prelude.{◌≡◌};
ghost use Rattle.record.specs.Record.{modifications_from, weight_table_from, marking_from, header_from, words_held, prefix_from};

use crate::entries::{operations_of, weights_of};
use crate::parts_of::{
    active_counts_of, filter_of, frame_of, marked_flag, marked_number, order_count_of, quantiser_of,
};
use lists::list_words::PrefixShort;
use syntax::record::{
    DecRefPicMarking, Modification, Modifications, PredWeightTable, Prefix, SliceHeader,
};

// The words of a header, lent to be read: `header::slice::Words` without the leave to write.
#[derive(Clone, Copy)]
pub struct HeldWords<'a> {
    pub numbers: &'a [u32; 57],
    pub signed: &'a [i32; 7],
    pub l0: &'a [u32; 198],
    pub l1: &'a [u32; 198],
    pub marking: &'a [u32; 198],
    pub w0: &'a [i32; 256],
    pub w1: &'a [i32; 256],
}

fn modifications_of(numbers: &[u32; 57], l0: &[u32; 198], l1: &[u32; 198]) -> Modifications
    ensures { result ≡ modifications_from numbers.now l0.now l1.now }
{
    Modifications {
        l0: Modification {
            flag: marked_flag(numbers, 27),
            operations: operations_of(numbers[29], l0),
        },
        l1: Modification {
            flag: marked_flag(numbers, 30),
            operations: operations_of(numbers[32], l1),
        },
    }
}

fn weight_table_of(numbers: &[u32; 57], w0: &[i32; 256], w1: &[i32; 256]) -> PredWeightTable
    ensures { result ≡ weight_table_from numbers.now w0.now w1.now }
{
    PredWeightTable {
        there: numbers[33] != 0,
        luma_log2_weight_denom: numbers[34],
        chroma_log2_weight_denom: marked_number(numbers, 35),
        l0: weights_of(numbers[37], w0),
        l1: weights_of(numbers[38], w1),
    }
}

fn marking_of(numbers: &[u32; 57], words: &[u32; 198]) -> DecRefPicMarking
    ensures { result ≡ marking_from numbers.now words.now }
{
    DecRefPicMarking {
        no_output_of_prior_pics_flag: marked_flag(numbers, 39),
        long_term_reference_flag: marked_flag(numbers, 41),
        adaptive_ref_pic_marking_mode_flag: marked_flag(numbers, 43),
        operations: operations_of(numbers[45], words),
    }
}

pub fn header_of(w: HeldWords<'_>) -> SliceHeader
    ensures { result ≡ header_from (words_held w.entry) }
{
    let numbers = w.numbers;
    SliceHeader {
        first_mb_in_slice: numbers[0],
        slice_type: numbers[1],
        pic_parameter_set_id: numbers[2],
        seq_parameter_set_id: numbers[3],
        frame: frame_of(numbers),
        order_count: order_count_of(numbers, w.signed),
        active_counts: active_counts_of(numbers),
        modifications: modifications_of(numbers, w.l0, w.l1),
        pred_weight_table: weight_table_of(numbers, w.w0, w.w1),
        dec_ref_pic_marking: marking_of(numbers, w.marking),
        quantiser: quantiser_of(numbers, w.signed),
        filter: filter_of(numbers, w.signed),
    }
}

pub fn prefix_of(p: PrefixShort, base: &[u32; 198]) -> Prefix
    ensures { result ≡ prefix_from p base.now }
{
    let store = p.store_ref_base_pic_flag;
    let adaptive = p.adaptive_ref_base_pic_marking_mode_flag;
    let more = p.additional_prefix_nal_unit_extension_flag;
    Prefix {
        store_ref_base_pic_flag: store,
        adaptive_ref_base_pic_marking_mode_flag: adaptive,
        base_marking: operations_of(p.base_markings, base),
        additional_prefix_nal_unit_extension_flag: more,
    }
}
