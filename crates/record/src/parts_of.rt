// The parts of a header that have no lists, out of its words.
#![tactic(auto, unfolding(crate::specs::Fields::frame_from, crate::specs::Fields::order_count_from, crate::specs::Fields::active_counts_from, crate::specs::Fields::quantiser_from, crate::specs::Fields::filter_from))]

ghost use Rattle.std.specs.Prelude.{◌≡◌, ◌<◌};
ghost use Rattle.record.specs.Fields.{marked_number, marked_flag, marked_signed, frame_from, order_count_from, active_counts_from, quantiser_from, filter_from};

use syntax::marks::Marked;
use syntax::record::{ActiveCounts, Deltas, Filter, Frame, OrderCount, Quantiser};

pub(crate) fn marked_number(numbers: &[u32; 57], k: usize) -> Marked<u32>
    requires { k < 56 }
    ensures { result ≡ marked_number numbers.now k }
{
    Marked {
        there: numbers[k] != 0,
        value: numbers[k + 1],
    }
}

pub(crate) fn marked_flag(numbers: &[u32; 57], k: usize) -> Marked<bool>
    requires { k < 56 }
    ensures { result ≡ marked_flag numbers.now k }
{
    Marked {
        there: numbers[k] != 0,
        value: numbers[k + 1] != 0,
    }
}

// A signed one's mark stands among the numbers, at k, and its value among the signed ones, at j.
fn marked_signed(numbers: &[u32; 57], signed: &[i32; 7], k: usize, j: usize) -> Marked<i32>
    requires { (k < 57) × (j < 7) }
    ensures { result ≡ marked_signed numbers.now signed.now k j }
{
    Marked {
        there: numbers[k] != 0,
        value: signed[j],
    }
}

pub fn frame_of(numbers: &[u32; 57]) -> Frame
    ensures { result ≡ frame_from numbers.now }
{
    Frame {
        colour_plane_id: marked_number(numbers, 4),
        frame_num: numbers[6],
        field_pic_flag: marked_flag(numbers, 7),
        bottom_field_flag: marked_flag(numbers, 9),
        idr_pic_id: marked_number(numbers, 11),
    }
}

pub fn order_count_of(numbers: &[u32; 57], signed: &[i32; 7]) -> OrderCount
    ensures { result ≡ order_count_from numbers.now signed.now }
{
    OrderCount {
        pic_order_cnt_lsb: marked_number(numbers, 13),
        delta_pic_order_cnt_bottom: marked_signed(numbers, signed, 15, 0),
        delta_pic_order_cnt: Deltas {
            there: numbers[16] != 0,
            first: signed[1],
            second: signed[2],
        },
        redundant_pic_cnt: marked_number(numbers, 17),
    }
}

pub fn active_counts_of(numbers: &[u32; 57]) -> ActiveCounts
    ensures { result ≡ active_counts_from numbers.now }
{
    ActiveCounts {
        direct_spatial_mv_pred_flag: marked_flag(numbers, 19),
        num_ref_idx_active_override_flag: marked_flag(numbers, 21),
        num_ref_idx_l0_active_minus1: marked_number(numbers, 23),
        num_ref_idx_l1_active_minus1: marked_number(numbers, 25),
    }
}

pub fn quantiser_of(numbers: &[u32; 57], signed: &[i32; 7]) -> Quantiser
    ensures { result ≡ quantiser_from numbers.now signed.now }
{
    Quantiser {
        cabac_init_idc: marked_number(numbers, 46),
        slice_qp_delta: signed[3],
        sp_for_switch_flag: marked_flag(numbers, 48),
        slice_qs_delta: marked_signed(numbers, signed, 50, 4),
    }
}

pub fn filter_of(numbers: &[u32; 57], signed: &[i32; 7]) -> Filter
    ensures { result ≡ filter_from numbers.now signed.now }
{
    Filter {
        disable_deblocking_filter_idc: marked_number(numbers, 51),
        slice_alpha_c0_offset_div2: marked_signed(numbers, signed, 53, 5),
        slice_beta_offset_div2: marked_signed(numbers, signed, 54, 6),
        slice_group_change_cycle: marked_number(numbers, 55),
    }
}
