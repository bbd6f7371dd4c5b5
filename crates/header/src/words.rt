// A header's fields laid down as words, each part behind its reading: a field that is laid down at once need not be kept while the rest is read.
ghost use Rattle.std.specs.Prelude.{◌≡◌, ◌∷◌, [], length};
ghost use Rattle.std.proofs.lemmas.List.Edits.{sets};
ghost use Rattle.header.specs.Short.{frame_numbers, order_numbers, order_signed, count_numbers, list_numbers, weight_numbers, mark_numbers, quantiser_numbers, quantiser_signed, filter_numbers, filter_signed};

use crate::slice::{Lists, Marks};
use syntax::record::{ActiveCounts, Filter, Frame, OrderCount, Quantiser};
use weights::weight_words::WeightsShort;

// Where the counts of lists and weights stand among the numbers.
pub(crate) const MODIFICATIONS_L0: usize = 29;

pub(crate) const MODIFICATIONS_L1: usize = 32;

pub(crate) const WEIGHTS_L0: usize = 37;

pub(crate) const WEIGHTS_L1: usize = 38;

pub(crate) const MARKINGS: usize = 45;

fn lend(s: &[u32]) {}

fn lend_signed(s: &[i32]) {}

// These say how long the arrays are, and do nothing: the length of an array behind a reference is told where it is lent as a slice.
pub(crate) fn long_numbers(numbers: &[u32; 57])
    ensures { length numbers.now ≡ 57 }
{
    lend(numbers);
}

pub(crate) fn long_signed(signed: &[i32; 7])
    ensures { length signed.now ≡ 7 }
{
    lend_signed(signed);
}

pub(crate) fn lay_lead(
    first_mb_in_slice: u32,
    slice_type: u32,
    pic_parameter_set_id: u32,
    seq_parameter_set_id: u32,
    numbers: &mut [u32; 57],
)
    ensures { numbers.new ≡ sets numbers.old 0 (first_mb_in_slice ∷ slice_type ∷ pic_parameter_set_id ∷ seq_parameter_set_id ∷ []) }
{
    numbers[0] = first_mb_in_slice;
    numbers[1] = slice_type;
    numbers[2] = pic_parameter_set_id;
    numbers[3] = seq_parameter_set_id;
}

// A field that may be absent is its mark and its value; the value of a signed one stands in `signed`.
pub(crate) fn lay_frame(f: Frame, numbers: &mut [u32; 57])
    ensures { numbers.new ≡ sets numbers.old 4 (frame_numbers f) }
{
    numbers[4] = f.colour_plane_id.there as u32;
    numbers[5] = f.colour_plane_id.value;
    numbers[6] = f.frame_num;
    numbers[7] = f.field_pic_flag.there as u32;
    numbers[8] = f.field_pic_flag.value as u32;
    numbers[9] = f.bottom_field_flag.there as u32;
    numbers[10] = f.bottom_field_flag.value as u32;
    numbers[11] = f.idr_pic_id.there as u32;
    numbers[12] = f.idr_pic_id.value;
}

pub(crate) fn lay_order(o: OrderCount, numbers: &mut [u32; 57], signed: &mut [i32; 7])
    ensures numbers_after { numbers.new ≡ sets numbers.old 13 (order_numbers o) }
    ensures signed_after { signed.new ≡ sets signed.old 0 (order_signed o) }
{
    numbers[13] = o.pic_order_cnt_lsb.there as u32;
    numbers[14] = o.pic_order_cnt_lsb.value;
    numbers[15] = o.delta_pic_order_cnt_bottom.there as u32;
    numbers[16] = o.delta_pic_order_cnt.there as u32;
    numbers[17] = o.redundant_pic_cnt.there as u32;
    numbers[18] = o.redundant_pic_cnt.value;
    let bottom = o.delta_pic_order_cnt_bottom.value;
    signed[0] = bottom;
    let first = o.delta_pic_order_cnt.first;
    signed[1] = first;
    let second = o.delta_pic_order_cnt.second;
    signed[2] = second;
}

pub(crate) fn lay_counts(a: ActiveCounts, numbers: &mut [u32; 57])
    ensures { numbers.new ≡ sets numbers.old 19 (count_numbers a) }
{
    numbers[19] = a.direct_spatial_mv_pred_flag.there as u32;
    numbers[20] = a.direct_spatial_mv_pred_flag.value as u32;
    numbers[21] = a.num_ref_idx_active_override_flag.there as u32;
    numbers[22] = a.num_ref_idx_active_override_flag.value as u32;
    numbers[23] = a.num_ref_idx_l0_active_minus1.there as u32;
    numbers[24] = a.num_ref_idx_l0_active_minus1.value;
    numbers[25] = a.num_ref_idx_l1_active_minus1.there as u32;
    numbers[26] = a.num_ref_idx_l1_active_minus1.value;
}

pub(crate) fn lay_lists(l: Lists, numbers: &mut [u32; 57])
    ensures { numbers.new ≡ sets numbers.old 27 (list_numbers l) }
{
    numbers[27] = l.flag0.there as u32;
    numbers[28] = l.flag0.value as u32;
    numbers[MODIFICATIONS_L0] = l.count0;
    numbers[30] = l.flag1.there as u32;
    numbers[31] = l.flag1.value as u32;
    numbers[MODIFICATIONS_L1] = l.count1;
}

pub(crate) fn lay_weights(w: WeightsShort, numbers: &mut [u32; 57])
    ensures { numbers.new ≡ sets numbers.old 33 (weight_numbers w) }
{
    numbers[33] = w.there as u32;
    numbers[34] = w.luma_log2_weight_denom;
    numbers[35] = w.chroma_log2_weight_denom.there as u32;
    numbers[36] = w.chroma_log2_weight_denom.value;
    numbers[WEIGHTS_L0] = w.l0;
    numbers[WEIGHTS_L1] = w.l1;
}

pub(crate) fn lay_marks(m: Marks, numbers: &mut [u32; 57])
    ensures { numbers.new ≡ sets numbers.old 39 (mark_numbers m) }
{
    numbers[39] = m.flags.no_output_of_prior_pics_flag.there as u32;
    numbers[40] = m.flags.no_output_of_prior_pics_flag.value as u32;
    numbers[41] = m.flags.long_term_reference_flag.there as u32;
    numbers[42] = m.flags.long_term_reference_flag.value as u32;
    numbers[43] = m.flags.adaptive_ref_pic_marking_mode_flag.there as u32;
    numbers[44] = m.flags.adaptive_ref_pic_marking_mode_flag.value as u32;
    numbers[MARKINGS] = m.count;
}

pub(crate) fn lay_quantiser(q: Quantiser, numbers: &mut [u32; 57], signed: &mut [i32; 7])
    ensures numbers_after { numbers.new ≡ sets numbers.old 46 (quantiser_numbers q) }
    ensures signed_after { signed.new ≡ sets signed.old 3 (quantiser_signed q) }
{
    numbers[46] = q.cabac_init_idc.there as u32;
    numbers[47] = q.cabac_init_idc.value;
    numbers[48] = q.sp_for_switch_flag.there as u32;
    numbers[49] = q.sp_for_switch_flag.value as u32;
    numbers[50] = q.slice_qs_delta.there as u32;
    let qp = q.slice_qp_delta;
    signed[3] = qp;
    let qs = q.slice_qs_delta.value;
    signed[4] = qs;
}

pub(crate) fn lay_filter(f: Filter, numbers: &mut [u32; 57], signed: &mut [i32; 7])
    ensures numbers_after { numbers.new ≡ sets numbers.old 51 (filter_numbers f) }
    ensures signed_after { signed.new ≡ sets signed.old 5 (filter_signed f) }
{
    numbers[51] = f.disable_deblocking_filter_idc.there as u32;
    numbers[52] = f.disable_deblocking_filter_idc.value;
    numbers[53] = f.slice_alpha_c0_offset_div2.there as u32;
    numbers[54] = f.slice_beta_offset_div2.there as u32;
    numbers[55] = f.slice_group_change_cycle.there as u32;
    numbers[56] = f.slice_group_change_cycle.value;
    let alpha = f.slice_alpha_c0_offset_div2.value;
    signed[5] = alpha;
    let beta = f.slice_beta_offset_div2.value;
    signed[6] = beta;
}
