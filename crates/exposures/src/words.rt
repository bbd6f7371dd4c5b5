// The state in words that the caller lends: sizes, numbers and levels. A flag is set where its word is not 0, and is written as 0 or 1.
ghost use Rattle.std.specs.Prelude.{◌≡◌};
ghost use Rattle.exposures.specs.Words.{words, lent, exposure_in, last_in, words_of};

use crate::counts::Counts;
use crate::exposure::Exposure;
use crate::slice::Slice;

// The exposure so far.
pub(crate) fn exposure_in<'a>(
    sizes: &'a [usize; 11],
    numbers: &'a [u32; 13],
    levels: &'a [i64; 7],
) -> Exposure
    ensures { result ≡ exposure_in (words sizes.now numbers.now levels.now) }
{
    Exposure {
        place: sizes[0],
        slices: sizes[1],
        qp_least: levels[0],
        qp_greatest: levels[1],
        qp_sum: levels[2],
        frame_num: numbers[1],
        gap: numbers[2] != 0,
        refused_before: sizes[2],
    }
}

// The last slice.
pub(crate) fn last_in<'a>(
    sizes: &'a [usize; 11],
    numbers: &'a [u32; 13],
    levels: &'a [i64; 7],
) -> Slice
    ensures { result ≡ last_in (words sizes.now numbers.now levels.now) }
{
    Slice {
        place: sizes[3],
        qp: levels[3],
        nal_ref_idc: numbers[3],
        idr_pic_flag: numbers[4] != 0,
        frame_num: numbers[5],
        pic_parameter_set_id: numbers[6],
        field_pic_flag: numbers[7] != 0,
        bottom_field_flag: numbers[8] != 0,
        pic_order_cnt_type: numbers[9],
        pic_order_cnt_lsb: numbers[10],
        delta_pic_order_cnt_bottom: levels[4],
        delta_pic_order_cnt_0: levels[5],
        delta_pic_order_cnt_1: levels[6],
        idr_pic_id: numbers[11],
        log2_max_frame_num: numbers[12],
    }
}

// A state is laid down. Words that stay as they were cost nothing.
pub(crate) fn lay(
    begun: bool,
    e: Exposure,
    last: Slice,
    refused_since: usize,
    c: Counts,
    sizes: &mut [usize; 11],
    numbers: &mut [u32; 13],
    levels: &mut [i64; 7],
)
    ensures { (lent sizes numbers levels).exit ≡ words_of (record { begun = begun; exposure = e; last = last; refused_since = refused_since; counts = c }) }
{
    *sizes = [
        e.place,
        e.slices,
        e.refused_before,
        last.place,
        refused_since,
        c.slices,
        c.redundant,
        c.refused,
        c.prefixes,
        c.views,
        c.others,
    ];
    *numbers = [
        begun as u32,
        e.frame_num,
        e.gap as u32,
        last.nal_ref_idc,
        last.idr_pic_flag as u32,
        last.frame_num,
        last.pic_parameter_set_id,
        last.field_pic_flag as u32,
        last.bottom_field_flag as u32,
        last.pic_order_cnt_type,
        last.pic_order_cnt_lsb,
        last.idr_pic_id,
        last.log2_max_frame_num,
    ];
    *levels = [
        e.qp_least,
        e.qp_greatest,
        e.qp_sum,
        last.qp,
        last.delta_pic_order_cnt_bottom,
        last.delta_pic_order_cnt_0,
        last.delta_pic_order_cnt_1,
    ];
}
