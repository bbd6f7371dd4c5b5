// The words of an entry: looking up and putting, on the table's arrays. The first word has the set's flags as binary digits behind a one, the entry's mark; the
// other fields follow in order, the signed ones with their least value taken off (init QP plus 62, init QS plus 26). Flags in one word make an entry short: a
// look-up is bound by its loads. A picture set's last word is its change cycle's width, which a put works out, so that no header has to.
ghost use Rattle.std.specs.Prelude.{◌≡◌, true, ◌≤◌, pos, neg_ℤ, nat_abs, ◌+ℤ◌, ◌-ℤ◌};
ghost use Rattle.table.specs.Sets.{between_z};
ghost use Rattle.bits.specs.Refusals.{pick};
ghost use Rattle.table.specs.Tables.{sequence_marks, picture_marks, cycle_width, sequence_in, picture_in, sequence_put, renewed_by, renewed, widths_after, picture_put};

use crate::sets::{Picture, Sequence, both, picture_fits, sequence_fits, within};
use bits::refusals::{Refusal, TABLE_FIELD, refuse};
use bits::width::change_cycle_width;

// A signed field from its word, and the word from the field: the word is the field plus `by`.
fn lowered(w: u32, by: u32) -> i32
    requires { (w ≤ 87) × (by ≤ 62) }
    ensures { result ≡ pos w -ℤ pos by }
{
    w as i32 - by as i32
}

fn raised(z: i32, by: u32) -> u32
    requires { (between_z (neg_ℤ (pos by)) (pos 25) z ≡ true) × (by ≤ 62) }
    ensures { result ≡ nat_abs (z +ℤ pos by) }
{
    (z + by as i32) as u32
}

// What a flag adds to a first word.
fn digit(b: bool, place: u32) -> u32
    ensures { (result ≡ pick b place 0) × (result ≤ place) }
{
    if b { place } else { 0 }
}

// The first word of a set: the mark and the flags.
fn sequence_marks(s: Sequence) -> u32
    ensures { result ≡ sequence_marks s }
{
    let separate = digit(s.separate_colour_plane_flag, 4);
    let always_zero = digit(s.delta_pic_order_always_zero_flag, 2);
    let frames_only = digit(s.frame_mbs_only_flag, 1);
    8 + (separate + (always_zero + frames_only))
}

fn picture_marks(p: Picture) -> u32
    ensures { result ≡ picture_marks p }
{
    let entropy = digit(p.entropy_coding_mode_flag, 16);
    let bottom = digit(p.bottom_field_pic_order_in_frame_present_flag, 8);
    let weighted = digit(p.weighted_pred_flag, 4);
    let control = digit(p.deblocking_filter_control_present_flag, 2);
    let redundant = digit(p.redundant_pic_cnt_present_flag, 1);
    32 + (entropy + (bottom + (weighted + (control + redundant))))
}

pub fn sequence_in(t: &[u32; 224], id: u32) -> Option<Sequence>
    ensures { result ≡ sequence_in t.now id }
{
    if 31 < id {
        return None;
    }
    let k = id * 7;
    let i = k as usize;
    let marks = t[i];
    let chroma_format_idc = t[i + 1];
    let bit_depth_luma_minus8 = t[i + 2];
    let log2_max_frame_num = t[i + 3];
    let pic_order_cnt_type = t[i + 4];
    let log2_max_pic_order_cnt_lsb_minus4 = t[i + 5];
    let pic_size_in_map_units = t[i + 6];
    let s = Sequence {
        chroma_format_idc,
        separate_colour_plane_flag: marks / 4 % 2 == 1,
        bit_depth_luma_minus8,
        log2_max_frame_num,
        pic_order_cnt_type,
        log2_max_pic_order_cnt_lsb_minus4,
        delta_pic_order_always_zero_flag: marks / 2 % 2 == 1,
        frame_mbs_only_flag: marks / 1 % 2 == 1,
        pic_size_in_map_units,
    };
    if both(within(8, 15, marks), sequence_fits(s)) {
        Some(s)
    } else {
        None
    }
}

pub fn picture_in(t: &[u32; 2304], id: u32) -> Option<(Picture, u32)>
    ensures { result ≡ picture_in t.now id }
{
    if 255 < id {
        return None;
    }
    let k = id * 9;
    let i = k as usize;
    let marks = t[i];
    let seq_parameter_set_id = t[i + 1];
    let num_ref_idx_l0_default_active_minus1 = t[i + 2];
    let num_ref_idx_l1_default_active_minus1 = t[i + 3];
    let weighted_bipred_idc = t[i + 4];
    let qp = t[i + 5];
    let qs = t[i + 6];
    let slice_group_change_rate = t[i + 7];
    let width = t[i + 8];
    if !both(
        within(32, 63, marks),
        both(qp <= 87, both(qs <= 51, width <= 25)),
    ) {
        return None;
    }
    let p = Picture {
        seq_parameter_set_id,
        entropy_coding_mode_flag: marks / 16 % 2 == 1,
        bottom_field_pic_order_in_frame_present_flag: marks / 8 % 2 == 1,
        num_ref_idx_l0_default_active_minus1,
        num_ref_idx_l1_default_active_minus1,
        weighted_pred_flag: marks / 4 % 2 == 1,
        weighted_bipred_idc,
        pic_init_qp_minus26: lowered(qp, 62),
        pic_init_qs_minus26: lowered(qs, 26),
        deblocking_filter_control_present_flag: marks / 2 % 2 == 1,
        redundant_pic_cnt_present_flag: marks / 1 % 2 == 1,
        slice_group_change_rate,
    };
    if picture_fits(p) {
        Some((p, width))
    } else {
        None
    }
}

// How wide slice_group_change_cycle is for a picture set with this change rate, by what is found under its sequence set's id.
fn cycle_width(found: Option<Sequence>, rate: u32) -> u32
    ensures { result ≡ cycle_width found rate }
{
    match found {
        Some(s) => change_cycle_width(s.pic_size_in_map_units, rate),
        None => 0,
    }
}

// The width of one entry, anew where it holds a set that names the sequence set.
fn renew_entry(t: &mut [u32; 2304], id: u32, size: u32, j: u32)
    ensures { t.new ≡ renewed_by id size t.old j (picture_in t.old j) }
{
    let found = picture_in(t, j);
    let Some((p, _)) = found else {
        return;
    };
    if p.seq_parameter_set_id != id {
        return;
    }
    let width = change_cycle_width(size, p.slice_group_change_rate);
    let k = j * 9 + 8;
    t[k as usize] = width;
}

// Of every entry, one after the other.
fn renew(t: &mut [u32; 2304], id: u32, size: u32)
    ensures { t.new ≡ renewed id size t.old 256 }
{
    for j in 0..256 {
        renew_entry(t, id, size, j);
    }
}

// Puts a set at an id: the named entry holds it, each other one is as before, and the picture sets that name the id have the widths that the new set gives them.
// An id or a field out of range is 24, and nothing changes.
pub fn put_sequence_in(
    t: &mut [u32; 224],
    pictures: &mut [u32; 2304],
    id: u32,
    s: Sequence,
) -> Result<(), Refusal>
    ensures { (result ≡ (sequence_put t.old id s).answer) × ((t.new ≡ (sequence_put t.old id s).left) × (pictures.new ≡ widths_after pictures.old id s)) }
{
    if 31 < id {
        return Err(refuse(TABLE_FIELD, 0));
    }
    if !sequence_fits(s) {
        return Err(refuse(TABLE_FIELD, 0));
    }
    let marks = sequence_marks(s);
    let k = id * 7; // seven words an entry
    let i = k as usize;
    t[i] = marks;
    t[i + 1] = s.chroma_format_idc;
    t[i + 2] = s.bit_depth_luma_minus8;
    t[i + 3] = s.log2_max_frame_num;
    t[i + 4] = s.pic_order_cnt_type;
    t[i + 5] = s.log2_max_pic_order_cnt_lsb_minus4;
    t[i + 6] = s.pic_size_in_map_units;
    renew(pictures, id, s.pic_size_in_map_units);
    Ok(())
}

// The same for a picture set, whose width goes by the sequence set that it names.
pub fn put_picture_in(
    sequences: &[u32; 224],
    t: &mut [u32; 2304],
    id: u32,
    p: Picture,
) -> Result<(), Refusal>
    ensures { (result ≡ (picture_put sequences.now t.old id p).answer) × (t.new ≡ (picture_put sequences.now t.old id p).left) }
{
    if 255 < id {
        return Err(refuse(TABLE_FIELD, 0));
    }
    if !picture_fits(p) {
        return Err(refuse(TABLE_FIELD, 0));
    }
    let marks = picture_marks(p);
    let found = sequence_in(sequences, p.seq_parameter_set_id);
    let width = cycle_width(found, p.slice_group_change_rate);
    let k = id * 9; // nine words an entry
    let i = k as usize;
    t[i] = marks;
    t[i + 1] = p.seq_parameter_set_id;
    t[i + 2] = p.num_ref_idx_l0_default_active_minus1;
    t[i + 3] = p.num_ref_idx_l1_default_active_minus1;
    t[i + 4] = p.weighted_bipred_idc;
    t[i + 5] = raised(p.pic_init_qp_minus26, 62);
    t[i + 6] = raised(p.pic_init_qs_minus26, 26);
    t[i + 7] = p.slice_group_change_rate;
    t[i + 8] = width;
    Ok(())
}
