// The parameter table: looking up and putting. A table whose words are all zero is empty.
ghost use Rattle.std.specs.Prelude.{◌≡◌};
ghost use Rattle.table.specs.Tables.{sequence_in, sequence_at, picture_in, picture_at, sequence_put, widths_after, picture_put, put_sequence, put_picture};
ghost use Rattle.syntax.specs.Context.{no_sequence, no_picture};
ghost use Rattle.exports.specs.Sets.{sequence_out, picture_out, changed_out};

use bits::refusals::Refusal;
use table::sets::{Picture, Sequence};
use table::table::Table;
use table::words::{picture_in, put_picture_in, put_sequence_in, sequence_in};

// A sequence set, or none: then `there` is false and every field zero.
#[repr(C)]
#[derive(Clone, Copy)]
pub struct SequenceOut {
    pub there: bool,
    pub sequence: Sequence,
}

// A picture set, or none: then `there` is false and every field zero.
#[repr(C)]
#[derive(Clone, Copy)]
pub struct PictureOut {
    pub there: bool,
    pub picture: Picture,
}

// What a change of the table answers: the rules' refusal number and its value, or 0 and 0 where it was done.
#[repr(C)]
#[derive(Clone, Copy)]
pub struct ChangedOut {
    pub number: u32,
    pub value: i64,
}

fn sequence_out(t: &[u32; 224], id: u32) -> SequenceOut
    ensures { result ≡ sequence_out (sequence_in t.now id) }
{
    match sequence_in(t, id) {
        Some(sequence) => SequenceOut {
            there: true,
            sequence,
        },
        None => SequenceOut {
            there: false,
            sequence: no_sequence(),
        },
    }
}

pub(crate) fn no_sequence() -> Sequence
    ensures { result ≡ no_sequence }
{
    Sequence {
        chroma_format_idc: 0,
        separate_colour_plane_flag: false,
        bit_depth_luma_minus8: 0,
        log2_max_frame_num: 0,
        pic_order_cnt_type: 0,
        log2_max_pic_order_cnt_lsb_minus4: 0,
        delta_pic_order_always_zero_flag: false,
        frame_mbs_only_flag: false,
        pic_size_in_map_units: 0,
    }
}

fn picture_out(t: &[u32; 2304], id: u32) -> PictureOut
    ensures { result ≡ picture_out (picture_in t.now id) }
{
    match picture_in(t, id) {
        Some((picture, _)) => PictureOut {
            there: true,
            picture,
        },
        None => PictureOut {
            there: false,
            picture: no_picture(),
        },
    }
}

pub(crate) fn no_picture() -> Picture
    ensures { result ≡ no_picture }
{
    Picture {
        seq_parameter_set_id: 0,
        entropy_coding_mode_flag: false,
        bottom_field_pic_order_in_frame_present_flag: false,
        num_ref_idx_l0_default_active_minus1: 0,
        num_ref_idx_l1_default_active_minus1: 0,
        weighted_pred_flag: false,
        weighted_bipred_idc: 0,
        pic_init_qp_minus26: 0,
        pic_init_qs_minus26: 0,
        deblocking_filter_control_present_flag: false,
        redundant_pic_cnt_present_flag: false,
        slice_group_change_rate: 0,
    }
}

fn changed_out(c: Result<(), Refusal>) -> ChangedOut
    ensures { result ≡ changed_out c }
{
    match c {
        Err(why) => ChangedOut {
            number: why.number as u32,
            value: why.value,
        },
        Ok(()) => ChangedOut {
            number: 0,
            value: 0,
        },
    }
}

fn put_sequence_out(
    t: &mut [u32; 224],
    pictures: &mut [u32; 2304],
    id: u32,
    s: Sequence,
) -> ChangedOut
    ensures { (result ≡ changed_out (sequence_put t.old id s).answer) × ((t.new ≡ (sequence_put t.old id s).left) × (pictures.new ≡ widths_after pictures.old id s)) }
{
    changed_out(put_sequence_in(t, pictures, id, s))
}

fn put_picture_out(sequences: &[u32; 224], t: &mut [u32; 2304], id: u32, p: Picture) -> ChangedOut
    ensures { (result ≡ changed_out (picture_put sequences.now t.old id p).answer) × (t.new ≡ (picture_put sequences.now t.old id p).left) }
{
    changed_out(put_picture_in(sequences, t, id, p))
}

// The sequence set with an id, out of a lent table.
#[unsafe(no_mangle)]
pub extern "C" fn tuz_sequence_at(t: &Table, id: u32) -> SequenceOut
    ensures { result ≡ sequence_out (sequence_at t.now id) }
{
    sequence_out(&t.sequences, id)
}

// The picture set with an id, out of a lent table.
#[unsafe(no_mangle)]
pub extern "C" fn tuz_picture_at(t: &Table, id: u32) -> PictureOut
    ensures { result ≡ picture_out (picture_at t.now id) }
{
    picture_out(&t.pictures, id)
}

// Puts a sequence set at an id of a lent table, and sets the widths of the picture sets that name it anew.
#[unsafe(no_mangle)]
pub extern "C" fn tuz_put_sequence(t: &mut Table, id: u32, s: Sequence) -> ChangedOut
    ensures { (result ≡ changed_out (put_sequence t.old id s).answer) × (t.new ≡ (put_sequence t.old id s).table) }
{
    put_sequence_out(&mut t.sequences, &mut t.pictures, id, s)
}

// Puts a picture set at an id of a lent table.
#[unsafe(no_mangle)]
pub extern "C" fn tuz_put_picture(t: &mut Table, id: u32, p: Picture) -> ChangedOut
    ensures { (result ≡ changed_out (put_picture t.old id p).answer) × (t.new ≡ (put_picture t.old id p).table) }
{
    put_picture_out(&t.sequences, &mut t.pictures, id, p)
}
