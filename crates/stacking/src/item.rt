// A unit's item: what a stacker takes of it, from what reading it answered and the words of a slice's fields.
ghost use Rattle.std.specs.Prelude.{◌≡◌};
ghost use Rattle.header.specs.Lead.{table_in};
ghost use Rattle.syntax.specs.Context.{no_sequence, picture_in, sequence_in};
ghost use Rattle.table.specs.Tables as tables;
ghost use Rattle.unit.specs.Begin.{is_plain};
ghost use Rattle.unit.specs.Into.{long_answer};
ghost use Rattle.stacking.specs.Item.{is_redundant, slice_of, header_item, item_of, held_in};

use exposures::slice::{Item, Kind, Slice};
use fields::conditions::either;
use fields::quant::level;
use record::parts_of::{frame_of, order_count_of};
use syntax::marks::Marked;
use table::sets::Sequence;
use table::table::Sets;
use table::words::{picture_in, sequence_in};
use unit::into::ShortAnswer;

fn no_sequence() -> Sequence
    ensures { result ≡ no_sequence }
{
    Sequence {
        chroma_format_idc: 0,
        separate_colour_plane_flag: false,
        bit_depth_luma_minus8: 0,
        log2_max_frame_num: 0,
        pic_order_cnt_type: 0,
        log2_max_pic_order_cnt_lsb_minus4: 0,
        delta_pic_order_always_zero_flag: false,
        frame_mbs_only_flag: false,
        pic_size_in_map_units: 0,
    }
}

// What a slice needs of its picture set.
#[derive(Clone, Copy)]
struct PictureUse {
    seq_parameter_set_id: u32,
    pic_init_qp_minus26: i32,
}

// The picture set with an id; zeros where there is none.
fn named(pictures: &[u32; 2304], id: u32) -> PictureUse
    ensures { (result.seq_parameter_set_id ≡ (picture_in (tables.picture_in pictures.now id)).seq_parameter_set_id) × (result.pic_init_qp_minus26 ≡ (picture_in (tables.picture_in pictures.now id)).pic_init_qp_minus26) }
{
    match picture_in(pictures, id) {
        Some((p, _)) => PictureUse {
            seq_parameter_set_id: p.seq_parameter_set_id,
            pic_init_qp_minus26: p.pic_init_qp_minus26,
        },
        None => PictureUse {
            seq_parameter_set_id: 0,
            pic_init_qp_minus26: 0,
        },
    }
}

fn sequence_of(sequences: &[u32; 224], id: u32) -> Sequence
    ensures { result ≡ sequence_in (tables.sequence_in sequences.now id) }
{
    match sequence_in(sequences, id) {
        Some(s) => s,
        None => no_sequence(),
    }
}

fn slice_of<'a>(
    sets: Sets<'a>,
    place: usize,
    nal_unit_type: u8,
    nal_ref_idc: u8,
    numbers: &'a [u32; 57],
    signed: &'a [i32; 7],
) -> Slice
    ensures { result ≡ slice_of (table_in sets.entry) place nal_unit_type nal_ref_idc (held_in numbers.now signed.now) }
{
    // as the words have them: header::words
    let bottom = signed[0] as i64;
    let first = signed[1] as i64;
    let second = signed[2] as i64;
    let id = numbers[2];
    let lsb = numbers[14];
    let p = named(sets.pictures, id);
    let s = sequence_of(sets.sequences, p.seq_parameter_set_id);
    let f = frame_of(numbers);
    let qp = level(p.pic_init_qp_minus26, signed[3]);
    Slice {
        place,
        qp,
        nal_ref_idc: nal_ref_idc as u32,
        idr_pic_flag: nal_unit_type == 5,
        frame_num: f.frame_num,
        pic_parameter_set_id: id,
        field_pic_flag: f.field_pic_flag.value,
        bottom_field_flag: f.bottom_field_flag.value,
        pic_order_cnt_type: s.pic_order_cnt_type,
        pic_order_cnt_lsb: lsb,
        delta_pic_order_cnt_bottom: bottom,
        delta_pic_order_cnt_0: first,
        delta_pic_order_cnt_1: second,
        idr_pic_id: f.idr_pic_id.value,
        log2_max_frame_num: s.log2_max_frame_num,
    }
}

fn is_redundant(m: Marked<u32>) -> bool
    ensures { result ≡ is_redundant m }
{
    if m.there { m.value != 0 } else { false }
}

// Types 1 and 5.
fn is_plain(t: u8) -> bool
    ensures { result ≡ is_plain t }
{
    either(t == 1, t == 5)
}

// A unit that has a slice header.
fn header_item<'a>(
    sets: Sets<'a>,
    place: usize,
    nal_unit_type: u8,
    nal_ref_idc: u8,
    numbers: &'a [u32; 57],
    signed: &'a [i32; 7],
) -> Item
    ensures { result ≡ header_item (table_in sets.entry) place nal_unit_type nal_ref_idc (held_in numbers.now signed.now) }
{
    if !is_plain(nal_unit_type) {
        return Item::Unit(Kind::View);
    }
    let o = order_count_of(numbers, signed);
    if is_redundant(o.redundant_pic_cnt) {
        return Item::Unit(Kind::Redundant);
    }
    Item::Slice(slice_of(sets, place, nal_unit_type, nal_ref_idc, numbers, signed))
}

// A unit, by the table in force, where it begins, its head's type and nal_ref_idc, and what reading its body answered: of a slice the words hold the header. Other
// answers look at no word.
pub fn item_of<'a>(
    sets: Sets<'a>,
    place: usize,
    nal_unit_type: u8,
    nal_ref_idc: u8,
    answer: ShortAnswer,
    numbers: &'a [u32; 57],
    signed: &'a [i32; 7],
) -> Item
    ensures { result ≡ item_of (table_in sets.entry) place nal_unit_type nal_ref_idc (long_answer answer) (held_in numbers.now signed.now) }
{
    match answer {
        ShortAnswer::Slice(_) => header_item(
            sets,
            place,
            nal_unit_type,
            nal_ref_idc,
            numbers,
            signed,
        ),
        ShortAnswer::Prefix(_) => Item::Unit(Kind::Prefix),
        ShortAnswer::Sequence(_) => Item::Unit(Kind::Other),
        ShortAnswer::Picture(_) => Item::Unit(Kind::Other),
        ShortAnswer::Other(_) => Item::Unit(Kind::Other),
        ShortAnswer::Refused(_) => Item::Unit(Kind::Refused),
    }
}
