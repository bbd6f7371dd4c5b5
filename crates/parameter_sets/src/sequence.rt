// seq_parameter_set_data( ), to frame_mbs_only_flag.
#![tactic(auto, unfolding(crate::specs::SequenceSet::sequence_lead, crate::specs::SequenceSet::chroma, crate::specs::SequenceSet::cycle, crate::specs::SequenceSet::order, crate::specs::SequenceSet::size, crate::specs::SequenceSet::sequence_set, fmt::specs::Reads::next, fmt::specs::Reads::found, fmt::specs::Reads::read_if, fmt::specs::Leaves::flag, fmt::specs::Leaves::ue, fmt::specs::Leaves::se, fmt::specs::Leaves::u, fmt::specs::Fmt::test))]

ghost use Rattle.std.specs.Prelude.{false, ◌≡◌, ◌≤◌, leb, pos};
ghost use Rattle.bits.specs.Answers.{as_read};
ghost use Rattle.bits.specs.Bits.{bits_of};
ghost use Rattle.fmt.specs.Fmt.{test};
ghost use Rattle.fmt.specs.Leaves.{ue};
ghost use Rattle.fmt.specs.Reads.{read_if};
ghost use Rattle.parameter_sets.specs.SequenceSet.{set_field, sequence_lead, high_profiles, is_one_of, chroma, plain_chroma, cycle, order, map_units, size, sequence_set};

use crate::codes::{flag_given, pass_codes, up_to, up_to_if};
use crate::scaling::scaling_matrix;
use bits::read::{Cursor, Read};
use bits::refusals::{SET_FIELD, refuse_at};
use fields::conditions::either;
use table::sets::Sequence;

// A set and its id.
#[derive(Clone, Copy)]
pub struct SequenceSet {
    pub seq_parameter_set_id: u32,
    pub sequence: Sequence,
}

// What is read of the parts.
#[derive(Clone, Copy)]
pub struct SequenceLead {
    pub profile_idc: u32,
    pub seq_parameter_set_id: u32,
}

#[derive(Clone, Copy)]
pub struct Chroma {
    pub chroma_format_idc: u32,
    pub separate_colour_plane_flag: bool,
    pub bit_depth_luma_minus8: u32,
}

#[derive(Clone, Copy)]
pub struct Order {
    pub log2_max_frame_num: u32,
    pub pic_order_cnt_type: u32,
    pub log2_max_pic_order_cnt_lsb_minus4: u32,
    pub delta_pic_order_always_zero_flag: bool,
}

#[derive(Clone, Copy)]
pub struct Size {
    pub pic_size_in_map_units: u32,
    pub frame_mbs_only_flag: bool,
}

// ---- profile_idc to seq_parameter_set_id

fn read_lead(s: &[u8], c: Cursor) -> Read<SequenceLead>
    ensures { as_read result ≡ sequence_lead (bits_of s.now) c.at }
{
    let (profile_idc, c1) = c.bits(s, 8)?;
    let (_, c2) = c1.bits(s, 8)?;
    let (_, c3) = c2.bits(s, 8)?;
    let (seq_parameter_set_id, c4) = up_to(s, c3, 31)?;
    Ok((
        SequenceLead {
            profile_idc,
            seq_parameter_set_id,
        },
        c4,
    ))
}

// ---- chroma_format_idc to the scaling lists

// The profiles whose sets have them: those for more chroma or depth, the scalable ones, and those with views.
fn is_high(p: u32) -> bool
    ensures { result ≡ is_one_of high_profiles p }
{
    let depths = either(
        p == 138,
        either(p == 139, either(p == 134, either(p == 135, false))),
    );
    let views = either(p == 118, either(p == 128, depths));
    let scalable = either(p == 83, either(p == 86, views));
    let full_chroma = either(p == 244, either(p == 44, scalable));
    either(p == 100, either(p == 110, either(p == 122, full_chroma)))
}

fn read_chroma(s: &[u8], c: Cursor) -> Read<Chroma>
    ensures { as_read result ≡ chroma (bits_of s.now) c.at }
{
    let (chroma_format_idc, c1) = up_to(s, c, 3)?;
    let (separate_colour_plane_flag, c2) = flag_given(s, c1, chroma_format_idc == 3)?;
    let (bit_depth_luma_minus8, c3) = up_to(s, c2, 6)?;
    let (_, c4) = c3.ue(s)?;
    let (_, c5) = c4.flag(s)?;
    let c6 = scaling_matrix(s, c5, chroma_format_idc)?;
    Ok((
        Chroma {
            chroma_format_idc,
            separate_colour_plane_flag,
            bit_depth_luma_minus8,
        },
        c6,
    ))
}

// The same, or what stands for it in sets of the other profiles.
fn chroma_if(s: &[u8], c: Cursor, there: bool) -> Read<Chroma>
    ensures { as_read result ≡ read_if there plain_chroma chroma (bits_of s.now) c.at }
{
    if there {
        read_chroma(s, c)
    } else {
        Ok((
            Chroma {
                chroma_format_idc: 1,
                separate_colour_plane_flag: false,
                bit_depth_luma_minus8: 0,
            },
            c,
        ))
    }
}

// ---- log2_max_frame_num_minus4 to the type 1 cycle

fn cycle(s: &[u8], c: Cursor) -> Read<bool>
    ensures { as_read result ≡ cycle (bits_of s.now) c.at }
{
    let (delta_pic_order_always_zero_flag, c1) = c.flag(s)?;
    let (_, c2) = c1.se(s)?;
    let (_, c3) = c2.se(s)?;
    let (frames, c4) = up_to(s, c3, 255)?;
    let c5 = pass_codes(s, c4, frames)?;
    Ok((delta_pic_order_always_zero_flag, c5))
}

fn cycle_if(s: &[u8], c: Cursor, there: bool) -> Read<bool>
    ensures { as_read result ≡ read_if there false cycle (bits_of s.now) c.at }
{
    if there { cycle(s, c) } else { Ok((false, c)) }
}

fn read_order(s: &[u8], c: Cursor) -> Read<Order>
    ensures { as_read result ≡ order (bits_of s.now) c.at }
{
    let (log2_max_frame_num_minus4, c1) = up_to(s, c, 12)?;
    let (pic_order_cnt_type, c2) = up_to(s, c1, 2)?;
    let (log2_max_pic_order_cnt_lsb_minus4, c3) = up_to_if(s, c2, pic_order_cnt_type == 0, 12)?;
    let (delta_pic_order_always_zero_flag, c4) = cycle_if(s, c3, pic_order_cnt_type == 1)?;
    Ok((
        Order {
            log2_max_frame_num: log2_max_frame_num_minus4 + 4,
            pic_order_cnt_type,
            log2_max_pic_order_cnt_lsb_minus4,
            delta_pic_order_always_zero_flag,
        },
        c4,
    ))
}

// ---- max_num_ref_frames to frame_mbs_only_flag

// Whether PicSizeInMapUnits is one that the rules have: the product of such a width with any height does not wrap.
fn size_fits(w: u32, h: u32) -> bool
    ensures { result ≡ leb (map_units w h) 16777216 }
{
    if w < 16_777_216 {
        (w as u64 + 1) * (h as u64 + 1) <= 16_777_216
    } else {
        false
    }
}

fn map_units(w: u32, h: u32) -> u32
    requires { map_units w h ≤ 16777216 }
    ensures { result ≡ map_units w h }
{
    (w + 1) * (h + 1)
}

// pic_height_in_map_units_minus1, beside the width.
fn height(s: &[u8], c: Cursor, w: u32) -> Read<u32>
    ensures { as_read result ≡ (test (λ h. leb (map_units w h) 16777216) set_field (λ h. pos 0) ue).read (bits_of s.now) c.at }
{
    let (h, next) = c.ue(s)?;
    if size_fits(w, h) {
        Ok((h, next))
    } else {
        Err(refuse_at(SET_FIELD, 0, c.at))
    }
}

fn read_size(s: &[u8], c: Cursor) -> Read<Size>
    ensures { as_read result ≡ size (bits_of s.now) c.at }
{
    let (_, c1) = c.ue(s)?;
    let (_, c2) = c1.flag(s)?;
    let (width, c3) = c2.ue(s)?;
    let (height, c4) = height(s, c3, width)?;
    let (frame_mbs_only_flag, c5) = c4.flag(s)?;
    Ok((
        Size {
            pic_size_in_map_units: map_units(width, height),
            frame_mbs_only_flag,
        },
        c5,
    ))
}

// ---- the set

pub fn sequence_set(s: &[u8], c: Cursor) -> Read<SequenceSet>
    ensures { as_read result ≡ sequence_set (bits_of s.now) c.at }
{
    let (lead, c1) = read_lead(s, c)?;
    let (chroma, c2) = chroma_if(s, c1, is_high(lead.profile_idc))?;
    let (order, c3) = read_order(s, c2)?;
    let (size, c4) = read_size(s, c3)?;
    Ok((
        SequenceSet {
            seq_parameter_set_id: lead.seq_parameter_set_id,
            sequence: Sequence {
                chroma_format_idc: chroma.chroma_format_idc,
                separate_colour_plane_flag: chroma.separate_colour_plane_flag,
                bit_depth_luma_minus8: chroma.bit_depth_luma_minus8,
                log2_max_frame_num: order.log2_max_frame_num,
                pic_order_cnt_type: order.pic_order_cnt_type,
                log2_max_pic_order_cnt_lsb_minus4: order.log2_max_pic_order_cnt_lsb_minus4,
                delta_pic_order_always_zero_flag: order.delta_pic_order_always_zero_flag,
                frame_mbs_only_flag: size.frame_mbs_only_flag,
                pic_size_in_map_units: size.pic_size_in_map_units,
            },
        },
        c4,
    ))
}
