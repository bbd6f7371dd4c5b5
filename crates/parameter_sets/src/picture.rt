// pic_parameter_set_rbsp( ), to redundant_pic_cnt_present_flag.
#![tactic(auto, unfolding(crate::specs::PictureSet::picture_lead, crate::specs::PictureSet::references, crate::specs::PictureSet::levels, crate::specs::PictureParts::picture_start, crate::specs::PictureParts::picture_rest, fmt::specs::Reads::next, fmt::specs::Reads::found, fmt::specs::Leaves::flag, fmt::specs::Leaves::se, fmt::specs::Leaves::u, fmt::specs::Fmt::test))]

ghost use Rattle.std.specs.Prelude.{◌≡◌, leb, pos};
ghost use Rattle.bits.specs.Answers.{as_read};
ghost use Rattle.bits.specs.Bits.{bits_of};
ghost use Rattle.fmt.specs.Fmt.{test};
ghost use Rattle.fmt.specs.Leaves.{u};
ghost use Rattle.parameter_sets.specs.SequenceSet.{set_field};
ghost use Rattle.parameter_sets.specs.PictureSet.{picture_lead, references, levels, picture_set};
ghost use Rattle.parameter_sets.specs.PictureParts.{picture_start, picture_rest};

use crate::codes::{up_to, within};
use crate::groups::{Groups, groups_start, pass_ids};
use bits::read::{Cursor, Read};
use bits::refusals::{SET_FIELD, refuse_at};
use table::sets::Picture;

// A set and its id.
#[derive(Clone, Copy)]
pub struct PictureSet {
    pub pic_parameter_set_id: u32,
    pub picture: Picture,
}

// What is read of the parts.
#[derive(Clone, Copy)]
pub struct PictureLead {
    pub pic_parameter_set_id: u32,
    pub seq_parameter_set_id: u32,
    pub entropy_coding_mode_flag: bool,
    pub bottom_field_pic_order_in_frame_present_flag: bool,
}

#[derive(Clone, Copy)]
pub struct References {
    pub num_ref_idx_l0_default_active_minus1: u32,
    pub num_ref_idx_l1_default_active_minus1: u32,
    pub weighted_pred_flag: bool,
    pub weighted_bipred_idc: u32,
}

#[derive(Clone, Copy)]
pub struct Levels {
    pub pic_init_qp_minus26: i32,
    pub pic_init_qs_minus26: i32,
    pub deblocking_filter_control_present_flag: bool,
    pub redundant_pic_cnt_present_flag: bool,
}

// What stands before slice_group_id.
#[derive(Clone, Copy)]
pub struct PictureStart {
    pub lead: PictureLead,
    pub groups: Groups,
}

// pic_parameter_set_id to bottom_field_pic_order_in_frame_present_flag
fn picture_lead(s: &[u8], c: Cursor) -> Read<PictureLead>
    ensures { as_read result ≡ picture_lead (bits_of s.now) c.at }
{
    let (pic_parameter_set_id, c1) = up_to(s, c, 255)?;
    let (seq_parameter_set_id, c2) = up_to(s, c1, 31)?;
    let (entropy_coding_mode_flag, c3) = c2.flag(s)?;
    let (bottom_field_pic_order_in_frame_present_flag, c4) = c3.flag(s)?;
    Ok((
        PictureLead {
            pic_parameter_set_id,
            seq_parameter_set_id,
            entropy_coding_mode_flag,
            bottom_field_pic_order_in_frame_present_flag,
        },
        c4,
    ))
}

// weighted_bipred_idc
fn bipred(s: &[u8], c: Cursor) -> Read<u32>
    ensures { as_read result ≡ (test (λ v. leb v 2) set_field (λ v. pos 0) (u 2)).read (bits_of s.now) c.at }
{
    let (v, next) = c.bits(s, 2)?;
    if v <= 2 {
        Ok((v, next))
    } else {
        Err(refuse_at(SET_FIELD, 0, c.at))
    }
}

// num_ref_idx_l0_default_active_minus1 to weighted_bipred_idc
fn picture_references(s: &[u8], c: Cursor) -> Read<References>
    ensures { as_read result ≡ references (bits_of s.now) c.at }
{
    let (num_ref_idx_l0_default_active_minus1, c1) = up_to(s, c, 31)?;
    let (num_ref_idx_l1_default_active_minus1, c2) = up_to(s, c1, 31)?;
    let (weighted_pred_flag, c3) = c2.flag(s)?;
    let (weighted_bipred_idc, c4) = bipred(s, c3)?;
    Ok((
        References {
            num_ref_idx_l0_default_active_minus1,
            num_ref_idx_l1_default_active_minus1,
            weighted_pred_flag,
            weighted_bipred_idc,
        },
        c4,
    ))
}

// pic_init_qp_minus26 to redundant_pic_cnt_present_flag
fn picture_levels(s: &[u8], c: Cursor) -> Read<Levels>
    ensures { as_read result ≡ levels (bits_of s.now) c.at }
{
    let (pic_init_qp_minus26, c1) = within(s, c, -62, 25)?;
    let (pic_init_qs_minus26, c2) = within(s, c1, -26, 25)?;
    let (_, c3) = c2.se(s)?;
    let (deblocking_filter_control_present_flag, c4) = c3.flag(s)?;
    let (_, c5) = c4.flag(s)?;
    let (redundant_pic_cnt_present_flag, c6) = c5.flag(s)?;
    Ok((
        Levels {
            pic_init_qp_minus26,
            pic_init_qs_minus26,
            deblocking_filter_control_present_flag,
            redundant_pic_cnt_present_flag,
        },
        c6,
    ))
}

// pic_parameter_set_id to slice_group_id, without the ids
pub fn picture_start(s: &[u8], c: Cursor) -> Read<PictureStart>
    ensures { as_read result ≡ picture_start (bits_of s.now) c.at }
{
    let (lead, c1) = picture_lead(s, c)?;
    let (groups, c2) = groups_start(s, c1)?;
    Ok((PictureStart { lead, groups }, c2))
}

// What stands behind slice_group_id; the set, by that and by what stood before.
pub fn picture_rest(s: &[u8], c: Cursor, start: PictureStart) -> Read<PictureSet>
    ensures { as_read result ≡ picture_rest start (bits_of s.now) c.at }
{
    let (r, c1) = picture_references(s, c)?;
    let (v, c2) = picture_levels(s, c1)?;
    let l = start.lead;
    let g = start.groups;
    Ok((
        PictureSet {
            pic_parameter_set_id: l.pic_parameter_set_id,
            picture: Picture {
                seq_parameter_set_id: l.seq_parameter_set_id,
                entropy_coding_mode_flag: l.entropy_coding_mode_flag,
                bottom_field_pic_order_in_frame_present_flag: l.bottom_field_pic_order_in_frame_present_flag,
                num_ref_idx_l0_default_active_minus1: r.num_ref_idx_l0_default_active_minus1,
                num_ref_idx_l1_default_active_minus1: r.num_ref_idx_l1_default_active_minus1,
                weighted_pred_flag: r.weighted_pred_flag,
                weighted_bipred_idc: r.weighted_bipred_idc,
                pic_init_qp_minus26: v.pic_init_qp_minus26,
                pic_init_qs_minus26: v.pic_init_qs_minus26,
                deblocking_filter_control_present_flag: v.deblocking_filter_control_present_flag,
                redundant_pic_cnt_present_flag: v.redundant_pic_cnt_present_flag,
                slice_group_change_rate: g.slice_group_change_rate,
            },
        },
        c2,
    ))
}

pub fn picture_set(s: &[u8], c: Cursor) -> Read<PictureSet>
    ensures { as_read result ≡ picture_set (bits_of s.now) c.at }
{
    let (start, c1) = picture_start(s, c)?;
    let c2 = pass_ids(s, c1, start.groups)?;
    picture_rest(s, c2, start)
}
