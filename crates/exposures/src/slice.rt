// What is taken of a recording, a unit each.

// A slice, as far as pictures and exposures go by it, under the standard's names; a field that is absent is zero.
#[derive(Clone, Copy)]
pub struct Slice {
    // where its unit begins
    pub place: usize,
    // QP, by its own picture set
    pub qp: i64,
    pub nal_ref_idc: u32,
    pub idr_pic_flag: bool,
    pub frame_num: u32,
    pub pic_parameter_set_id: u32,
    pub field_pic_flag: bool,
    pub bottom_field_flag: bool,
    // of its sequence set
    pub pic_order_cnt_type: u32,
    pub pic_order_cnt_lsb: u32,
    pub delta_pic_order_cnt_bottom: i64,
    // delta_pic_order_cnt[0] and [1]
    pub delta_pic_order_cnt_0: i64,
    pub delta_pic_order_cnt_1: i64,
    pub idr_pic_id: u32,
    // of its sequence set: frame_num counts modulo 2 to its power
    pub log2_max_frame_num: u32,
}

// What a unit that is not grouped is. A slice of type 1 or 5 is redundant where redundant_pic_cnt is there and not 0; a view is a unit of type 20 or 21 that
// is read; refused units are of any type.
#[derive(Clone, Copy)]
pub enum Kind {
    Redundant,
    Refused,
    Prefix,
    View,
    Other,
}

#[derive(Clone, Copy)]
pub enum Item {
    Slice(Slice),
    Unit(Kind),
}
