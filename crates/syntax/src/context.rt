// What the syntax of a header and of a prefix unit depends on, outside the body: the unit's first byte and extension, and the sets that the header names.
use table::sets::{Picture, Sequence};

// What the first byte and the extension say.
#[repr(C)]
#[derive(Clone, Copy)]
pub struct UnitKind {
    // nal_ref_idc is not 0
    pub reference: bool,
    // IdrPicFlag: type 5, or types 20 and 21 with non_idr_flag 0
    pub idr: bool,
    // types 20 and 21 with the extension's top bit clear
    pub mvc: bool,
    // types 20 and 21 with the extension's top bit set
    pub svc: bool,
}

// What the first byte and the extension of a prefix unit say of its body.
#[repr(C)]
#[derive(Clone, Copy)]
pub struct PrefixKind {
    // the body is read: the extension is SVC, and nal_ref_idc is not 0. A condition, and no mark of the two flags below: they are the extension's, read or not
    pub there: bool,
    // the extension's, clear where it is MVC
    pub use_ref_base_pic_flag: bool,
    pub idr_flag: bool,
}

#[repr(C)]
#[derive(Clone, Copy)]
pub struct Context {
    pub kind: UnitKind,
    pub picture: Picture,
    pub sequence: Sequence,
    // how wide slice_group_change_cycle is, as the table has it with the picture set
    pub cycle_width: u32,
}
