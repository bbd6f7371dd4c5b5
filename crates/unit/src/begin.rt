// What a unit's head says of its body.
ghost use Rattle.std.specs.Prelude.{◌≡◌};
ghost use Rattle.unit.specs.Begin.{absent_extension, has_extension, prefix_kind, without_extension, extended, begun_by};

use crate::head::UnitHead;
use bits::refusals::Refusal;
use fields::conditions::either;
use header::kinds::kind_of;
use nal::extension::{NalHeaderExtension, NalHeaderMvcExtension};
use nal::header::NalHeader;
use syntax::context::{PrefixKind, UnitKind};

#[derive(Clone, Copy)]
pub enum Begun {
    // a slice, and the place where its body starts
    Slice(UnitKind, usize),
    // a prefix unit, whose body starts after four bytes
    Prefix(PrefixKind),
    // a parameter set, whose body starts after the first byte
    SequenceSet,
    PictureSet,
    // a unit of another type
    Other(u8),
    Refused(Refusal),
}

// The extension of a unit that has none.
fn absent_extension() -> NalHeaderExtension
    ensures { result ≡ absent_extension }
{
    NalHeaderExtension::Mvc(NalHeaderMvcExtension {
        b1: 0,
        b2: 0,
        b3: 0,
    })
}

// The body of a prefix unit.
fn prefix_kind(h: NalHeader, e: NalHeaderExtension) -> PrefixKind
    ensures { result ≡ prefix_kind h e }
{
    match e {
        NalHeaderExtension::Mvc(_) => PrefixKind {
            there: false,
            use_ref_base_pic_flag: false,
            idr_flag: false,
        },
        NalHeaderExtension::Svc(v) => PrefixKind {
            there: h.nal_ref_idc() != 0,
            use_ref_base_pic_flag: v.use_ref_base_pic_flag(),
            idr_flag: v.idr_flag(),
        },
    }
}

// Types 14, 20 and 21.
pub fn has_extension(t: u8) -> bool
    ensures { result ≡ has_extension t }
{
    either(t == 14, either(t == 20, t == 21))
}

// A unit of type 14, 20 or 21, with its extension.
fn extended(h: NalHeader, e: NalHeaderExtension) -> Begun
    ensures { result ≡ extended h e }
{
    if h.type_id() == 14 {
        return Begun::Prefix(prefix_kind(h, e));
    }
    Begun::Slice(kind_of(h, e), 4)
}

// A parameter set, or a unit of another type.
fn without_extension(t: u8) -> Begun
    ensures { result ≡ without_extension t }
{
    if t == 7 {
        return Begun::SequenceSet;
    }
    if t == 8 {
        return Begun::PictureSet;
    }
    Begun::Other(t)
}

// By the type, the head's first byte and its extension: what the first bytes of every unit say that has this head.
pub fn begun_by(head: UnitHead) -> Begun
    ensures { result ≡ begun_by head }
{
    let first = NalHeader(head.nal_ref_idc % 4 * 32 + head.nal_unit_type % 32);
    let t = first.type_id();
    if either(t == 1, t == 5) {
        return Begun::Slice(kind_of(first, absent_extension()), 1);
    }
    if !has_extension(t) {
        return without_extension(t);
    }
    extended(
        first,
        NalHeaderExtension::from_bytes(head.b1, head.b2, head.b3),
    )
}
