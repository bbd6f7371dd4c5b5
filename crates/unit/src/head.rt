// What a unit's first bytes say, without its body: enough to colour a bar. `into::read_body_into` takes the answer and reads the body.
ghost use Rattle.std.specs.Prelude.{◌≡◌};
ghost use Rattle.nal.specs.Extension.{extension_of};
ghost use Rattle.unit.specs.Head.{head_extended, head_typed, head_of, equal, same_head};

use crate::begin::has_extension;
use bits::refusals::{LIMIT, NO_EXTENSION, Refusal, TOO_LARGE, refuse};
use fields::conditions::both;
use nal::header::{NalHeader, header_of};

#[repr(C)]
#[derive(Clone, Copy)]
pub struct UnitHead {
    // the number of nal_unit_type
    pub nal_unit_type: u8,
    pub nal_ref_idc: u8,
    // the extension's three bytes, of types 14, 20 and 21; zeros for all others
    pub b1: u8,
    pub b2: u8,
    pub b3: u8,
}

fn head_extended(unit: &[u8], h: NalHeader) -> Result<UnitHead, Refusal>
    ensures { result ≡ head_extended unit.now h (extension_of unit.now) }
{
    if unit.len() < 4 {
        return Err(refuse(NO_EXTENSION, 0));
    }
    let b1 = unit[1];
    let b2 = unit[2];
    let b3 = unit[3];
    Ok(UnitHead {
        nal_unit_type: h.type_id(),
        nal_ref_idc: h.nal_ref_idc(),
        b1,
        b2,
        b3,
    })
}

fn head_typed(unit: &[u8], h: NalHeader) -> Result<UnitHead, Refusal>
    ensures { result ≡ head_typed unit.now h }
{
    if has_extension(h.type_id()) {
        return head_extended(unit, h);
    }
    Ok(UnitHead {
        nal_unit_type: h.type_id(),
        nal_ref_idc: h.nal_ref_idc(),
        b1: 0,
        b2: 0,
        b3: 0,
    })
}

// 27, 1, 2 and 4, in this order, or the head.
pub fn head(unit: &[u8]) -> Result<UnitHead, Refusal>
    ensures { result ≡ head_of unit.now }
{
    if LIMIT < unit.len() {
        return Err(refuse(TOO_LARGE, 0));
    }
    match header_of(unit) {
        Ok(h) => head_typed(unit, h),
        Err(r) => Err(r),
    }
}

fn equal(a: UnitHead, b: UnitHead) -> bool
    ensures { result ≡ equal a b }
{
    let kind = both(
        a.nal_unit_type == b.nal_unit_type,
        a.nal_ref_idc == b.nal_ref_idc,
    );
    let extension = both(a.b1 == b.b1, both(a.b2 == b.b2, a.b3 == b.b3));
    both(kind, extension)
}

// Whether all of an answer is the unit's own.
pub fn is_head_of(h: UnitHead, unit: &[u8]) -> bool
    ensures { result ≡ same_head h (head_of unit.now) }
{
    match head(unit) {
        Ok(g) => equal(h, g),
        Err(_) => false,
    }
}
