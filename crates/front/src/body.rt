// A prefix unit's body read from the unit: from a part of it in a local array, and again from a larger part where that was too short.
ghost use Rattle.std.specs.Prelude.{◌≡◌, take};
ghost use Rattle.syntax.specs.Prefix.{prefix};
ghost use Rattle.lists.specs.ListsLent.{prefix_step, prefix_left};
ghost use Rattle.cut.specs.Seam.{body_bits, near};

use bits::read::{Cursor, Read};
use cut::part::{NEAR, far_body, may_change, near_body};
use lists::list_words::{PrefixShort, prefix_into};
use syntax::context::PrefixKind;

fn prefix_near(unit: &[u8], kind: PrefixKind, base: &mut [u32; 198]) -> Read<PrefixShort>
    ensures value { result ≡ prefix_step ((prefix kind).read (body_bits (take near unit.now) 4) 0) }
    ensures base_after { base.new ≡ prefix_left ((prefix kind).read (body_bits (take near unit.now) 4) 0) }
{
    let mut local = [0u8; 130];
    let n = near_body(unit, 4, &mut local);
    prefix_into(&local[..n], Cursor { at: 0 }, kind, base)
}

fn prefix_far(unit: &[u8], kind: PrefixKind, base: &mut [u32; 198]) -> Read<PrefixShort>
    ensures value { result ≡ prefix_step ((prefix kind).read (body_bits unit.now 4) 0) }
    ensures base_after { base.new ≡ prefix_left ((prefix kind).read (body_bits unit.now 4) 0) }
{
    let mut local = [0u8; 12289];
    let n = far_body(unit, 4, &mut local);
    prefix_into(&local[..n], Cursor { at: 0 }, kind, base)
}

// The body of a prefix unit.
pub(crate) fn prefix_body(unit: &[u8], kind: PrefixKind, base: &mut [u32; 198]) -> Read<PrefixShort>
    ensures value { result ≡ prefix_step ((prefix kind).read (body_bits unit.now 4) 0) }
    ensures base_after { base.new ≡ prefix_left ((prefix kind).read (body_bits unit.now 4) 0) }
{
    let a = prefix_near(unit, kind, base);
    if unit.len() <= NEAR {
        return a;
    }
    let Err(r) = a else {
        return a;
    };
    if may_change(r) {
        return prefix_far(unit, kind, base);
    }
    a
}
