// The body of a parameter set, read from the unit. A sequence set stands in a part of bounded length. A picture set's ids may go on for as long as the unit does: they
// are passed over by arithmetic, and what stands behind them is read where they end.
ghost use Rattle.std.specs.Prelude.{◌≡◌, ◌≤◌, length};
ghost use Rattle.bits.specs.Refusals.{limit};
ghost use Rattle.parameter_sets.specs.SequenceSet.{sequence_set};
ghost use Rattle.parameter_sets.specs.PictureSet.{picture_set};
ghost use Rattle.parameter_sets.specs.PictureParts.{picture_start, picture_rest, moved};
ghost use Rattle.cut.specs.Seam.{body_bits};
ghost use Rattle.front.specs.Places.{place_in};
ghost use Rattle.bits.specs.Answers.{as_read};

use bits::read::{Cursor, Read};
use bits::refusals::Refusal;
use cut::part::far_body;
use cut::tail::{body_bytes, tail_body};
use parameter_sets::groups::ids_end;
use parameter_sets::picture::{PictureSet, PictureStart, picture_rest, picture_start};
use parameter_sets::sequence::{SequenceSet, sequence_set};

// The body of a sequence set.
pub(crate) fn sequence_body(unit: &[u8]) -> Read<SequenceSet>
    ensures { as_read result ≡ sequence_set (body_bits unit.now 1) 0 }
{
    let mut local = [0u8; 12289];
    let n = far_body(unit, 1, &mut local);
    sequence_set(&local[..n], Cursor { at: 0 })
}

// What stands before a picture set's ids.
fn before_ids(unit: &[u8]) -> Read<PictureStart>
    ensures { as_read result ≡ picture_start (body_bits unit.now 1) 0 }
{
    let mut local = [0u8; 256];
    let n = tail_body(unit, 1, 0, &mut local);
    picture_start(&local[..n], Cursor { at: 0 })
}

// An answer of reading behind k bits that were not there, with its place among all.
fn move_by(a: Read<PictureSet>, k: usize) -> Read<PictureSet>
    requires { (place_in a ≤ 4294967296) × (k ≤ 4294967296) }
    ensures { as_read result ≡ moved k (as_read a) }
{
    match a {
        Ok((v, c)) => Ok((v, Cursor { at: k + c.at })),
        Err(r) => Err(Refusal {
            number: r.number,
            has_bit: r.has_bit,
            value: r.value,
            bit: k + r.bit,
        }),
    }
}

// What stands behind them, from bit `at` on.
fn behind_ids(unit: &[u8], at: usize, start: PictureStart) -> Read<PictureSet>
    requires { (length unit.now ≤ limit) × (at ≤ length (body_bits unit.now 1)) }
    ensures { as_read result ≡ picture_rest start (body_bits unit.now 1) at }
{
    let mut local = [0u8; 256];
    let k = at / 8;
    let n = tail_body(unit, 1, k, &mut local);
    move_by(
        picture_rest(&local[..n], Cursor { at: at % 8 }, start),
        8 * k,
    )
}

// The body of a picture set.
pub(crate) fn picture_body(unit: &[u8]) -> Read<PictureSet>
    requires { length unit.now ≤ limit }
    ensures { as_read result ≡ picture_set (body_bits unit.now 1) 0 }
{
    let (start, c) = before_ids(unit)?;
    let d = ids_end(start.groups, c, 8 * body_bytes(unit, 1))?;
    behind_ids(unit, d.at, start)
}
