// A slice's header read from its unit, which is still escaped: from a part of the body in a local array, and again from a larger part where that was too short.
ghost use Rattle.std.specs.Prelude.{◌≡◌, ◌++◌, ◌≤◌, length, take, drop};
ghost use Rattle.syntax.specs.SliceHeader.{read_header};
ghost use Rattle.cut.specs.Seam.{body_bits, near};
ghost use Rattle.header.specs.Lead.{table_in};
ghost use Rattle.header.specs.Short.{words_in, SameArrays, header_end, header_left};
ghost use Rattle.header.specs.Told.{Filled, Kept};

use crate::slice::{Words, fill};
use bits::read::Cursor;
use bits::refusals::Refusal;
use cut::part::{NEAR, far_body, may_change, near_body};
use syntax::context::UnitKind;
use table::table::Sets;

fn fill_near(
    unit: &[u8],
    kind: UnitKind,
    sets: Sets<'_>,
    w: &mut Words<'_>,
) -> Result<Cursor, Refusal>
    ensures filled { Filled (read_header (table_in sets.entry) kind (body_bits (take near unit.now) 0)) result (words_in w.old) (words_in w.new) }
    ensures kept { Kept (λ t. read_header (table_in sets.entry) kind (body_bits (take near unit.now) 0 ++ t)) (words_in w.old) (words_in w.new) }
    ensures same { SameArrays w.old w.new }
{
    let mut local = [0u8; 130];
    let n = near_body(unit, 0, &mut local);
    fill(&local[..n], kind, sets, w)
}

fn fill_far(
    unit: &[u8],
    kind: UnitKind,
    sets: Sets<'_>,
    w: &mut Words<'_>,
) -> Result<Cursor, Refusal>
    ensures filled { Filled (read_header (table_in sets.entry) kind (body_bits unit.now 0)) result (words_in w.old) (words_in w.new) }
    ensures same { SameArrays w.old w.new }
{
    let mut local = [0u8; 12289];
    let n = far_body(unit, 0, &mut local);
    fill(&local[..n], kind, sets, w)
}

// Nothing is cleared between the two: a header that is read from the larger part has every entry that was read from the smaller one, and so stands over them.
fn fill_by_parts(
    unit: &[u8],
    kind: UnitKind,
    sets: Sets<'_>,
    w: &mut Words<'_>,
) -> Result<Cursor, Refusal>
    ensures filled { Filled (read_header (table_in sets.entry) kind (body_bits unit.now 0)) result (words_in w.old) (words_in w.new) }
    ensures same { SameArrays w.old w.new }
{
    let a = fill_near(unit, kind, sets, w);
    let Err(r) = a else {
        return a;
    };
    if unit.len() <= NEAR {
        return a;
    }
    if !may_change(r) {
        return a;
    }
    fill_far(unit, kind, sets, w)
}

// A start behind a unit's end is its end.
fn start_in(unit: &[u8], from: usize) -> usize
    ensures { (result ≤ length unit.now) × (drop result unit.now ≡ drop from unit.now) }
{
    let n = unit.len();
    if from <= n { from } else { n }
}

// The header of a slice unit whose body starts at byte `from`. As `read_header_into` of the whole unescaped body, but that no more of it is unescaped than the header
// needs.
pub fn read_escaped_into(
    unit: &[u8],
    from: usize,
    kind: UnitKind,
    sets: Sets<'_>,
    w: &mut Words<'_>,
) -> Result<Cursor, Refusal>
    ensures value { result ≡ header_end (read_header (table_in sets.entry) kind (body_bits unit.now from)) }
    ensures words { words_in w.new ≡ header_left (read_header (table_in sets.entry) kind (body_bits unit.now from)) (words_in w.old) }
    ensures same { SameArrays w.old w.new }
{
    w.empty_lists();
    let start = start_in(unit, from);
    let a = fill_by_parts(&unit[start..], kind, sets, w);
    let Ok(_) = a else {
        w.clear();
        return a;
    };
    a
}
