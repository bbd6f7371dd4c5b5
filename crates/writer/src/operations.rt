// The lists: codes with up to two operands each, and the closing code, written in one loop for all of them.
ghost use Rattle.std.specs.Prelude.{◌≤◌};
ghost use Rattle.syntax.specs.Lists.{operands, operations, operations_if};
ghost use Rattle.lists.specs.Kinds.{kind_of};
ghost use Rattle.record.specs.Entries.{operations_from};
ghost use Rattle.writer.specs.Places.{PutTo};

use crate::marks::{put_given, put_tested};
use bits::read::Cursor;
use lists::operations::{ListKind, has_first, has_second};

// A code's operands, zero where it has fewer.
fn put_operands(
    d: &mut [u8],
    c: Cursor,
    kind: ListKind,
    code: u32,
    first: u32,
    second: u32,
) -> Option<Cursor>
    ensures { PutTo (operands (kind_of kind) code) (first, second) d.old c.at d.new result }
{
    let next = put_given(d, c, has_first(kind, code), first)?;
    put_given(d, next, has_second(kind, code), second)
}

// The list in the first `count` entries of its words, three words each. A closing code among them would end it early, so such a list has no bits.
pub(crate) fn put_operations(
    d: &mut [u8],
    c: Cursor,
    count: u32,
    words: &[u32; 198],
    kind: ListKind,
) -> Option<Cursor>
    requires { count ≤ 66 }
    ensures { PutTo (operations (kind_of kind)) (operations_from count words.now) d.old c.at d.new result }
{
    let mut at = c;
    for i in 0..count {
        let k = 3 * (i as usize);
        let code = words[k];
        if code == kind.closing as u32 {
            return None;
        }
        let next = put_tested(d, at, code, kind.greatest as u32, kind.number)?;
        at = put_operands(d, next, kind, code, words[k + 1], words[k + 2])?;
    }
    put_tested(
        d,
        at,
        kind.closing as u32,
        kind.greatest as u32,
        kind.number,
    )
}

// A list that is there only under a condition.
pub(crate) fn put_operations_if(
    d: &mut [u8],
    c: Cursor,
    there: bool,
    count: u32,
    words: &[u32; 198],
    kind: ListKind,
) -> Option<Cursor>
    requires { count ≤ 66 }
    ensures { PutTo (operations_if there (kind_of kind)) (operations_from count words.now) d.old c.at d.new result }
{
    if there {
        return put_operations(d, c, count, words, kind);
    }
    if count == 0 { Some(c) } else { None }
}
