// ref_pic_list_modification( ): a flag for each list, and where it is set the list.
ghost use Rattle.std.specs.Prelude.{◌≤◌};
ghost use Rattle.syntax.specs.SliceHeader.{modification, modifications};
ghost use Rattle.record.specs.Fields.{number_in};
ghost use Rattle.record.specs.Entries.{operations_from};
ghost use Rattle.record.specs.Record.{modifications_from};
ghost use Rattle.writer.specs.Places.{PutTo};

use crate::marks::{flag_of, put_flag_if};
use crate::operations::put_operations_if;
use bits::read::Cursor;
use fields::conditions::{B, has_l0, is_type};
use lists::modification::modification_kind;
use syntax::context::Context;
use syntax::marks::Marked;

// One list, there only under a condition.
pub(crate) fn put_modification(
    d: &mut [u8],
    c: Cursor,
    mvc: bool,
    there: bool,
    flag: Marked<bool>,
    count: u32,
    words: &[u32; 198],
) -> Option<Cursor>
    requires { count ≤ 66 }
    ensures { PutTo (modification mvc there) (record { flag = flag; operations = operations_from count words.now }) d.old c.at d.new result }
{
    let next = put_flag_if(d, c, there, flag)?;
    put_operations_if(d, next, flag.value, count, words, modification_kind(mvc))
}

// Both lists. A scalable slice's header has none, and goes no further.
pub(crate) fn put_modifications(
    d: &mut [u8],
    c: Cursor,
    x: Context,
    slice_type: u32,
    numbers: &[u32; 57],
    l0: &[u32; 198],
    l1: &[u32; 198],
) -> Option<Cursor>
    requires { (number_in numbers.now 29 ≤ 66) × (number_in numbers.now 32 ≤ 66) }
    ensures { PutTo (modifications x slice_type) (modifications_from numbers.now l0.now l1.now) d.old c.at d.new result }
{
    if x.kind.svc {
        return None;
    }
    let mvc = x.kind.mvc;
    let flag0 = flag_of(numbers[27], numbers[28]);
    let flag1 = flag_of(numbers[30], numbers[31]);
    let next = put_modification(d, c, mvc, has_l0(slice_type), flag0, numbers[29], l0)?;
    put_modification(d, next, mvc, is_type(slice_type, B), flag1, numbers[32], l1)
}
