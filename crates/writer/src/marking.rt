// dec_ref_pic_marking( ): two flags in an IDR picture; in any other a flag, and where it is set the list.
ghost use Rattle.std.specs.Prelude.{◌≤◌};
ghost use Rattle.syntax.specs.SliceHeader.{dec_ref_pic_marking};
ghost use Rattle.record.specs.Fields.{number_in};
ghost use Rattle.record.specs.Record.{marking_from};
ghost use Rattle.writer.specs.Places.{PutTo};

use crate::marks::{flag_of, put_flag_if};
use crate::operations::put_operations_if;
use bits::read::Cursor;
use fields::conditions::both;
use lists::marking::marking_kind;
use syntax::context::Context;

pub(crate) fn put_marking(
    d: &mut [u8],
    c: Cursor,
    x: Context,
    numbers: &[u32; 57],
    words: &[u32; 198],
) -> Option<Cursor>
    requires { number_in numbers.now 45 ≤ 66 }
    ensures { PutTo (dec_ref_pic_marking x) (marking_from numbers.now words.now) d.old c.at d.new result }
{
    let idr = both(x.kind.reference, x.kind.idr);
    let no_output = flag_of(numbers[39], numbers[40]);
    let long_term = flag_of(numbers[41], numbers[42]);
    let adaptive = flag_of(numbers[43], numbers[44]);
    let c1 = put_flag_if(d, c, idr, no_output)?;
    let c2 = put_flag_if(d, c1, idr, long_term)?;
    let c3 = put_flag_if(d, c2, both(x.kind.reference, !x.kind.idr), adaptive)?;
    put_operations_if(d, c3, adaptive.value, numbers[45], words, marking_kind())
}
