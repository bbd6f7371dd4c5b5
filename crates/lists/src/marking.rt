// dec_ref_pic_marking( ): the codes of its list.
ghost use Rattle.std.specs.Prelude.{◌≡◌};
ghost use Rattle.syntax.specs.SliceHeader.{marking_kind};
ghost use Rattle.lists.specs.Kinds.{kind_of};

use crate::operations::ListKind;
use bits::refusals::MARKING_OPERATION;

pub fn marking_kind() -> ListKind
    ensures { kind_of result ≡ marking_kind }
{
    ListKind {
        closing: 0,
        greatest: 6,
        number: MARKING_OPERATION,
        marking: true,
    }
}
