// ref_pic_list_modification( ): the codes of its lists. For views the codes 4 and 5 are good too.
ghost use Rattle.std.specs.Prelude.{◌≡◌};
ghost use Rattle.bits.specs.Refusals.{pick};
ghost use Rattle.syntax.specs.SliceHeader.{modification_kind};
ghost use Rattle.lists.specs.Kinds.{kind_of};

use crate::operations::ListKind;
use bits::refusals::MODIFICATION_IDC;

// The greatest code: with views, 5.
fn greatest(mvc: bool) -> u8
    ensures { result ≡ pick mvc 5 3 }
{
    if mvc { 5 } else { 3 }
}

pub fn modification_kind(mvc: bool) -> ListKind
    ensures { kind_of result ≡ modification_kind mvc }
{
    ListKind {
        closing: 3,
        greatest: greatest(mvc),
        number: MODIFICATION_IDC,
        marking: false,
    }
}
