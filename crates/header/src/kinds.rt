// What a unit's first byte and its extension say of its slice header.
ghost use Rattle.std.specs.Prelude.{◌≡◌};
ghost use Rattle.header.specs.Kinds.{kind_of};

use fields::conditions::{both, either};
use nal::extension::NalHeaderExtension;
use nal::header::NalHeader;
use syntax::context::UnitKind;

// The extension is unused for types 1 and 5.
pub fn kind_of(h: NalHeader, e: NalHeaderExtension) -> UnitKind
    ensures { result ≡ kind_of h e }
{
    let reference = h.nal_ref_idc() != 0;
    let t = h.type_id();
    let extended = either(t == 20, t == 21);
    match e {
        NalHeaderExtension::Mvc(m) => UnitKind {
            reference,
            idr: either(t == 5, both(extended, !m.non_idr_flag())),
            mvc: extended,
            svc: false,
        },
        NalHeaderExtension::Svc(_) => UnitKind {
            reference,
            idr: t == 5,
            mvc: false,
            svc: extended,
        },
    }
}
