// What the writer is told of the unit: its first byte, and its extension or none.
ghost use Rattle.std.specs.Prelude.{◌≡◌};
ghost use Rattle.writer.specs.Given.{with_extension, typed, kind_given};

use bits::refusals::{NO_EXTENSION, NOT_A_SLICE, Refusal, SCALABLE, refuse};
use fields::conditions::either;
use header::kinds::kind_of;
use nal::extension::{NalHeaderExtension, NalHeaderMvcExtension};
use nal::header::NalHeader;
use syntax::context::UnitKind;

// The three extension bytes; where they are not there, they are unused. Types 1 and 5 make no use of them. A mark and no
// Option, since C hands it over.
#[repr(C)]
#[derive(Clone, Copy)]
pub struct ExtensionGiven {
    pub there: bool,
    pub b1: u8,
    pub b2: u8,
    pub b3: u8,
}

fn with_extension(h: NalHeader, e: NalHeaderExtension) -> Result<UnitKind, Refusal>
    ensures { result ≡ with_extension h e }
{
    match e {
        NalHeaderExtension::Mvc(_) => Ok(kind_of(h, e)),
        NalHeaderExtension::Svc(_) => Err(refuse(SCALABLE, 0)),
    }
}

fn typed(h: NalHeader, x: ExtensionGiven) -> Result<UnitKind, Refusal>
    ensures { result ≡ typed h x }
{
    let t = h.nal_unit_type().id();
    if either(t == 1, t == 5) {
        let absent = NalHeaderExtension::Mvc(NalHeaderMvcExtension {
            b1: 0,
            b2: 0,
            b3: 0,
        });
        return Ok(kind_of(h, absent));
    }
    if !either(t == 20, t == 21) {
        return Err(refuse(NOT_A_SLICE, t as i64));
    }
    if !x.there {
        return Err(refuse(NO_EXTENSION, 0));
    }
    with_extension(h, NalHeaderExtension::from_bytes(x.b1, x.b2, x.b3))
}

// The checks 2, 3, 4 and 13.
pub(crate) fn kind_given(first: u8, x: ExtensionGiven) -> Result<UnitKind, Refusal>
    ensures { result ≡ kind_given first x }
{
    let h = NalHeader::new(first)?;
    typed(h, x)
}
