// A unit's head: what its first bytes say, without its body.
ghost use Rattle.std.specs.Prelude.{◌≡◌};
ghost use Rattle.unit.specs.Head.{head_of};
ghost use Rattle.exports.specs.Heads.{head_out, head_heard};

use bits::refusals::{Refusal, refuse};
use unit::head::{UnitHead, head};

// A unit's head. Beside a refusal its fields are zero.
#[repr(C)]
#[derive(Clone, Copy)]
pub struct HeadOut {
    // the refusal's value and number; 0 and 0 where there is none
    pub value: i64,
    pub number: u8,
    pub head: UnitHead,
}

fn head_out(a: Result<UnitHead, Refusal>) -> HeadOut
    ensures { result ≡ head_out a }
{
    match a {
        Ok(head) => HeadOut {
            value: 0,
            number: 0,
            head,
        },
        Err(why) => HeadOut {
            value: why.value,
            number: why.number,
            head: UnitHead {
                nal_unit_type: 0,
                nal_ref_idc: 0,
                b1: 0,
                b2: 0,
                b3: 0,
            },
        },
    }
}

// What a HeadOut tells.
pub(crate) fn hear_head(out: HeadOut) -> Result<UnitHead, Refusal>
    ensures { result ≡ head_heard out }
{
    let head = out.head;
    if out.number == 0 {
        return Ok(head);
    }
    Err(refuse(out.number, out.value))
}

// What a unit's first bytes say. `tuz_body` takes the answer's `head`, and reads the body.
#[unsafe(no_mangle)]
pub extern "C" fn tuz_head(unit: &[u8]) -> HeadOut
    ensures { result ≡ head_out (head_of unit.now) }
{
    head_out(head(unit))
}
