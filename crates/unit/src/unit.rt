// A unit's body by value: read into words, from which its records are taken.
ghost use Rattle.std.specs.Prelude.{◌≡◌};
ghost use Rattle.header.specs.Lead.{table_in};
ghost use Rattle.header.specs.Short.{words_in};
ghost use Rattle.record.specs.Record.{words_held};
ghost use Rattle.unit.specs.Head.{body_read};

use crate::answer::{UnitRead, long_answer, prefix_in};
use crate::head::UnitHead;
use crate::into::{AllWords, read_body_into};
use header::slice::Words;
use record::record::{HeldWords, header_of, prefix_of};
use table::table::Sets;

// A header's words, lent on to be read.
fn held<'a>(w: &'a Words<'_>) -> HeldWords<'a>
    ensures { words_held result ≡ words_in w.now }
{
    HeldWords {
        numbers: w.numbers,
        signed: w.signed,
        l0: w.l0,
        l1: w.l1,
        marking: w.marking,
        w0: w.w0,
        w1: w.w1,
    }
}

// The body of a unit, for whoever has its head, by the sets in a table's two arrays. Scratch is left as `read_body_into` leaves it. The words start as zeros, and are zeros again where the answer
// speaks of no header and no list, so that what they hold is right for every answer.
pub fn read_body_in(head: UnitHead, sets: Sets<'_>, unit: &[u8], scratch: &mut [u8]) -> UnitRead
    ensures { (result ≡ (body_read (table_in sets.entry) head unit.now scratch.old).read) × (scratch.new ≡ (body_read (table_in sets.entry) head unit.now scratch.old).left) }
{
    let mut numbers = [0u32; 57];
    let mut signed = [0i32; 7];
    let mut l0 = [0u32; 198];
    let mut l1 = [0u32; 198];
    let mut marking = [0u32; 198];
    let mut w0 = [0i32; 256];
    let mut w1 = [0i32; 256];
    let mut base = [0u32; 198];
    let header = Words {
        numbers: &mut numbers,
        signed: &mut signed,
        l0: &mut l0,
        l1: &mut l1,
        marking: &mut marking,
        w0: &mut w0,
        w1: &mut w1,
    };
    let mut w = AllWords {
        header,
        base: &mut base,
    };
    let a = read_body_into(head, sets, unit, scratch, &mut w);
    UnitRead {
        answer: long_answer(a),
        header: header_of(held(&w.header)),
        prefix: prefix_of(prefix_in(a), w.base),
    }
}
