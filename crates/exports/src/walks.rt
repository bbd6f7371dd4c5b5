// The walk over a recording.
ghost use Rattle.std.specs.Prelude.{◌≡◌};
ghost use Rattle.header.specs.Lead.{table_of};
ghost use Rattle.walk.specs.Walked.{next_step, walked};
ghost use Rattle.unit.specs.Into.{lent_words, words_after};
ghost use Rattle.exports.specs.Walks.{came, walk_told, walk_out};

use crate::units::{ReadOut, tell};
use bits::refusals::Refusal;
use header::slice::Words;
use unit::into::{AllWords, ShortAnswer};
use walk::walk::{Step, next_step, walk_into};

// A step of the walk. What it does not speak of is zero.
#[repr(C)]
#[derive(Clone, Copy)]
pub struct WalkOut {
    // 0: the end; 1: a unit; 2: refused
    pub step: u32,
    // the refusal's number and value
    pub number: u32,
    pub value: i64,
    // where the unit begins, after its start code or its length, how many bytes it has, and where to go on
    pub place: usize,
    pub length: usize,
    pub next: usize,
    // what reading the unit answers
    pub read: ReadOut,
}

// The step's part of it, where nothing is read.
#[repr(C)]
#[derive(Clone, Copy)]
pub struct StepOut {
    // 0: the end; 1: a unit; 2: refused
    pub step: u32,
    // the refusal's number and value
    pub number: u32,
    pub value: i64,
    // where the unit begins, after its start code or its length, how many bytes it has, and where to go on
    pub place: usize,
    pub length: usize,
    pub next: usize,
}

pub(crate) fn come(s: Step) -> StepOut
    ensures { result ≡ came s }
{
    match s {
        Step::Unit(place, length, next) => StepOut {
            step: 1,
            number: 0,
            value: 0,
            place,
            length,
            next,
        },
        Step::End => StepOut {
            step: 0,
            number: 0,
            value: 0,
            place: 0,
            length: 0,
            next: 0,
        },
        Step::Refused(why) => StepOut {
            step: 2,
            number: why.number as u32,
            value: why.value,
            place: 0,
            length: 0,
            next: 0,
        },
    }
}

pub(crate) fn walk_told(s: Step, a: ShortAnswer) -> WalkOut
    ensures { result ≡ walk_told s a }
{
    let c = come(s);
    let read = tell(a);
    WalkOut {
        step: c.step,
        number: c.number,
        value: c.value,
        place: c.place,
        length: c.length,
        next: c.next,
        read,
    }
}

// One step of the walk from a place on, with nothing read: the unit's bytes are for `tuz_head`.
#[unsafe(no_mangle)]
pub extern "C" fn tuz_next_unit(recording: &[u8], from: usize) -> StepOut
    ensures { result ≡ came (next_step recording.now from) }
{
    come(next_step(recording, from))
}

// One step of the walk from a place on, by the sets in a table's two arrays. Scratch needs as many bytes as the longest unit has. A set that is read goes into the
// arrays. Words are written as by `tuz_body`; where there is no unit, none is.
#[unsafe(no_mangle)]
pub extern "C" fn tuz_walk<'a>(
    sequences: &mut [u32; 224],
    pictures: &mut [u32; 2304],
    recording: &[u8],
    from: usize,
    scratch: &mut [u8],
    numbers: &'a mut [u32; 57],
    signed: &'a mut [i32; 7],
    l0: &'a mut [u32; 198],
    l1: &'a mut [u32; 198],
    marking: &'a mut [u32; 198],
    w0: &'a mut [i32; 256],
    w1: &'a mut [i32; 256],
    base: &'a mut [u32; 198],
) -> WalkOut
    ensures value { (result ≡ walk_out (walked (table_of sequences.old pictures.old) recording.now from scratch.old).walked) × (scratch.new ≡ (walked (table_of sequences.old pictures.old) recording.now from scratch.old).left) }
    ensures table { table_of sequences.new pictures.new ≡ (walked (table_of sequences.old pictures.old) recording.now from scratch.old).table }
    ensures words { (lent_words numbers signed l0 l1 marking w0 w1 base).exit ≡ words_after (walked (table_of sequences.old pictures.old) recording.now from scratch.old).walked.read (lent_words numbers signed l0 l1 marking w0 w1 base).entry }
{
    let mut words = AllWords {
        header: Words {
            numbers,
            signed,
            l0,
            l1,
            marking,
            w0,
            w1,
        },
        base,
    };
    let w = walk_into(sequences, pictures, recording, from, scratch, &mut words);
    let step = w.step;
    let answer = w.answer;
    walk_told(step, answer)
}
