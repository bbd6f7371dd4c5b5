// One step of a listing: the walk's next unit as a line; or the last line, with the totals.
ghost use Rattle.std.specs.Prelude.{◌≡◌, [], length};
ghost use Rattle.header.specs.Lead.{table_of};
ghost use Rattle.table.specs.Tables.{empty_table};
ghost use Rattle.unit.specs.Unit.{unit_read};
ghost use Rattle.unit.specs.Into.{lent_in, SameLent, words_after};
ghost use Rattle.walk.specs.Walked.{walk_by};
ghost use Rattle.walk.specs.WalkedInto.{WalkedInto};
ghost use Rattle.lines.specs.Lines.{end_line, too_long_line};
ghost use Rattle.list_steps.specs.Listing.{one_more, start, counted, turn_by, turn, framed_turn, words_left, Stepped};
ghost use Rattle.list_steps.specs.Private.{is_refused_short, next_by, Ends, Broken, blank, Met, Inside, met_turn};

use bits::refusals::Refusal;
use framed::by_length::walk_framed_into;
use header::slice::Words;
use lines::line::{broken_line, end_line, too_long_line, unit_line};
use unit::into::{AllWords, ShortAnswer};
use walk::walk::{Step, WalkedShort, walk_into};

// The longest recording that is listed, in bytes.
pub const MOST: usize = 65_536;

// Where a listing has come to: the place to go on from, and how many units it has listed and how many of them were refused.
#[derive(Clone, Copy)]
pub struct State {
    pub from: usize,
    pub units: usize,
    pub refused: usize,
}

// The state after a line, the length of the line's text, and whether another line follows.
#[derive(Clone, Copy)]
pub struct Listed {
    pub state: State,
    pub length: usize,
    pub more: bool,
}

// The state of a listing that has not begun.
pub fn start() -> State
    ensures { result ≡ start }
{
    State {
        from: 0,
        units: 0,
        refused: 0,
    }
}

// One more; a count of `MOST` stays, which a listing never asks.
fn one_more(n: usize) -> usize
    ensures { result ≡ one_more n }
{
    if n < MOST { n + 1 } else { n }
}

fn is_refused(a: ShortAnswer) -> bool
    ensures { result ≡ is_refused_short a }
{
    match a {
        ShortAnswer::Slice(_) => false,
        ShortAnswer::Prefix(_) => false,
        ShortAnswer::Sequence(_) => false,
        ShortAnswer::Picture(_) => false,
        ShortAnswer::Other(_) => false,
        ShortAnswer::Refused(_) => true,
    }
}

// The state after a unit.
fn counted(state: State, next: usize, refused: bool) -> State
    ensures { result ≡ counted state next refused }
{
    let units = one_more(state.units);
    if refused {
        return State {
            from: next,
            units,
            refused: one_more(state.refused),
        };
    }
    State {
        from: next,
        units,
        refused: state.refused,
    }
}

// The one line for a recording that is too long.
fn too_long(state: State, line: &mut [u8; 128]) -> Listed
    ensures { Ends too_long_line state line.old result line.new }
{
    let length = too_long_line(line);
    Listed {
        state,
        length,
        more: false,
    }
}

// The totals.
fn finish(state: State, line: &mut [u8; 128]) -> Listed
    ensures { Ends (end_line state.units state.refused) state line.old result line.new }
{
    let length = end_line(line, state.units, state.refused);
    Listed {
        state,
        length,
        more: false,
    }
}

// The line of a broken length; the totals follow.
fn broken(state: State, n: usize, line: &mut [u8; 128]) -> Listed
    ensures { Broken state n line.old result line.new }
{
    let length = broken_line(line, state.from);
    Listed {
        state: State {
            from: n,
            units: state.units,
            refused: one_more(state.refused),
        },
        length,
        more: true,
    }
}

// The walk, by length or by start codes.
fn walk_by(
    by_length: bool,
    sequences: &mut [u32; 224],
    pictures: &mut [u32; 2304],
    recording: &[u8],
    from: usize,
    scratch: &mut [u8],
    w: &mut AllWords<'_>,
) -> WalkedShort
    ensures walked { WalkedInto (walk_by unit_read (next_by by_length) (table_of sequences.old pictures.old) recording.now from scratch.old) result scratch.new (table_of sequences.new pictures.new) (lent_in w.old) (lent_in w.new) }
    ensures same { SameLent w.old w.new }
{
    if by_length {
        return walk_framed_into(sequences, pictures, recording, from, scratch, w);
    }
    walk_into(sequences, pictures, recording, from, scratch, w)
}

// The walk's next step, what reading the unit answered, and the words of a slice's fields.
#[derive(Clone, Copy)]
struct Next {
    step: Step,
    answer: ShortAnswer,
    numbers: [u32; 57],
    signed: [i32; 7],
}

// Into words that are lent.
fn walk_lent(
    by_length: bool,
    sequences: &mut [u32; 224],
    pictures: &mut [u32; 2304],
    recording: &[u8],
    from: usize,
    scratch: &mut [u8],
    w: &mut AllWords<'_>,
) -> Next
    ensures met { Met (walk_by unit_read (next_by by_length) (table_of sequences.old pictures.old) recording.now from scratch.old) (lent_in w.old) result scratch.new (table_of sequences.new pictures.new) }
    ensures words { lent_in w.new ≡ words_after (walk_by unit_read (next_by by_length) (table_of sequences.old pictures.old) recording.now from scratch.old).walked.read (lent_in w.old) }
    ensures same { SameLent w.old w.new }
{
    let walked = walk_by(by_length, sequences, pictures, recording, from, scratch, w);
    let step = walked.step;
    let answer = walked.answer;
    Next {
        step,
        answer,
        numbers: *w.header.numbers,
        signed: *w.header.signed,
    }
}

// Into words of its own.
fn walk_on(
    by_length: bool,
    sequences: &mut [u32; 224],
    pictures: &mut [u32; 2304],
    recording: &[u8],
    from: usize,
    scratch: &mut [u8],
) -> Next
    ensures { Met (walk_by unit_read (next_by by_length) (table_of sequences.old pictures.old) recording.now from scratch.old) blank result scratch.new (table_of sequences.new pictures.new) }
{
    let mut numbers = [0u32; 57];
    let mut signed = [0i32; 7];
    let mut l0 = [0u32; 198];
    let mut l1 = [0u32; 198];
    let mut marking = [0u32; 198];
    let mut w0 = [0i32; 256];
    let mut w1 = [0i32; 256];
    let mut base = [0u32; 198];
    let mut words = AllWords {
        header: Words {
            numbers: &mut numbers,
            signed: &mut signed,
            l0: &mut l0,
            l1: &mut l1,
            marking: &mut marking,
            w0: &mut w0,
            w1: &mut w1,
        },
        base: &mut base,
    };
    walk_lent(
        by_length, sequences, pictures, recording, from, scratch, &mut words,
    )
}

// The line of what a step came to.
fn line_met(
    pictures: &[u32; 2304],
    recording: &[u8],
    state: State,
    met: Next,
    line: &mut [u8; 128],
) -> Listed
    requires { Inside met.step (length recording.now) }
    ensures { Stepped (met_turn pictures.now recording.now state met) line.old result [] line.new empty_table }
{
    let step = met.step;
    match step {
        Step::Unit(place, n, next) => {
            let end = place + n;
            let answer = met.answer;
            let numbers = met.numbers;
            let signed = met.signed;
            let unit = &recording[place..end];
            let length = unit_line(line, pictures, place, n, unit, answer, &numbers, &signed);
            Listed {
                state: counted(state, next, is_refused(answer)),
                length,
                more: true,
            }
        }
        Step::End => finish(state, line),
        Step::Refused(_) => broken(state, recording.len(), line),
    }
}

// The next line of a listing, by the sets in a table's two arrays, to the front of `line`. Scratch is the walk's, and so are the arrays: a set that is met goes into them.
fn line_by(
    by_length: bool,
    sequences: &mut [u32; 224],
    pictures: &mut [u32; 2304],
    recording: &[u8],
    state: State,
    scratch: &mut [u8],
    line: &mut [u8; 128],
) -> Listed
    ensures { Stepped (turn_by (next_by by_length) (table_of sequences.old pictures.old) recording.now state scratch.old) line.old result scratch.new line.new (table_of sequences.new pictures.new) }
{
    let size = recording.len();
    if MOST < size {
        return too_long(state, line);
    }
    let from = state.from;
    let met = walk_on(by_length, sequences, pictures, recording, from, scratch);
    line_met(pictures, recording, state, met, line)
}

// Of a recording with start codes, by words that are lent. What they hold plays no part in the line: who lists a whole recording lends the same at each step, since
// to clear them takes as long as most steps.
pub fn list_step_into(
    sequences: &mut [u32; 224],
    pictures: &mut [u32; 2304],
    recording: &[u8],
    state: State,
    scratch: &mut [u8],
    line: &mut [u8; 128],
    w: &mut AllWords<'_>,
) -> Listed
    ensures stepped { Stepped (turn (table_of sequences.old pictures.old) recording.now state scratch.old) line.old result scratch.new line.new (table_of sequences.new pictures.new) }
    ensures words { lent_in w.new ≡ words_left (table_of sequences.old pictures.old) recording.now state scratch.old (lent_in w.old) }
    ensures same { SameLent w.old w.new }
{
    if recording.len() > MOST {
        return too_long(state, line);
    }
    let from = state.from;
    let met = walk_lent(false, sequences, pictures, recording, from, scratch, w);
    line_met(pictures, recording, state, met, line)
}

// The same by words of its own.
pub fn list_step(
    sequences: &mut [u32; 224],
    pictures: &mut [u32; 2304],
    recording: &[u8],
    state: State,
    scratch: &mut [u8],
    line: &mut [u8; 128],
) -> Listed
    ensures { Stepped (turn (table_of sequences.old pictures.old) recording.now state scratch.old) line.old result scratch.new line.new (table_of sequences.new pictures.new) }
{
    line_by(false, sequences, pictures, recording, state, scratch, line)
}

// Of one framed by length.
pub fn list_framed_step(
    sequences: &mut [u32; 224],
    pictures: &mut [u32; 2304],
    recording: &[u8],
    state: State,
    scratch: &mut [u8],
    line: &mut [u8; 128],
) -> Listed
    ensures { Stepped (framed_turn (table_of sequences.old pictures.old) recording.now state scratch.old) line.old result scratch.new line.new (table_of sequences.new pictures.new) }
{
    line_by(true, sequences, pictures, recording, state, scratch, line)
}
