// The walk over a recording framed by length.
ghost use Rattle.std.specs.Prelude.{◌≡◌, []};
ghost use Rattle.header.specs.Lead.{table_of};
ghost use Rattle.unit.specs.Into.{lent_words, words_after};
ghost use Rattle.framed.specs.Framed.{next_framed};
ghost use Rattle.framed.specs.Walked.{walked_framed_headers};
ghost use Rattle.exports.specs.Walks.{came, walk_out};

use crate::walks::{StepOut, WalkOut, come, walk_told};
use framed::headers::walk_framed_headers_into;
use framed::step::next_framed;
use header::slice::Words;
use unit::into::AllWords;

// The unit whose length stands at a place of a recording framed by length, with nothing read; what stands at any place is taken for a length. Refused is also a broken
// length, with 29 and its place.
#[unsafe(no_mangle)]
pub extern "C" fn tuz_next_framed(recording: &[u8], from: usize) -> StepOut
    ensures { result ≡ came (next_framed recording.now from) }
{
    come(next_framed(recording, from))
}

// One step of the walk over it, which reads headers alone, as `tuz_walk_headers` does.
#[unsafe(no_mangle)]
pub extern "C" fn tuz_walk_framed_headers<'a>(
    sequences: &mut [u32; 224],
    pictures: &mut [u32; 2304],
    recording: &[u8],
    from: usize,
    numbers: &'a mut [u32; 57],
    signed: &'a mut [i32; 7],
    l0: &'a mut [u32; 198],
    l1: &'a mut [u32; 198],
    marking: &'a mut [u32; 198],
    w0: &'a mut [i32; 256],
    w1: &'a mut [i32; 256],
    base: &'a mut [u32; 198],
) -> WalkOut
    ensures value { result ≡ walk_out (walked_framed_headers (table_of sequences.old pictures.old) recording.now from []).walked }
    ensures table { table_of sequences.new pictures.new ≡ (walked_framed_headers (table_of sequences.old pictures.old) recording.now from []).table }
    ensures words { (lent_words numbers signed l0 l1 marking w0 w1 base).exit ≡ words_after (walked_framed_headers (table_of sequences.old pictures.old) recording.now from []).walked.read (lent_words numbers signed l0 l1 marking w0 w1 base).entry }
{
    let mut words = AllWords {
        header: Words {
            numbers,
            signed,
            l0,
            l1,
            marking,
            w0,
            w1,
        },
        base,
    };
    let w = walk_framed_headers_into(sequences, pictures, recording, from, &mut words);
    let step = w.step;
    let answer = w.answer;
    walk_told(step, answer)
}
