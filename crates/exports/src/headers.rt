// The walk that reads headers alone.
ghost use Rattle.std.specs.Prelude.{◌≡◌, []};
ghost use Rattle.header.specs.Lead.{table_of};
ghost use Rattle.unit.specs.Into.{lent_words, words_after};
ghost use Rattle.walk.specs.Headers.{walked_headers};
ghost use Rattle.exports.specs.Walks.{walk_out};

use crate::walks::{WalkOut, walk_told};
use header::slice::Words;
use unit::into::AllWords;
use walk::headers::walk_headers_into;

// One step of the walk from a place on, as `tuz_walk` has it, but that units are read from the recording itself, with no scratch: no body is handed on, and 26 does not
// come.
#[unsafe(no_mangle)]
pub extern "C" fn tuz_walk_headers<'a>(
    sequences: &mut [u32; 224],
    pictures: &mut [u32; 2304],
    recording: &[u8],
    from: usize,
    numbers: &'a mut [u32; 57],
    signed: &'a mut [i32; 7],
    l0: &'a mut [u32; 198],
    l1: &'a mut [u32; 198],
    marking: &'a mut [u32; 198],
    w0: &'a mut [i32; 256],
    w1: &'a mut [i32; 256],
    base: &'a mut [u32; 198],
) -> WalkOut
    ensures value { result ≡ walk_out (walked_headers (table_of sequences.old pictures.old) recording.now from []).walked }
    ensures table { table_of sequences.new pictures.new ≡ (walked_headers (table_of sequences.old pictures.old) recording.now from []).table }
    ensures words { (lent_words numbers signed l0 l1 marking w0 w1 base).exit ≡ words_after (walked_headers (table_of sequences.old pictures.old) recording.now from []).walked.read (lent_words numbers signed l0 l1 marking w0 w1 base).entry }
{
    let mut words = AllWords {
        header: Words {
            numbers,
            signed,
            l0,
            l1,
            marking,
            w0,
            w1,
        },
        base,
    };
    let w = walk_headers_into(sequences, pictures, recording, from, &mut words);
    let step = w.step;
    let answer = w.answer;
    walk_told(step, answer)
}
