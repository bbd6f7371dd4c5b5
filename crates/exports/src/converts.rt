// From lengths to start codes and back.
ghost use Rattle.std.specs.Prelude.{◌≡◌};
ghost use Rattle.framed.specs.Convert.{to_start_codes, to_lengths};
ghost use Rattle.exports.specs.Converts.{converted_out};

use bits::refusals::Refusal;
use framed::convert::{to_lengths, to_start_codes};

// What converting answers: how many bytes the result has, or the rules' refusal. What the answer does not speak of is zero.
#[repr(C)]
#[derive(Clone, Copy)]
pub struct ConvertedOut {
    pub number: u32,
    pub value: i64,
    pub bytes: usize,
}

fn converted_out(a: Result<usize, Refusal>) -> ConvertedOut
    ensures { result ≡ converted_out a }
{
    match a {
        Ok(bytes) => ConvertedOut {
            number: 0,
            value: 0,
            bytes,
        },
        Err(why) => ConvertedOut {
            number: why.number as u32,
            value: why.value,
            bytes: 0,
        },
    }
}

// The units of a recording framed by length, each behind 00 00 00 01: the result is as long as the recording. A refusal leaves the output as it was.
#[unsafe(no_mangle)]
pub extern "C" fn tuz_to_start_codes(recording: &[u8], out: &mut [u8]) -> ConvertedOut
    ensures { (result ≡ converted_out (to_start_codes recording.now out.old).answer) × (out.new ≡ (to_start_codes recording.now out.old).left) }
{
    converted_out(to_start_codes(recording, out))
}

// The units of a recording with start codes, each behind its length. A refusal leaves the output as it was; 26 has the bytes that are needed.
#[unsafe(no_mangle)]
pub extern "C" fn tuz_to_lengths(recording: &[u8], out: &mut [u8]) -> ConvertedOut
    ensures { (result ≡ converted_out (to_lengths recording.now out.old).answer) × (out.new ≡ (to_lengths recording.now out.old).left) }
{
    converted_out(to_lengths(recording, out))
}
