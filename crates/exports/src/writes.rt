// Writing a slice header.
ghost use Rattle.std.specs.Prelude.{◌≡◌};
ghost use Rattle.header.specs.Lead.{table_of};
ghost use Rattle.writer.specs.Write.{held_words, write_words};
ghost use Rattle.exports.specs.Writes.{wrote_out};

use bits::refusals::Refusal;
use table::table::Sets;
use writer::given::ExtensionGiven;
use writer::write::write_words_in;

// What writing a header answers: its length in bits, or the rules' refusal. What the answer does not speak of is zero.
#[repr(C)]
#[derive(Clone, Copy)]
pub struct WroteOut {
    pub number: u32,
    pub value: i64,
    pub bits: usize,
}

fn wrote_out(a: Result<usize, Refusal>) -> WroteOut
    ensures { result ≡ wrote_out a }
{
    match a {
        Ok(bits) => WroteOut {
            number: 0,
            value: 0,
            bits,
        },
        Err(why) => WroteOut {
            number: why.number as u32,
            value: why.value,
            bits: 0,
        },
    }
}

// The header that words hold, as `tuz_body` lays them down, written by the sets in a table's two arrays, for the unit that the first byte and the extension
// tell of. A refusal leaves the buffer as it was. Words behind a list's count are not looked at.
#[unsafe(no_mangle)]
pub extern "C" fn tuz_write_header<'a>(
    sequences: &'a [u32; 224],
    pictures: &'a [u32; 2304],
    first: u8,
    extension: ExtensionGiven,
    numbers: &[u32; 57],
    signed: &[i32; 7],
    l0: &[u32; 198],
    l1: &[u32; 198],
    marking: &[u32; 198],
    w0: &[i32; 256],
    w1: &[i32; 256],
    out: &mut [u8],
) -> WroteOut
    ensures { (result ≡ wrote_out (write_words (table_of sequences.now pictures.now) first extension (held_words numbers.now signed.now l0.now l1.now marking.now w0.now w1.now) out.old).answer) × (out.new ≡ (write_words (table_of sequences.now pictures.now) first extension (held_words numbers.now signed.now l0.now l1.now marking.now w0.now w1.now) out.old).left) }
{
    let sets = Sets {
        sequences,
        pictures,
    };
    wrote_out(write_words_in(
        sets, first, extension, numbers, signed, l0, l1, marking, w0, w1, out,
    ))
}
