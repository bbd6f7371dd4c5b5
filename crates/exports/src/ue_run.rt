// Codes, one after the other.
ghost use Rattle.std.specs.Prelude.{◌≡◌};
ghost use Rattle.bits.specs.Bits.{bits_of};
ghost use Rattle.exports.specs.Runs.{ue_run, packed};

use bits::read::Cursor;

// Reads up to n codes ue(v), one after the other from place 0 on: how many there are before the first refusal, times 2^32, plus the sum of their values modulo 2^32.
#[unsafe(no_mangle)]
pub extern "C" fn tuz_ue_run(s: &[u8], n: u32) -> u64
    ensures { result ≡ ue_run n (bits_of s.now) 0 0 0 }
{
    let mut c = Cursor { at: 0 };
    let mut sum: u32 = 0;
    for i in 0..n {
        let Ok((v, next)) = c.ue(s) else {
            return pack(i, sum);
        };
        sum = std::num::wrapping_add_u32(sum, v);
        c = next;
    }
    pack(n, sum)
}

fn pack(count: u32, sum: u32) -> u64
    ensures { result ≡ packed count sum }
{
    (count as u64) * 0x1_0000_0000 + sum as u64
}
