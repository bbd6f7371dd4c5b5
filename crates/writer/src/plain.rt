// Whether words hold a record: marks and flags are 0 or 1, and no count is over its list's capacity.
ghost use Rattle.std.specs.Prelude.{◌&&◌, ◌≡◌, ◌≤◌};
ghost use Rattle.record.specs.Fields.{number_in};
ghost use Rattle.record.specs.Record.{is_bit_z, plain_numbers, plain_weights};

use fields::conditions::{both, either};
use record::plain::is_plain_numbers;

fn is_bit(v: i32) -> bool
    ensures { result ≡ is_bit_z v }
{
    either(v == 0, v == 1)
}

// Whether the flags of so many entries of weights are.
fn is_plain_weights(count: u32, words: &[i32; 256]) -> bool
    requires { count ≤ 32 }
    ensures { result ≡ plain_weights count words.now }
{
    for i in 0..count {
        let k = 8 * (i as usize);
        if !both(is_bit(words[k]), is_bit(words[k + 3])) {
            return false;
        }
    }
    true
}

pub(crate) fn is_plain(numbers: &[u32; 57], w0: &[i32; 256], w1: &[i32; 256]) -> bool
    ensures { result ≡ plain_numbers numbers.now && (plain_weights (number_in numbers.now 37) w0.now && plain_weights (number_in numbers.now 38) w1.now) }
{
    if !is_plain_numbers(numbers) {
        return false;
    }
    both(
        is_plain_weights(numbers[37], w0),
        is_plain_weights(numbers[38], w1),
    )
}
