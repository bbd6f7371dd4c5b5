// Whether words say what they say in one way: marks and flags are 0 or 1, and no count is over its list's capacity. Nothing returns early: tests without
// branches are cheaper, and nearly all words pass.
#![tactic(auto, unfolding(crate::specs::Record::plain_numbers))]

ghost use Rattle.std.specs.Prelude.{◌≡◌, ◌&&◌, [], ◌∷◌, ◌<◌, take, drop};
ghost use Rattle.record.specs.Record.{withins, flags, plain_numbers};

use fields::conditions::both;

// Whether the words at four places are 0 or 1.
fn are_bits(numbers: &[u32; 57], i: usize, j: usize, k: usize, l: usize) -> bool
    requires { (i < 57) × ((j < 57) × ((k < 57) × (l < 57))) }
    ensures { result ≡ withins numbers.now 1 (i ∷ j ∷ k ∷ l ∷ []) }
{
    let a = both(numbers[i] <= 1, numbers[j] <= 1);
    let b = both(numbers[k] <= 1, numbers[l] <= 1);
    both(a, b)
}

// The marks and flags from colour_plane_id to num_ref_idx_l1_active_minus1.
fn is_plain_front(numbers: &[u32; 57]) -> bool
    ensures { result ≡ withins numbers.now 1 (take 16 flags) }
{
    let a = both(
        are_bits(numbers, 4, 7, 8, 9),
        are_bits(numbers, 10, 11, 13, 15),
    );
    let b = both(
        are_bits(numbers, 16, 17, 19, 20),
        are_bits(numbers, 21, 22, 23, 25),
    );
    both(a, b)
}

// Those behind them.
fn is_plain_back(numbers: &[u32; 57]) -> bool
    ensures { result ≡ withins numbers.now 1 (drop 16 flags) }
{
    let a = both(
        are_bits(numbers, 27, 28, 30, 31),
        are_bits(numbers, 33, 35, 39, 40),
    );
    let b = both(
        are_bits(numbers, 41, 42, 43, 44),
        are_bits(numbers, 46, 48, 49, 50),
    );
    both(both(a, b), are_bits(numbers, 51, 53, 54, 55))
}

fn counts_fit(numbers: &[u32; 57]) -> bool
    ensures { result ≡ withins numbers.now 66 (29 ∷ 32 ∷ 45 ∷ []) && withins numbers.now 32 (37 ∷ 38 ∷ []) }
{
    let a = both(
        numbers[29] <= 66,
        both(numbers[32] <= 66, numbers[45] <= 66),
    );
    let b = both(numbers[37] <= 32, numbers[38] <= 32);
    both(a, b)
}

pub fn is_plain_numbers(numbers: &[u32; 57]) -> bool
    ensures { result ≡ plain_numbers numbers.now }
{
    let a = both(is_plain_front(numbers), is_plain_back(numbers));
    both(a, counts_fit(numbers))
}
