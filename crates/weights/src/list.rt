// How many entries a list has: one for each active reference.
#![tactic(auto, unfolding(crate::specs::Counts::at_most32))]

ghost use Rattle.std.specs.Prelude.{◌≡◌};
ghost use Rattle.weights.specs.Counts.{at_most32};

// A count over 32 counts as 32.
pub fn at_most_32(n: u32) -> u32
    ensures { result ≡ at_most32 n }
{
    if n <= 32 { n } else { 32 }
}
