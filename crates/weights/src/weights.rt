// A list that is there only under a condition.
ghost use Rattle.std.specs.Prelude.{◌≡◌};
ghost use Rattle.bits.specs.Refusals.{pick};

pub fn count_if(there: bool, n: u32) -> u32
    ensures { result ≡ pick there n 0 }
{
    if there { n } else { 0 }
}
