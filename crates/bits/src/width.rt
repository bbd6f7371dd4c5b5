// How wide slice_group_change_cycle is.
ghost use Rattle.std.specs.Prelude.{◌≡◌};
ghost use Rattle.bits.specs.Width.{change_cycle_width};

// The least b with 2^b × rate ≥ size + rate, which is the number of binary digits of size ÷ rate rounded up; 0 where there is no rate.
pub fn change_cycle_width(size: u32, rate: u32) -> u32
    ensures { result ≡ change_cycle_width size rate }
{
    if rate == 0 {
        return 0;
    }
    let groups = (size as u64 + rate as u64 - 1) / rate as u64;
    64 - u64::leading_zeros(groups)
}
