// How large a header gets.
ghost use Rattle.std.specs.Prelude.{◌≡◌};
ghost use Rattle.size.specs.InWords.{bound_in};

use size::most::header_bound;

// How many bits the header that words hold has at most, by a table's array of picture sets and the header's numbers alone. A buffer with room for as many bits is
// never too short for `tuz_write_header`.
#[unsafe(no_mangle)]
pub extern "C" fn tuz_header_bound(pictures: &[u32; 2304], numbers: &[u32; 57]) -> usize
    ensures { result ≡ bound_in pictures.now numbers.now }
{
    header_bound(pictures, numbers)
}
