// How many units of each kind were taken.
ghost use Rattle.std.specs.Prelude.{◌≡◌};
ghost use Rattle.exposures.specs.Take.{unit_counted, counted};

use crate::exposure::one_more;
use crate::slice::{Item, Kind};

#[repr(C)]
#[derive(Clone, Copy)]
pub struct Counts {
    pub slices: usize,
    pub redundant: usize,
    pub refused: usize,
    pub prefixes: usize,
    pub views: usize,
    pub others: usize,
}

// With a unit more that is not grouped.
fn count_unit(c: Counts, kind: Kind) -> Counts
    ensures { result ≡ unit_counted c kind }
{
    let mut n = c;
    match kind {
        Kind::Redundant => {
            n.redundant = one_more(c.redundant);
            n
        }
        Kind::Refused => {
            n.refused = one_more(c.refused);
            n
        }
        Kind::Prefix => {
            n.prefixes = one_more(c.prefixes);
            n
        }
        Kind::View => {
            n.views = one_more(c.views);
            n
        }
        Kind::Other => {
            n.others = one_more(c.others);
            n
        }
    }
}

// With a unit more.
pub(crate) fn count(c: Counts, item: Item) -> Counts
    ensures { result ≡ counted c item }
{
    match item {
        Item::Slice(_) => {
            let mut n = c;
            n.slices = one_more(c.slices);
            n
        }
        Item::Unit(k) => count_unit(c, k),
    }
}
