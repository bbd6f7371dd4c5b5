// A field's mark.
ghost use Rattle.std.specs.Prelude.{false, ◌≡◌};
ghost use Rattle.bits.specs.Refusals.{got};
ghost use Rattle.fields.specs.Marked.{marked};
ghost use Rattle.bits.specs.Answers.{as_read};

use bits::read::{Cursor, Read};
use syntax::marks::Marked;

// An answer with the mark set.
pub(crate) fn marked<T: Copy>(a: Read<T>) -> Read<Marked<T>>
    ensures { as_read result ≡ marked (as_read a) }
{
    let (value, next) = a?;
    Ok((Marked { there: true, value }, next))
}

// What is absent, with the zero that stands for it.
pub(crate) fn absent<T: Copy>(c: Cursor, zero: T) -> Read<Marked<T>>
    ensures { as_read result ≡ got (record { there = false; value = zero }) c.at }
{
    Ok((
        Marked {
            there: false,
            value: zero,
        },
        c,
    ))
}
