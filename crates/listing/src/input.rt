// Standard input, read to its end. A read may bring less than is asked, as a slow pipe does: reading goes on until one brings nothing, which is the end. One that
// fails is not taken for the end.
ghost use Rattle.std.specs.Prelude.{◌≡◌, ◌≤◌, IfOk, length};

use std::io::{self, Read};

// One byte more than is listed, so that a longer input is seen to be one.
pub(crate) fn room() -> [u8; 65537]
    ensures { 65537 ≡ length result }
{
    [0; 65537]
}

// To the front of `d`, until it is full or the input ends: how many bytes there are.
pub(crate) fn read_all(from: &mut impl Read, d: &mut [u8]) -> io::Result<usize>
    ensures { IfOk result (λ n. n ≤ length d.new) }
{
    let mut done: usize = 0;
    // No `for`: a read moves by what it brought.
    while done < d.len() {
        let more = from.read(&mut d[done..])?;
        if more == 0 {
            return Ok(done);
        }
        done += more;
    }
    Ok(done)
}
