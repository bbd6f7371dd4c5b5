// Runs the edges of the rules that bits, nal and escape have, and prints each answer on a line. The cases come from standard input, which tests/try_bits.py writes;
// what is printed is held to the file stdout beside src/, which it works out anew.
#![tactic(auto)]

mod show; // answers as text
mod numbers; // the input's numbers
mod reads; // codes at their limits
mod puts; // writing at its limits
mod units; // first bytes, extensions, bodies
mod cases; // the input: one case after another

use std::io::{self, Read};

// To the front of `d`, until it is full or the input ends.
fn fill(from: &mut impl Read, d: &mut [u8]) -> io::Result<()> {
    let mut done: usize = 0;
    // No `for`: a read moves by what it brought.
    while done < d.len() {
        let more = from.read(&mut d[done..])?;
        if more == 0 {
            return Ok(());
        }
        done += more;
    }
    Ok(())
}

fn main(rt: HostRuntime) -> io::Result<()> {
    let mut s = [0u8; 65536]; // zeros stand behind the input
    fill(&mut rt.reader(), &mut s)?;
    cases::all(&rt, &s)
}
