// Writes records at every limit of the rules with the writer, and those that it must refuse; what is written becomes a unit, which is read back and compared word
// by word. The records come from standard input, which tests/try_writer.py writes; what is printed is held to the file stdout beside src/, which it works out anew,
// bit by bit.
#![tactic(auto)]

mod show; // answers and bytes as text
mod sets; // the table
mod words; // a header's words
mod same; // whether words hold the same record
mod built; // a unit made of what was written
mod shown; // a record's line
mod numbers; // the input's numbers
mod cases; // the input: one record after another

use std::io::{self, Read};

// To the front of `d`, until it is full or the input ends.
fn fill(from: &mut impl Read, d: &mut [u8]) -> io::Result<()> {
    let mut done: usize = 0;
    // No `for`: a read moves by what it brought.
    while done < d.len() {
        let more = from.read(&mut d[done..])?;
        if more == 0 {
            return Ok(());
        }
        done += more;
    }
    Ok(())
}

fn main(rt: HostRuntime) -> io::Result<()> {
    let mut s = [0u8; 65536]; // zeros stand behind the input
    fill(&mut rt.reader(), &mut s)?;
    cases::all(&rt, &s)
}
