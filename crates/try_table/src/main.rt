// Puts sets into a table at every limit of the rules and one beyond, both ends of each field, and prints what is answered and what the entry then holds. What
// it prints is held to the file stdout beside src/.
#![tactic(auto)]

mod show; // answers as text
mod sequences; // a sequence set's fields
mod pictures; // a picture set's fields
mod ids; // ids, neighbours, and entries that no put writes
mod widths; // the change cycle's width, as puts keep it and as no put writes it

use std::io;

fn main(rt: HostRuntime) -> io::Result<()> {
    sequences::all(&rt)?;
    pictures::all(&rt)?;
    ids::all(&rt)?;
    widths::all(&rt)
}
