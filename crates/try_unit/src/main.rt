// Reads units at the edges of the rules that are run and not proved: active counts, QP, deblocking, lists, view indices, prefix units. What it prints is held to the file
// stdout beside src/. tests/try_unit.py makes the units and works out the answers.
#![tactic(auto)]

mod show; // a unit's answer as text
mod cases; // the units

use std::io;

fn main(rt: HostRuntime) -> io::Result<()> {
    cases::all(&rt)
}
