// Writes the listing of a recording (docs/RULES.md, 'A listing, whole'): reads at most 65,536 bytes of standard input, lists them with the sample sets, and writes
// each line as it comes. Here bytes are read and written; what the lines say is the crate `list_steps`'s.
#![tactic(auto)]

mod input; // all of standard input

use header::slice::Words;
use list_steps::sample::sample_table;
use list_steps::step::{list_step_into, start};
use std::io;
use std::process::ExitCode;
use unit::into::AllWords;

// A message on standard error, and the status of a failure, which stands where that is gone too.
fn complain(rt: &impl Eprint, words: &str) -> ExitCode {
    let _ = eprintln!(rt; "listing: {words}");
    ExitCode::FAILURE
}

// Line after line, until there are no more, or one cannot be written.
fn print(rt: &impl Print, recording: &[u8], scratch: &mut [u8]) -> io::Result<()> {
    let t = sample_table();
    let mut sequences = t.sequences;
    let mut pictures = t.pictures;
    let mut line = [0u8; 128];
    let mut numbers = [0u32; 57];
    let mut signed = [0i32; 7];
    let mut l0 = [0u32; 198];
    let mut l1 = [0u32; 198];
    let mut marking = [0u32; 198];
    let mut w0 = [0i32; 256];
    let mut w1 = [0i32; 256];
    let mut base = [0u32; 198];
    let mut words = AllWords {
        header: Words {
            numbers: &mut numbers,
            signed: &mut signed,
            l0: &mut l0,
            l1: &mut l1,
            marking: &mut marking,
            w0: &mut w0,
            w1: &mut w1,
        },
        base: &mut base,
    };
    let mut state = start();
    loop {
        let l = list_step_into(
            &mut sequences,
            &mut pictures,
            recording,
            state,
            scratch,
            &mut line,
            &mut words,
        );
        let n = l.length;
        rt.write_all(&line[..n])?;
        if !l.more {
            return Ok(());
        }
        state = l.state;
    }
}

fn main(rt: HostRuntime) -> ExitCode {
    let mut bytes = input::room();
    let mut scratch = [0u8; 65536];
    let Ok(n) = input::read_all(&mut rt.reader(), &mut bytes) else {
        return complain(&rt, "standard input cannot be read");
    };
    if print(&rt, &bytes[..n], &mut scratch).is_err() {
        return complain(&rt, "standard output cannot be written");
    }
    ExitCode::SUCCESS
}
