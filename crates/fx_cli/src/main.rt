//! The program `fixd`: the real streams and files, the words, and the one call that does the rest.
//!
//! # Contract
//!
//! `main` hands the words, the files and the three streams to `fixd`, and ends with its status; where the words can't
//! be taken, it ends as for words that are no command's, or for want of memory. Here stand a stored run of `fixd` and
//! seven tests; other calls are cases, or stand in `.ci/checks/streams` and `demos`.
//!
//! # Inside
//!
//! `fx_command::fixd` has every promise, over any shelf, source and sinks. Nothing is decided here but what to do where
//! the words can't even be taken.
#![tactic(auto)]

use fx_base::{Files, Status, StdErr, StdIn, StdOut};
use fx_command::{End, fixd};
use std::env;
use std::io::ErrorKind;
use std::process::ExitCode;

// The status of a call without words, whose line is written.
fn ended(end: End<'_>, notes: &mut StdErr) -> ExitCode {
    end.note(notes);
    ExitCode::from(end.status().0)
}

fn main(rt: HostRuntime) -> ExitCode {
    let mut notes = StdErr::new(rt.stderr());
    let all = match env::args(&rt) {
        Ok(all) => all,
        Err(error) => {
            let end = match error.kind() {
                ErrorKind::OutOfMemory => End::NoMemory,
                _ => End::Usage,
            };
            return ended(end, &mut notes);
        }
    };
    let Ok(words) = all.skip(1).collect::<Vec<String>>(rt.alloc()) else {
        return ended(End::NoMemory, &mut notes);
    };
    let mut shelf = Files::new(&rt);
    let mut input = StdIn::new(rt.stdin());
    let mut output = StdOut::new(rt.stdout());
    let Status(status) = fixd(
        rt.alloc(),
        &words,
        &mut shelf,
        &mut input,
        &mut output,
        &mut notes,
    );
    ExitCode::from(status)
}

#[cfg(test)]
mod failing;
#[cfg(test)]
mod tests;
#[cfg(test)]
mod watched;
