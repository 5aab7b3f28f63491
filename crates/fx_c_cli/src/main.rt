//! The program `fixd-c`: the real output and files, the words, and the one call that does the rest.
//!
//! # Contract
//!
//! `main` hands the words, the files, the output and the notes to `fixd_c`, and ends with its status, as `fx_cli` does.
//!
//! # Inside
//!
//! `fx_c_command::fixd_c` has every promise, over any shelf and sinks. Nothing is decided here but what to do where the
//! words can't even be taken.
#![tactic(auto)]

use fx_base::{Files, Status, StdErr, StdOut};
use fx_c_command::{End, finish, fixd_c};
use std::env;
use std::io::ErrorKind;
use std::process::ExitCode;

// The status of a call without words, whose line is written.
fn ended(end: End<'_>, notes: &mut StdErr) -> ExitCode {
    let Status(status) = finish(end, notes);
    ExitCode::from(status)
}

fn main(rt: HostRuntime) -> ExitCode {
    let mut notes = StdErr::new(rt.stderr());
    let all = match env::args(&rt) {
        Ok(all) => all,
        Err(error) => {
            let end = match error.kind() {
                ErrorKind::OutOfMemory => End::NoMemory,
                _ => End::Usage,
            };
            return ended(end, &mut notes);
        }
    };
    let Ok(words) = all.skip(1).collect::<Vec<String>>(rt.alloc()) else {
        return ended(End::NoMemory, &mut notes);
    };
    let mut shelf = Files::new(&rt);
    let mut output = StdOut::new(rt.stdout());
    let Status(status) = fixd_c(rt.alloc(), &words, &mut shelf, &mut output, &mut notes);
    ExitCode::from(status)
}
