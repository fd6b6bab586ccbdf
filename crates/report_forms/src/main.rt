// Reports from standard input as forms, or, with the argument `reports`, forms from standard input as reports. What is refused is told on
// standard error, and the others are written all the same.
#![tactic(auto)]

mod from_forms;
mod from_reports;
mod hints;

use std::env::{Env, FillError};
use std::io;
use std::io::Eprint;

// What ends the output before the input does.
enum Failure {
    Unread(io::Error),
    Unwritten(io::Error),
}

fn main(rt: HostRuntime) {
    let mut word = [0u8; 8];
    let done = match rt.arg(1, &mut word) {
        Err(FillError::NotPresent) => from_reports::write_forms(&rt, &rt.stderr(), &mut rt.stdin()),
        Ok(length) if (&word[..length] == b"reports".as_slice()) & !streams::has_arg(&rt, 2) => {
            from_forms::write_reports(&rt, &rt.stderr(), &mut rt.stdin())
        }
        _ => {
            let _ = rt.eprintln("report_forms: the one argument that it takes is reports");
            Ok(())
        }
    };
    match done {
        Ok(()) => {}
        Err(Failure::Unread(error)) => {
            streams::fail(&rt, "report_forms: standard input can't be read", &error);
        }
        Err(Failure::Unwritten(error)) => {
            streams::fail(
                &rt,
                "report_forms: standard output can't be written",
                &error,
            );
        }
    }
}
