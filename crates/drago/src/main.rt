//! The program: a reasoner for Distributed Description Logics that answers request lines with proved verdicts.
//!
//! `words` has the words after the program's name, and `alone` the top call, which does what they ask for: a session, `make` the
//! requests that are made from three numbers, or `drill` the line that sums up a session over these, as `summary` writes it. What it
//! promises is `specs/Made.antt`, `specs/Drilled.antt`, and `specs/Headline.antt` of `dd_server`.
#![tactic(auto)]

mod alone;
mod drill;
mod make;
mod summary;
mod words;

use crate::alone::{USAGE, drago_alone};
use crate::words::words;
use dd_lines::{StdSink, StdSource};
use dd_server::Status;
use std::io;
use std::process::ExitCode;

fn main(rt: HostRuntime) -> ExitCode {
    let mut source = StdSource::new(rt.stdin());
    let mut sink = StdSink::new(rt.stdout());
    let status = match words(&rt) {
        Ok(words) => drago_alone(rt.alloc(), words.as_slice(), &mut source, &mut sink),
        Err(_) => Status::Memory,
    };
    if let Status::Words = status {
        // Where the line cannot be written, the status still tells.
        let _ = io::Write::write_all(&mut rt.stderr(), USAGE);
    }
    ExitCode::from(status.number())
}

#[cfg(test)]
mod tests;
