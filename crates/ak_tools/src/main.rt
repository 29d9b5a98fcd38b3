//! The tools: the words after the program's name, standard input, standard output and the exit status.
#![tactic(auto)]

mod compiling;
mod status;
#[cfg(test)]
mod tests;
mod tools;
mod words;

use crate::status::ToolStatus;
use crate::tools::tools;
use ak_std::streams::{StdSink, StdSource};
use ak_std::words::command_words;
use std::io;
use std::process::ExitCode;

/// Carries out the tool that the words give, and ends with the number of its status. Nothing is told on standard error.
fn main(rt: HostRuntime) -> ExitCode {
    match command_words(&rt) {
        Ok(words) => {
            let mut source = StdSource::new(rt.stdin());
            let mut sink = StdSink::new(rt.stdout());
            let status = tools(rt.alloc(), words.as_slice(), &mut source, &mut sink);
            ExitCode::from(status.number())
        }
        Err(error) if error.kind() == io::ErrorKind::OutOfMemory => {
            ExitCode::from(ToolStatus::NoMemory.number())
        }
        Err(_) => ExitCode::from(ToolStatus::Usage { place: 0 }.number()),
    }
}
