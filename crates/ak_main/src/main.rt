//! The program: the words after its name, standard input, standard output and the exit status.
#![tactic(auto)]

ghost use Rattle.std.specs.Prelude.{◌≡◌, length, IfOk};
ghost use Rattle.std.specs.List.{AllByRecursion};

use ak_base::list::Word;
use ak_labor::labor::{Plain, plain_hands};
use ak_std::streams::{StdSink, StdSource};
use ak_std::words::command_words;
use ak_top::status::{Status, message};
use ak_top::top::top;
use std::io::{self, Write};
use std::process::ExitCode;

/// Carries out the command that the words give, and ends with the number of its status.
fn main(rt: HostRuntime) -> ExitCode {
    match words_and_hands(&rt) {
        Ok((words, hands)) => {
            let mut source = StdSource::new(rt.stdin());
            let mut sink = StdSink::new(rt.stdout());
            let (report, _hands) = top(
                &rt,
                rt.alloc(),
                words.as_slice(),
                &mut source,
                &mut sink,
                hands,
            );
            tell(&rt, &report.status);
            ExitCode::from(report.status.number())
        }
        Err(error) if error.kind() == io::ErrorKind::OutOfMemory => {
            ExitCode::from(Status::NoMemory.number())
        }
        Err(_) => {
            let status = Status::Usage { place: 0 };
            tell(&rt, &status);
            ExitCode::from(status.number())
        }
    }
}

/// The words after the program's name, and a hand for each thread that a pool may have.
fn words_and_hands(rt: &HostRuntime) -> io::Result<(Vec<Word>, Vec<Plain>)>
    ensures { IfOk result (λ r. (length r.1.items ≡ 32) × AllByRecursion (λ h. h ≡ 0) r.1.items) }
{
    let words = command_words(rt)?;
    let hands = plain_hands(rt.alloc(), 32)?;
    Ok((words, hands))
}

/// Prints the message of a status on standard error, where it has one. Where there is no memory for it, or standard
/// error takes nothing, nothing more is told.
fn tell(rt: &HostRuntime, status: &Status) {
    if let Ok(text) = message(rt.alloc(), status) {
        if !text.is_empty() {
            let _ = print_line(rt, text.as_slice());
        }
    }
}

// Prints a line on standard error.
fn print_line(rt: &HostRuntime, text: &[u8]) -> io::Result<()> {
    let mut error = rt.stderr();
    error.write_all(text)?;
    error.write_all(b"\n")
}
