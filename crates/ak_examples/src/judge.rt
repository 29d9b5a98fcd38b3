//! How a script is to go.

use crate::commands::{is_run, output_of, replay_with};
use crate::files::Script;
use crate::outputs::{has_works, history_part};
use ak_base::list::{NoMemory, Word};
use std::alloc::Global;
use std::sync::Wait;
use std::thread::Threads;

/// How a script went.
#[derive(Clone, Copy, PartialEq, Eq, Debug)]
pub enum Verdict {
    /// As it is to.
    Right,
    /// The command wrote other bytes than those that lie beside the script.
    Differs,
    /// A replay of what was written gave other bytes.
    NotReplayed,
    /// A replay of what lies beside the script gave other bytes.
    NoRun,
    /// Nothing was written.
    Empty,
}

impl Verdict {
    /// The verdict in words.
    pub fn text(self) -> &'static str {
        match self {
            Verdict::Right => "right",
            Verdict::Differs => "another output than the stored one",
            Verdict::NotReplayed => "its replay gives another output",
            Verdict::NoRun => "the stored output is none of its runs",
            Verdict::Empty => "no output",
        }
    }
}

/// Carries out the command of a script. What a run writes is replayed to the same bytes, and so is what lies beside the script. The
/// two are the same where no work is handed in; else the threads decide in which order works come back.
///
/// # Errors
///
/// Want of memory outside of the commands.
pub fn judge<R: Threads + Wait + Sync>(
    rt: &R,
    alloc: Global,
    script: &Script,
) -> Result<Verdict, NoMemory> {
    let written = output_of(rt, alloc, script.words.as_slice(), script.text.as_slice())?;
    if written.is_empty() {
        return Ok(Verdict::Empty);
    }
    let is_run = is_run(script.words.as_slice());
    if is_run && !replays(rt, alloc, script, written.as_slice())? {
        return Ok(Verdict::NotReplayed);
    }
    let Some(stored) = &script.output else {
        return Ok(Verdict::Right);
    };
    if is_run && has_works(stored.as_slice()) {
        if !replays(rt, alloc, script, stored.as_slice())? {
            return Ok(Verdict::NoRun);
        }
    } else if written.as_slice() != stored.as_slice() {
        return Ok(Verdict::Differs);
    }
    Ok(Verdict::Right)
}

/// Whether the script and the history of the output give the same output again.
fn replays<R: Threads + Wait + Sync>(
    rt: &R,
    alloc: Global,
    script: &Script,
    output: &[u8],
) -> Result<bool, NoMemory> {
    let words: Vec<Word> = replay_with(alloc, script.words.as_slice())?;
    let mut source = Vec::from_slice(alloc, script.text.as_slice())?;
    source.extend_from_slice(history_part(output))?;
    let again = output_of(rt, alloc, words.as_slice(), source.as_slice())?;
    Ok(again.as_slice() == output)
}
