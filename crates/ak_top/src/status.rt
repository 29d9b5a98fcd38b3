//! How a command ended.

ghost use Rattle.std.specs.Prelude.{◌≡◌, ◌∷◌, ◌++◌, IfOk, OnOk, decimal, reverse};
ghost use Rattle.ak_machine.specs.Status.{status_back, status_of};
ghost use Rattle.ak_cycle.specs.Turns.{IsFinished};
ghost use Rattle.ak_text.specs.Decimal.{decimal_of};
ghost use Rattle.ak_top.specs.Status.{number_of, message_of, name_of_kind, IsStatusOf};

use ak_base::list::NoMemory;
use ak_base::number::Num;
use ak_history::event::{Event, History};
use ak_labor::ask::Ask;
use ak_text::decimal::{write_num, write_u64};
use ak_trace::entry::{Ending, Entry, Trace};
use std::alloc::Global;

/// How a command ended.
#[derive(Debug, Drop)]
pub enum Status {
    /// The run ended idle or stopped.
    Done,
    /// The run ended by an error that no monitor caught.
    Unhandled { num: Num },
    /// The words are no command; `place` counts words from 0.
    Usage { place: u32 },
    /// The script is refused: a line from 1, or 0 for the script as a whole, and the kind of the fault.
    Refused { line: u32, kind: u8 },
    /// A read of the source failed.
    ReadFault,
    /// A write to the sink failed.
    WriteFault,
    /// As many jobs ran as the limit allows, and one more could run.
    Jobs,
    /// There was no memory. Nothing was written.
    NoMemory,
    /// The history of a replay is none, or is not legal: the number of its first line at fault in the source, or of the line
    /// after the source's last where no line is `%pool`.
    BadHistory { line: u32 },
    /// The script of a replay makes another call than its history has next, at this place, counted from 0.
    Stray { place: u32, asked: Ask, kept: Event },
    /// The script of a replay makes one call more than its history has.
    Short { asked: Ask },
    /// Every thread is reserved, and the works that are left wait for one that is not.
    Stuck,
}

impl Status {
    /// The exit status of the program, 0 to 10.
    pub fn number(&self) -> u8
        ensures { result ≡ number_of self.now }
    {
        match self {
            Status::Done => 0,
            Status::Unhandled { .. } => 1,
            Status::Usage { .. } => 2,
            Status::Refused { .. } => 3,
            Status::ReadFault => 4,
            Status::WriteFault => 5,
            Status::Jobs => 6,
            Status::NoMemory => 7,
            Status::BadHistory { .. } => 8,
            Status::Stray { .. } => 9,
            Status::Short { .. } => 9,
            Status::Stuck => 10,
        }
    }
}

/// The status that the last entries of a trace tell, where the trace has its end.
pub fn status_of_trace(trace: &Trace) -> Status
    requires { IsFinished (status_of trace.now) }
    ensures { IsStatusOf (status_of trace.now) result }
{
    match trace.as_slice() {
        [before @ .., Entry::End { why }] => status_at_end(before, *why),
        _ => unreachable!(),
    }
}

// The status of a run that ended for a reason, behind these entries.
fn status_at_end(before: &[Entry], why: Ending) -> Status
    requires { IsFinished (status_back (Entry.End why ∷ reverse before.now)) }
    ensures { IsStatusOf (status_back (Entry.End why ∷ reverse before.now)) result }
{
    match why {
        Ending::Idle => Status::Done,
        Ending::Stopped => Status::Done,
        Ending::Jobs => Status::Jobs,
        Ending::Stuck => Status::Stuck,
        Ending::Unhandled => match before {
            [.., Entry::Unhandled { num }] => Status::Unhandled { num: *num },
            _ => unreachable!(),
        },
    }
}

/// What a command gave: its status, and the trace and the history of its run. Both are empty where there was no run.
#[derive(Debug, Drop)]
pub struct Report {
    pub status: Status,
    pub trace: Trace,
    pub history: History,
}

/// The name of a kind of fault of a script.
fn kind_name(kind: u8) -> &'static str
    ensures { result.now ≡ name_of_kind kind }
{
    match kind {
        1 => "BadLine",
        2 => "TooLong",
        3 => "TooMany",
        4 => "BadNumber",
        5 => "NoMain",
        6 => "TwiceNamed",
        7 => "UnknownName",
        8 => "WrongKind",
        9 => "WrongCount",
        11 => "NoAsk",
        _ => "",
    }
}

/// The line for standard error, without a line end; it is empty for `Done`. Own.
///
/// # Errors
///
/// `NoMemory` where there is no memory for the text.
pub fn message(alloc: Global, status: &Status) -> Result<Vec<u8>, NoMemory>
    ensures { IfOk result (λ text. text.items ≡ message_of status.now) }
{
    let mut text = Vec::new(alloc);
    match status {
        Status::Done => {}
        Status::Unhandled { num } => {
            text.extend_from_slice(b"unhandled error ")?;
            push_num(&mut text, *num)?;
        }
        Status::Usage { place } => {
            text.extend_from_slice(b"usage: word ")?;
            push_u64(&mut text, u64::from(*place))?;
        }
        Status::Refused { line, kind } => {
            text.extend_from_slice(b"line ")?;
            push_u64(&mut text, u64::from(*line))?;
            text.extend_from_slice(b": ")?;
            text.extend_from_slice(kind_name(*kind).as_bytes())?;
        }
        Status::ReadFault => text.extend_from_slice(b"read fault")?,
        Status::WriteFault => text.extend_from_slice(b"write fault")?,
        Status::Jobs => text.extend_from_slice(b"job limit reached")?,
        Status::NoMemory => text.extend_from_slice(b"no memory")?,
        Status::BadHistory { line } => {
            text.extend_from_slice(b"history line ")?;
            push_u64(&mut text, u64::from(*line))?;
        }
        Status::Stray { place, .. } => {
            text.extend_from_slice(b"history differs at event ")?;
            push_u64(&mut text, u64::from(*place))?;
        }
        Status::Short { .. } => text.extend_from_slice(b"history ends too soon")?,
        Status::Stuck => text.extend_from_slice(b"stuck: all threads are reserved")?,
    }
    Ok(text)
}

// Puts the decimal text of a number last.
fn push_num(text: &mut Vec<u8>, num: Num) -> Result<(), NoMemory>
    ensures { OnOk result (text.new.items ≡ text.old.items ++ decimal_of num) }
{
    let mut digits = [0; 20];
    let len = write_num(num, &mut digits);
    text.extend_from_slice(&digits[..len])
}

fn push_u64(text: &mut Vec<u8>, number: u64) -> Result<(), NoMemory>
    ensures { OnOk result (text.new.items ≡ text.old.items ++ decimal number) }
{
    let mut digits = [0; 20];
    let len = write_u64(number, &mut digits);
    text.extend_from_slice(&digits[..len])
}
