//! The history in a record.

ghost use Rattle.std.specs.Prelude.{◌≡◌, ◌<◌, ◌≤◌, ◌+◌, ℕ, List, length, take, Err};
ghost use Rattle.ak_history.specs.declared.event.Event.{Event as AnEvent};
ghost use Rattle.ak_history.specs.Reading.{HistoryReads, IsFirstBad};
ghost use Rattle.ak_text.specs.Lines.{lines_of};
ghost use Rattle.ak_record.specs.Records.{IsRecord, IsFault, IsRight, IsHistory, IsLine};

use crate::cut::line_len;
use ak_history::event::History;
use ak_history::laws::one_reading;
use ak_history::reading::{Recorded, read_history};
use ak_history::refusal::HistoryRefused;
use ak_pool::check::CheckRefused;
use ak_pool::pool::Pool;
use std::alloc::Global;

/// Why bytes are no legal history.
#[derive(Clone, Copy, PartialEq, Eq, Debug)]
pub enum RecordRefused {
    /// The number of the first line at fault: it is no line of a history, its events make their number more than 16,000,000, or
    /// one of them is not legal after those before it.
    BadHistory { line: u32 },
    NoMemory,
}

/// Reads a history, the first of whose lines has the number `first`, and judges it: it is to be legal for a pool of so many
/// threads and askers. Own.
///
/// # Errors
///
/// `BadHistory`, exactly at the first line at fault: the lines before it are a legal history, and with it they are none.
/// `NoMemory` for want of memory.
pub fn read_record(
    alloc: Global,
    bytes: &[u8],
    first: u32,
    threads: u32,
    askers: u32,
) -> Result<History, RecordRefused>
    requires { first + length bytes.now < 4294967295 }
    ensures right { IsRight threads askers bytes.now first result }
    ensures history { (events : List AnEvent)
        → IsRecord threads askers bytes.now first events → IsHistory result events }
    ensures fault { (number : ℕ) → IsFault threads askers bytes.now first number
        → IsLine result number }
{
    // For the proof alone: a text is one history at the most.
    one_reading();
    match read_history(alloc, bytes, first) {
        Ok(recorded) => judged(alloc, recorded, threads, askers),
        Err(HistoryRefused::BadLine { line }) => {
            Err(refused_at(alloc, bytes, first, line, threads, askers))
        }
        Err(HistoryRefused::NoMemory) => Err(RecordRefused::NoMemory),
    }
}

// The history, where it is legal; else the line of its first event that is not.
fn judged(
    alloc: Global,
    recorded: Recorded,
    threads: u32,
    askers: u32,
) -> Result<History, RecordRefused>
    requires few { length recorded.history ≤ 16000000 }
    requires lines { length recorded.lines ≡ length recorded.history }
    ensures { (bytes : List ℕ) (first : ℕ)
        → HistoryReads bytes first recorded.history recorded.lines
        → IsRight threads askers bytes first result }
{
    // For the proof alone: a line of a text is one line of a history at the most.
    one_reading();
    let Recorded { history, lines } = recorded;
    match Pool::check(alloc, &history, threads, askers) {
        Ok(()) => Ok(history),
        Err(CheckRefused::Illegal { place }) => Err(RecordRefused::BadHistory {
            line: lines.as_slice()[place as usize],
        }),
        Err(CheckRefused::NoMemory) => Err(RecordRefused::NoMemory),
    }
}

// Why bytes with a bad line are refused: the line of the first event before it that is not legal, or else the bad line.
fn refused_at(
    alloc: Global,
    bytes: &[u8],
    first: u32,
    line: u32,
    threads: u32,
    askers: u32,
) -> RecordRefused
    requires few { first + length bytes.now < 4294967295 }
    requires bad { IsFirstBad bytes.now first line }
    ensures { IsRight threads askers bytes.now first (Err result) }
{
    // For the proof alone: a text is one history at the most.
    one_reading();
    match read_history(alloc, first_lines(bytes, line - first), first) {
        Ok(recorded) => match judged(alloc, recorded, threads, askers) {
            Ok(history) => {
                drop(history);
                RecordRefused::BadHistory { line }
            }
            Err(refused) => refused,
        },
        Err(HistoryRefused::BadLine { .. }) => unreachable!(),
        Err(HistoryRefused::NoMemory) => RecordRefused::NoMemory,
    }
}

// The first lines of a text.
fn first_lines(bytes: &[u8], count: u32) -> &[u8]
    ensures lines { lines_of result.now ≡ take count (lines_of bytes.now) }
    ensures within { length result.now ≤ length bytes.now }
{
    let mut end = 0;
    let mut left = count;
    while left > 0 && end < bytes.len() {
        end += line_len(&bytes[end..]);
        left -= 1;
    }
    &bytes[..end]
}
