//! The reader of histories.

ghost use Rattle.std.specs.Prelude.{◌≡◌, ◌+◌, ◌<◌, ◌^◌, ℕ, List, length, OnOk};
ghost use Rattle.ak_history.specs.declared.event.Event.{Event as AnEvent};
ghost use Rattle.ak_history.specs.Answers.{IsRight, IsHistory, IsBadLine};
ghost use Rattle.ak_history.specs.Reading.{HistoryReads, IsFirstBad};
ghost use Rattle.ak_history.specs.Taking.{Takes, Tells, line_taken, line_added, with_line, count_of_events, walked, nothing_read};
ghost use Rattle.ak_text.specs.Lines.{numbered, lines_of};

use crate::event::{Event, History};
use crate::form;
use crate::line::HistoryLine;
use crate::refusal::HistoryRefused;
use ak_base::list::{Items, NoMemory};
use ak_row::line::counts;
use ak_row::row::Row;
use ak_text::line::Line;
use ak_text::text::lines;
use std::alloc::Global;

/// The most events of a text.
const MAX_EVENTS: usize = 16_000_000;

/// Numbers of lines.
pub type LineNos = Items<u32>;

/// A history that was read, and for each of its events the number of the line from which it came.
#[derive(Debug, Drop)]
pub struct Recorded {
    pub history: History,
    pub lines: LineNos,
}

/// The history that the bytes are, with the line of each event, where the first line of the bytes has the number
/// `first`. It takes more spellings than the writer makes: lines and words as in scripts, numbers with leading zeros, and
/// runs of empty drains in several lines, of 1 to 1,000,000 each. A history has at most 16,000,000 events. Own.
///
/// # Errors
///
/// `BadLine`, exactly at the first line that is neither skipped nor a line of a history, or whose events make their
/// number more than 16,000,000; `NoMemory`.
pub fn read_history(alloc: Global, bytes: &[u8], first: u32) -> Result<Recorded, HistoryRefused>
    requires { first + length bytes.now < 4294967295 }
    ensures right { IsRight bytes.now first result }
    ensures history { (events : List AnEvent) (lines : List ℕ)
        → HistoryReads bytes.now first events lines → IsHistory result events lines }
    ensures bad_line { (number : ℕ) → IsFirstBad bytes.now first number → IsBadLine result number }
{
    read_lines(alloc, bytes, first)
}

fn read_lines(alloc: Global, bytes: &[u8], first: u32) -> Result<Recorded, HistoryRefused>
    requires { first + length bytes.now < 4294967295 }
    ensures { Tells result (walked nothing_read (numbered first (lines_of bytes.now))) }
{
    let mut recorded = Recorded {
        history: Items::make(alloc),
        lines: Items::make(alloc),
    };
    let mut number = first;
    for line in lines(bytes) {
        if counts(&line) {
            recorded.take(alloc, number, &line)?;
        }
        number += 1;
    }
    Ok(recorded)
}

impl Recorded {
    // Takes a line that is not skipped.
    #[tactic(auto, unfolding(crate::specs::Taking::line_taken, crate::specs::Taking::line_found))]
    fn take(&mut self, alloc: Global, number: u32, line: &Line) -> Result<(), HistoryRefused>
        ensures { Takes result number self.new (line_taken self.old number line.now) }
    {
        let Some(mut row) = Row::of(line) else {
            return Err(HistoryRefused::BadLine { line: number });
        };
        match form::line(alloc, &mut row)? {
            Some(row) => self.add(alloc, number, row),
            None => Err(HistoryRefused::BadLine { line: number }),
        }
    }

    // Puts the events of a line last, where they are not too many.
    #[tactic(auto, unfolding(crate::specs::Taking::line_added))]
    fn add(&mut self, alloc: Global, number: u32, row: HistoryLine) -> Result<(), HistoryRefused>
        ensures { Takes result number self.new (line_added self.old number row) }
    {
        if self.history.len() + count_of_events(&row) > MAX_EVENTS {
            return Err(HistoryRefused::BadLine { line: number });
        }
        self.push_line(alloc, number, row)?;
        Ok(())
    }

    // Puts the events of a line last.
    fn push_line(&mut self, alloc: Global, number: u32, row: HistoryLine) -> Result<(), NoMemory>
        ensures { OnOk result (self.new ≡ with_line self.old number row) }
    {
        match row {
            HistoryLine::Idle(n) => self.push_idle(alloc, number, n),
            HistoryLine::Of(event) => self.push(number, event),
        }
    }

    // Puts so many drains that bring nothing last.
    fn push_idle(&mut self, alloc: Global, number: u32, n: u32) -> Result<(), NoMemory>
        ensures { OnOk result (self.new ≡ with_line self.old number (HistoryLine.Idle n)) }
    {
        for _ in 0..n {
            let drain = Event::Drain {
                ids: Items::make(alloc),
                requests: Items::make(alloc),
            };
            self.push(number, drain)?;
        }
        Ok(())
    }

    fn push(&mut self, number: u32, event: Event) -> Result<(), NoMemory>
        ensures { OnOk result (self.new ≡ with_line self.old number (HistoryLine.Of event)) }
    {
        self.history.push(event)?;
        self.lines.push(number)?;
        Ok(())
    }
}

// How many events a line has.
fn count_of_events(row: &HistoryLine) -> usize
    ensures count { result ≡ count_of_events row.now }
    ensures small { result < 2 ^ 32 }
{
    match row {
        HistoryLine::Idle(n) => *n as usize,
        HistoryLine::Of(_) => 1,
    }
}
