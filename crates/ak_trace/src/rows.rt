//! Entries by the words of their lines: a function for each group of first words.

ghost use Rattle.std.specs.Prelude.{◌≡◌};
ghost use Rattle.ak_row.specs.Parts.{Leaves};
ghost use Rattle.ak_trace.specs.Text.{ending_word};
ghost use Rattle.ak_trace.specs.Taken.{priority_of, answer_of, ending_of, priority_at, answer_at, ending_at, job_entry, error_entry, pool_entry, entry_behind, entry_of, entry_at};

use crate::entry::{Ending, Entry};
use crate::keyword::{ErrorWord, JobWord, PoolWord};
use ak_row::row::Row;
use ak_text::line::Line;

/// The entry of a line: `None` exactly where it is no entry's.
#[tactic(auto, unfolding(crate::specs::Taken::entry_of, crate::specs::Taken::entry_at))]
pub fn entry(line: &Line) -> Option<Entry>
    ensures { result ≡ entry_of line.now }
{
    let mut row = Row::of(line)?;
    let first = row.word()?;
    let entry = entry_behind(first, &mut row)?;
    row.end()?;
    Some(entry)
}

/// The entry that begins with the word, by the words behind it.
#[tactic(auto, unfolding(crate::specs::Taken::entry_behind))]
fn entry_behind(word: &[u8], row: &mut Row) -> Option<Entry>
    ensures { Leaves (λ e. e) result row.new (entry_behind word.now row.old) }
{
    if let Some(first) = JobWord::named(word) {
        return job_entry(first, row);
    }
    if let Some(first) = ErrorWord::named(word) {
        return error_entry(first, row);
    }
    if let Some(first) = PoolWord::named(word) {
        return pool_entry(first, row);
    }
    None
}

/// Entries on jobs and deferreds.
#[tactic(auto, unfolding(crate::specs::Taken::job_entry))]
fn job_entry(first: JobWord, row: &mut Row) -> Option<Entry>
    ensures { Leaves (λ e. e) result row.new (job_entry first row.old) }
{
    match first {
        JobWord::Cycle => Some(Entry::Cycle),
        JobWord::Enq => {
            let job = row.job()?;
            let low = priority(row)?;
            Some(Entry::Enq { job, low })
        }
        JobWord::Job => {
            let job = row.job()?;
            Some(Entry::Job { job })
        }
        JobWord::Fill => {
            let ivar = row.number()?;
            let num = row.signed()?;
            Some(Entry::Fill { ivar, num })
        }
        JobWord::Join => {
            let result = row.number()?;
            let right = row.number()?;
            Some(Entry::Join { result, right })
        }
        JobWord::Print => {
            let num = row.signed()?;
            Some(Entry::Print { num })
        }
    }
}

/// Entries on monitors and errors.
#[tactic(auto, unfolding(crate::specs::Taken::error_entry))]
fn error_entry(first: ErrorWord, row: &mut Row) -> Option<Entry>
    ensures { Leaves (λ e. e) result row.new (error_entry first row.old) }
{
    match first {
        ErrorWord::Monitor => {
            let mon = row.number()?;
            let parent = row.number()?;
            Some(Entry::Monitor { mon, parent })
        }
        ErrorWord::Detach => {
            let mon = row.number()?;
            Some(Entry::Detach { mon })
        }
        ErrorWord::Attach => {
            let mon = row.number()?;
            Some(Entry::Attach { mon })
        }
        ErrorWord::Error => {
            let num = row.signed()?;
            let mon = row.number()?;
            Some(Entry::Error { num, mon })
        }
        ErrorWord::Caught => {
            let mon = row.number()?;
            Some(Entry::Caught { mon })
        }
        ErrorWord::Rest => {
            let num = row.signed()?;
            Some(Entry::Rest { num })
        }
        ErrorWord::Unhandled => {
            let num = row.signed()?;
            Some(Entry::Unhandled { num })
        }
    }
}

/// Entries on works, helpers and requests, and the last entry.
#[tactic(auto, unfolding(crate::specs::Taken::pool_entry))]
fn pool_entry(first: PoolWord, row: &mut Row) -> Option<Entry>
    ensures { Leaves (λ e. e) result row.new (pool_entry first row.old) }
{
    match first {
        PoolWord::Submit => {
            let work = row.number()?;
            let kind = row.kind()?;
            let num = row.signed()?;
            Some(Entry::Submit { work, kind, num })
        }
        PoolWord::Helper => {
            let no = row.number()?;
            let granted = answer(row)?;
            Some(Entry::Helper { no, granted })
        }
        PoolWord::Arrive => {
            let work = row.number()?;
            let outcome = row.outcome()?;
            Some(Entry::Arrive { work, outcome })
        }
        PoolWord::Request => {
            let no = row.request()?;
            let num = row.signed()?;
            let result = row.number()?;
            Some(Entry::Request { no, num, result })
        }
        PoolWord::Answer => {
            let no = row.request()?;
            let num = row.signed()?;
            Some(Entry::Answer { no, num })
        }
        PoolWord::End => {
            let why = ending(row)?;
            Some(Entry::End { why })
        }
    }
}

/// The priority of a job: whether it is low.
#[tactic(auto, unfolding(crate::specs::Taken::priority_at))]
fn priority(row: &mut Row) -> Option<bool>
    ensures { Leaves (λ b. b) result row.new (priority_at row.old) }
{
    let low = priority_of(row.word()?)?;
    Some(low)
}

#[tactic(auto, unfolding(crate::specs::Taken::priority_of))]
fn priority_of(word: &[u8]) -> Option<bool>
    ensures { result ≡ priority_of word.now }
{
    match word {
        b"low" => Some(true),
        b"normal" => Some(false),
        _ => None,
    }
}

/// The answer to a helper: whether it is granted.
#[tactic(auto, unfolding(crate::specs::Taken::answer_at))]
fn answer(row: &mut Row) -> Option<bool>
    ensures { Leaves (λ b. b) result row.new (answer_at row.old) }
{
    let granted = answer_of(row.word()?)?;
    Some(granted)
}

#[tactic(auto, unfolding(crate::specs::Taken::answer_of))]
fn answer_of(word: &[u8]) -> Option<bool>
    ensures { result ≡ answer_of word.now }
{
    match word {
        b"granted" => Some(true),
        b"refused" => Some(false),
        _ => None,
    }
}

/// Why a run ended.
#[tactic(auto, unfolding(crate::specs::Taken::ending_at))]
fn ending(row: &mut Row) -> Option<Ending>
    ensures { Leaves (λ e. e) result row.new (ending_at row.old) }
{
    let why = ending_of(row.word()?)?;
    Some(why)
}

#[tactic(auto, unfolding(crate::specs::Taken::ending_of))]
fn ending_of(word: &[u8]) -> Option<Ending>
    ensures { result ≡ ending_of word.now }
{
    let all = [
        Ending::Idle,
        Ending::Stopped,
        Ending::Unhandled,
        Ending::Jobs,
        Ending::Stuck,
    ];
    all.iter().copied().find(|why| ending_bytes(*why) == word)
}

fn ending_bytes(why: Ending) -> &'static [u8]
    ensures { result.now ≡ ending_word why }
{
    match why {
        Ending::Idle => b"idle",
        Ending::Stopped => b"stopped",
        Ending::Unhandled => b"unhandled",
        Ending::Jobs => b"jobs",
        Ending::Stuck => b"stuck",
    }
}
