//! The reader of traces.

ghost use Rattle.std.specs.Prelude.{◌≡◌, ◌<◌, ℕ, List, length, IfOk, IfErr};
ghost use Rattle.ak_trace.specs.declared.entry.Entry.{Entry as OneEntry};
ghost use Rattle.ak_trace.specs.declared.refusal.TraceRefused.TheVariants.{BadLine};
ghost use Rattle.ak_trace.specs.Reading.{IsEntry, TraceReads, HasBadLine, IsRight, IsTrace, IsBad};

use crate::entry::{Entry, Trace};
use crate::refusal::TraceRefused;
use crate::rows::entry;
use ak_base::list::Items;
use ak_row::line::counts;
use ak_text::line::Line;
use ak_text::text::lines;
use std::alloc::Global;

/// The trace that the bytes are. It takes more spellings than the writer makes: comments, lines without words, several
/// blanks between words, zeros in front of numbers.
///
/// # Errors
///
/// `BadLine` with the number, from 1, of the first line that is no entry, exactly where there is one; `NoMemory`.
pub fn read_trace(alloc: Global, bytes: &[u8]) -> Result<Trace, TraceRefused>
    requires { length bytes.now < 4294967295 }
    ensures right { IsRight bytes.now result }
    ensures trace { (entries : List OneEntry) → TraceReads bytes.now entries
        → IsTrace result entries }
    ensures bad { (line : ℕ) → HasBadLine bytes.now line → IsBad result line }
{
    let mut entries = Items::make(alloc);
    for line in lines(bytes) {
        if counts(&line) {
            entries.push(read_entry(&line)?)?;
        }
    }
    Ok(entries)
}

/// The entry of a line.
fn read_entry(line: &Line) -> Result<Entry, TraceRefused>
    ensures ok { IfOk result (λ e. IsEntry e line.now) }
    ensures err { IfErr result (λ r. (r ≡ BadLine line.now.number)
        × ((e : OneEntry) → IsEntry e line.now → ⊥)) }
{
    match entry(line) {
        Some(entry) => Ok(entry),
        None => Err(TraceRefused::BadLine {
            line: line.number(),
        }),
    }
}
