//! Laws of the text of a trace: a text is one trace or has a first bad line, and what was written is read back.

ghost use Rattle.std.specs.Prelude.{◌≡◌, ◌⊎◌, ℕ, List};
ghost use Rattle.std.specs.List.{AllByRecursion};
ghost use Rattle.ak_trace.specs.declared.entry.Entry.{Entry as OneEntry};
ghost use Rattle.ak_trace.specs.Reading.{TraceReads, HasBadLine, IsInRange};
ghost use Rattle.ak_trace.specs.Text.{trace_text};

use crate::entry::{Entry, Trace};

/// No text is two traces.
pub fn one_reading()
    ensures { (bytes : List ℕ) (a b : List OneEntry) → TraceReads bytes a → TraceReads bytes b
        → a ≡ b }
{}

/// No text has two first bad lines.
pub fn one_bad_line()
    ensures { (bytes : List ℕ) (l m : ℕ) → HasBadLine bytes l → HasBadLine bytes m → l ≡ m }
{}

/// No trace has a bad line.
pub fn no_bad_line_in_a_trace()
    ensures { (bytes : List ℕ) (entries : List OneEntry) (line : ℕ) → TraceReads bytes entries
        → HasBadLine bytes line → ⊥ }
{}

/// Each text is a trace or has a bad line.
pub fn trace_or_bad_line()
    ensures { (bytes : List ℕ) → ((entries : List OneEntry) × TraceReads bytes entries)
        ⊎ ((line : ℕ) × HasBadLine bytes line) }
{}

/// The text of entries whose numbers lie in their ranges is read back as these entries.
pub fn text_reads_back()
    ensures { (entries : List OneEntry) → AllByRecursion IsInRange entries
        → TraceReads (trace_text entries) entries }
{}

/// The text of a trace is read back as that trace. It looks at each entry once, and only proofs want it.
pub fn trace_reads_back(t: &Trace)
    ensures { TraceReads (trace_text t.now) t.now }
{
    all_in_range(t.as_slice());
}

// The numbers of all entries lie in the ranges of their types.
fn all_in_range(entries: &[Entry])
    ensures { AllByRecursion IsInRange entries.now }
{
    for entry in entries {
        in_range(*entry);
    }
}

// The numbers of an entry lie in the ranges of their types.
fn in_range(entry: Entry)
    ensures { IsInRange entry }
{
    match entry {
        Entry::Cycle | Entry::End { .. } => {}
        Entry::Enq { job, .. } | Entry::Job { job } => {
            job.number();
        }
        Entry::Join { result, right } => {
            result.number();
            right.number();
        }
        Entry::Monitor { mon, parent } => {
            mon.number();
            parent.number();
        }
        Entry::Detach { mon }
        | Entry::Attach { mon }
        | Entry::Caught { mon }
        | Entry::Error { mon, .. } => {
            mon.number();
        }
        Entry::Fill { ivar, .. } => {
            ivar.number();
        }
        Entry::Submit { work, .. } | Entry::Arrive { work, .. } => {
            work.number();
        }
        Entry::Helper { no, .. } => {
            no.number();
        }
        Entry::Request { no, result, .. } => {
            no.number();
            result.number();
        }
        Entry::Answer { no, .. } => {
            no.number();
        }
        Entry::Print { .. } | Entry::Rest { .. } | Entry::Unhandled { .. } => {}
    }
}
