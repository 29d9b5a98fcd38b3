//! The text of a trace.

ghost use Rattle.std.specs.Prelude.{◌≡◌};
ghost use Rattle.ak_base.specs.Streams.{HasWritten, HasPut};
ghost use Rattle.ak_trace.specs.Text.{entry_text, trace_text};

use crate::entry::{Ending, Entry, Trace};
use ak_base::buffer::Buffer;
use ak_base::number::WorkNo;
use ak_base::sink::{Sink, WriteFailed};
use ak_labor::work::Outcome;
use ak_print::piece::Piece::{Count, Num, Text};
use ak_print::piece::{Piece, put_pieces};

/// Writes the text of the trace, a line for each entry. It takes no memory.
///
/// # Errors
///
/// `WriteFailed`, only where the sink's count of faults rose. A beginning of the text was then taken.
pub fn write_trace<K: Sink>(t: &Trace, sink: &mut K) -> Result<(), WriteFailed>
    ensures { HasWritten result
        (K.taken sink.old) (K.taken sink.new) (K.faults sink.old) (K.faults sink.new) (trace_text t.now) }
{
    let mut buffer = Buffer::new();
    put_trace(t, &mut buffer, sink)?;
    buffer.flush(sink)?;
    Ok(())
}

/// Puts the text of the trace behind what waits. It takes no memory.
///
/// # Errors
///
/// `WriteFailed`, only where the sink's count of faults rose. A beginning of what waited and of the text was then
/// taken, and the rest is lost.
pub fn put_trace<K: Sink>(t: &Trace, buffer: &mut Buffer, sink: &mut K) -> Result<(), WriteFailed>
    ensures { HasPut result
        (K.taken sink.old) (K.taken sink.new) (K.faults sink.old) (K.faults sink.new)
        buffer.old buffer.new (trace_text t.now) }
{
    put_entries(t.as_slice(), buffer, sink)
}

// Puts the lines of entries behind what waits.
fn put_entries<K: Sink>(
    entries: &[Entry],
    buffer: &mut Buffer,
    sink: &mut K,
) -> Result<(), WriteFailed>
    ensures { HasPut result
        (K.taken sink.old) (K.taken sink.new) (K.faults sink.old) (K.faults sink.new)
        buffer.old buffer.new (trace_text entries.now) }
{
    for entry in entries {
        put_entry(*entry, buffer, sink)?;
    }
    Ok(())
}

// Puts an entry's line behind what waits.
fn put_entry<K: Sink>(entry: Entry, buffer: &mut Buffer, sink: &mut K) -> Result<(), WriteFailed>
    ensures { HasPut result
        (K.taken sink.old) (K.taken sink.new) (K.faults sink.old) (K.faults sink.new)
        buffer.old buffer.new (entry_text entry) }
{
    match entry {
        Entry::Cycle => put_pieces(&[Text("cycle\n")], buffer, sink),
        Entry::Enq { job, low } => put_pieces(
            &[
                Text("enq "),
                Piece::job(job),
                Text(if low { " low\n" } else { " normal\n" }),
            ],
            buffer,
            sink,
        ),
        Entry::Job { job } => put_pieces(
            &[Text("job "), Piece::job(job), Text("\n")],
            buffer,
            sink,
        ),
        Entry::Fill { ivar, num } => put_pieces(
            &[
                Text("fill "),
                Piece::number(ivar),
                Text(" "),
                Num(num),
                Text("\n"),
            ],
            buffer,
            sink,
        ),
        Entry::Join { result, right } => put_pieces(
            &[
                Text("join "),
                Piece::number(result),
                Text(" "),
                Piece::number(right),
                Text("\n"),
            ],
            buffer,
            sink,
        ),
        Entry::Print { num } => put_pieces(&[Text("print "), Num(num), Text("\n")], buffer, sink),
        Entry::Monitor { mon, parent } => put_pieces(
            &[
                Text("monitor "),
                Piece::number(mon),
                Text(" "),
                Piece::number(parent),
                Text("\n"),
            ],
            buffer,
            sink,
        ),
        Entry::Detach { mon } => put_pieces(
            &[Text("detach "), Piece::number(mon), Text("\n")],
            buffer,
            sink,
        ),
        Entry::Attach { mon } => put_pieces(
            &[Text("attach "), Piece::number(mon), Text("\n")],
            buffer,
            sink,
        ),
        Entry::Error { num, mon } => put_pieces(
            &[
                Text("error "),
                Num(num),
                Text(" "),
                Piece::number(mon),
                Text("\n"),
            ],
            buffer,
            sink,
        ),
        Entry::Caught { mon } => put_pieces(
            &[Text("caught "), Piece::number(mon), Text("\n")],
            buffer,
            sink,
        ),
        Entry::Rest { num } => put_pieces(&[Text("rest "), Num(num), Text("\n")], buffer, sink),
        Entry::Unhandled { num } => put_pieces(
            &[Text("unhandled "), Num(num), Text("\n")],
            buffer,
            sink,
        ),
        Entry::Submit { work, kind, num } => put_pieces(
            &[
                Text("submit "),
                Piece::number(work),
                Text(" "),
                Piece::kind(kind),
                Text(" "),
                Num(num),
                Text("\n"),
            ],
            buffer,
            sink,
        ),
        Entry::Helper { no, granted } => put_pieces(
            &[
                Text("helper "),
                Piece::number(no),
                Text(if granted { " granted\n" } else { " refused\n" }),
            ],
            buffer,
            sink,
        ),
        Entry::Arrive { work, outcome } => put_arrival(work, outcome, buffer, sink),
        Entry::Request { no, num, result } => put_pieces(
            &[
                Text("request "),
                Piece::request(no),
                Text(" "),
                Num(num),
                Text(" "),
                Piece::number(result),
                Text("\n"),
            ],
            buffer,
            sink,
        ),
        Entry::Answer { no, num } => put_pieces(
            &[
                Text("answer "),
                Piece::request(no),
                Text(" "),
                Num(num),
                Text("\n"),
            ],
            buffer,
            sink,
        ),
        Entry::End { why } => put_pieces(&[Text(end_line(why))], buffer, sink),
    }
}

// Puts the line of an arrival behind what waits.
fn put_arrival<K: Sink>(
    work: WorkNo,
    outcome: Outcome,
    buffer: &mut Buffer,
    sink: &mut K,
) -> Result<(), WriteFailed>
    ensures { HasPut result
        (K.taken sink.old) (K.taken sink.new) (K.faults sink.old) (K.faults sink.new)
        buffer.old buffer.new (entry_text (Entry.Arrive work outcome)) }
{
    match outcome {
        Outcome::Good(num) => put_pieces(
            &[
                Text("arrive "),
                Piece::number(work),
                Text(" good "),
                Num(num),
                Text("\n"),
            ],
            buffer,
            sink,
        ),
        Outcome::Bad(num) => put_pieces(
            &[
                Text("arrive "),
                Piece::number(work),
                Text(" bad "),
                Num(num),
                Text("\n"),
            ],
            buffer,
            sink,
        ),
    }
}

// The line of the end.
fn end_line(why: Ending) -> &'static str
    ensures { result.now ≡ entry_text (Entry.End why) }
{
    match why {
        Ending::Idle => "end idle\n",
        Ending::Stopped => "end stopped\n",
        Ending::Unhandled => "end unhandled\n",
        Ending::Jobs => "end jobs\n",
        Ending::Stuck => "end stuck\n",
    }
}
