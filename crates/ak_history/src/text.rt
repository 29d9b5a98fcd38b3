//! The text of a history.

ghost use Rattle.std.specs.Prelude.{◌≡◌, ◌++◌, ◌↔◌, [], ◌∷◌, IsTrue, flat_map};
ghost use Rattle.ak_base.specs.Streams.{HasWritten, HasPut};
ghost use Rattle.ak_history.specs.Text.{history_text, event_text, idle_text, id_text, requests_text};

use crate::event::{Event, History};
use ak_base::buffer::Buffer;
use ak_base::number::{AskerNo, HelperNo, RequestNo, ThreadNo, WorkNo};
use ak_base::sink::{Sink, WriteFailed};
use ak_labor::work::{Outcome, Work};
use ak_print::piece::Piece::{Count, Num, Text};
use ak_print::piece::{Piece, put_pieces};

/// Writes the text of the history, with one line for each run of drains that bring nothing. It takes no memory.
///
/// # Errors
///
/// `WriteFailed`, only where the sink's count of faults rose. A beginning of the text was then taken.
pub fn write_history<K: Sink>(h: &History, sink: &mut K) -> Result<(), WriteFailed>
    ensures { HasWritten result
        (K.taken sink.old) (K.taken sink.new) (K.faults sink.old) (K.faults sink.new)
        (history_text h.now) }
{
    let mut buffer = Buffer::new();
    put_history(h, &mut buffer, sink)?;
    buffer.flush(sink)?;
    Ok(())
}

/// Puts the text of the history behind what waits. It takes no memory.
///
/// # Errors
///
/// `WriteFailed`, only where the sink's count of faults rose. A beginning of what waited and of the text was then
/// taken, and the rest is lost.
pub fn put_history<K: Sink>(
    h: &History,
    buffer: &mut Buffer,
    sink: &mut K,
) -> Result<(), WriteFailed>
    ensures { HasPut result
        (K.taken sink.old) (K.taken sink.new) (K.faults sink.old) (K.faults sink.new)
        buffer.old buffer.new (history_text h.now) }
{
    put_events(h.as_slice(), buffer, sink)
}

// Puts the lines of events behind what waits.
fn put_events<K: Sink>(
    events: &[Event],
    buffer: &mut Buffer,
    sink: &mut K,
) -> Result<(), WriteFailed>
    ensures { HasPut result
        (K.taken sink.old) (K.taken sink.new) (K.faults sink.old) (K.faults sink.new)
        buffer.old buffer.new (history_text events.now) }
{
    let mut idle = 0;
    for event in events {
        if is_idle(event) {
            idle += 1;
        } else {
            put_after_idle(idle, event, buffer, sink)?;
            idle = 0;
        }
    }
    put_idle(idle, buffer, sink)?;
    Ok(())
}

// Whether an event is a drain that brings nothing.
fn is_idle(event: &Event) -> bool
    ensures { IsTrue result ↔ (event.now ≡ Event.Drain [] []) }
{
    match event {
        Event::Drain { ids, requests } => ids.len() == 0 && requests.len() == 0,
        _ => false,
    }
}

// Puts the line of a run of empty drains, if there are any, and then that of an event behind what waits.
fn put_after_idle<K: Sink>(
    idle: u64,
    event: &Event,
    buffer: &mut Buffer,
    sink: &mut K,
) -> Result<(), WriteFailed>
    ensures { HasPut result
        (K.taken sink.old) (K.taken sink.new) (K.faults sink.old) (K.faults sink.new)
        buffer.old buffer.new (idle_text idle ++ event_text event.now) }
{
    put_idle(idle, buffer, sink)?;
    put_event(event, buffer, sink)?;
    Ok(())
}

// Puts the line of a run of empty drains, if there are any, behind what waits.
fn put_idle<K: Sink>(idle: u64, buffer: &mut Buffer, sink: &mut K) -> Result<(), WriteFailed>
    ensures { HasPut result
        (K.taken sink.old) (K.taken sink.new) (K.faults sink.old) (K.faults sink.new)
        buffer.old buffer.new (idle_text idle) }
{
    match idle {
        0 => put_pieces(&[], buffer, sink),
        _ => put_pieces(&[Text("idle "), Count(idle), Text("\n")], buffer, sink),
    }
}

// Puts an event's line behind what waits.
fn put_event<K: Sink>(event: &Event, buffer: &mut Buffer, sink: &mut K) -> Result<(), WriteFailed>
    ensures { HasPut result
        (K.taken sink.old) (K.taken sink.new) (K.faults sink.old) (K.faults sink.new)
        buffer.old buffer.new (event_text event.now) }
{
    match event {
        Event::Submit { id, work, helper } => put_submit(*id, *work, *helper, buffer, sink),
        Event::Start { thread, id } => put_pieces(
            &[
                Text("start "),
                Piece::number(*thread),
                Text(" "),
                Piece::number(*id),
                Text("\n"),
            ],
            buffer,
            sink,
        ),
        Event::Finish {
            thread,
            id,
            outcome,
        } => put_finish(*thread, *id, *outcome, buffer, sink),
        Event::Request { no, asker, num } => put_request(*no, *asker, *num, buffer, sink),
        Event::AskerEnd { asker } => put_pieces(
            &[Text("askerend "), Piece::number(*asker), Text("\n")],
            buffer,
            sink,
        ),
        Event::Drain { ids, requests } => {
            put_drain(ids.as_slice(), requests.as_slice(), buffer, sink)
        }
        Event::Answered { no, num } => put_pieces(
            &[
                Text("answered "),
                Piece::request(*no),
                Text(" "),
                Num(*num),
                Text("\n"),
            ],
            buffer,
            sink,
        ),
        Event::HelperNew { no, answer } => put_answer(*no, *answer, buffer, sink),
        Event::HelperEnd { no } => put_pieces(
            &[Text("helperend "), Piece::number(*no), Text("\n")],
            buffer,
            sink,
        ),
        Event::Close => put_pieces(&[Text("close\n")], buffer, sink),
    }
}

// Puts the line of a work that is handed in behind what waits.
fn put_submit<K: Sink>(
    id: WorkNo,
    work: Work,
    helper: Option<HelperNo>,
    buffer: &mut Buffer,
    sink: &mut K,
) -> Result<(), WriteFailed>
    ensures { HasPut result
        (K.taken sink.old) (K.taken sink.new) (K.faults sink.old) (K.faults sink.new)
        buffer.old buffer.new (event_text (Event.Submit id work helper)) }
{
    match helper {
        None => put_pieces(
            &[
                Text("submit "),
                Piece::number(id),
                Text(" general "),
                Piece::kind(work.kind),
                Text(" "),
                Num(work.num),
                Text("\n"),
            ],
            buffer,
            sink,
        ),
        Some(helper) => put_pieces(
            &[
                Text("submit "),
                Piece::number(id),
                Text(" helper "),
                Piece::number(helper),
                Text(" "),
                Piece::kind(work.kind),
                Text(" "),
                Num(work.num),
                Text("\n"),
            ],
            buffer,
            sink,
        ),
    }
}

// Puts the line of a work that is ended behind what waits.
fn put_finish<K: Sink>(
    thread: ThreadNo,
    id: WorkNo,
    outcome: Outcome,
    buffer: &mut Buffer,
    sink: &mut K,
) -> Result<(), WriteFailed>
    ensures { HasPut result
        (K.taken sink.old) (K.taken sink.new) (K.faults sink.old) (K.faults sink.new)
        buffer.old buffer.new (event_text (Event.Finish thread id outcome)) }
{
    match outcome {
        Outcome::Good(num) => put_pieces(
            &[
                Text("finish "),
                Piece::number(thread),
                Text(" "),
                Piece::number(id),
                Text(" good "),
                Num(num),
                Text("\n"),
            ],
            buffer,
            sink,
        ),
        Outcome::Bad(num) => put_pieces(
            &[
                Text("finish "),
                Piece::number(thread),
                Text(" "),
                Piece::number(id),
                Text(" bad "),
                Num(num),
                Text("\n"),
            ],
            buffer,
            sink,
        ),
    }
}

// Puts the line of a request behind what waits.
fn put_request<K: Sink>(
    no: RequestNo,
    asker: AskerNo,
    num: i64,
    buffer: &mut Buffer,
    sink: &mut K,
) -> Result<(), WriteFailed>
    ensures { HasPut result
        (K.taken sink.old) (K.taken sink.new) (K.faults sink.old) (K.faults sink.new)
        buffer.old buffer.new (event_text (Event.Request no asker num)) }
{
    put_pieces(
        &[
            Text("request "),
            Piece::request(no),
            Text(" "),
            Piece::number(asker),
            Text(" "),
            Num(num),
            Text("\n"),
        ],
        buffer,
        sink,
    )
}

// Puts the line of a helper's answer behind what waits.
fn put_answer<K: Sink>(
    helper: HelperNo,
    answer: Option<ThreadNo>,
    buffer: &mut Buffer,
    sink: &mut K,
) -> Result<(), WriteFailed>
    ensures { HasPut result
        (K.taken sink.old) (K.taken sink.new) (K.faults sink.old) (K.faults sink.new)
        buffer.old buffer.new (event_text (Event.HelperNew helper answer)) }
{
    match answer {
        None => put_pieces(
            &[Text("helper "), Piece::number(helper), Text(" refused\n")],
            buffer,
            sink,
        ),
        Some(thread) => put_pieces(
            &[
                Text("helper "),
                Piece::number(helper),
                Text(" granted "),
                Piece::number(thread),
                Text("\n"),
            ],
            buffer,
            sink,
        ),
    }
}

// Puts the line of a drain behind what waits.
fn put_drain<K: Sink>(
    ids: &[WorkNo],
    requests: &[RequestNo],
    buffer: &mut Buffer,
    sink: &mut K,
) -> Result<(), WriteFailed>
    ensures { HasPut result
        (K.taken sink.old) (K.taken sink.new) (K.faults sink.old) (K.faults sink.new)
        buffer.old buffer.new (event_text (Event.Drain ids.now requests.now)) }
{
    buffer.put(sink, b"drain")?;
    put_ids(ids, buffer, sink)?;
    put_requests(requests, buffer, sink)?;
    buffer.put(sink, b"\n")?;
    Ok(())
}

// Puts the numbers of works, each after a space, behind what waits.
fn put_ids<K: Sink>(ids: &[WorkNo], buffer: &mut Buffer, sink: &mut K) -> Result<(), WriteFailed>
    ensures { HasPut result
        (K.taken sink.old) (K.taken sink.new) (K.faults sink.old) (K.faults sink.new)
        buffer.old buffer.new (flat_map id_text ids.now) }
{
    for id in ids {
        put_id(u64::from(id.number()), buffer, sink)?;
    }
    Ok(())
}

// Puts the requests of a drain, if there are any, behind what waits.
fn put_requests<K: Sink>(
    requests: &[RequestNo],
    buffer: &mut Buffer,
    sink: &mut K,
) -> Result<(), WriteFailed>
    ensures { HasPut result
        (K.taken sink.old) (K.taken sink.new) (K.faults sink.old) (K.faults sink.new)
        buffer.old buffer.new (requests_text requests.now) }
{
    if requests.is_empty() {
        return Ok(());
    }
    buffer.put(sink, b" requests")?;
    put_request_ids(requests, buffer, sink)?;
    Ok(())
}

// Puts the numbers of requests, each after a space, behind what waits.
fn put_request_ids<K: Sink>(
    requests: &[RequestNo],
    buffer: &mut Buffer,
    sink: &mut K,
) -> Result<(), WriteFailed>
    ensures { HasPut result
        (K.taken sink.old) (K.taken sink.new) (K.faults sink.old) (K.faults sink.new)
        buffer.old buffer.new (flat_map id_text requests.now) }
{
    for no in requests {
        put_id(no.number(), buffer, sink)?;
    }
    Ok(())
}

// Puts a number behind a space behind what waits.
fn put_id<K: Sink>(number: u64, buffer: &mut Buffer, sink: &mut K) -> Result<(), WriteFailed>
    ensures { HasPut result
        (K.taken sink.old) (K.taken sink.new) (K.faults sink.old) (K.faults sink.new)
        buffer.old buffer.new (id_text number) }
{
    put_pieces(&[Text(" "), Count(number)], buffer, sink)
}
