//! Texts of histories, and the lines that are none of a history.

use ak_base::list::{Items, NoMemory};
use ak_base::memory::MemSink;
use ak_base::number::{AskerNo, HelperNo, RequestNo, ThreadNo, WorkNo};
use ak_base::sink::WriteFailed;
use ak_history::event::Event;
use ak_history::reading::read_history;
use ak_history::refusal::HistoryRefused;
use ak_history::text::write_history;
use ak_labor::work::{Outcome, Work, WorkKind};
use std::alloc::Global;

const WRITTEN: &str = "idle 2
helper 0 granted 0
helper 1 refused
submit 0 general square 3
submit 1 helper 0 square 4
helperend 0
start 0 1
finish 0 1 good 16
drain 1 0
idle 1
request 0 1 -5
drain requests 0
answered 0 6
askerend 1
close
";

#[test]
fn each_event_is_written(rt: HostRuntime) -> Result<(), NoMemory> {
    let (zero, one) = (WorkNo::new(0), WorkNo::new(1));
    let thread = ThreadNo::new(0);
    let helper = HelperNo::new(0);
    let square = WorkKind::Square;
    let events = vec![in rt.alloc();
        Event::Drain {
            ids: Items::make(rt.alloc()),
            requests: Items::make(rt.alloc())
        },
        Event::Drain {
            ids: Items::make(rt.alloc()),
            requests: Items::make(rt.alloc())
        },
        Event::HelperNew {
            no: helper,
            answer: Some(thread)
        },
        Event::HelperNew {
            no: HelperNo::new(1),
            answer: None
        },
        Event::Submit {
            id: zero,
            work: Work {
                kind: square,
                num: 3
            },
            helper: None
        },
        Event::Submit {
            id: one,
            work: Work {
                kind: square,
                num: 4
            },
            helper: Some(helper)
        },
        Event::HelperEnd { no: helper },
        Event::Start { thread, id: one },
        Event::Finish {
            thread,
            id: one,
            outcome: Outcome::Good(16)
        },
        Event::Drain {
            ids: Items::from_vec(vec![in rt.alloc(); one, zero]?),
            requests: Items::make(rt.alloc())
        },
        Event::Drain {
            ids: Items::make(rt.alloc()),
            requests: Items::make(rt.alloc())
        },
        Event::Request {
            no: RequestNo::new(0),
            asker: AskerNo::new(1),
            num: -5
        },
        Event::Drain {
            ids: Items::make(rt.alloc()),
            requests: Items::from_vec(vec![in rt.alloc(); RequestNo::new(0)]?)
        },
        Event::Answered {
            no: RequestNo::new(0),
            num: 6
        },
        Event::AskerEnd {
            asker: AskerNo::new(1)
        },
        Event::Close,
    ]?;
    let mut sink = MemSink::make(rt.alloc(), 400, 7, Vec::new(rt.alloc()))?;
    assert_eq!(rt; write_history(&Items::from_vec(events), &mut sink), Ok(()));
    assert_eq!(rt; sink.taken(), WRITTEN.as_bytes());
    Ok(())
}

#[test]
fn write_that_fails_leaves_a_beginning(rt: HostRuntime) -> Result<(), NoMemory> {
    let history = Items::from_vec(vec![in rt.alloc(); Event::Close]?);
    for k in 0..6 {
        let mut sink = MemSink::make(rt.alloc(), 100, 1, vec![in rt.alloc(); k]?)?;
        assert_eq!(rt; write_history(&history, &mut sink), Err(WriteFailed));
        assert_eq!(rt; sink.taken(), &b"close\n"[..k as usize], "write {k} fails");
    }
    Ok(())
}

/// More bytes than any text or output of a test here.
const ROOM: usize = 1000;

/// What a text is read as: the plain text of its history with the line of each event, or its bad
/// line.
#[derive(Clone, Copy)]
enum Wanted<'a> {
    History(&'a str, &'a [u32]),
    Bad(u32),
}

use Wanted::{Bad, History};

// Whether a short text is read so, where its first line has that number.
fn is_read_as(
    alloc: Global,
    text: &str,
    first: u32,
    wanted: Wanted,
) -> Result<bool, HistoryRefused> {
    if text.len() > ROOM || first > 1000 {
        return Ok(false);
    }
    match (read_history(alloc, text.as_bytes(), first), wanted) {
        (Ok(recorded), History(written, lines)) => {
            let mut sink = MemSink::make(alloc, ROOM, ROOM, Vec::new(alloc))?;
            let wrote = write_history(&recorded.history, &mut sink).is_ok();
            Ok(wrote && sink.taken() == written.as_bytes() && recorded.lines.as_slice() == lines)
        }
        (Err(HistoryRefused::BadLine { line }), Bad(wanted)) => Ok(line == wanted),
        (Err(HistoryRefused::NoMemory), _) => Err(HistoryRefused::NoMemory),
        _ => Ok(false),
    }
}

const WORKED: &str = "idle 1
helper 0 granted 0
helper 1 refused
submit 0 general square 3
submit 1 helper 0 square 4
helperend 0
idle 2
start 0 1
finish 0 1 good 16
start 0 0
finish 0 0 good 9
drain 1 0
idle 1
close
";

const EACH: &str = "submit 2 general fail 9223372036854775807
submit 3 helper 4294967295 mix -4
finish 3 2 bad -9223372036854775808
drain 4294967295
helper 1 granted 31
request 18446744073709551615 4294967295 -9223372036854775808
askerend 4294967295
drain 7 requests 18446744073709551615 0
drain requests 3
answered 18446744073709551615 9223372036854775807
";

const EACH_LINES: [u32; 10] = [1, 2, 3, 4, 5, 6, 7, 8, 9, 10];

#[test]
fn histories_are_read(rt: HostRuntime) -> Result<(), HistoryRefused> {
    let numbers = [1, 2, 3, 4, 5, 6, 7, 7, 8, 9, 10, 11, 12, 13, 14];
    for (text, first, written, lines) in [
        (WORKED, 1, WORKED, numbers.as_slice()),
        (EACH, 1, EACH, &EACH_LINES),
        ("", 1, "", &[]),
        ("# é\n\n \t \n", 1, "", &[]),
        (
            "\tstart  007\t-0 \r\nclose\r",
            1,
            "start 7 0\nclose\n",
            &[1, 2],
        ),
        (
            "submit 00 general square -03 # three",
            1,
            "submit 0 general square -3\n",
            &[1],
        ),
        ("idle 2\nidle 003\n", 1, "idle 5\n", &[1, 1, 2, 2, 2]),
        (
            "# x\n\nidle 1#\r\n\nclose\n",
            25,
            "idle 1\nclose\n",
            &[27, 29],
        ),
        ("close\nclose\n", 0, "close\nclose\n", &[0, 1]),
    ] {
        assert!(rt;
            is_read_as(rt.alloc(), text, first, History(written, lines))?,
            "{text}"
        );
    }
    Ok(())
}

#[test]
fn the_first_bad_line_is_named(rt: HostRuntime) -> Result<(), HistoryRefused> {
    for (text, first, line) in [
        ("close\n\n# x\nclose\nidle 0\nopen\n", 1, 5),
        ("idle 1\n\nidle\n", 25, 27),
        ("é", 0, 0),
        ("idle 1\nclose \u{7f}\n", 1, 2),
        ("\u{1} # é\n", 1, 1),
    ] {
        assert!(rt; is_read_as(rt.alloc(), text, first, Bad(line))?, "{text}");
    }
    Ok(())
}

#[test]
fn bad_lines_are_refused(rt: HostRuntime) -> Result<(), HistoryRefused> {
    for text in [
        "submit 0 general square",
        "submit 0 general square 3 4",
        "submit 0 general square 9223372036854775808",
        "submit 0 general cube 3",
        "submit 0 helper square 3",
        "submit 0 helper 4294967296 square 3",
        "submit 0 any square 3",
        "submit 4294967296 general square 3",
        "start 0",
        "start 0 1 2",
        "start 4294967296 0",
        "start 0 -1",
        "finish 0 1 good",
        "finish 0 1 good 16 9",
        "finish 0 1 fine 16",
        "drain",
        "drain 1 x",
        "drain 1 4294967296",
        "drain requests",
        "drain 1 requests",
        "drain requests 1 requests 2",
        "drain requests x",
        "drain requests 18446744073709551616",
        "drain request 0",
        "request 0 0",
        "request 0 0 5 6",
        "request 0 4294967296 5",
        "request 18446744073709551616 0 5",
        "askerend",
        "askerend 0 1",
        "answered 0",
        "answered 0 1 2",
        "answered 18446744073709551616 1",
        "idle",
        "idle 0",
        "idle -1",
        "idle 1000001",
        "idle 1 1",
        "helper 0",
        "helper 0 granted",
        "helper 0 granted 4294967296",
        "helper 0 granted 1 1",
        "helper 0 refused 1",
        "helper 0 given 1",
        "helperend",
        "helperend 0 1",
        "close 0",
        "Close",
        "%pool",
        "cycle",
    ] {
        assert!(rt; is_read_as(rt.alloc(), text, 1, Bad(1))?, "{text}");
    }
    Ok(())
}

#[test]
fn a_million_empty_drains_are_one_line(rt: HostRuntime) -> Result<(), HistoryRefused> {
    let recorded = read_history(rt.alloc(), b"idle 1000000\nclose", 1)?;
    assert_eq!(rt; recorded.history.len(), 1_000_001);
    assert_eq!(rt; recorded.lines.get(999_999).copied(), Some(1));
    assert_eq!(rt; recorded.lines.get(1_000_000).copied(), Some(2));
    Ok(())
}

#[test]
fn too_many_events_are_a_bad_line(rt: HostRuntime) -> Result<(), HistoryRefused> {
    let text = b"idle 1000000\n".repeat(rt.alloc(), 17)?;
    assert_eq!(rt;
        read_history(rt.alloc(), text.as_slice(), 1).map(|_| ()),
        Err(HistoryRefused::BadLine { line: 17 })
    );
    Ok(())
}

#[test]
fn a_refusal_names_its_line(rt: HostRuntime) -> Result<(), HistoryRefused> {
    let refused = HistoryRefused::BadLine { line: 7 };
    let text = format!(in rt.alloc(); "{refused}, {}", HistoryRefused::NoMemory)?;
    assert_eq!(rt; text.as_str(), "line 7 is no line of a history, no memory");
    Ok(())
}
