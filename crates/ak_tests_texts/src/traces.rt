//! Texts of traces, and the lines that are no entries.

use ak_base::list::{Items, NoMemory};
use ak_base::memory::MemSink;
use ak_base::number::{HelperNo, IvarNo, JobNo, MonNo, WorkNo};
use ak_base::sink::WriteFailed;
use ak_labor::work::{Outcome, WorkKind};
use ak_trace::entry::{Ending, Entry, Trace};
use ak_trace::read::read_trace;
use ak_trace::refusal::TraceRefused;
use ak_trace::text::write_trace;
use std::alloc::Global;

/// An entry of each kind, with numbers that tell its parts apart.
fn each_entry(alloc: Global) -> Result<Trace, NoMemory> {
    let (mon, parent) = (MonNo::new(1), MonNo::new(0));
    let (job, ivar, work) = (JobNo::new(2), IvarNo::new(3), WorkNo::new(4));
    let entries = vec![in alloc;
        Entry::Enq { job, low: false },
        Entry::Enq {
            job: JobNo::new(5),
            low: true
        },
        Entry::Cycle,
        Entry::Job { job },
        Entry::Print { num: 7 },
        Entry::Helper {
            no: HelperNo::new(0),
            granted: true
        },
        Entry::Helper {
            no: HelperNo::new(1),
            granted: false
        },
        Entry::Submit {
            work,
            kind: WorkKind::Square,
            num: -4
        },
        Entry::Monitor { mon, parent },
        Entry::Detach { mon },
        Entry::Error { num: -7, mon },
        Entry::Caught { mon },
        Entry::Arrive {
            work,
            outcome: Outcome::Good(16)
        },
        Entry::Fill { ivar, num: 16 },
        Entry::Join {
            result: IvarNo::new(6),
            right: ivar
        },
        Entry::End { why: Ending::Idle },
    ]?;
    Ok(Items::from_vec(entries))
}

const EACH_ENTRY: &str = "enq 2 normal
enq 5 low
cycle
job 2
print 7
helper 0 granted
helper 1 refused
submit 4 square -4
monitor 1 0
detach 1
error -7 1
caught 1
arrive 4 good 16
fill 3 16
join 6 3
end idle
";

#[test]
fn each_entry_is_written_and_read(rt: HostRuntime) -> Result<(), TraceRefused> {
    let trace = each_entry(rt.alloc())?;
    let mut sink = MemSink::make(rt.alloc(), 300, 7, Vec::new(rt.alloc()))?;
    assert_eq!(rt; write_trace(&trace, &mut sink), Ok(()));
    assert_eq!(rt; sink.taken(), EACH_ENTRY.as_bytes());
    let read = read_trace(rt.alloc(), EACH_ENTRY.as_bytes())?;
    assert_eq!(rt; read.as_slice(), trace.as_slice());
    Ok(())
}

#[test]
fn write_that_fails_leaves_a_beginning(rt: HostRuntime) -> Result<(), NoMemory> {
    let entries = vec![in rt.alloc(); Entry::Print { num: 7 }]?;
    let trace = Items::from_vec(entries);
    for k in 0..5 {
        let mut sink = MemSink::make(rt.alloc(), 100, 1, vec![in rt.alloc(); k]?)?;
        assert_eq!(rt; write_trace(&trace, &mut sink), Err(WriteFailed));
        assert_eq!(rt; sink.taken(), &b"print"[..k as usize], "write {k} fails");
    }
    Ok(())
}

/// The trace of a text. One that is too long, as no text of a test is, is refused at line 0.
fn read(alloc: Global, text: &[u8]) -> Result<Trace, TraceRefused> {
    if text.len() >= 4_294_967_295 {
        return Err(TraceRefused::BadLine { line: 0 });
    }
    read_trace(alloc, text)
}

/// Whether a text is a trace, and the other one is how it is written.
fn is_read_as(alloc: Global, text: &str, plain: &str) -> Result<bool, TraceRefused> {
    let trace = read(alloc, text.as_bytes())?;
    let mut sink = MemSink::make(alloc, 100, 100, Vec::new(alloc))?;
    let wrote = write_trace(&trace, &mut sink).is_ok();
    Ok(wrote && sink.taken() == plain.as_bytes())
}

#[test]
fn entries_are_read_in_more_spellings_than_one(rt: HostRuntime) -> Result<(), TraceRefused> {
    for (text, plain) in [
        ("cycle", "cycle\n"),
        ("\tcycle # of 5é\r\n", "cycle\n"),
        ("\n# cycle 5\n\n \t\r\ncycle\n\n", "cycle\n"),
        ("cycle\r", "cycle\n"),
        (
            "enq 18446744073709551615 normal\n",
            "enq 18446744073709551615 normal\n",
        ),
        ("enq 00 low", "enq 0 low\n"),
        (
            "job 0018446744073709551615\r\n",
            "job 18446744073709551615\n",
        ),
        (
            "fill 02 9223372036854775807",
            "fill 2 9223372036854775807\n",
        ),
        ("join 2\t\t004294967295", "join 2 4294967295\n"),
        ("print -0", "print 0\n"),
        (
            "print -009223372036854775808",
            "print -9223372036854775808\n",
        ),
        ("monitor 4294967295 000", "monitor 4294967295 0\n"),
        ("detach -0", "detach 0\n"),
        ("error -07 4294967295", "error -7 4294967295\n"),
        ("caught 01", "caught 1\n"),
        ("rest -9", "rest -9\n"),
        ("unhandled 010", "unhandled 10\n"),
        ("submit 8 square -3", "submit 8 square -3\n"),
        ("submit 08 mix 03", "submit 8 mix 3\n"),
        ("submit 8 fail -03", "submit 8 fail -3\n"),
        ("helper -0 granted", "helper 0 granted\n"),
        ("helper 4294967295 refused", "helper 4294967295 refused\n"),
        ("arrive 8 good -1", "arrive 8 good -1\n"),
        ("arrive 8 bad 01", "arrive 8 bad 1\n"),
        (" end idle ", "end idle\n"),
        ("end stopped#", "end stopped\n"),
        ("end\tunhandled", "end unhandled\n"),
        ("end jobs\ncycle\nend stuck", "end jobs\ncycle\nend stuck\n"),
    ] {
        assert!(rt; is_read_as(rt.alloc(), text, plain)?, "{text}");
    }
    Ok(())
}

/// Lines that are no entries: a word too few, one too many, a number out of its range or of another
/// form, another word.
const NO_ENTRIES: &str = "cycle 1
cycles
Cycle
enq
enq 0
enq 0 high
enq 0 normal low
enq low 0
enq 18446744073709551616 low
enq -1 low
job
job 0 0
job 18446744073709551616
job 0x
fill 0
fill 0 0 0
fill 4294967296 0
fill 0 9223372036854775808
fill 0 -9223372036854775809
fill 0 +1
join 0
join 0 0 0
join 4294967296 0
join 0 4294967296
print
print 0 0
print 9223372036854775808
print -
print x
monitor 0
monitor 0 0 0
monitor 4294967296 0
monitor 0 4294967296
detach
detach 0 0
detach 4294967296
error 0
error 0 0 0
error 9223372036854775808 0
error 0 4294967296
caught
caught 0 0
caught 4294967296
rest
rest 0 0
rest -9223372036854775809
unhandled
unhandled 0 0
unhandled 9223372036854775808
submit 0 square
submit 0 square 0 0
submit 4294967296 square 0
submit 0 cube 0
submit 0 square 9223372036854775808
helper 0
helper 0 granted 0
helper 4294967296 granted
helper 0 given
arrive 0 good
arrive 0 good 0 0
arrive 4294967296 good 0
arrive 0 fine 0
arrive 0 bad 9223372036854775808
end
end idle idle
end busy
end 0
set x 1
%pool
0
job 1 \x7f
job é 1
\x00";

/// The first bad line of a text: 0 where it has none, and 4294967295 for want of memory.
fn bad_line(alloc: Global, text: &[u8]) -> u32 {
    match read(alloc, text) {
        Ok(_trace) => 0,
        Err(TraceRefused::BadLine { line }) => line,
        Err(TraceRefused::NoMemory) => u32::MAX,
    }
}

#[test]
fn other_lines_are_refused(rt: HostRuntime) {
    for line in NO_ENTRIES.lines() {
        assert_eq!(rt; bad_line(rt.alloc(), line.as_bytes()), 1, "{line}");
    }
}

#[test]
fn the_first_bad_line_is_named(rt: HostRuntime) -> Result<(), NoMemory> {
    for (text, line) in [
        ("", 0),
        ("# nothing\n\n", 0),
        ("cycle\n\n# no entry\njob x\ncycle 1\n", 4),
        ("cycle\r\njob 0 é # bad\ncycle 1", 2),
        ("é", 1),
        ("\n\n\x01\ncycle\n", 3),
        ("cycle\ncycle\ncycle\nend", 4),
    ] {
        assert_eq!(rt; bad_line(rt.alloc(), text.as_bytes()), line, "{text}");
    }
    let refused = TraceRefused::BadLine { line: 12 };
    let mut out = String::new(rt.alloc());
    write!(out, "{refused}")?;
    assert_eq!(rt; out.as_str(), "line 12 is no entry of a trace");
    Ok(())
}
