//! Commands, with sources and sinks in memory.

use ak_base::list::{Items, NoMemory, Word};
use ak_base::memory::{MemSink, MemSource};
use ak_history::event::Event;
use ak_labor::ask::Ask;
use ak_labor::labor::plain_hands;
use ak_top::check::check_words;
use ak_top::status::{Status, message};
use ak_top::top::top;
use std::alloc::Global;
use std::sync::Wait;
use std::thread::Threads;

const SCRIPT: &str = "proc main; print 7; end";

const OUTPUT: &str = "enq 0 normal; cycle; job 0; print 7; end idle; %pool; idle 2; close";

// The words of a command.
pub fn words_of(alloc: Global, words: &[&str]) -> Result<Vec<Word>, NoMemory> {
    let mut list = Vec::new(alloc);
    for text in words {
        list.push(Items::from_vec(Vec::from_slice(alloc, text.as_bytes())?))?;
    }
    Ok(list)
}

// Lines that are told with `; ` between them; none where nothing is told.
pub fn lines(alloc: Global, text: &str) -> Result<Vec<u8>, NoMemory> {
    let mut bytes = Vec::new(alloc);
    if text.is_empty() {
        return Ok(bytes);
    }
    for line in text.split("; ") {
        bytes.extend_from_slice(line.as_bytes())?;
        bytes.push(b'\n')?;
    }
    Ok(bytes)
}

// The status of the command with these words, and what the sink took.
fn outcome<R: Threads + Wait + Sync>(
    rt: &R,
    alloc: Global,
    words: &[&str],
    mut source: MemSource,
    mut sink: MemSink,
) -> Result<(Status, Vec<u8>), NoMemory> {
    let list = words_of(alloc, words)?;
    let hands = plain_hands(alloc, 32)?;
    let (report, _hands) = top(rt, alloc, list.as_slice(), &mut source, &mut sink, hands);
    let taken = Vec::from_slice(alloc, sink.taken())?;
    Ok((report.status, taken))
}

// The same with ample room and no faults.
pub fn command_gives<R: Threads + Wait + Sync>(
    rt: &R,
    alloc: Global,
    words: &[&str],
    script: Vec<u8>,
) -> Result<(Status, Vec<u8>), NoMemory> {
    let source = MemSource::make(script, 4096, Vec::new(alloc));
    let sink = MemSink::make(alloc, 4_000_000, 4096, Vec::new(alloc))?;
    outcome(rt, alloc, words, source, sink)
}

// The same for `run` and a short output, byte by byte, with calls that fail.
fn faulty_run_gives<R: Threads + Wait + Sync>(
    rt: &R,
    alloc: Global,
    failing_reads: Vec<u32>,
    failing_writes: Vec<u32>,
) -> Result<(Status, Vec<u8>), NoMemory> {
    let source = MemSource::make(lines(alloc, SCRIPT)?, 1, failing_reads);
    let sink = MemSink::make(alloc, 100, 1, failing_writes)?;
    outcome(rt, alloc, &["run"], source, sink)
}

// Whether two statuses are told alike: their messages name each but the call and the event of a departure.
pub fn is_alike(alloc: Global, status: &Status, wanted: &Status) -> Result<bool, NoMemory> {
    let told = message(alloc, status)?;
    Ok(told.as_slice() == message(alloc, wanted)?.as_slice())
}

/// A command: what it shows, its words, the script, the status and the output.
#[derive(Drop)]
pub struct Case {
    pub name: &'static str,
    pub words: &'static [&'static str],
    pub script: &'static str,
    pub status: Status,
    pub output: &'static str,
}

// The name of the first case that goes otherwise.
pub fn first_wrong<R: Threads + Wait + Sync>(
    rt: &R,
    alloc: Global,
    cases: &[Case],
) -> Result<Option<&'static str>, NoMemory> {
    for case in cases {
        let (status, taken) = command_gives(rt, alloc, case.words, lines(alloc, case.script)?)?;
        let wanted = lines(alloc, case.output)?;
        if !is_alike(alloc, &status, &case.status)? || taken.as_slice() != wanted.as_slice() {
            return Ok(Some(case.name));
        }
    }
    Ok(None)
}

const fn refused(line: u32, kind: u8) -> Status {
    Status::Refused { line, kind }
}

const OVERFLOW: &str =
    "enq 0 normal; cycle; job 0; error -1 0; unhandled -1; end unhandled; %pool; idle 1; close";

const ZERO: &str =
    "enq 0 normal; cycle; job 0; error -2 0; unhandled -2; end unhandled; %pool; idle 1; close";

const RUNS: [Case; 19] = [
    Case {
        name: "a print",
        words: &["run"],
        script: SCRIPT,
        status: Status::Done,
        output: OUTPUT,
    },
    Case {
        name: "no script",
        words: &["run"],
        script: "",
        status: Status::Refused { line: 0, kind: 5 },
        output: "",
    },
    Case {
        name: "handlers before and after a fill",
        words: &["run"],
        script: "proc main; ivar i; upon i A 1; fill i 5; upon i A 2; print 0; end; proc A v:num w:num; print v; print w; end",
        status: Status::Done,
        output: "enq 0 normal; cycle; job 0; fill 0 5; enq 1 normal; enq 2 normal; print 0; job 1; print 5; print 1; job 2; print 5; print 2; end idle; %pool; idle 4; close",
    },
    Case {
        name: "a second fill",
        words: &["run"],
        script: "proc main; ivar i; fill i 1; fill i 2; print 9; end",
        status: Status::Unhandled { num: -3 },
        output: "enq 0 normal; cycle; job 0; fill 0 1; error -3 0; unhandled -3; end unhandled; %pool; idle 1; close",
    },
    Case {
        name: "a fill by a handler",
        words: &["run"],
        script: "proc main; ivar i; ivar j; upon i A j; upon j B; fill i 1; end; proc A v:num j:ivar; fill j 2; end; proc B v:num; print v; end",
        status: Status::Done,
        output: "enq 0 normal; cycle; job 0; fill 0 1; enq 1 normal; job 1; fill 1 2; enq 2 normal; job 2; print 2; end idle; %pool; idle 4; close",
    },
    Case {
        name: "two connections to one ivar",
        words: &["run"],
        script: "proc main; ivar i; ivar g; bind a g P i; bind b g P i; upon a Q 1; upon i Q 2; upon b Q 3; upon a Q 4; fill g 0; sched F i; end; proc P v:num x:ivar; ret x; end; proc Q v:num w:num; print w; end; proc F x:ivar; fill x 8; end",
        status: Status::Done,
        output: "enq 0 normal; cycle; job 0; fill 1 0; enq 1 normal; enq 2 normal; enq 3 normal; job 1; join 2 0; job 2; join 3 2; job 3; fill 3 8; enq 4 normal; enq 5 normal; enq 6 normal; enq 7 normal; job 4; print 1; job 5; print 2; job 6; print 3; job 7; print 4; end idle; %pool; idle 9; close",
    },
    Case {
        name: "one job of each priority in a cycle",
        words: &["run", "--limit", "1"],
        script: "proc main; low B; sched A; sched A; end; proc A; print 1; end; proc B; print 2; sched A; end",
        status: Status::Done,
        output: "enq 0 normal; cycle; job 0; enq 1 low; enq 2 normal; enq 3 normal; job 1; print 2; enq 4 normal; cycle; job 2; print 1; cycle; job 3; print 1; cycle; job 4; print 1; end idle; %pool; idle 9; close",
    },
    Case {
        name: "more jobs than the limit",
        words: &["run", "--jobs", "3"],
        script: "proc main; sched A; sched A; sched A; end; proc A; print 1; end",
        status: Status::Jobs,
        output: "enq 0 normal; cycle; job 0; enq 1 normal; enq 2 normal; enq 3 normal; job 1; print 1; job 2; print 1; end jobs; %pool; idle 4; close",
    },
    Case {
        name: "as many jobs as the limit",
        words: &["run", "--jobs", "3"],
        script: "proc main; sched A; sched A; end; proc A; print 1; end",
        status: Status::Done,
        output: "enq 0 normal; cycle; job 0; enq 1 normal; enq 2 normal; job 1; print 1; job 2; print 1; end idle; %pool; idle 4; close",
    },
    Case {
        name: "one thread",
        words: &["run", "--threads", "1"],
        script: SCRIPT,
        status: Status::Done,
        output: OUTPUT,
    },
    Case {
        name: "as many threads as a pool may have",
        words: &["run", "--threads", "32"],
        script: SCRIPT,
        status: Status::Done,
        output: OUTPUT,
    },
    Case {
        name: "a sum out of range",
        words: &["run"],
        script: "proc main; set x 9223372036854775807 + 1; print x; end",
        status: Status::Unhandled { num: -1 },
        output: OVERFLOW,
    },
    Case {
        name: "a quotient by zero",
        words: &["run"],
        script: "proc main; set x 1 / 0; print x; end",
        status: Status::Unhandled { num: -2 },
        output: ZERO,
    },
    Case {
        name: "a remainder by zero",
        words: &["run"],
        script: "proc main; set x 1 % 0; print x; end",
        status: Status::Unhandled { num: -2 },
        output: ZERO,
    },
    Case {
        name: "a quotient out of range",
        words: &["run"],
        script: "proc main; set x -9223372036854775808 / -1; print x; end",
        status: Status::Unhandled { num: -1 },
        output: OVERFLOW,
    },
    Case {
        name: "a remainder by minus one",
        words: &["run"],
        script: "proc main; set x -9223372036854775808 % -1; print x; end",
        status: Status::Done,
        output: "enq 0 normal; cycle; job 0; print 0; end idle; %pool; idle 2; close",
    },
    Case {
        name: "a quotient rounds to zero",
        words: &["run"],
        script: "proc main; set x -7 / 2; print x; end",
        status: Status::Done,
        output: "enq 0 normal; cycle; job 0; print -3; end idle; %pool; idle 2; close",
    },
    Case {
        name: "a remainder has the sign of the first",
        words: &["run"],
        script: "proc main; set x -7 % 2; print x; end",
        status: Status::Done,
        output: "enq 0 normal; cycle; job 0; print -1; end idle; %pool; idle 2; close",
    },
    Case {
        name: "a comparison",
        words: &["run"],
        script: "proc main; set x 2 < 3; print x; end",
        status: Status::Done,
        output: "enq 0 normal; cycle; job 0; print 1; end idle; %pool; idle 2; close",
    },
];

const REFUSALS: [Case; 18] = [
    Case {
        name: "run: a print of nothing",
        words: &["run"],
        script: "proc main; print; end",
        status: Status::Refused { line: 2, kind: 1 },
        output: "",
    },
    Case {
        name: "run: a comment alone",
        words: &["run"],
        script: "# nothing",
        status: Status::Refused { line: 0, kind: 5 },
        output: "",
    },
    Case {
        name: "check: nothing",
        words: &["check"],
        script: "",
        status: Status::Refused { line: 0, kind: 5 },
        output: "",
    },
    Case {
        name: "check: a script",
        words: &["check"],
        script: SCRIPT,
        status: Status::Done,
        output: "valid",
    },
    Case {
        name: "check: a number out of range",
        words: &["check"],
        script: "proc main; print 99999999999999999999; end",
        status: Status::Refused { line: 2, kind: 4 },
        output: "",
    },
    Case {
        name: "check: a conditional statement that binds",
        words: &["check"],
        script: "proc main; if 1 ivar i; end",
        status: Status::Refused { line: 2, kind: 1 },
        output: "",
    },
    Case {
        name: "check: no end",
        words: &["check"],
        script: "proc main",
        status: Status::Refused { line: 2, kind: 1 },
        output: "",
    },
    Case {
        name: "check: a name bound twice",
        words: &["check"],
        script: "proc main; ivar i; ivar i; end",
        status: Status::Refused { line: 3, kind: 6 },
        output: "",
    },
    Case {
        name: "check: an unknown name",
        words: &["check"],
        script: "proc main; print x; end",
        status: Status::Refused { line: 2, kind: 7 },
        output: "",
    },
    Case {
        name: "check: a fill of what is no ivar",
        words: &["check"],
        script: "proc main; never r; fill r 1; end",
        status: Status::Refused { line: 3, kind: 8 },
        output: "",
    },
    Case {
        name: "check: one argument too many",
        words: &["check"],
        script: "proc main; sched main 1; end",
        status: Status::Refused { line: 2, kind: 9 },
        output: "",
    },
    Case {
        name: "no words",
        words: &[],
        script: SCRIPT,
        status: Status::Usage { place: 0 },
        output: "",
    },
    Case {
        name: "an unknown command",
        words: &["RUN"],
        script: SCRIPT,
        status: Status::Usage { place: 0 },
        output: "",
    },
    Case {
        name: "run: an unknown word",
        words: &["run", "5"],
        script: SCRIPT,
        status: Status::Usage { place: 1 },
        output: "",
    },
    Case {
        name: "check: an unknown word",
        words: &["check", "5"],
        script: SCRIPT,
        status: Status::Usage { place: 1 },
        output: "",
    },
    Case {
        name: "run: too many threads",
        words: &["run", "--threads", "33"],
        script: SCRIPT,
        status: Status::Usage { place: 2 },
        output: "",
    },
    Case {
        name: "run: no number of threads",
        words: &["run", "--threads"],
        script: SCRIPT,
        status: Status::Usage { place: 2 },
        output: "",
    },
    Case {
        name: "run: a limit twice",
        words: &["run", "--limit", "5", "--limit", "6"],
        script: SCRIPT,
        status: Status::Usage { place: 3 },
        output: "",
    },
];

#[test]
fn runs_are_told(rt: HostRuntime) -> Result<(), NoMemory> {
    assert_eq!(rt; first_wrong(&rt, rt.alloc(), &RUNS)?, None);
    Ok(())
}

#[test]
fn scripts_and_words_are_refused(rt: HostRuntime) -> Result<(), NoMemory> {
    assert_eq!(rt; first_wrong(&rt, rt.alloc(), &REFUSALS)?, None);
    Ok(())
}

#[test]
fn long_scripts_are_refused(rt: HostRuntime) -> Result<(), NoMemory> {
    let alloc = rt.alloc();
    let mut statements = lines(alloc, "proc main")?;
    for _ in 0..65 {
        statements.extend_from_slice(b"print 1\n")?;
    }
    statements.extend_from_slice(b"end\n")?;
    let (status, taken) = command_gives(&rt, alloc, &["check"], statements)?;
    assert!(rt; is_alike(alloc, &status, &refused(66, 3))?);
    assert!(rt; taken.is_empty());
    for (size, line, kind) in [(1_048_576, 0, 5), (1_048_577, 0, 2)] {
        let text = vec![in alloc; b'#'; size]?;
        let (status, taken) = command_gives(&rt, alloc, &["check"], text)?;
        assert!(rt; is_alike(alloc, &status, &refused(line, kind))?);
        assert!(rt; taken.is_empty());
    }
    Ok(())
}

#[test]
fn a_run_without_an_end_meets_its_limit(rt: HostRuntime) -> Result<(), NoMemory> {
    let alloc = rt.alloc();
    let script = lines(
        alloc,
        "proc main; ivar i; upon i A i; fill i 0; end; proc A v:num i:ivar; upon i A i; end",
    )?;
    let (status, taken) = command_gives(&rt, alloc, &["run"], script)?;
    let first = lines(
        alloc,
        "enq 0 normal; cycle; job 0; fill 0 0; enq 1 normal; job 1; enq 2 normal",
    )?;
    let last = lines(
        alloc,
        "job 99999; enq 100000 normal; cycle; end jobs; %pool; idle 100201; close",
    )?;
    assert!(rt; is_alike(alloc, &status, &Status::Jobs)?);
    assert!(rt; taken.starts_with(first.as_slice()));
    assert!(rt; taken.ends_with(last.as_slice()));
    Ok(())
}

// The output of a thousand binds, each behind a yield of its own.
fn thousand_binds(alloc: Global) -> Result<Vec<u8>, NoMemory> {
    let mut bytes = lines(alloc, "enq 0 normal; cycle; job 0")?;
    for k in 0..1000u32 {
        let text = format!(in alloc;
            "cycle; fill {} 0; enq {} normal; job {}; join 1 {}",
            2 * k,
            k + 1,
            k + 1,
            2 * k + 3
        )?;
        bytes.extend_from_slice(lines(alloc, text.as_str())?.as_slice())?;
    }
    let last = lines(
        alloc,
        "cycle; fill 2000 0; enq 1001 normal; job 1001; fill 1 77; enq 1002 normal; job 1002; print 77; end idle; %pool; idle 2005; close",
    )?;
    bytes.extend_from_slice(last.as_slice())?;
    Ok(bytes)
}

#[test]
fn a_thousand_binds_take_a_thousand_and_two_cycles(rt: HostRuntime) -> Result<(), NoMemory> {
    let alloc = rt.alloc();
    let script = lines(
        alloc,
        "proc main; yield y; bind r y S 1000; upon r O; end; proc S v:num n:num; set m n - 1; unless n ret 77; yield y; bind r y S m; ret r; end; proc O v:num; print v; end",
    )?;
    let (status, taken) = command_gives(&rt, alloc, &["run"], script)?;
    let wanted = thousand_binds(alloc)?;
    assert!(rt; is_alike(alloc, &status, &Status::Done)?);
    assert!(rt; taken.as_slice() == wanted.as_slice());
    Ok(())
}

#[test]
fn each_failing_read_writes_nothing(rt: HostRuntime) -> Result<(), NoMemory> {
    let alloc = rt.alloc();
    for call in 0..23 {
        let failing = vec![in alloc; call]?;
        let (status, taken) = faulty_run_gives(&rt, alloc, failing, Vec::new(alloc))?;
        assert!(rt; is_alike(alloc, &status, &Status::ReadFault)?);
        assert!(rt; taken.is_empty());
    }
    Ok(())
}

#[test]
fn each_failing_write_leaves_a_beginning(rt: HostRuntime) -> Result<(), NoMemory> {
    let alloc = rt.alloc();
    let output = lines(alloc, OUTPUT)?;
    for call in 0..61u32 {
        let failing = vec![in alloc; call]?;
        let (status, taken) = faulty_run_gives(&rt, alloc, Vec::new(alloc), failing)?;
        assert!(rt; is_alike(alloc, &status, &Status::WriteFault)?);
        assert_eq!(rt;
            Some(taken.as_slice()),
            output.as_slice().get(..call as usize)
        );
    }
    Ok(())
}

#[test]
fn messages_are_told(rt: HostRuntime) -> Result<(), NoMemory> {
    let cases = [
        (Status::Done, ""),
        (Status::Unhandled { num: -3 }, "unhandled error -3"),
        (Status::Usage { place: 1 }, "usage: word 1"),
        (Status::Refused { line: 6, kind: 9 }, "line 6: WrongCount"),
        (Status::Refused { line: 0, kind: 5 }, "line 0: NoMain"),
        (Status::ReadFault, "read fault"),
        (Status::WriteFault, "write fault"),
        (Status::Jobs, "job limit reached"),
        (Status::NoMemory, "no memory"),
        (Status::BadHistory { line: 31 }, "history line 31"),
        (
            Status::Stray {
                place: 3,
                asked: Ask::Drain,
                kept: Event::Close,
            },
            "history differs at event 3",
        ),
        (Status::Short { asked: Ask::Close }, "history ends too soon"),
        (Status::Stuck, "stuck: all threads are reserved"),
    ];
    for (status, text) in cases {
        assert_eq!(rt; message(rt.alloc(), &status)?.as_slice(), text.as_bytes());
    }
    Ok(())
}

// `check_words` is the part of `top` that tests a script, and needs no threads.
#[test]
fn a_script_is_tested_without_threads(rt: HostRuntime) -> Result<(), NoMemory> {
    let alloc = rt.alloc();
    let words = vec![in alloc; Items::from_vec(Vec::from_slice(alloc, b"check")?)]?;
    let mut source = MemSource::make(lines(alloc, "proc main; end")?, 4096, Vec::new(alloc));
    let mut sink = MemSink::make(alloc, 100, 100, Vec::new(alloc))?;
    let report = check_words(alloc, words.as_slice(), &mut source, &mut sink);
    assert!(rt; is_alike(alloc, &report.status, &Status::Done)?);
    assert_eq!(rt; sink.taken(), b"valid\n".as_slice());
    Ok(())
}
