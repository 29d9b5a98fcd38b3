//! Runs of compiled texts. What they print was found by a program that walks the text line by line.

use crate::compiled::lines;
use ak_base::list::{Items, NoMemory, Word};
use ak_base::memory::{MemSink, MemSource};
use ak_labor::labor::plain_hands;
use ak_let_script::compile::compile;
use ak_let_syntax::refusal::LetRefused;
use ak_top::top::top;
use std::alloc::Global;
use std::sync::Wait;
use std::thread::Threads;

// What is shown, the text, the limit of jobs, the exit status of its run, and the numbers printed, with blanks between them.
#[derive(Drop)]
struct Case {
    name: &'static str,
    text: &'static str,
    jobs: &'static str,
    status: u8,
    prints: &'static str,
}

fn word(alloc: Global, text: &str) -> Result<Word, NoMemory> {
    Ok(Items::from_vec(Vec::from_slice(alloc, text.as_bytes())?))
}

// The exit status and the output of a run of the script.
fn run_gives<R: Threads + Wait + Sync>(
    rt: &R,
    alloc: Global,
    script: Vec<u8>,
    jobs: &str,
) -> Result<(u8, Vec<u8>), NoMemory> {
    let words = vec![in alloc;
        word(alloc, "run")?,
        word(alloc, "--jobs")?,
        word(alloc, jobs)?,
    ]?;
    let mut source = MemSource::make(script, 4096, Vec::new(alloc));
    let mut sink = MemSink::make(alloc, 1_000_000, 4096, Vec::new(alloc))?;
    let hands = plain_hands(alloc, 32)?;
    let (report, _hands) = top(rt, alloc, words.as_slice(), &mut source, &mut sink, hands);
    let taken = Vec::from_slice(alloc, sink.taken())?;
    Ok((report.status.number(), taken))
}

// The numbers that an output has as printed, with blanks between them.
fn prints_of(alloc: Global, output: &[u8]) -> Result<Vec<u8>, NoMemory> {
    let mut prints = Vec::new(alloc);
    for line in output.split(|byte| *byte == b'\n') {
        if line.starts_with(b"print ") {
            if !prints.is_empty() {
                prints.push(b' ')?;
            }
            prints.extend_from_slice(line.get(6..).unwrap_or(&[]))?;
        }
    }
    Ok(prints)
}

// Whether the case goes as it says.
fn goes<R: Threads + Wait + Sync>(rt: &R, alloc: Global, case: &Case) -> Result<bool, LetRefused> {
    let script = compile(alloc, lines(alloc, case.text)?.as_slice())?;
    let (status, output) = run_gives(rt, alloc, script, case.jobs)?;
    let prints = prints_of(alloc, output.as_slice())?;
    Ok(status == case.status && prints.as_slice() == case.prints.as_bytes())
}

// The name of the first case that goes otherwise.
fn first_wrong<R: Threads + Wait + Sync>(
    rt: &R,
    alloc: Global,
    cases: &[Case],
) -> Result<Option<&'static str>, LetRefused> {
    for case in cases {
        if !goes(rt, alloc, case)? {
            return Ok(Some(case.name));
        }
    }
    Ok(None)
}

const AWAITS: [Case; 7] = [
    Case {
        name: "awaits inside of each other",
        text: "fun main; await x = outer 2; print x; end; fun outer n; await y = inner n; print y; let z = y * 10; return z; end; fun inner n; let m = n + 1; return m; end",
        jobs: "100",
        status: 0,
        prints: "3 30",
    },
    Case {
        name: "a function that awaits itself",
        text: "fun main; await x = fib 10; print x; end; fun fib n; let small = n < 2; when small return n; let a = n - 1; await x = fib a; let b = n - 2; await y = fib b; let sum = x + y; return sum; end",
        jobs: "10000",
        status: 0,
        prints: "55",
    },
    Case {
        name: "conditions before each line that takes one",
        text: "fun main; when 0 print 1; when 1 print 2; await a = f 0; print a; await b = f 1; print b; try c = g 0 else h; print c; try d = g -1 else h; print d; end; fun f n; when n return 3; return 4; end; fun g n; when n raise 5; return 6; end; fun h e; return e; end",
        jobs: "100",
        status: 0,
        prints: "2 4 3 6 5",
    },
    Case {
        name: "locals before and behind an await, and arguments in their order",
        text: "fun main; let a = 1; let b = 2; await c = third 3 4 5; print a; print b; print c; end; fun third x y z; let s = x * 100; let t = y * 10; let u = s + t; let v = u + z; return v; end",
        jobs: "100",
        status: 0,
        prints: "1 2 345",
    },
    Case {
        name: "a function that ends without an answer",
        text: "fun main; await x = f; print x; end; fun f; print 8; end",
        jobs: "100",
        status: 0,
        prints: "8 0",
    },
    Case {
        name: "a local that is another name of one",
        text: "fun main; print 1; let x = 4; let y = x; print y; end",
        jobs: "100",
        status: 0,
        prints: "1 4",
    },
    Case {
        name: "a function that awaits itself for ever",
        text: "fun main; await x = f 1; print x; end; fun f n; print n; let m = n + 1; await y = f m; return y; end",
        jobs: "10",
        status: 6,
        prints: "1 2 3 4 5 6 7 8",
    },
];

const ERRORS: [Case; 6] = [
    Case {
        name: "an error of what takes an error goes further out",
        text: "fun main; try x = twice 7 else none; print x; try y = twice 8 else none; print y; end; fun twice n; try x = third n else again; return x; end; fun again n; print n; let less = n - 1; await x = third less; return x; end; fun third n; let left = n % 3; when left raise n; let part = n / 3; return part; end; fun none e; return -1; end",
        jobs: "100",
        status: 0,
        prints: "7 2 8 -1",
    },
    Case {
        name: "an error leaves each function on its way",
        text: "fun main; try x = outer 0 else minus; print x; end; fun outer n; await x = inner n; print 5; return x; end; fun inner n; let q = 100 / n; return q; end; fun minus e; return e; end",
        jobs: "100",
        status: 0,
        prints: "-2",
    },
    Case {
        name: "a number without room",
        text: "fun main; try x = f 9223372036854775807 else g; print x; end; fun f n; let m = n + 1; return m; end; fun g e; return e; end",
        jobs: "100",
        status: 0,
        prints: "-1",
    },
    Case {
        name: "an error behind an await inside of a try",
        text: "fun main; try x = f 1 else h; print x; try y = f 2 else h; print y; end; fun f n; await m = g n; let d = m - 2; when d return m; raise m; end; fun g n; return n; end; fun h e; let k = e * 100; return k; end",
        jobs: "100",
        status: 0,
        prints: "1 200",
    },
    Case {
        name: "an error that nothing takes",
        text: "fun main; print 1; await x = f; print 2; end; fun f; raise 7; end",
        jobs: "100",
        status: 1,
        prints: "1",
    },
    Case {
        name: "an error of what takes an error, which nothing takes",
        text: "fun main; try x = f else g; print 2; end; fun f; raise 7; end; fun g e; let d = e + 1; raise d; end",
        jobs: "100",
        status: 1,
        prints: "",
    },
];

#[test]
fn awaits_go_on_with_the_answer(rt: HostRuntime) -> Result<(), LetRefused> {
    assert_eq!(rt; first_wrong(&rt, rt.alloc(), &AWAITS)?, None);
    Ok(())
}

#[test]
fn errors_go_to_the_nearest_try(rt: HostRuntime) -> Result<(), LetRefused> {
    assert_eq!(rt; first_wrong(&rt, rt.alloc(), &ERRORS)?, None);
    Ok(())
}
