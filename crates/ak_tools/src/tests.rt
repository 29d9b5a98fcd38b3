//! Tools, with sources and sinks in memory.

use crate::status::ToolStatus;
use crate::tools::tools;
use ak_base::list::{Items, NoMemory};
use ak_base::memory::{MemSink, MemSource};
use std::alloc::Global;

const TEXT: &str = "fun main; print 7; end";

const SCRIPT: &str =
    "proc main; ivar v0; sched p1 v0; end; proc p1 v0:ivar; print 7; offer v0 0; end";

// Lines that are told with `; ` between them.
fn lines(alloc: Global, text: &str) -> Result<Vec<u8>, NoMemory> {
    let mut bytes = Vec::new(alloc);
    for line in text.split("; ") {
        bytes.extend_from_slice(line.as_bytes())?;
        bytes.push(b'\n')?;
    }
    Ok(bytes)
}

// The status of the tool with these words, and what the sink took.
fn outcome(
    alloc: Global,
    words: &[&str],
    mut source: MemSource,
    mut sink: MemSink,
) -> Result<(ToolStatus, Vec<u8>), NoMemory> {
    let mut list = Vec::new(alloc);
    for text in words {
        list.push(Items::from_vec(Vec::from_slice(alloc, text.as_bytes())?))?;
    }
    let status = tools(alloc, list.as_slice(), &mut source, &mut sink);
    let taken = Vec::from_slice(alloc, sink.taken())?;
    Ok((status, taken))
}

// The same with ample room and no faults.
fn tool_gives(
    alloc: Global,
    words: &[&str],
    text: Vec<u8>,
) -> Result<(ToolStatus, Vec<u8>), NoMemory> {
    let source = MemSource::make(text, 4096, Vec::new(alloc));
    let sink = MemSink::make(alloc, 10_000, 4096, Vec::new(alloc))?;
    outcome(alloc, words, source, sink)
}

// The same for `let` and a short text, byte by byte, with calls that fail.
fn faulty_let_gives(
    alloc: Global,
    failing_reads: Vec<u32>,
    failing_writes: Vec<u32>,
) -> Result<(ToolStatus, Vec<u8>), NoMemory> {
    let source = MemSource::make(lines(alloc, TEXT)?, 1, failing_reads);
    let sink = MemSink::make(alloc, 100, 1, failing_writes)?;
    outcome(alloc, &["let"], source, sink)
}

#[test]
fn text_is_compiled(rt: HostRuntime) -> Result<(), NoMemory> {
    let alloc = rt.alloc();
    let (status, taken) = tool_gives(alloc, &["let"], lines(alloc, TEXT)?)?;
    assert_eq!(rt; status, ToolStatus::Done);
    assert_eq!(rt; status.number(), 0);
    assert!(rt; taken.as_slice() == lines(alloc, SCRIPT)?.as_slice());
    Ok(())
}

#[test]
fn words_that_are_no_tool_are_told(rt: HostRuntime) -> Result<(), NoMemory> {
    let alloc = rt.alloc();
    let cases: [(&[&str], u32); 4] = [
        (&[], 0),
        (&["run"], 0),
        (&["let", "let"], 1),
        (&["let", "3", "4"], 1),
    ];
    for (words, place) in cases {
        let (status, taken) = tool_gives(alloc, words, lines(alloc, TEXT)?)?;
        assert_eq!(rt; status, ToolStatus::Usage { place });
        assert_eq!(rt; status.number(), 2);
        assert!(rt; taken.is_empty());
    }
    Ok(())
}

#[test]
fn faults_of_a_text_are_refused(rt: HostRuntime) -> Result<(), NoMemory> {
    let alloc = rt.alloc();
    let cases = [
        ("fun main; await x = sq 3; end", 2, 34),
        ("fun f; end", 0, 32),
        ("fun main; print 1", 3, 31),
    ];
    for (text, line, kind) in cases {
        let (status, taken) = tool_gives(alloc, &["let"], lines(alloc, text)?)?;
        assert_eq!(rt; status, ToolStatus::Refused { line, kind });
        assert_eq!(rt; status.number(), 3);
        assert!(rt; taken.is_empty());
    }
    Ok(())
}

#[test]
fn each_failing_read_writes_nothing(rt: HostRuntime) -> Result<(), NoMemory> {
    let alloc = rt.alloc();
    for call in 0..22u32 {
        let failing = vec![in alloc; call]?;
        let (status, taken) = faulty_let_gives(alloc, failing, Vec::new(alloc))?;
        assert_eq!(rt; status, ToolStatus::ReadFault);
        assert_eq!(rt; status.number(), 4);
        assert!(rt; taken.is_empty());
    }
    Ok(())
}

#[test]
fn each_failing_write_leaves_a_beginning(rt: HostRuntime) -> Result<(), NoMemory> {
    let alloc = rt.alloc();
    let script = lines(alloc, SCRIPT)?;
    for call in 0..70u32 {
        let failing = vec![in alloc; call]?;
        let (status, taken) = faulty_let_gives(alloc, Vec::new(alloc), failing)?;
        assert_eq!(rt; status, ToolStatus::WriteFault);
        assert_eq!(rt; status.number(), 5);
        assert_eq!(rt;
            Some(taken.as_slice()),
            script.as_slice().get(..call as usize)
        );
    }
    Ok(())
}
