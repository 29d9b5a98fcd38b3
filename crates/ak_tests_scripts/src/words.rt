//! The words of a command line.

use ak_base::list::{Items, NoMemory, Word};
use ak_labor::config::Config;
use ak_words::command::{Command, read_command};
use std::alloc::Global;

/// The words of a line, which single blanks part.
fn words_of(alloc: Global, line: &str) -> Result<Vec<Word>, NoMemory> {
    let mut words = Vec::new(alloc);
    for word in line.split(' ') {
        words.push(Items::from_vec(Vec::from_slice(alloc, word.as_bytes())?))?;
    }
    Ok(words)
}

/// The command to run with so many threads, jobs of a priority in a cycle, and jobs in all, and without askers.
fn run(threads: u32, limit: u32, jobs: u32) -> Result<Command, u32> {
    Ok(Command::Run(Config {
        threads,
        limit,
        jobs,
        askers: 0,
    }))
}

/// The command to run again with so many threads and askers.
fn replay(threads: u32, askers: u32) -> Result<Command, u32> {
    Ok(Command::Replay(Config {
        threads,
        limit: 500,
        jobs: 100_000,
        askers,
    }))
}

#[test]
fn words_give_commands(rt: HostRuntime) -> Result<(), NoMemory> {
    for (line, command) in [
        ("run", run(4, 500, 100_000)),
        ("run --threads 1", run(1, 500, 100_000)),
        ("run --threads 32", run(32, 500, 100_000)),
        ("run --threads 007 --jobs 3", run(7, 500, 3)),
        ("run --jobs 200000 --limit 100000", run(4, 100_000, 200_000)),
        ("run --limit 1 --jobs 1 --threads 2", run(2, 1, 1)),
        ("check", Ok(Command::Check)),
        ("replay --askers 16 --threads 2", replay(2, 16)),
        ("replay --askers 0", replay(4, 0)),
    ] {
        let words = words_of(rt.alloc(), line)?;
        assert_eq!(rt; read_command(&words), command, "{line}");
    }
    Ok(())
}

#[test]
fn first_wrong_word_is_named(rt: HostRuntime) -> Result<(), NoMemory> {
    for (line, place) in [
        ("", 0),
        ("walk", 0),
        ("check --jobs", 1),
        ("run 5", 1),
        ("run --threads", 2),
        ("run --askers 1", 1),
        ("replay --askers 17", 2),
        ("run --threads 0", 2),
        ("run --threads 33", 2),
        ("run --threads -1", 2),
        ("run --threads 4294967297", 2),
        ("run --jobs 200001", 2),
        ("run --limit 100001", 2),
        ("run --limit 5 --limit 6", 3),
        ("run --limit 5 --jobs x", 4),
        ("run --limit 5 --job 6", 3),
    ] {
        let words = words_of(rt.alloc(), line)?;
        assert_eq!(rt; read_command(&words), Err(place), "{line}");
    }
    Ok(())
}
