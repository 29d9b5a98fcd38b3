//! Commands over bytes in memory.

use ak_base::list::{Items, NoMemory, Word};
use ak_base::memory::{MemSink, MemSource};
use ak_labor::labor::plain_hands;
use ak_top::top::top;
use std::alloc::Global;
use std::sync::Wait;
use std::thread::Threads;

/// The most bytes that an output is taken of.
const ROOM: usize = 1_000_000;

/// What the command with these words writes over this source.
///
/// # Errors
///
/// Want of memory for the source, the room of the output, or the hands.
pub fn output_of<R: Threads + Wait + Sync>(
    rt: &R,
    alloc: Global,
    words: &[Word],
    source: &[u8],
) -> Result<Vec<u8>, NoMemory> {
    let mut source = MemSource::make(Vec::from_slice(alloc, source)?, 4096, Vec::new(alloc));
    let mut sink = MemSink::make(alloc, ROOM, 4096, Vec::new(alloc))?;
    let hands = plain_hands(alloc, 32)?;
    let (_report, _hands) = top(rt, alloc, words, &mut source, &mut sink, hands);
    Vec::from_slice(alloc, sink.taken())
}

/// Whether the command is `run`.
pub fn is_run(words: &[Word]) -> bool {
    match words {
        [first, ..] => first.as_slice() == b"run".as_slice(),
        [] => false,
    }
}

/// The words of a replay with the settings of these.
///
/// # Errors
///
/// Want of memory.
pub fn replay_with(alloc: Global, words: &[Word]) -> Result<Vec<Word>, NoMemory> {
    let mut replay = Vec::with_capacity(alloc, words.len())?;
    for (place, word) in words.iter().enumerate() {
        let text = if place == 0 {
            b"replay".as_slice()
        } else {
            word.as_slice()
        };
        replay.push(Items::from_vec(Vec::from_slice(alloc, text)?))?;
    }
    Ok(replay)
}
