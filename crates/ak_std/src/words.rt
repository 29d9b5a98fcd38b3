//! The words of a command line.

use ak_base::list::{Items, Word};
use std::rt::HostRuntime;
use std::{env, io};

/// The words after the program's name, in their order.
///
/// # Errors
///
/// That of std where the arguments cannot be read, or there is no memory for them.
pub fn command_words(rt: &HostRuntime) -> io::Result<Vec<Word>> {
    let mut words = Vec::new(rt.alloc());
    for (place, word) in env::args(rt)?.enumerate() {
        if place > 0 {
            words.push(Items::from_vec(word.into_bytes()))?;
        }
    }
    Ok(words)
}
