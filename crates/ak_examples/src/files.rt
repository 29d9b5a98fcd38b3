//! Scripts in files.

use ak_base::list::{Items, NoMemory, Word};
use std::alloc::Global;
use std::rt::Files;
use std::{fs, io};

/// A script, the words of its command, and the output that lies beside it.
#[derive(Drop)]
pub struct Script {
    /// the bytes that the command reads
    pub text: Vec<u8>,
    /// the command and its settings
    pub words: Vec<Word>,
    /// `None` where none lies beside it
    pub output: Option<Vec<u8>>,
}

/// The names of the scripts in a folder, in their order, without the ending `.script`.
///
/// # Errors
///
/// That of std where the folder cannot be read, or there is no memory.
pub fn names<R: Files + AllocGlobal + Clone + Drop>(
    rt: &R,
    folder: &str,
) -> io::Result<Vec<String>> {
    let mut names = Vec::new(rt.alloc());
    for entry in fs::read_dir(rt, folder)? {
        let entry = entry?;
        if let Some(name) = entry.file_name().strip_suffix(".script") {
            names.push(String::from_str(rt.alloc(), name)?)?;
        }
    }
    names.sort()?;
    Ok(names)
}

/// The script of a name: `NAME.script`, with the words of `NAME.words` and the output of `NAME.output`. Without a file of
/// words its command is `run`.
///
/// # Errors
///
/// That of std where a file cannot be read, or there is no memory.
pub fn read_script<R: Files + AllocGlobal>(rt: &R, folder: &str, name: &str) -> io::Result<Script> {
    let Some(text) = read_beside(rt, folder, name, "script")? else {
        return Err(io::Error::from(io::ErrorKind::NotFound));
    };
    let words = match read_beside(rt, folder, name, "words")? {
        Some(line) => words_of(rt.alloc(), line.as_slice())?,
        None => words_of(rt.alloc(), b"run")?,
    };
    Ok(Script {
        text,
        words,
        output: read_beside(rt, folder, name, "output")?,
    })
}

/// What stands in the file of this name and ending: `None` where there is no such file.
fn read_beside<R: Files + AllocGlobal>(
    rt: &R,
    folder: &str,
    name: &str,
    ending: &str,
) -> io::Result<Option<Vec<u8>>> {
    let path = format!(in rt.alloc(); "{folder}/{name}.{ending}")?;
    match fs::read(rt, path.as_str()) {
        Ok(bytes) => Ok(Some(bytes)),
        Err(error) if error.kind() == io::ErrorKind::NotFound => Ok(None),
        Err(error) => Err(error),
    }
}

/// The words of a line, which blanks and a line feed end.
fn words_of(alloc: Global, line: &[u8]) -> Result<Vec<Word>, NoMemory> {
    let mut words = Vec::new(alloc);
    for word in line.split(|byte| *byte == b' ' || *byte == b'\n') {
        if !word.is_empty() {
            words.push(Items::from_vec(Vec::from_slice(alloc, word)?))?;
        }
    }
    Ok(words)
}
