//! Runs the scripts of two folders and tells of each whether it goes as it is to.
#![tactic(auto)]

mod commands;
mod files;
mod judge;
mod outputs;

use crate::files::{names, read_script};
use crate::judge::judge;
use std::io;

/// The folders of scripts. Those of the first lie beside the output that they are to give.
const FOLDERS: [&str; 2] = ["examples", "drawn"];

/// Tells of each script of the folders, in the order of their names, how it went. The first word after the program's name is the place of
/// the folders; without it they lie where the program runs.
fn main(rt: HostRuntime) -> io::Result<()> {
    let place = place(&rt)?;
    for folder in FOLDERS {
        let path = format!(in rt.alloc(); "{place}/{folder}")?;
        for name in names(&rt, path.as_str())? {
            let script = read_script(&rt, path.as_str(), name.as_str())?;
            let verdict = judge(&rt, rt.alloc(), &script)?;
            println!(rt; "{folder}/{name}: {}", verdict.text())?;
        }
    }
    Ok(())
}

/// Where the folders lie.
fn place(rt: &HostRuntime) -> io::Result<String> {
    match std::env::args(rt)?.nth(1) {
        Some(word) => Ok(word),
        None => Ok(String::from_str(rt.alloc(), ".")?),
    }
}
