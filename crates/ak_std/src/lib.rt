//! What the programs of this repository take from std: the standard streams as a source and a sink, and the words of a command line.
#![tactic(auto)]

pub mod streams;
pub mod words;
