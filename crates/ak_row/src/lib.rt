//! Rows: the lines of traces and histories, read word by word.
#![tactic(auto)]

pub mod laws;
pub mod line;
pub mod row;
pub mod word;
