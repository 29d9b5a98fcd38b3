//! The trace of a run: its entries, their text, and its reader.
#![tactic(auto)]

pub mod entry;
mod keyword;
pub mod laws;
pub mod read;
pub mod refusal;
mod rows;
pub mod text;
