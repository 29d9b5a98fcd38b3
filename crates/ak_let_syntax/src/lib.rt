//! The let dialect as it is written: its grammar, its faults, and the reader of functions by name.
#![tactic(auto)]

mod form;
pub mod named;
pub mod parse;
mod reader;
pub mod refusal;
mod stmt;
mod work;
