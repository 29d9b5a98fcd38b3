//! Scripts: their syntax and its reader.
#![tactic(auto)]

pub mod cursor;
mod form;
mod keyword;
pub mod laws;
mod limit;
pub mod line_form;
mod list;
pub mod parse;
mod reader;
pub mod refusal;
mod rows;
mod shape;
pub mod version;
pub mod word;
