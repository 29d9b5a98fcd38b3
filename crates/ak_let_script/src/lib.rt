//! The script of a source of the let dialect, as a text: from a source, and from the source's own text.
#![tactic(auto)]

pub mod compile;
pub mod script;
