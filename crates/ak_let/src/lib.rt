//! A dialect in which a function awaits results in the middle of its text.
#![tactic(auto)]

pub mod law;
pub mod rows;
pub mod source;
