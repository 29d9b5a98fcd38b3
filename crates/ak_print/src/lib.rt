//! Lines of words and numbers, put through a buffer to a sink.
#![tactic(auto)]

pub mod piece;
