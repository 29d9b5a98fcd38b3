//! Pipes of numbers, with a budget, pushback, flushing and closing.
#![tactic(auto)]

pub mod answer;
pub mod flush;
pub mod law;
mod past;
pub mod pipe;
pub mod story;
