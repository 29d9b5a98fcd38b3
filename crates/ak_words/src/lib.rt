//! The words of a command line.
#![tactic(auto)]

pub mod command;
mod settings;
