//! What every crate stands on: numbers of things, lists, and the traits of the outside.
#![tactic(auto)]

pub mod buffer;
pub mod list;
pub mod memory;
pub mod number;
pub mod sink;
pub mod source;
