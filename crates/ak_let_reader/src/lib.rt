//! The let dialect: the faults of its names, their numbering, and the reader of sources.
#![tactic(auto)]

mod faults;
mod functions;
pub mod law;
mod locals;
pub mod names;
mod number;
pub mod read;
pub mod rows;
