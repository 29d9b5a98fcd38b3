//! The compiler of sources to procedures.
#![tactic(auto)]

pub mod compile;
pub mod draft;
pub mod entries;
pub mod lines;
pub mod locals;
