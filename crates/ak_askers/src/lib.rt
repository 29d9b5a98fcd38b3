//! Askers that ask by a plain plan, each with one request after the other.
#![tactic(auto)]

pub mod asking;
pub mod repeat;
