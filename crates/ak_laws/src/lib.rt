//! Laws of a trace, over its entries alone, and that the trace of every run obeys them.
#![tactic(auto)]

pub mod law;
pub mod rows;
