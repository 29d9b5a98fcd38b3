//! What a job runs, as plain values.
#![tactic(auto)]

pub mod frame;
pub mod value;
