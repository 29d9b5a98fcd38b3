//! Reading a source to its end or to its limit.
#![tactic(auto)]

pub mod reading;
