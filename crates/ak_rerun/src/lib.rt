//! A program that is run again over the record of a pool.
#![tactic(auto)]

pub mod rerun;
