//! Whole runs of a program over a port.
#![tactic(auto)]

pub mod cycle;
mod round;
mod turn;
