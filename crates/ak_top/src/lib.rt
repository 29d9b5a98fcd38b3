//! The top call: command words, a script from a source, and its run to a sink.
#![tactic(auto)]

pub mod check;
pub mod law;
pub mod replay;
pub mod running;
pub mod status;
pub mod stop;
pub mod top;
