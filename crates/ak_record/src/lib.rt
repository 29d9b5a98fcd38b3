//! The source of a replay: a script, the line `%pool`, and the history of a pool.
#![tactic(auto)]

pub mod cut;
pub mod record;
