//! What a run leaves, as the source of another: its script and its history are cut, read and met again.
#![tactic(auto)]

pub mod law;
