//! What the state of a run keeps of the pool and of the askers outside is what its calls and their replies say.
#![tactic(auto)]

pub mod story;
