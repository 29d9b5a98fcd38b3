//! What threads and askers may do next, by the history alone, and laws of it: each of it is legal and is no call of the scheduler; where
//! the scheduler may wait, something may happen until a drain has something to tell.
//!
//! It has no code. It offers its words and its proofs to what runs on a legal history without a thread. As the laws of
//! `ak_history_laws` they are read off the state that the pool keeps.
#![tactic(auto)]
