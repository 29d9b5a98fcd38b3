//! Laws of every legal history on those who ask from outside: what an asker was told stays, one that has ended has all its answers,
//! and where the outside is quiet each that has not ended waits for its last request.
//!
//! It has no code. It offers its proofs to what runs on a legal history. As the laws of `ak_history_laws` they are read off the
//! state that the pool keeps.
#![tactic(auto)]
