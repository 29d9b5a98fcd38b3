//! Laws of every legal history, in the words of histories alone: what a part of one keeps as it grows, what a drain
//! brings, which helpers are active, and how often a work is begun.
//!
//! It has no code. It offers its proofs: what runs on a legal history (the hub and the crew; replay and simulation) names
//! the laws in `proofs` here, and the proofs of no other crate. The laws are read off the state that the pool keeps, so
//! this crate alone names the pool's proofs.
#![tactic(auto)]
