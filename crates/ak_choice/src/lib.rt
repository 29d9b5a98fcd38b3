//! Groups of registrations that are decided once, and guards.
#![tactic(auto)]

mod group;
pub mod groups;
pub mod law;
