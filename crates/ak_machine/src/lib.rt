//! The plain machine: what a script does, told by lists, numbers and names. Definitions alone; the layers above are proved
//! against them.
#![tactic(auto)]

pub mod flow;
pub mod held;
pub mod law;
pub mod steps;
