//! Tests of what stands below the machine and is text: bytes that go in and out, numbers, works,
//! rows, traces and histories. They stand in a crate of their own, so that no crate below
//! is proved a second time for its tests.
#![tactic(auto)]

#[cfg(test)]
mod histories;
#[cfg(test)]
mod numbers;
#[cfg(test)]
mod streams;
#[cfg(test)]
mod traces;
