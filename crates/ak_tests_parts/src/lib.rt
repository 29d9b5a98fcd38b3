//! Tests of the parts of the scheduler, of the pool and of its judge. They stand in a crate
//! of their own, so that no crate below is proved a second time for its tests.
#![tactic(auto)]

#[cfg(test)]
mod choice;
#[cfg(test)]
mod clock;
#[cfg(test)]
mod monitor;
#[cfg(test)]
mod pipe;
#[cfg(test)]
mod pool;
#[cfg(test)]
mod replay;
#[cfg(test)]
mod rings;
#[cfg(test)]
mod throttle;
