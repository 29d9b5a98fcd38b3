//! The settings of a run.

/// The settings of a run. Own.
#[derive(Clone, Copy, PartialEq, Eq, Debug)]
pub struct Config {
    /// How many threads the pool has: 1 to 32.
    pub threads: u32,
    /// How many jobs of a priority run in a cycle at the most: 1 to 100,000.
    pub limit: u32,
    /// How many jobs run in all at the most: 1 to 200,000.
    pub jobs: u32,
    /// How many askers there are outside: 0 to 16.
    pub askers: u32,
}
