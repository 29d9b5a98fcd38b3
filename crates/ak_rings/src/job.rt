//! Jobs.

use ak_base::number::{Ctx, JobNo};

/// A job that waits: its number, the context in which it runs, and what it runs.
#[derive(Debug, Drop)]
pub struct Job<F> {
    pub no: JobNo,
    pub ctx: Ctx,
    pub frame: F,
}
