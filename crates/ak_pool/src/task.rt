//! Works under their numbers.

ghost use Rattle.std.specs.Prelude.{◌≡◌};

use ak_base::number::WorkNo;
use ak_labor::work::Work;

/// A work that was handed in, under its number.
#[derive(Clone, Copy, Debug)]
pub struct Task {
    pub id: WorkNo,
    pub work: Work,
}

impl Task {
    /// The same work under the same number.
    pub fn copied(&self) -> Task
        ensures { result ≡ self.now }
    {
        Task {
            id: self.id,
            work: self.work,
        }
    }
}
