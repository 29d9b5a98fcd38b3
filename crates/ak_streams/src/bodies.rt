//! The bodies of one throttle that have started.

ghost use Rattle.std.specs.Prelude.{◌≡◌, ◌<◌, [], ◌∷◌, ◌++◌, length, slice_get, OnOk};
ghost use Rattle.ak_streams.specs.Throttles.{with_fate_at};

use ak_base::list::NoMemory;
use ak_base::number::BodyNo;
use ak_machine::held::{Fate, Started};
use std::alloc::Global;
use std::marker::Model;

/// The bodies of one throttle that have started, in order of their numbers. Contracts see the list of them. Own.
#[derive(Debug, Drop)]
pub struct Bodies {
    bodies: Vec<Started>,
}

impl Model for Bodies {
    ghost use Rattle.std.specs.Prelude.{List};
    ghost use Rattle.ak_machine.specs.declared.held.Started.{Started as Plain};

    ghost Value = { List Plain };

    ghost view = { λ b. b.bodies.items };
}

impl Bodies {
    /// None has started. It takes no memory.
    pub fn make(alloc: Global) -> Bodies
        ensures { result ≡ [] }
    {
        Bodies {
            bodies: Vec::new(alloc),
        }
    }

    /// One more has started.
    pub fn push(&mut self, body: Started) -> Result<(), NoMemory>
        ensures { OnOk result (self.new ≡ self.old ++ body ∷ []) }
    {
        self.bodies.push(body)?;
        Ok(())
    }

    /// The body of a number: `None` exactly where it has not started.
    pub fn get(&self, no: BodyNo) -> Option<Started>
        ensures { result ≡ slice_get self.now no }
    {
        self.bodies.get(no.number() as usize).copied()
    }

    /// A body that has started came so far.
    pub fn set_fate(&mut self, no: BodyNo, fate: Fate)
        requires { no < length self.old }
        ensures { self.new ≡ with_fate_at no fate self.old }
    {
        self.bodies[no.number() as usize].fate = fate;
    }
}
