//! The parts of the scheduler's state together.

mod alarms;
mod bodies;
mod cycle;
mod deferred;
mod effect;
mod errors;
mod groups;
mod monitors;
mod pipes;
mod requests;
mod throttles;
mod works;

ghost use Rattle.std.specs.Prelude.{◌≡◌, ◌≤◌, [], IfOk, OnOk, OnErr};
ghost use Rattle.ak_machine.specs.State.{initial_state};
ghost use Rattle.ak_machine.specs.Deferred.{noting};
ghost use Rattle.ak_state.specs.Seen.{doing};

use crate::lists::Lists;
use ak_base::list::NoMemory;
use ak_cells::cells::Cells;
use ak_frames::frame::{Frame, Task};
use ak_rings::rings::Rings;
use ak_trace::entry::{Entry, Trace};
use std::alloc::Global;
use std::marker::Model;

/// The ivars, the jobs that wait, the trace, and the other lists. Contracts see the plain state that they stand for. Own.
#[derive(Debug, Drop)]
pub struct Parts {
    alloc: Global,
    cells: Cells<Frame>,
    queues: Rings<Task>,
    trace: Trace,
    lists: Lists,
}

impl Model for Parts {
    ghost use Rattle.ak_state.specs.Seen.{Seen, seen, other_lists, IsKept};

    ghost Value = { Seen };

    ghost view = { λ p. seen p.cells.named p.queues.queues p.trace (other_lists p.lists) };

    ghost invariant = { λ p. IsKept p.cells.named };
}

impl Parts {
    /// No ivar was drawn, no job waits, and the root is the only monitor. At most `limit` jobs of a priority run in a
    /// cycle, and there are so many askers.
    pub fn make(alloc: Global, limit: u32, askers: u32) -> Result<Parts, NoMemory>
        requires { 1 ≤ limit }
        ensures plain { IfOk result (λ parts. parts.plain ≡ initial_state limit askers) }
        ensures names { IfOk result (λ parts. parts.names ≡ []) }
    {
        let lists = Lists::make(alloc, askers)?;
        Ok(Parts {
            alloc,
            cells: Cells::make(alloc),
            queues: Rings::make(alloc, limit),
            trace: Trace::make(alloc),
            lists,
        })
    }

    /// All is as when it was made. It takes no memory.
    pub fn reset(&mut self, limit: u32, askers: u32)
        requires { 1 ≤ limit }
        ensures { self.new.plain ≡ initial_state limit askers }
    {
        let alloc = self.alloc;
        self.cells = Cells::make(alloc);
        self.queues = Rings::make(alloc, limit);
        self.trace = Trace::make(alloc);
        self.lists.reset(alloc, askers);
    }

    /// One more entry in the trace.
    pub fn note(&mut self, entry: Entry) -> Result<(), NoMemory>
        ensures ok { OnOk result (self.new ≡ doing (noting entry) self.old) }
        ensures err { OnErr result (self.new ≡ self.old) }
    {
        self.trace.push(entry)
    }

    /// The trace.
    pub fn into_trace(self) -> Trace
        ensures { result ≡ self.plain.trace }
    {
        let Parts { trace, .. } = self;
        trace
    }
}
