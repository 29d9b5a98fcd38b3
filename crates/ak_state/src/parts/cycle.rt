//! What a cycle needs of the state: the pick, what is left to do, and the begin.

ghost use Rattle.std.specs.Prelude.{◌≡◌, None, OnOk, OnErr, false, true, not};
ghost use Rattle.ak_cells.specs.Names.{name_in};
ghost use Rattle.std.specs.Option.{option_map};
ghost use Rattle.ak_rings.specs.Queues.{pick_of, has_pick, has_no_job};
ghost use Rattle.ak_machine.specs.Cycle.{cycle_begun, has_more, with_left};
ghost use Rattle.ak_machine.specs.Mapped.{job_mapped};
ghost use Rattle.ak_state.specs.Seen.{doing, without_pick};
ghost use Rattle.ak_state.specs.Fits.{FitsSome};
ghost use Rattle.ak_state.specs.Alarms.{with_recount};

use crate::parts::Parts;
use ak_base::list::NoMemory;
use ak_frames::frame::Task;
use ak_rings::job::Job;
use ak_trace::entry::Entry;

impl Parts {
    /// Whether there is a job to pick.
    pub fn can_pick(&self) -> bool
        ensures { result ≡ has_pick self.now.plain.queues }
    {
        self.queues.can_pick()
    }

    /// Takes the next job out of its queue: `None` exactly where there is none.
    pub fn pick(&mut self) -> Option<Job<Task>>
        ensures job { option_map (job_mapped (name_in self.old.names)) result
            ≡ pick_of self.old.plain.queues }
        ensures parts { self.new ≡ doing without_pick self.old }
    {
        self.queues.pick()
    }

    /// Whether a job waits, a yield is pending or an alarm is due.
    pub fn has_more(&self) -> bool
        ensures { result ≡ has_more self.now.plain }
    {
        let jobs = !self.queues.is_empty();
        let yields = self.lists.clock.any_yield();
        let due = self.lists.clock.any_due();
        jobs | yields | due
    }

    /// So many askers are left.
    pub fn set_left(&mut self, left: u32)
        ensures { self.new ≡ doing (with_left left) self.old }
    {
        self.lists.left = left;
    }

    /// A cycle begins: the pending yields are filled, and then the alarms that are due. There is a job to pick then
    /// exactly where something is left to do.
    pub fn begin_cycle(&mut self) -> Result<(), NoMemory>
        requires fits { FitsSome self.old.plain }
        ensures begun { OnOk result (self.new ≡ doing cycle_begun self.old) }
        ensures picks { OnOk result (has_pick self.new.plain.queues ≡ has_more self.new.plain) }
    {
        self.note(Entry::Cycle)?;
        self.fill_yields()?;
        self.fill_alarms()?;
        self.recount();
        Ok(())
    }

    /// None of the cycle's jobs ran. There is a job to pick then exactly where one waits.
    fn recount(&mut self)
        ensures recount { self.new ≡ doing with_recount self.old }
        ensures picks { has_pick self.new.plain.queues
            ≡ not (has_no_job self.new.plain.queues) }
    {
        self.queues.reset();
    }
}
