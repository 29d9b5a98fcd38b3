//! Works and helpers in the state.

ghost use Rattle.std.specs.Prelude.{◌≡◌, ◌<◌, ◌-◌, ◌^◌, true, not, Some, find, length, OnOk, IfOk, IsSome};
ghost use Rattle.std.specs.Option.{option_map};
ghost use Rattle.ak_base.specs.Lists.{is_empty_list};
ghost use Rattle.ak_cells.specs.Names.{name_in};
ghost use Rattle.ak_machine.specs.Cycle.{is_work, is_stuck, arrive};
ghost use Rattle.ak_machine.specs.Effect.{name_in as name_at};
ghost use Rattle.ak_machine.specs.Mapped.{outstanding_mapped};
ghost use Rattle.ak_machine.specs.Works.{helper_at, is_active, helper_ended, with_helper, submitted};
ghost use Rattle.ak_state.specs.Errors.{after_is, Ends};
ghost use Rattle.ak_state.specs.Fits.{FitsSome};
ghost use Rattle.ak_state.specs.Arrivals.{with_submit, with_work_for, without_work};
ghost use Rattle.ak_state.specs.Reads.{named, IsHelperAt};
ghost use Rattle.ak_state.specs.Seen.{doing};

use crate::local::{helper_of, local_at};
use crate::parts::Parts;
use ak_base::list::NoMemory;
use ak_base::number::{Ctx, HelperNo, IvarNo, WorkNo};
use ak_frames::value::Vals;
use ak_labor::work::{Outcome, Work};
use ak_machine::flow::Flow;
use ak_machine::held::Outstanding;
use ak_trace::entry::Entry;

/// A work that is handed in: its number, and the deferred of its result.
#[derive(Clone, Copy, PartialEq, Eq, Debug)]
pub struct Submitted {
    pub id: WorkNo,
    pub to: IvarNo,
}

impl Parts {
    /// The helper that a local names.
    pub fn helper_at(&self, vals: &Vals, k: usize) -> HelperNo
        requires { IsHelperAt (named self.now vals.now) k }
        ensures { result ≡ name_at (named self.now vals.now) k }
    {
        helper_of(local_at(vals, k))
    }

    /// Whether a helper is granted and has not ended.
    pub fn is_active(&self, no: HelperNo) -> bool
        ensures { result ≡ is_active (helper_at no self.now.plain) }
    {
        self.lists.helpers.is_active(no)
    }

    /// The number of the next helper.
    pub fn next_helper(&self) -> Result<HelperNo, NoMemory>
        ensures number { IfOk result (λ no. no ≡ length self.now.plain.helpers) }
        ensures few { OnOk result (length self.now.plain.helpers < 2 ^ 32 - 1) }
    {
        self.lists.helpers.next()
    }

    /// One more helper, granted or refused.
    pub fn add_helper(&mut self, no: HelperNo, granted: bool) -> Result<(), NoMemory>
        requires { no ≡ length self.old.plain.helpers }
        ensures { OnOk result (self.new ≡ doing (with_helper granted) self.old) }
    {
        self.lists.helpers.push(granted)?;
        self.note(Entry::Helper { no, granted })
    }

    /// A helper that is granted and has not ended ends.
    pub fn end_helper(&mut self, no: HelperNo)
        requires { is_active (helper_at no self.old.plain) ≡ true }
        ensures { self.new ≡ doing (helper_ended no) self.old }
    {
        self.lists.helpers.end(no);
    }

    /// A work is handed in for a fresh deferred, in the context that submits it.
    pub fn submit(
        &mut self,
        ctx: Ctx,
        work: &Work,
        helper: &Option<HelperNo>,
    ) -> Result<Submitted, NoMemory>
        ensures number { IfOk result (λ s. s.id ≡ self.old.plain.next_work) }
        ensures few { OnOk result (self.old.plain.next_work < 2 ^ 32 - 1) }
        ensures result { IfOk result (λ s. s.to ≡ length self.old.plain.cells.ivars) }
        ensures own { IfOk result (λ s. name_in self.old.names s.to ≡ s.to) }
        ensures submitted { OnOk result (self.new
            ≡ doing (with_submit ctx work.now helper.now) self.old) }
    {
        let to = self.fresh()?;
        let id = self.hand_in(to, ctx, *helper)?;
        self.note(Entry::Submit {
            work: id,
            kind: work.kind,
            num: work.num,
        })?;
        Ok(Submitted { id, to })
    }

    /// Whether a work is outstanding.
    pub fn has_work(&self) -> bool
        ensures { result ≡ not (is_empty_list self.now.plain.works) }
    {
        !self.lists.works.is_empty()
    }

    /// Whether a work is outstanding, every such work is general, and at least so many helpers are granted and not
    /// ended.
    pub fn is_stuck(&self, threads: u32) -> bool
        ensures { result ≡ is_stuck threads self.now.plain }
    {
        let works = !self.lists.works.is_empty();
        let general = self.lists.works.all_general();
        let reserved = threads as usize <= self.lists.helpers.active();
        works & general & reserved
    }

    /// The outcome of an outstanding work arrives: a value fills the work's result, and an error is sent to the monitor of the
    /// context that submitted it.
    pub fn arrive(&mut self, no: WorkNo, outcome: Outcome) -> Result<Flow, NoMemory>
        requires out { IsSome (find (is_work no) self.old.plain.works) }
        requires fits { FitsSome self.old.plain }
        ensures told { IfOk result (λ flow. Ends flow self.new.plain.trace) }
        ensures names { OnOk result (self.new.names ≡ self.old.names) }
        ensures arrived { IfOk result (λ flow. arrive no outcome self.old.plain
            ≡ Some (after_is flow self.new.plain)) }
    {
        let Some(work) = self.take_work(no) else {
            unreachable!()
        };
        self.note(Entry::Arrive { work: no, outcome })?;
        match outcome {
            Outcome::Good(num) => {
                self.check_drawn(work.to);
                self.fill(work.to, num)?;
                Ok(Flow::On)
            }
            Outcome::Bad(num) => self.send(work.ctx.mon, num),
        }
    }

    /// One more work is out, for a deferred.
    fn hand_in(
        &mut self,
        to: IvarNo,
        ctx: Ctx,
        helper: Option<HelperNo>,
    ) -> Result<WorkNo, NoMemory>
        ensures number { IfOk result (λ id. id ≡ self.old.plain.next_work) }
        ensures few { OnOk result (self.old.plain.next_work < 2 ^ 32 - 1) }
        ensures out { OnOk result (self.new
            ≡ doing (with_work_for ctx (name_in self.old.names to) helper) self.old) }
    {
        let id = self.lists.works.push(to, ctx, helper)?;
        Ok(id)
    }

    /// Takes a work that has arrived: `None` exactly where it is not out.
    fn take_work(&mut self, no: WorkNo) -> Option<Outstanding>
        ensures work { option_map (outstanding_mapped (name_in self.old.names)) result
            ≡ find (is_work no) self.old.plain.works }
        ensures rest { self.new ≡ doing (without_work no) self.old }
    {
        self.lists.works.take(no)
    }
}
