//! Groups: to begin an `all`, an `any`, a `choose` or a guard of `try`, and what their jobs do.

ghost use Rattle.std.specs.Prelude.{ℕ, ◌≡◌, ◌<◌, ◌≤◌, [], ◌∷◌, length, map, not, true, None, OnOk, IfOk, IfSome};
ghost use Rattle.std.specs.List.{All};
ghost use Rattle.ak_cells.specs.Names.{name_in};
ghost use Rattle.ak_choice.specs.Groups.{group_in, has_all, without_notes};
ghost use Rattle.ak_frames.specs.declared.value.Value.TheVariants as value;
ghost use Rattle.ak_machine.specs.Deferred.{called};
ghost use Rattle.ak_machine.specs.Groups.{with_group, all_begun, any_begun, choice_begun, choice_registered, choice_decided, decided, part_at, part_set, try_begun, guard_decided, guard_acts, try_done, try_waits, group_at, purpose_at};
ghost use Rattle.ak_machine.specs.Mapped.{values_mapped, task_mapped, purpose_mapped, callback_mapped, choosable_mapped};
ghost use Rattle.ak_state.specs.Seen.{doing};
ghost use Rattle.ak_state.specs.Reads.{call_named};
ghost use Rattle.ak_state.specs.Drawn.{drawn, parts_at};
ghost use Rattle.ak_state.specs.Fits.{FitsSome};
ghost use Rattle.ak_state.specs.Guards.{IsGuard, IsGuardAt, catch_of, catch_task};
ghost use Rattle.ak_state.specs.Groups.{with_fresh_group, with_purpose, part_ended, part_call, call_of_all, filled_by, called_by, choice_ended, choice_call, taken_fills, taken_calls, TakesDrawn, any_takes, choice_takes, takes, LooksDrawn, without_handlers};

use crate::cells;
use crate::local::numbered;
use crate::parts::Parts;
use ak_base::list::{Items, NoMemory};
use ak_base::number::{Ctx, GroupNo, IvarNo, MonNo, Num};
use ak_cells::cells::Cells;
use ak_choice::groups::Groups;
use ak_choice::law::notes_one_at_a_time_are_all_that_were_noted;
use ak_frames::frame::{Frame, Ret, Task};
use ak_frames::value::{Vals, Value};
use ak_machine::held::{Callback, Choosable, Handler, Purpose};
use ak_script::statement::GuardMode;
use ak_trace::entry::Entry;
use std::alloc::Global;

/// The guard of a `try`: the context of the `try`, the monitor of its body, what is done with later errors, and its
/// result.
#[derive(Clone, Copy, PartialEq, Eq, Debug)]
pub struct Guard {
    pub ctx: Ctx,
    pub mon: MonNo,
    pub mode: GuardMode,
    pub to: IvarNo,
}

/// What a choice that is decided takes: its result is filled, or a procedure is called, or nothing is full yet.
#[derive(Debug, Drop)]
pub enum Taken {
    Fills { to: IvarNo, num: Num },
    Calls(Callback),
    Nothing,
}

impl Parts {
    /// `all`: one part on each of at most 8 deferreds, and the call that takes their numbers.
    pub fn begin_all(
        &mut self,
        ctx: &Ctx,
        deferreds: &[IvarNo],
        call: Callback,
    ) -> Result<(), NoMemory>
        requires few { length deferreds.now ≤ 8 }
        requires drawn { All (λ i. i < length self.old.plain.cells.ivars) deferreds.now }
        ensures { OnOk result (self.new ≡ doing
            (all_begun ctx.now (map (name_in self.old.names) deferreds.now)
            (callback_mapped (name_in self.old.names) call)) self.old) }
    {
        let group = self.begin_group(deferreds.len() as u32)?;
        for (k, i) in deferreds.iter().enumerate() {
            let part = k as u32;
            self.register(*i, *ctx, Frame::AllPart { group, part })?;
        }
        self.keep_purpose(Purpose::ForAll(call))?;
        Ok(())
    }

    /// `any`: a choice of deferreds, whose number goes to a result.
    pub fn begin_any(
        &mut self,
        ctx: &Ctx,
        deferreds: Items<IvarNo>,
        to: IvarNo,
    ) -> Result<(), NoMemory>
        requires { All (λ i. i < length self.old.plain.cells.ivars) deferreds }
        ensures { OnOk result (self.new ≡ doing
            (any_begun ctx.now (map (name_in self.old.names) deferreds)
            (name_in self.old.names to)) self.old) }
    {
        let group = self.begin_group(0)?;
        for i in deferreds.as_slice() {
            self.register_choice(*i, *ctx, group)?;
        }
        self.keep_purpose(Purpose::ForAny { deferreds, to })?;
        Ok(())
    }

    /// `choose`: a choice of deferreds, each with its procedure, and the values behind the number.
    pub fn begin_choice(
        &mut self,
        ctx: &Ctx,
        choices: Items<Choosable>,
        vals: Vals,
        to: IvarNo,
    ) -> Result<(), NoMemory>
        requires { All (λ choice. choice.deferred < length self.old.plain.cells.ivars) choices }
        ensures { OnOk result (self.new ≡ doing
            (choice_begun ctx.now (map (choosable_mapped (name_in self.old.names)) choices)
            (values_mapped (name_in self.old.names) vals) (name_in self.old.names to)) self.old) }
    {
        let group = self.begin_group(0)?;
        for choice in choices.as_slice() {
            self.register_choice(choice.deferred, *ctx, group)?;
        }
        self.keep_purpose(Purpose::ForChoice { choices, vals, to })?;
        Ok(())
    }

    /// A number comes to a part of an `all`, which keeps it where it has none. Where every part has one now, the answer is
    /// the call, with these in front of its values.
    pub fn end_part(&mut self, g: GroupNo, k: u32, num: Num) -> Result<Option<Callback>, NoMemory>
        requires part { k < parts_at g (drawn self.old.plain) }
        requires fits { FitsSome self.old.plain }
        ensures ended { OnOk result (self.new ≡ doing
            (λ s. part_ended (part_at g k s) g k num s) self.old) }
        ensures call { IfOk result (λ call. call_named self.old call
            ≡ part_call (part_at g k self.old.plain) g k num self.old.plain) }
    {
        if self.lists.groups.part(g, k).is_some() {
            return Ok(None);
        }
        if self.set_part(g, k, num) {
            self.call_of_all(g)
        } else {
            Ok(None)
        }
    }

    /// The job of a choice: one that is undecided is decided, and takes the first of its deferreds that is full now. The
    /// answer is the call of a `choose`; the result of an `any` is filled.
    pub fn end_choice(&mut self, g: GroupNo) -> Result<Option<Callback>, NoMemory>
        requires group { g < length self.old.plain.groups }
        requires fits { FitsSome self.old.plain }
        ensures ended { OnOk result (self.new ≡ doing (choice_ended g) self.old) }
        ensures call { IfOk result (λ call. call_named self.old call
            ≡ choice_call g self.old.plain) }
    {
        if !self.is_undecided(g) {
            return Ok(None);
        }
        self.decide_choice(g);
        match self.take_first(g)? {
            Taken::Fills { to, num } => {
                self.fill(to, num)?;
                Ok(None)
            }
            Taken::Calls(call) => Ok(Some(call)),
            Taken::Nothing => Ok(None),
        }
    }

    /// `try`: a guard, and the call of the body in a fresh detached monitor that has it as its handler.
    pub fn begin_try(
        &mut self,
        ctx: &Ctx,
        mode: GuardMode,
        proc: usize,
        vals: Vals,
        catch: Callback,
    ) -> Result<(), NoMemory>
        requires { ctx.now.mon < length self.old.plain.monitors }
        ensures { OnOk result (self.new ≡ doing
            (try_begun ctx.now mode proc (values_mapped (name_in self.old.names) vals)
            (callback_mapped (name_in self.old.names) catch)) self.old) }
    {
        let mon = self.monitor(ctx.mon)?;
        let guard = self.guard(Purpose::ForGuard {
            ctx: *ctx,
            mon,
            mode,
            catch,
        })?;
        self.detach(mon)?;
        self.on_error(mon, *ctx, Handler::OfGuard(guard))?;
        let frame = Frame::Call {
            proc,
            vals,
            ret: Ret::TryBody(guard),
        };
        self.enqueue(Ctx { mon, ..*ctx }, Task { frame, value: None })
    }

    /// An error comes to a guard: the first decides it and calls the procedure for errors; a later one is only noted.
    pub fn tell_guard(&mut self, g: GroupNo, num: Num) -> Result<(), NoMemory>
        requires guard { g < length self.old.plain.groups }
        requires fits { FitsSome self.old.plain }
        ensures { OnOk result (self.new ≡ doing (guard_acts g num) self.old) }
    {
        let Some(Guard { ctx, mon, mode, .. }) = self.guard_at(g) else {
            return Ok(());
        };
        if self.is_undecided(g) {
            let task = self.catch_at(g, num)?;
            self.decide_guard(g, mon, mode)?;
            self.enqueue(ctx, task)
        } else {
            self.note(Entry::Rest { num })
        }
    }

    /// A number comes to a guard: it decides an undecided one and fills its result.
    pub fn end_try(&mut self, g: GroupNo, num: Num) -> Result<(), NoMemory>
        requires guard { g < length self.old.plain.groups }
        requires fits { FitsSome self.old.plain }
        ensures { OnOk result (self.new ≡ doing (try_done g num) self.old) }
    {
        let Some(Guard { mon, mode, to, .. }) = self.guard_at(g) else {
            return Ok(());
        };
        if self.is_undecided(g) {
            self.decide_guard(g, mon, mode)?;
            self.fill(to, num)?;
        }
        Ok(())
    }

    /// A deferred comes to a guard: an undecided one waits for it, in the context of its `try`.
    pub fn await_try(&mut self, g: GroupNo, i: IvarNo) -> Result<(), NoMemory>
        requires guard { g < length self.old.plain.groups }
        requires deferred { i < length self.old.plain.cells.ivars }
        requires fits { FitsSome self.old.plain }
        ensures { OnOk result (self.new
            ≡ doing (try_waits g (name_in self.old.names i)) self.old) }
    {
        let Some(Guard { ctx, .. }) = self.guard_at(g) else {
            return Ok(());
        };
        if self.is_undecided(g) {
            self.register(i, ctx, Frame::TryDone { guard: g })?;
        }
        Ok(())
    }

    /// A fresh guard, undecided, and its number.
    fn guard(&mut self, purpose: Purpose) -> Result<GroupNo, NoMemory>
        ensures number { IfOk result (λ g. g ≡ length self.old.plain.groups) }
        ensures fresh { OnOk result (self.new ≡ doing
            (with_group 0 (purpose_mapped (name_in self.old.names) purpose)) self.old) }
    {
        let guard = self.begin_group(0)?;
        self.keep_purpose(purpose)?;
        Ok(guard)
    }

    /// A handler of a choice waits for a deferred and is noted for its group, or is enqueued with the deferred's number.
    fn register_choice(&mut self, i: IvarNo, ctx: Ctx, g: GroupNo) -> Result<(), NoMemory>
        requires deferred { i < length self.old.plain.cells.ivars }
        requires group { g < length self.old.plain.groups }
        ensures { OnOk result (self.new ≡ doing
            (choice_registered ctx g (name_in self.old.names i ∷ [])) self.old) }
    {
        if let Some(registration) = self.register(i, ctx, Frame::ChoicePart { group: g })? {
            self.lists.groups.note(g, registration)?;
        }
        Ok(())
    }

    /// A part of a group gets its number. The answer is whether every part has one now.
    fn set_part(&mut self, g: GroupNo, k: u32, num: Num) -> bool
        requires part { k < parts_at g (drawn self.old.plain) }
        requires unset { part_at g k self.old.plain ≡ None }
        ensures all { result ≡ has_all (group_at g self.new.plain).parts }
        ensures set { self.new ≡ doing (part_set g k num) self.old }
    {
        self.lists.groups.set_part(g, k, num)
    }

    /// The call of an `all` whose parts all have numbers, with these in front of its values. A group of another sort has none.
    fn call_of_all(&self, g: GroupNo) -> Result<Option<Callback>, NoMemory>
        requires group { g < length self.now.plain.groups }
        requires all { has_all (group_at g self.now.plain).parts ≡ true }
        requires fits { FitsSome self.now.plain }
        ensures { IfOk result (λ call. call_named self.now call
            ≡ call_of_all (purpose_at g self.now.plain) g self.now.plain) }
    {
        let Purpose::ForAll(call) = self.purpose(g) else {
            return Ok(None);
        };
        let mut vals = Vec::with_capacity(self.alloc, call.vals.len() + 8)?;
        let mut k = 0;
        while let Some(num) = self.lists.groups.part(g, k) {
            vals.push(Value::Num(num))?;
            k += 1;
        }
        vals.extend_from_slice(call.vals.as_slice())?;
        Ok(Some(Callback {
            proc: call.proc,
            vals: Items::from_vec(vals),
            to: call.to,
        }))
    }

    /// A group is decided.
    fn decide(&mut self, g: GroupNo)
        requires { g < length self.old.plain.groups }
        ensures { self.new ≡ doing (decided g) self.old }
    {
        self.lists.groups.decide(g);
    }

    /// A choice is decided, and the handlers that were noted for it wait no longer.
    fn decide_choice(&mut self, g: GroupNo)
        requires { g < length self.old.plain.groups }
        ensures { self.new ≡ doing (choice_decided g) self.old }
    {
        self.decide(g);
        drop_noted(&mut self.cells, &mut self.lists.groups, g);
    }

    /// What a choice that is decided takes: the first of its deferreds that is full now.
    fn take_first(&mut self, g: GroupNo) -> Result<Taken, NoMemory>
        requires group { g < length self.old.plain.groups }
        requires fits { FitsSome self.old.plain }
        ensures fills { IfOk result (λ taken. taken_fills (name_in self.old.names) taken
            self.old.plain ≡ filled_by (purpose_at g self.old.plain) self.old.plain) }
        ensures calls { IfOk result (λ taken. taken_calls (name_in self.old.names) taken
            ≡ called_by (purpose_at g self.old.plain) self.old.plain) }
        ensures drawn { IfOk result (λ taken. TakesDrawn taken self.old.plain) }
        ensures same { self.new ≡ self.old }
    {
        match self.lists.purposes.get(g.number() as usize) {
            Some(purpose) => taken_by(self.alloc, &mut self.cells, purpose),
            None => unreachable!(),
        }
    }

    /// Whether a group is undecided.
    fn is_undecided(&self, g: GroupNo) -> bool
        requires { g < length self.now.plain.groups }
        ensures { result ≡ not (group_at g self.now.plain).decided }
    {
        self.lists.groups.undecided(g)
    }

    /// What a group is for.
    fn purpose(&self, g: GroupNo) -> &Purpose
        requires guard { g < length self.now.plain.groups }
        requires fits { FitsSome self.now.plain }
        ensures { purpose_mapped (name_in self.now.names) result.now
            ≡ purpose_at g self.now.plain }
    {
        match self.lists.purposes.get(g.number() as usize) {
            Some(purpose) => purpose,
            None => unreachable!(),
        }
    }

    /// The guard that a group is: `None` exactly where it is none.
    fn guard_at(&self, g: GroupNo) -> Option<Guard>
        requires guard { g < length self.now.plain.groups }
        requires fits { FitsSome self.now.plain }
        ensures guard { IsGuardAt result (purpose_at g self.now.plain) }
        ensures context { IfSome result (λ guard. guard.ctx.mon < length self.now.plain.monitors) }
        ensures monitor { IfSome result (λ guard. guard.mon < length self.now.plain.monitors) }
        ensures to { IfSome result (λ guard. name_in self.now.names guard.to
            ≡ (catch_of (purpose_at g self.now.plain)).to) }
        ensures drawn { IfSome result (λ guard. guard.to < length self.now.plain.cells.ivars) }
    {
        match self.purpose(g) {
            Purpose::ForGuard {
                ctx,
                mon,
                mode,
                catch,
            } => {
                self.check_drawn(catch.to);
                Some(Guard {
                    ctx: *ctx,
                    mon: *mon,
                    mode: *mode,
                    to: catch.to,
                })
            }
            _ => None,
        }
    }

    /// The call that takes an error, with its number in front.
    fn catch_at(&self, g: GroupNo, num: Num) -> Result<Task, NoMemory>
        requires guard { g < length self.now.plain.groups }
        requires kind { IsGuard (purpose_at g self.now.plain) }
        requires fits { FitsSome self.now.plain }
        ensures { IfOk result (λ task. task_mapped (name_in self.now.names) task
            ≡ catch_task num (catch_of (purpose_at g self.now.plain))) }
    {
        match self.purpose(g) {
            Purpose::ForGuard { catch, .. } => {
                let vals = numbered(self.alloc, num, &catch.vals)?;
                let frame = Frame::Call {
                    proc: catch.proc,
                    vals,
                    ret: Ret::To(catch.to),
                };
                Ok(Task { frame, value: None })
            }
            _ => unreachable!(),
        }
    }

    /// A group of so many parts, undecided, and its number. Its purpose is still to come.
    fn begin_group(&mut self, parts: u32) -> Result<GroupNo, NoMemory>
        requires { parts ≤ 8 }
        ensures number { IfOk result (λ g. g ≡ length self.old.plain.groups) }
        ensures fresh { OnOk result (self.new ≡ doing (with_fresh_group parts) self.old) }
    {
        self.lists.groups.begin(parts)
    }

    /// What the last group is for.
    fn keep_purpose(&mut self, purpose: Purpose) -> Result<(), NoMemory>
        ensures { OnOk result (self.new ≡ doing
            (with_purpose (purpose_mapped (name_in self.old.names) purpose)) self.old) }
    {
        self.lists.purposes.push(purpose)
    }

    /// A guard is decided. Where later errors are raised, its monitor is detached no longer.
    fn decide_guard(&mut self, g: GroupNo, mon: MonNo, mode: GuardMode) -> Result<(), NoMemory>
        requires guard { g < length self.old.plain.groups }
        requires monitor { mon < length self.old.plain.monitors }
        ensures { OnOk result (self.new ≡ doing (guard_decided mode mon g) self.old) }
    {
        self.decide(g);
        match mode {
            GuardMode::Drop => Ok(()),
            GuardMode::Raise => self.attach(mon),
        }
    }
}

/// What a group of a purpose takes: the first of the deferreds of an `any` or of a `choose` that is full.
fn taken_by(alloc: Global, cells: &mut Cells<Frame>, purpose: &Purpose) -> Result<Taken, NoMemory>
    requires { LooksDrawn (length cells.old.named.cells.ivars) purpose.now }
    ensures taken { IfOk result (λ taken. taken ≡ takes purpose.now cells.old.named) }
    ensures same { cells.new ≡ cells.old }
{
    match purpose {
        Purpose::ForAny { deferreds, to } => Ok(any_taken(cells, deferreds.as_slice(), *to)),
        Purpose::ForChoice { choices, vals, to } => {
            choice_taken(alloc, cells, choices.as_slice(), vals, *to)
        }
        _ => Ok(Taken::Nothing),
    }
}

/// The first of these ivars that is full: its number is for the result.
fn any_taken(cells: &mut Cells<Frame>, deferreds: &[IvarNo], to: IvarNo) -> Taken
    requires { All (λ i. i < length cells.old.named.cells.ivars) deferreds.now }
    ensures taken { result ≡ any_takes deferreds.now to cells.old.named }
    ensures same { cells.new ≡ cells.old }
{
    for i in deferreds {
        if let Some(num) = cells::look(cells, *i) {
            return Taken::Fills { to, num };
        }
    }
    Taken::Nothing
}

/// The first of these choices whose deferred is full: its procedure is called, with the number in front of these values.
fn choice_taken(
    alloc: Global,
    cells: &mut Cells<Frame>,
    choices: &[Choosable],
    vals: &Vals,
    to: IvarNo,
) -> Result<Taken, NoMemory>
    requires { All (λ choice. choice.deferred < length cells.old.named.cells.ivars) choices.now }
    ensures taken { IfOk result (λ taken. taken
        ≡ choice_takes choices.now vals.now to cells.old.named) }
    ensures same { cells.new ≡ cells.old }
{
    for choice in choices {
        if let Some(num) = cells::look(cells, choice.deferred) {
            let vals = numbered(alloc, num, vals)?;
            return Ok(Taken::Calls(Callback {
                proc: choice.proc,
                vals,
                to,
            }));
        }
    }
    Ok(Taken::Nothing)
}

/// The handlers that were noted for a group wait no longer, and none is noted for it any more.
fn drop_noted(cells: &mut Cells<Frame>, groups: &mut Groups, g: GroupNo)
    requires { g < length groups.old }
    ensures cells { cells.new.named
        ≡ without_handlers (group_in groups.old g).notes cells.old.named }
    ensures groups { groups.new ≡ without_notes g groups.old }
{
    // For the proof alone: calls that take one note each take all that were noted.
    notes_one_at_a_time_are_all_that_were_noted();
    while let Some(registration) = groups.next_note(g) {
        cells::unregister(cells, registration);
    }
}
