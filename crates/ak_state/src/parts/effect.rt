//! The values that a statement reads.

ghost use Rattle.std.specs.Prelude.{◌≡◌, ◌<◌, length, map, IfOk};
ghost use Rattle.std.specs.List.{All};
ghost use Rattle.ak_cells.specs.Names.{name_in};
ghost use Rattle.ak_machine.specs.Mapped.{value_mapped, values_mapped, choosable_mapped};
ghost use Rattle.ak_machine.specs.Effect.{value_of, number_in, name_in as name_at, args_of};
ghost use Rattle.ak_state.specs.Reads.{named, IsNumAt, IsDeferredAt, IsMonitorAt, IsThrottleAt, IsEventAt, IsBound, AreBound, AreDeferredsAt, AreChoicesAt, IsPipeAt};
ghost use Rattle.ak_machine.specs.Statement.{choosable};

use crate::local::{event_of, ivar_of, local_at, mon_of, num_of, pipe_of, thr_of};
use crate::parts::Parts;
use ak_base::list::{Items, NoMemory};
use ak_base::number::{EventNo, IvarNo, MonNo, Num, PipeNo, ThrottleNo};
use ak_frames::value::{Vals, Value};
use ak_machine::held::Choosable;
use ak_program::statement::{NumArgs, NumAtom, NumChoices, Places};

impl Parts {
    /// The number that an atom is.
    pub fn number_at(&self, vals: &Vals, atom: NumAtom) -> Num
        requires { IsNumAt (named self.now vals.now) atom }
        ensures { result ≡ number_in (named self.now vals.now) atom }
    {
        match atom {
            NumAtom::Literal(num) => num,
            NumAtom::Local(k) => num_of(local_at(vals, k)),
        }
    }

    /// The ivar that a local names.
    pub fn deferred_at(&self, vals: &Vals, k: usize) -> IvarNo
        requires { IsDeferredAt self.now.plain (named self.now vals.now) k }
        ensures name { name_in self.now.names result ≡ name_at (named self.now vals.now) k }
        ensures drawn { result < length self.now.plain.cells.ivars }
    {
        let i = ivar_of(local_at(vals, k));
        self.check_drawn(i);
        i
    }

    /// The ivars that locals name.
    pub fn deferreds_at(&self, vals: &Vals, places: &Places) -> Result<Items<IvarNo>, NoMemory>
        requires { AreDeferredsAt self.now.plain (named self.now vals.now) places.now }
        ensures names { IfOk result (λ ivars. map (name_in self.now.names) ivars
            ≡ map (name_at (named self.now vals.now)) places.now) }
        ensures drawn { IfOk result (λ ivars.
            All (λ i. i < length self.now.plain.cells.ivars) ivars) }
    {
        let mut ivars = Vec::with_capacity(self.alloc, places.len())?;
        for k in places.as_slice() {
            ivars.push(self.deferred_at(vals, *k))?;
        }
        Ok(Items::from_vec(ivars))
    }

    /// The choices of a list: the ivar that the local of each names, and its procedure.
    pub fn choices_at(
        &self,
        vals: &Vals,
        choices: &NumChoices,
    ) -> Result<Items<Choosable>, NoMemory>
        requires { AreChoicesAt self.now.plain (named self.now vals.now) choices.now }
        ensures choices { IfOk result (λ all. map (choosable_mapped (name_in self.now.names)) all
            ≡ map (choosable (named self.now vals.now)) choices.now) }
        ensures drawn { IfOk result (λ all.
            All (λ choice. choice.deferred < length self.now.plain.cells.ivars) all) }
    {
        let mut all = Vec::with_capacity(self.alloc, choices.len())?;
        for choice in choices.as_slice() {
            all.push(Choosable {
                deferred: self.deferred_at(vals, choice.d),
                proc: choice.proc,
            })?;
        }
        Ok(Items::from_vec(all))
    }

    /// The monitor that a local names.
    pub fn monitor_at(&self, vals: &Vals, k: usize) -> MonNo
        requires { IsMonitorAt self.now.plain (named self.now vals.now) k }
        ensures name { result ≡ name_at (named self.now vals.now) k }
        ensures drawn { result < length self.now.plain.monitors }
    {
        mon_of(local_at(vals, k))
    }

    /// The pipe that a local names.
    pub fn pipe_at(&self, vals: &Vals, k: usize) -> PipeNo
        requires { IsPipeAt self.now.plain (named self.now vals.now) k }
        ensures name { result ≡ name_at (named self.now vals.now) k }
        ensures drawn { result < length self.now.plain.pipes }
    {
        pipe_of(local_at(vals, k))
    }

    /// The throttle that a local names.
    pub fn throttle_at(&self, vals: &Vals, k: usize) -> ThrottleNo
        requires { IsThrottleAt self.now.plain (named self.now vals.now) k }
        ensures name { result ≡ name_at (named self.now vals.now) k }
        ensures drawn { result < length self.now.plain.throttles }
    {
        thr_of(local_at(vals, k))
    }

    /// The alarm that a local names.
    pub fn event_at(&self, vals: &Vals, k: usize) -> EventNo
        requires { IsEventAt (named self.now vals.now) k }
        ensures { result ≡ name_at (named self.now vals.now) k }
    {
        event_of(local_at(vals, k))
    }

    /// The value of an atom.
    pub fn value_at(&self, vals: &Vals, atom: NumAtom) -> Value
        requires { IsBound (length (named self.now vals.now)) atom }
        ensures { value_mapped (name_in self.now.names) result
            ≡ value_of (named self.now vals.now) atom }
    {
        match atom {
            NumAtom::Literal(num) => Value::Num(num),
            NumAtom::Local(k) => local_at(vals, k),
        }
    }

    /// The values of arguments, in a list with room for one more.
    pub fn args_at(&self, vals: &Vals, args: &NumArgs) -> Result<Vals, NoMemory>
        requires { AreBound (named self.now vals.now) args.now }
        ensures { IfOk result (λ values. values_mapped (name_in self.now.names) values
            ≡ args_of (named self.now vals.now) args.now) }
    {
        let mut values = Vec::with_capacity(self.alloc, args.len() + 1)?;
        for atom in args.as_slice() {
            values.push(self.value_at(vals, *atom))?;
        }
        Ok(Items::from_vec(values))
    }
}
