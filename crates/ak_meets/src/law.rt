//! In how many ways a run and a history go together, and records of a program that prints a number. Each function has an empty
//! body: its contract is the law.

ghost use Rattle.std.specs.Prelude.{ℕ, ◌≡◌, ◌≤◌, ◌⊎◌, List, length};
ghost use Rattle.ak_labor.specs.declared.ask.Ask.TheVariants as ask;
ghost use Rattle.ak_history.specs.declared.event.Event.TheVariants as event;
ghost use Rattle.ak_history.specs.declared.event.Event.{Event};
ghost use Rattle.ak_program.specs.Programs.{NumProgram};
ghost use Rattle.ak_labor.specs.declared.config.Config.{Config};
ghost use Rattle.ak_labor.specs.Calls.{Reply};
ghost use Rattle.ak_machine.specs.Run.{IsWrong};
ghost use Rattle.ak_meets.specs.Calls.{AllFit, HasCalled};
ghost use Rattle.ak_meets.specs.Meets.{Meeting, Meets, Agree, run_to, Yes, Stray, Short};
ghost use Rattle.ak_meets.specs.Printing.{printing, usual, whole, closed_early, cut};

/// Of a run and a history at most one is so: they go together to the run's end; or the history strays, at one place, from one
/// ask; or it is too short, for one ask. Own.
#[tactic(auto, using(crate::proofs::OneMeeting::one_meeting))]
pub fn one_meeting()
    ensures { (program : NumProgram) (config : Config) (history : List Event) (one other : Meeting)
        → Meets program config history one → Meets program config history other → one ≡ other }
{}

/// And one is so, but where the history gives a reply that does not fit the call that it answers. Own.
pub fn some_meeting()
    ensures { (program : NumProgram) (config : Config) (history : List Event)
        → ((m : Meeting) × Meets program config history m)
        ⊎ ((k : ℕ) × Agree program config history k × ((run_to program config history k).outcome ≡ IsWrong)) }
{}

/// The calls of a run are those that it wanted, one after another, so long as each reply fits. Own.
#[tactic(auto, using(crate::proofs::Asking::has_called))]
pub fn has_called()
    ensures { (program : NumProgram) (config : Config) (replies : List Reply) (n : ℕ)
        → n ≤ length replies → AllFit program config replies n
        → HasCalled program config replies n }
{}

/// Two drains and the close are its whole record.
pub fn whole_record()
    ensures { Meets printing usual whole Yes }
{}

/// A close stands where it drains a second time.
pub fn closed_too_early()
    ensures { Meets printing usual closed_early (Stray 1 ask.Drain event.Close) }
{}

/// The second drain is missing.
pub fn cut_off()
    ensures { Meets printing usual cut (Short ask.Drain) }
{}
