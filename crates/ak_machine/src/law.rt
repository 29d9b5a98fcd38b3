//! Laws of renaming. Each function has an empty body: its contract is the law.

ghost use Rattle.std.specs.Prelude.{ℕ, ℤ, ◌≡◌, Option, None, map};
ghost use Rattle.std.specs.List.{All};
ghost use Rattle.ak_base.specs.declared.number.Ctx.{Ctx};
ghost use Rattle.ak_frames.specs.declared.frame.Frame.{Frame};
ghost use Rattle.ak_machine.specs.State.{State};
ghost use Rattle.ak_machine.specs.Mapped.{state_mapped, state_named, state_renamed, frame_mapped};
ghost use Rattle.ak_machine.specs.IvarsNamed.{ivars_named};
ghost use Rattle.ak_machine.specs.Deferred.{number_at, fill, register, connect};

use ak_base::number::IvarNo;

/// To map the names of a state twice is to map them once, by one map after the other.
#[tactic(auto, using(crate::proofs::Mapped::state_twice))]
pub fn maps_compose()
    ensures { (f g : ℕ → ℕ) (s : State) → state_mapped g (state_mapped f s)
        ≡ state_mapped (λ i. g (f i)) s }
{}

/// A map reaches every name: the ivars that a mapped state names are those that the state names, mapped.
#[tactic(auto, using(crate::proofs::IvarsNamed::state_held))]
pub fn map_reaches_every_name()
    ensures { (f : ℕ → ℕ) (s : State) → ivars_named (state_mapped f s) ≡ map f (ivars_named s) }
{}

/// Where two empty deferreds are connected, `left` being the result, nothing names `right` any more but the trace.
#[tactic(auto, using(crate::proofs::IvarsNamed::connection_held))]
pub fn connection_leaves_no_old_name(left: IvarNo, right: IvarNo)
    requires { ¬ (left ≡ right) }
    ensures { (s : State) → number_at left s ≡ None → number_at right s ≡ None
        → All (λ i. ¬ (i ≡ right)) (ivars_named (connect left right s)) }
{}

/// And to rename `right` once more changes nothing.
#[tactic(auto, using(crate::proofs::Renamed::connection_is_gone))]
pub fn connection_renames_once(left: IvarNo, right: IvarNo, other: IvarNo)
    requires { ¬ (left ≡ right) }
    ensures { (s : State) → number_at left s ≡ None → number_at right s ≡ None
        → state_renamed right other (connect left right s) ≡ connect left right s }
{}

/// It is one whether the names of a state are resolved before or after an ivar is filled.
#[tactic(auto, using(crate::proofs::Mapped::fill_named))]
pub fn fill_keeps_names()
    ensures { (f : ℕ → ℕ) (i : ℕ) (v : ℤ) (s : State) → state_named f (fill i v s)
        ≡ fill i v (state_named f s) }
{}

/// And before or after a handler is registered.
#[tactic(auto, using(crate::proofs::Mapped::register_named))]
pub fn register_keeps_names()
    ensures { (f : ℕ → ℕ) (i : ℕ) (ctx : Ctx) (frame : Frame) (s : State)
        → state_named f (register i ctx frame s) ≡ register i ctx (frame_mapped f frame) (state_named f s) }
{}
