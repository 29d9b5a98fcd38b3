//! Laws of groups. Each function has an empty body: its contract is the law.

ghost use Rattle.std.specs.Prelude.{ℕ, ℤ, ◌≡◌, ◌≤◌, ◌++◌, ◌↔◌, List, Some};
ghost use Rattle.ak_choice.specs.Calls.{NotesGiven};
ghost use Rattle.ak_choice.specs.Groups.{Group, group_in, part_in, without_notes};
ghost use Rattle.ak_choice.specs.Runs.{Call, AreAllowed, AreOfGroups, after, decisions, noted, taken};

/// Whatever is called, a group is decided at most once: so at most one choice of it runs.
#[tactic(auto, using(crate::proofs::Decided::once))]
pub fn group_is_decided_at_most_once()
    ensures { (g : ℕ) (calls : List Call) (groups : List Group) → decisions g calls groups ≤ 1 }
{}

/// A part that has its number keeps it.
#[tactic(auto, using(crate::proofs::Parts::stays))]
pub fn part_keeps_its_number()
    ensures { (g k : ℕ) (v : ℤ) (calls : List Call) (groups : List Group) → AreAllowed calls groups
        → part_in g k groups ≡ Some v → part_in g k (after calls groups) ≡ Some v }
{}

/// Whatever is called, no registration that was noted for a group is lost, and none is taken twice: those that were taken,
/// and then those that are left, are those that stood there and then those that were noted, in order.
#[tactic(auto, using(crate::proofs::Notes::kept))]
pub fn group_keeps_its_notes()
    ensures { (g : ℕ) (calls : List Call) (groups : List Group) → AreOfGroups calls groups
        → taken g calls groups ++ (group_in (after calls groups) g).notes ≡ (group_in groups g).notes ++ noted g calls }
{}

/// Calls of `next_note`, made until one finds none, give exactly the registrations that were noted for the group, the oldest
/// first, and leave none: what a choice takes at once as it is decided.
#[tactic(auto, using(crate::proofs::Calls::notes_exactly))]
pub fn notes_one_at_a_time_are_all_that_were_noted()
    ensures { (g : ℕ) (registrations : List ℕ) (groups after : List Group)
        → NotesGiven g registrations groups after
        ↔ ((registrations ≡ (group_in groups g).notes) × (after ≡ without_notes g groups)) }
{}
