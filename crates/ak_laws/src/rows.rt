//! Small traces that obey the law of errors, and such as break it. The bodies are empty: each contract is what the law
//! says of them.

ghost use Rattle.std.specs.Prelude.{◌≡◌, pos, [], ◌∷◌, ◌++◌};
ghost use Rattle.ak_laws.specs.Errors.{ErrorsGoUp};
ghost use Rattle.ak_laws.specs.Traces.{one_detached, both_detached, one_attached};
ghost use Rattle.ak_laws.specs.Traces.{caught, unhandled, filled, dropped, handled, Obeys, Breaks};
ghost use Rattle.ak_laws.specs.ReadRow.{executed_after};
ghost use Rattle.ak_laws.specs.Reads.{written_to, reads_of, got_from};

use ak_trace::entry::{Ending, Entry};

/// An error is caught by the first monitor of its path that is detached, and by no other.
pub fn nearest_detached_catches()
    ensures above { Obeys one_detached 3 (caught 1) }
    ensures not_higher { Breaks one_detached 3 (caught 0) }
    ensures not_between { Breaks one_detached 3 (caught 2) }
    ensures not_unhandled { Breaks one_detached 3 (unhandled (pos 5)) }
{}

/// A detached monitor catches an error that is raised in itself, and the one above it doesn't learn of it.
pub fn own_error_is_caught()
    ensures own { Obeys both_detached 2 (caught 2) }
    ensures not_above { Breaks both_detached 2 (caught 1) }
{}

/// What was attached again catches no longer, and what is detached behind an error doesn't catch it.
pub fn only_what_is_detached_there_catches()
    ensures above { Obeys one_attached 2 (caught 1) }
    ensures not_attached { Breaks one_attached 2 (caught 2) }
    ensures again { Obeys (one_attached ++ Entry.Detach 2 ∷ []) 2 (caught 2) }
    ensures not_later { Breaks one_detached 2 (caught 2 ++ Entry.Detach 2 ∷ []) }
{}

/// An error that no monitor of its path catches is told with its number, and the trace ends by it.
pub fn uncaught_error_ends_the_trace()
    ensures ends { Obeys one_detached 0 (unhandled (pos 5)) }
    ensures its_number { Breaks one_detached 0 (unhandled (pos 6)) }
    ensures by_it { Breaks one_detached 0 (Entry.Unhandled (pos 5) ∷ Entry.End Ending.Idle ∷ []) }
    ensures at_once { Breaks one_detached 0 (Entry.Unhandled (pos 5) ∷ Entry.Cycle ∷ []) }
    ensures not_caught { Breaks one_detached 0 (caught 0) }
    ensures not_silent { Breaks one_detached 0 [] }
{}

/// A path ends before a monitor that stands on it already, and the last entry of a monitor tells its parent.
pub fn path_ends()
    ensures round { Obeys (Entry.Monitor 1 2 ∷ Entry.Monitor 2 1 ∷ []) 1 (unhandled (pos 5)) }
    ensures last { Obeys (both_detached ++ Entry.Monitor 3 1 ∷ []) 3 (caught 1) }
{}

/// Nothing but an error is caught or unhandled, and nothing else ends a trace so.
pub fn only_errors_are_caught()
    ensures not_twice { Breaks one_detached 2 (caught 1 ++ caught 1) }
    ensures not_alone { ErrorsGoUp (one_detached ++ caught 1) → ⊥ }
    ensures not_unhandled { ErrorsGoUp (one_detached ++ unhandled (pos 5)) → ⊥ }
    ensures not_ended { ErrorsGoUp (one_detached ++ Entry.End Ending.Unhandled ∷ []) → ⊥ }
    ensures ended_else { ErrorsGoUp (one_detached ++ Entry.End Ending.Idle ∷ []) }
{}

/// A later error is dropped only where it was just caught, and told by its number.
pub fn dropped_was_caught()
    ensures at_once { Obeys one_detached 2 (caught 1 ++ dropped (pos 5)) }
    ensures behind_others { Obeys one_detached 2 (handled ++ dropped (pos 5)) }
    ensures its_number { Breaks one_detached 2 (caught 1 ++ dropped (pos 6)) }
    ensures not_alone { ErrorsGoUp (one_detached ++ dropped (pos 5)) → ⊥ }
    ensures not_later { Breaks one_detached 2 (caught 1 ++ Entry.Job 1 ∷ dropped (pos 5)) }
    ensures filled_with_it { Breaks one_detached 2 (caught 1 ++ filled (pos 6) ++ dropped (pos 5)) }
    ensures filled_first { Breaks one_detached 2 (handled ++ filled (pos 5) ++ dropped (pos 5)) }
{}

/// Of the numbers that a worked run writes to a pipe its reads get the first three, in the order in which they were made: two that
/// wait, the older one first, and one that finds an item. What is written to another pipe is its own, and a closed one takes nothing.
pub fn row_reads_of_a_pipe()
    ensures written { written_to 0 (executed_after 5) ≡ pos 5 ∷ pos 6 ∷ pos 7 ∷ pos 8 ∷ [] }
    ensures reads { reads_of 0 (executed_after 5) ≡ 1 ∷ 5 ∷ 1 ∷ [] }
    ensures got { got_from 0 (executed_after 5) ≡ (1, pos 5) ∷ (5, pos 6) ∷ (1, pos 7) ∷ [] }
    ensures got_before { got_from 0 (executed_after 3) ≡ (1, pos 5) ∷ (5, pos 6) ∷ [] }
    ensures written_other { written_to 1 (executed_after 5) ≡ pos 9 ∷ [] }
    ensures got_other { got_from 1 (executed_after 5) ≡ [] }
{}
