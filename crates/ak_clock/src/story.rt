//! A small story that is worked by hand. The bodies are empty: each contract is what the calls must do.

ghost use Rattle.std.specs.Prelude.{◌≡◌, pos, negsuc, Some, None, Ok, Err, true, false};
ghost use Rattle.ak_base.specs.Numbers.{fits};
ghost use Rattle.ak_base.specs.Lists.{first_of};
ghost use Rattle.ak_clock.specs.declared.alarm.TickRefused.TheVariants.{Negative, Overflow};
ghost use Rattle.ak_clock.specs.Clock.{alarm_of, ivar_of, due_alarms, due_taken, has_due, set_to, ticked};
ghost use Rattle.ak_clock.specs.Story.{three_alarms, one_aborted, at_five};

/// An alarm is aborted once.
pub fn alarm_is_aborted_once()
    ensures once { ivar_of (alarm_of 1 three_alarms) ≡ Some 1 }
    ensures twice { ivar_of (alarm_of 1 one_aborted) ≡ None }
{}

/// Alarms are due from their time on, the earlier one first.
pub fn earlier_alarm_is_due_first()
    ensures early { has_due one_aborted ≡ false }
    ensures first { ivar_of (first_of (due_alarms at_five)) ≡ Some 2 }
    ensures second { ivar_of (first_of (due_alarms (due_taken at_five))) ≡ Some 0 }
    ensures none { has_due (due_taken (due_taken at_five)) ≡ false }
{}

/// Of alarms at one time the one of the lesser number is due first.
pub fn lesser_number_is_due_first()
    ensures { ivar_of (first_of (due_alarms (due_taken (set_to (pos 5) three_alarms)))) ≡ Some 0 }
{}

/// The clock never goes back, and its time has 64 bits.
pub fn clock_moves_on()
    ensures zero { ticked (pos 0) (pos 5) ≡ Ok tt }
    ensures back { ticked (negsuc 0) (pos 4) ≡ Err Negative }
    ensures over { ticked (pos 1) (pos 9223372036854775808) ≡ Err Overflow }
    ensures last { fits (pos 9223372036854775807) ≡ true }
{}
