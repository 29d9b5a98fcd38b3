//! Laws of a script and the history of its run: the contract of each function is the law.

ghost use Rattle.std.specs.Prelude.{ℕ, ◌≡◌, ◌≤◌, true, List, [], ◌∷◌, ◌++◌, length};
ghost use Rattle.ak_script.specs.declared.script.Proc.{Proc};
ghost use Rattle.ak_syntax.specs.Grammar.{Reads};
ghost use Rattle.ak_history.specs.declared.event.Event.{Event};
ghost use Rattle.ak_history.specs.Legal.{Legal};
ghost use Rattle.ak_history.specs.Reading.{IsReadable};
ghost use Rattle.ak_history.specs.Scheduler.{asks, replies};
ghost use Rattle.ak_history.specs.Text.{history_text};
ghost use Rattle.ak_labor.specs.declared.config.Config.{Config};
ghost use Rattle.ak_machine.specs.Run.{HasEnded, run_of};
ghost use Rattle.ak_meets.specs.Meets.{Meets, Yes};
ghost use Rattle.ak_program.specs.Programs.{NumProgram};
ghost use Rattle.ak_record.specs.Cuts.{whole_lines, IsPool, IsCut};
ghost use Rattle.ak_record.specs.Records.{IsRecord};
ghost use Rattle.ak_record.specs.Walks.{ends_line};
ghost use Rattle.ak_again.specs.Ends.{with_line_end};

use ak_history::laws::reads_back;
use ak_meets::law::has_called;

/// A script whose last line is given an end reads as the same script, where it is not too long then. Own.
pub fn reads_with_line_end()
    ensures { (bytes : List ℕ) (script : List Proc) → Reads bytes script
        → length (with_line_end bytes) ≤ 1048576 → Reads (with_line_end bytes) script }
{}

/// A script, the line `%pool` and more behind it are cut at that line: no line of a script is the pool's. Own.
pub fn is_cut_behind_the_script()
    ensures { (bytes pool more : List ℕ) (script : List Proc) → Reads bytes script
        → IsPool pool → ends_line pool ≡ true → whole_lines pool ≡ pool ∷ []
        → (number : ℕ) × IsCut (with_line_end bytes ++ pool ++ more) (with_line_end bytes) number more }
{}

/// The text of a legal history that can be read back is the record of that history. Own.
pub fn is_recorded()
    ensures { (threads askers : ℕ) (history : List Event) (first : ℕ) → IsReadable history
        → Legal threads askers history → IsRecord threads askers (history_text history) first history }
{
    reads_back();
}

/// A run that has ended on the replies of a legal history, and has made exactly its calls, goes together with it. Own.
pub fn meets_its_history()
    ensures { (program : NumProgram) (config : Config) (history : List Event)
        → Legal config.threads config.askers history
        → (run_of program config (replies config.askers history)).outcome ≡ HasEnded
        → (run_of program config (replies config.askers history)).asks ≡ asks history
        → Meets program config history Yes }
{
    has_called();
}
