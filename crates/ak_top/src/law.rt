//! The law of what a run leaves.

ghost use Rattle.std.specs.Prelude.{ℕ, List};
ghost use Rattle.ak_history.specs.declared.event.Event.{Event};
ghost use Rattle.ak_labor.specs.declared.config.Config.{Config};
ghost use Rattle.ak_trace.specs.declared.entry.Entry.{Entry};
ghost use Rattle.ak_top.specs.Again.{source_of, CanReplay, ReplaysAs};
ghost use Rattle.ak_top.specs.Headline.{RunsTo};

use ak_again::law::{
    is_cut_behind_the_script, is_recorded, meets_its_history, reads_with_line_end,
};

/// What a run leaves is run again to the same trace and history, and so, by what a replay writes, to the same bytes: the
/// script of the run, whose last line gets an end where it has none, and behind it what the run printed from the line
/// `%pool` on, under the same settings. The script is then at most 1,048,576 bytes long and the source 67,108,864, the
/// history has at most 16,000,000 events and no run of more than 1,000,000 empty drains, and its numbers are in their ranges.
/// Own.
pub fn replays_its_output()
    ensures { (config : Config) (script : List ℕ) (trace : List Entry) (history : List Event)
        → RunsTo config script trace history → CanReplay script history
        → ReplaysAs config (source_of script history) trace history }
{
    reads_with_line_end();
    is_cut_behind_the_script();
    is_recorded();
    meets_its_history();
}
