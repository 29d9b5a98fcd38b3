//! Laws of the texts of histories.

ghost use Rattle.std.specs.Prelude.{◌≡◌, ◌⊎◌, ℕ, List};
ghost use Rattle.ak_text.specs.Lines.{TextLine};
ghost use Rattle.ak_history.specs.declared.event.Event.{Event};
ghost use Rattle.ak_history.specs.declared.line.HistoryLine.{HistoryLine as Row};
ghost use Rattle.ak_history.specs.Reading.{HistoryReads, IsFirstBad, IsHistoryLine, IsReadable};
ghost use Rattle.ak_history.specs.Text.{history_text};

/// Each text is one history with one line for each event, or has one first bad line, and none is both. A line of a text is one
/// line of a history at the most.
pub fn one_reading()
    ensures line { (line : TextLine) (a b : Row)
        → IsHistoryLine a line → IsHistoryLine b line → a ≡ b }
    ensures history { (bytes : List ℕ) (first : ℕ) (a b : List Event) (l m : List ℕ)
        → HistoryReads bytes first a l → HistoryReads bytes first b m → (a ≡ b) × (l ≡ m) }
    ensures bad_line { (bytes : List ℕ) (first : ℕ) (l m : ℕ)
        → IsFirstBad bytes first l → IsFirstBad bytes first m → l ≡ m }
    ensures not_both { (bytes : List ℕ) (first : ℕ) (events : List Event) (lines : List ℕ)
        (number : ℕ)
        → HistoryReads bytes first events lines → IsFirstBad bytes first number → ⊥ }
    ensures either { (bytes : List ℕ) (first : ℕ)
        → ((events : List Event) × (lines : List ℕ) × HistoryReads bytes first events lines)
        ⊎ ((number : ℕ) × IsFirstBad bytes first number) }
{}

/// The text of a history is read back as that history, whatever number its first line has, where its numbers are in their ranges, no run of empty drains is
/// longer than 1,000,000, and there are at most 16,000,000 events.
pub fn reads_back()
    ensures { (events : List Event) (first : ℕ) → IsReadable events
        → (lines : List ℕ) × HistoryReads (history_text events) first events lines }
{}
