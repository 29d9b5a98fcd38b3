//! Laws of rows.

ghost use Rattle.std.specs.Prelude.{◌≡◌, ◌↔◌, Some, ℕ, ℤ, List, flat_map};
ghost use Rattle.std.specs.List.{AllZip, AllByRecursion};
ghost use Rattle.ak_text.specs.Lines.{text_lines, counting_lines};
ghost use Rattle.ak_print.specs.Work.{kind_word};
ghost use Rattle.ak_labor.specs.declared.work.WorkKind.{WorkKind as Kind};
ghost use Rattle.ak_row.specs.Parts.{thing_of, long_of, count_of, signed_of, kind_of};
ghost use Rattle.ak_row.specs.Places.{Place, Exactly, Thing, LongNumber, Signed, Counted, Stands, IsRow};
ghost use Rattle.ak_row.specs.Plain.{row_text, IsPlainRow};

/// What a word is read as is what it stands for, and it stands for one such thing at the most.
pub fn words_are_exact()
    ensures things { (word : List ℕ) (number : ℕ) → (thing_of word ≡ Some number)
        ↔ Stands (Thing number) word }
    ensures longs { (word : List ℕ) (number : ℕ) → (long_of word ≡ Some number)
        ↔ Stands (LongNumber number) word }
    ensures counts { (word : List ℕ) (number : ℕ) → (count_of word ≡ Some number)
        ↔ Stands (Counted number) word }
    ensures signed { (word : List ℕ) (number : ℤ) → (signed_of word ≡ Some number)
        ↔ Stands (Signed number) word }
    ensures kinds { (word : List ℕ) (kind : Kind) → (kind_of word ≡ Some kind)
        ↔ Stands (Exactly (kind_word kind)) word }
{}

/// Rows that were written are read back, and their lines are 1, 2 and so on, since none is skipped.
pub fn rows_read_back()
    ensures rows { (rows : List (List Place)) → AllByRecursion IsPlainRow rows
        → AllZip IsRow rows (counting_lines (flat_map row_text rows)) }
    ensures lines { (rows : List (List Place)) → AllByRecursion IsPlainRow rows
        → counting_lines (flat_map row_text rows) ≡ text_lines (flat_map row_text rows) }
{}
