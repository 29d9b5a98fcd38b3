//! Each script has one verdict.

ghost use Rattle.std.specs.Prelude.{◌≡◌, ◌≤◌, ◌⊎◌, ℕ, List};
ghost use Rattle.ak_script.specs.declared.script.Proc.{Proc};
ghost use Rattle.ak_valid.specs.Faults.{ValidFault, script_lines};
ghost use Rattle.ak_valid.specs.FirstFault.{IsFirstFault};
ghost use Rattle.ak_valid.specs.Valid.{Valid};

/// A law: a script is valid or has a fault, and not both; its fault is one line and one kind, from 5 to 9. It is the first
/// line that has any faults, and the least kind of these. Own.
pub fn one_verdict()
    ensures either { (script : List Proc) → Valid script
        ⊎ ((line : ℕ) × (kind : ℕ) × ValidFault script line kind) }
    ensures not_both { (script : List Proc) (line kind : ℕ) → Valid script
        → ValidFault script line kind → ⊥ }
    ensures kinds { (script : List Proc) (line kind : ℕ) → ValidFault script line kind
        → (5 ≤ kind) × (kind ≤ 9) }
    ensures one_fault { (script : List Proc) (line kind other_line other_kind : ℕ)
        → ValidFault script line kind → ValidFault script other_line other_kind
        → (line ≡ other_line) × (kind ≡ other_kind) }
    ensures first_and_least { (script : List Proc) (line kind : ℕ) → ValidFault script line kind
        → IsFirstFault (script_lines script) line kind }
    ensures no_other_is { (script : List Proc) (line kind : ℕ)
        → IsFirstFault (script_lines script) line kind → ValidFault script line kind }
{}
