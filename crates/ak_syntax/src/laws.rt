//! Laws of the grammar: each text is one script or has one fault.

ghost use Rattle.std.specs.Prelude.{◌≡◌, ◌⊎◌, ℕ, List};
ghost use Rattle.ak_script.specs.declared.script.Proc.{Proc};
ghost use Rattle.ak_syntax.specs.declared.refusal.GrammarKind.{GrammarKind as Kind};
ghost use Rattle.ak_syntax.specs.Faults.{GrammarFault};
ghost use Rattle.ak_syntax.specs.Grammar.{Reads};

/// No text is two scripts.
pub fn one_reading()
    ensures { (bytes : List ℕ) (a b : List Proc) → Reads bytes a → Reads bytes b → a ≡ b }
{}

/// No text has two faults.
pub fn one_fault()
    ensures { (bytes : List ℕ) (l m : ℕ) (j k : Kind) → GrammarFault bytes l j
        → GrammarFault bytes m k → (l ≡ m) × (j ≡ k) }
{}

/// No script has a fault.
pub fn no_fault_in_a_script()
    ensures { (bytes : List ℕ) (script : List Proc) (line : ℕ) (kind : Kind)
        → Reads bytes script → GrammarFault bytes line kind → ⊥ }
{}

/// Each text is a script or has a fault.
pub fn script_or_fault()
    ensures { (bytes : List ℕ) → ((script : List Proc) × Reads bytes script)
        ⊎ ((line : ℕ) × (kind : Kind) × GrammarFault bytes line kind) }
{}
