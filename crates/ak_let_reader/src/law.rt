//! Laws of sources as they are written. Each function has an empty body: its contract is the law.

ghost use Rattle.std.specs.Prelude.{◌≡◌, ℕ, None, List};
ghost use Rattle.std.specs.List.{AllByRecursion};
ghost use Rattle.ak_let.specs.Correct.{FunIsScoped, FunIsWithin, IsSound};
ghost use Rattle.ak_let_syntax.specs.declared.named.NamedFun.{NamedFun as Fun};
ghost use Rattle.ak_let.specs.declared.source.Source.{Source};
ghost use Rattle.ak_let_text.specs.Compiles.{Compiles};
ghost use Rattle.ak_let_reader.specs.Answers.{IsSource};
ghost use Rattle.ak_let_syntax.specs.Grammar.{IsWithin};
ghost use Rattle.ak_let_reader.specs.NameFaults.{name_fault};
ghost use Rattle.ak_let_reader.specs.Numbered.{numbered};

/// Functions whose names have no fault are a source whose locals are bound before they are used.
pub fn right_names_are_scoped()
    ensures { (funs : List Fun) → name_fault funs ≡ None
        → AllByRecursion FunIsScoped (numbered funs).funs }
{}

/// Where each function is within its limits besides, the calls of the source fit, and it has a `main` without parameters.
pub fn right_names_are_sound()
    ensures { (funs : List Fun) → AllByRecursion IsWithin funs → name_fault funs ≡ None
        → IsSound (numbered funs) }
{}

/// Functions within their limits are so with numbers in place of their names.
pub fn functions_are_within()
    ensures { (funs : List Fun) → AllByRecursion IsWithin funs
        → AllByRecursion FunIsWithin (numbered funs).funs }
{}

/// The source that a text is compiles: it is within all limits, and its calls, locals and numbers are right.
pub fn source_compiles()
    ensures { (bytes : List ℕ) (source : Source) → IsSource bytes source → Compiles source }
{}
