//! Sources worked by hand: that their texts are read so, and what is wrong with those that are refused.

ghost use Rattle.std.specs.Prelude.{◌≡◌, Some, None};
ghost use Rattle.ak_let.specs.Worked.{worked};
ghost use Rattle.ak_let_syntax.specs.declared.refusal.LetFault.TheVariants.{BadLine, BadNumber, NoMain, TooMany, TwiceNamed, UnknownName, WrongCount};
ghost use Rattle.ak_let_reader.specs.Answers.{HasFault, IsSource};
ghost use Rattle.ak_let_reader.specs.NameFaults.{name_fault};
ghost use Rattle.ak_let_reader.specs.Rows.{worked_text, unknown_text, mainless_text, many_text, open_text, wide_text, twice_funs, count_funs};

/// A text with an await of a function, one of a work, and a try is the source with numbers in place of its names.
pub fn worked_text_is_its_source()
    ensures { IsSource worked_text worked }
{}

/// A function that is nowhere named is a fault of the line that calls it.
pub fn unknown_function_is_refused()
    ensures { HasFault unknown_text 2 UnknownName }
{}

/// A text without a function `main` has a fault at line 0.
pub fn text_without_main_is_refused()
    ensures { HasFault mainless_text 0 NoMain }
{}

/// A text that ends inside a function has a bad line behind its last.
pub fn open_function_is_refused()
    ensures { HasFault open_text 3 BadLine }
{}

/// A number that has no 64 bits is a fault of its line.
pub fn wide_number_is_refused()
    ensures { HasFault wide_text 2 BadNumber }
{}

/// An eighth local comes before a number that has no 64 bits, in one line.
pub fn eighth_local_is_refused()
    ensures { HasFault many_text 2 TooMany }
{}

/// A local that is bound twice comes before one that is not known, in one line.
pub fn local_bound_twice_is_refused()
    ensures { name_fault twice_funs ≡ Some (4, TwiceNamed) }
{}

/// A call with too few numbers is a fault.
pub fn call_with_too_few_is_refused()
    ensures { name_fault count_funs ≡ Some (2, WrongCount) }
{}
