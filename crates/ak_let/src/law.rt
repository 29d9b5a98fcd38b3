//! That a run of a compiled source is that of the source. Each function has an empty body: its contract is the law.

ghost use Rattle.std.specs.Prelude.{ℕ, ℤ, ◌≡◌, ◌≤◌, ◌+◌, ◌*◌, pos, negsuc, List, [], ◌∷◌, length, None};
ghost use Rattle.std.specs.List.{AllByRecursion};
ghost use Rattle.ak_labor.specs.declared.work.Outcome.{Outcome};
ghost use Rattle.ak_labor.specs.declared.work.Work.{Work};
ghost use Rattle.ak_labor.specs.Calls.{Reply};
ghost use Rattle.ak_labor.specs.declared.config.Config.{Config};
ghost use Rattle.ak_machine.specs.Run.{HasEnded, begun, run_of};
ghost use Rattle.ak_program.specs.Programs.{ProgramIsSound};
ghost use Rattle.ak_let.specs.declared.source.Source.{Source};
ghost use Rattle.ak_let.specs.Compile.{compiled, program_of};
ghost use Rattle.ak_let.specs.Eval.{Over, eval, fun_lines};
ghost use Rattle.ak_let.specs.Meaning.{Does, ending_of};
ghost use Rattle.ak_let.specs.Worked.{its_replies, usual, worked};
ghost use Rattle.ak_let.specs.Correct.{AreTrue, EndsAs, FunIsScoped, FunIsWithin, IsCorrect, IsOver, IsSound, ProcIsWithin, prints_of, text_lines};

/// A run of a compiled source that has ended prints what the plain evaluator prints, takes its works, and ends as it does.
pub fn ends_as_its_source()
    ensures { (p : Source) → IsSound p
        → (config : Config) → 1 ≤ config.threads → config.askers ≡ 0
        → (outcome : ℕ → Outcome) (replies : List Reply)
        → AreTrue outcome (program_of p) config (begun 0 config) replies
        → (run_of (program_of p) config replies).outcome ≡ HasEnded
        → EndsAs p config.jobs (run_of (program_of p) config replies).trace }
{}

/// So does each run that goes with a legal history to its end.
pub fn compiled_is_correct()
    ensures { (p : Source) → IsSound p → IsCorrect p (program_of p) }
{}

/// A compiled source has at most twice as many procedures as its text has lines, and 8 more. Here it has even fewer than lines.
pub fn procedures_are_few()
    ensures { (p : Source) → length (compiled p) ≤ 2 * text_lines p.funs + 8 }
{}

/// Each procedure keeps the limits of a script, where each function keeps those of a source.
pub fn procedures_are_within()
    ensures { (p : Source) → AllByRecursion FunIsWithin p.funs
        → AllByRecursion ProcIsWithin (compiled p) }
{}

/// The worked source prints 9 and -2, by the evaluator and by the run of its script.
pub fn worked_source()
    ensures evaluated { (eval worked 8).prints ≡ pos 9 ∷ negsuc 1 ∷ [] }
    ensures over { (eval worked 8).walk ≡ Over }
    ensures not_sooner { IsOver (eval worked 7).walk → ⊥ }
    ensures run { let run = run_of (program_of worked) usual its_replies
        in prints_of run.trace ≡ pos 9 ∷ negsuc 1 ∷ [] }
    ensures ended { (run_of (program_of worked) usual its_replies).outcome ≡ HasEnded }
{}

/// The program of a source is valid.
pub fn compiled_is_valid()
    ensures { (p : Source) → IsSound p → AllByRecursion FunIsScoped p.funs
        → AllByRecursion FunIsWithin p.funs → ProgramIsSound (compiled p) 0 None }
{}

/// What the lines of main mean, read as rules, is what the evaluator comes to, and the other way round.
pub fn main_is_meant()
    ensures comes { (p : Source) (ps : List ℤ) (ws : List Work) (o : Outcome)
        → Does p (fun_lines p p.main) [] ps ws o
        → (n : ℕ) × (eval p n ≡ record { walk = ending_of o; prints = ps; works = ws }) }
    ensures only { (p : Source) (n : ℕ) → IsOver (eval p n).walk
        → (o : Outcome) × ((eval p n).walk ≡ ending_of o)
        × Does p (fun_lines p p.main) [] (eval p n).prints (eval p n).works o }
{}
