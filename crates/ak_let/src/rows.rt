//! Random sources, computed: what the evaluator and the run of the script print, and how they end.

ghost use Rattle.std.specs.Prelude.{ℕ, ◌≡◌, pos, negsuc, [], ◌∷◌, length};
ghost use Rattle.ak_machine.specs.Run.{HasEnded, run_of};
ghost use Rattle.ak_let.specs.Compile.{program_of};
ghost use Rattle.ak_let.specs.Correct.{prints_of};
ghost use Rattle.ak_let.specs.Eval.{Over, Raised, eval};
ghost use Rattle.ak_let.specs.Rows.{slow, source_0, replies_0, source_1, replies_1, source_2, replies_2, source_3, replies_3, source_4, replies_4, source_5, replies_5, source_6, replies_6, source_7, replies_7};

/// A random source.
pub fn random_source_0()
    ensures prints { (eval source_0 7).prints ≡ pos 3037000500 ∷ pos 2 ∷ pos 2 ∷ negsuc 7 ∷ [] }
    ensures walk { (eval source_0 7).walk ≡ Raised (negsuc 7) }
    ensures works { length (eval source_0 7).works ≡ 1 }
    ensures run { prints_of (run_of (program_of source_0) slow replies_0).trace
        ≡ pos 3037000500 ∷ pos 2 ∷ pos 2 ∷ negsuc 7 ∷ [] }
    ensures length { length (run_of (program_of source_0) slow replies_0).trace ≡ 23 }
    ensures ended { (run_of (program_of source_0) slow replies_0).outcome ≡ HasEnded }
{}

/// A random source.
pub fn random_source_1()
    ensures prints { (eval source_1 7).prints ≡ pos 0 ∷ pos 0 ∷ [] }
    ensures walk { (eval source_1 7).walk ≡ Over }
    ensures works { length (eval source_1 7).works ≡ 0 }
    ensures run { prints_of (run_of (program_of source_1) slow replies_1).trace
        ≡ pos 0 ∷ pos 0 ∷ [] }
    ensures length { length (run_of (program_of source_1) slow replies_1).trace ≡ 20 }
    ensures ended { (run_of (program_of source_1) slow replies_1).outcome ≡ HasEnded }
{}

/// A random source.
pub fn random_source_2()
    ensures prints { (eval source_2 9).prints ≡ pos 4 ∷ pos 2 ∷ pos 4 ∷ negsuc 0 ∷ [] }
    ensures walk { (eval source_2 9).walk ≡ Over }
    ensures works { length (eval source_2 9).works ≡ 1 }
    ensures run { prints_of (run_of (program_of source_2) slow replies_2).trace
        ≡ pos 4 ∷ pos 2 ∷ pos 4 ∷ negsuc 0 ∷ [] }
    ensures length { length (run_of (program_of source_2) slow replies_2).trace ≡ 28 }
    ensures ended { (run_of (program_of source_2) slow replies_2).outcome ≡ HasEnded }
{}

/// A random source.
pub fn random_source_3()
    ensures prints { (eval source_3 7).prints ≡ pos 7 ∷ pos 7 ∷ [] }
    ensures walk { (eval source_3 7).walk ≡ Over }
    ensures works { length (eval source_3 7).works ≡ 0 }
    ensures run { prints_of (run_of (program_of source_3) slow replies_3).trace
        ≡ pos 7 ∷ pos 7 ∷ [] }
    ensures length { length (run_of (program_of source_3) slow replies_3).trace ≡ 20 }
    ensures ended { (run_of (program_of source_3) slow replies_3).outcome ≡ HasEnded }
{}

/// A random source.
pub fn random_source_4()
    ensures prints { (eval source_4 15).prints ≡ negsuc 8 ∷ pos 2 ∷ negsuc 1 ∷ pos 2 ∷ [] }
    ensures walk { (eval source_4 15).walk ≡ Over }
    ensures works { length (eval source_4 15).works ≡ 1 }
    ensures run { prints_of (run_of (program_of source_4) slow replies_4).trace
        ≡ negsuc 8 ∷ pos 2 ∷ negsuc 1 ∷ pos 2 ∷ [] }
    ensures length { length (run_of (program_of source_4) slow replies_4).trace ≡ 34 }
    ensures ended { (run_of (program_of source_4) slow replies_4).outcome ≡ HasEnded }
{}

/// A random source.
pub fn random_source_5()
    ensures prints { (eval source_5 7).prints ≡ pos 7 ∷ pos 0 ∷ negsuc 1 ∷ negsuc 8 ∷ pos 0 ∷ [] }
    ensures walk { (eval source_5 7).walk ≡ Over }
    ensures works { length (eval source_5 7).works ≡ 0 }
    ensures run { prints_of (run_of (program_of source_5) slow replies_5).trace
        ≡ pos 7 ∷ pos 0 ∷ negsuc 1 ∷ negsuc 8 ∷ pos 0 ∷ [] }
    ensures length { length (run_of (program_of source_5) slow replies_5).trace ≡ 12 }
    ensures ended { (run_of (program_of source_5) slow replies_5).outcome ≡ HasEnded }
{}

/// A random source.
pub fn random_source_6()
    ensures prints { (eval source_6 15).prints
        ≡ pos 5 ∷ pos 100 ∷ pos 5 ∷ pos 3154359431 ∷ negsuc 7 ∷ pos 100 ∷ pos 5 ∷ pos 3154359431
        ∷ [] }
    ensures walk { (eval source_6 15).walk ≡ Raised (negsuc 7) }
    ensures works { length (eval source_6 15).works ≡ 4 }
    ensures run { prints_of (run_of (program_of source_6) slow replies_6).trace
        ≡ pos 5 ∷ pos 100 ∷ pos 5 ∷ pos 3154359431 ∷ negsuc 7 ∷ pos 100 ∷ pos 5 ∷ pos 3154359431
        ∷ [] }
    ensures length { length (run_of (program_of source_6) slow replies_6).trace ≡ 45 }
    ensures ended { (run_of (program_of source_6) slow replies_6).outcome ≡ HasEnded }
{}

/// A random source.
pub fn random_source_7()
    ensures prints { (eval source_7 7).prints
        ≡ negsuc 9223372036854775807 ∷ pos 4 ∷ pos 1 ∷ negsuc 2 ∷ [] }
    ensures walk { (eval source_7 7).walk ≡ Raised (negsuc 2) }
    ensures works { length (eval source_7 7).works ≡ 0 }
    ensures run { prints_of (run_of (program_of source_7) slow replies_7).trace
        ≡ negsuc 9223372036854775807 ∷ pos 4 ∷ pos 1 ∷ negsuc 2 ∷ [] }
    ensures length { length (run_of (program_of source_7) slow replies_7).trace ≡ 21 }
    ensures ended { (run_of (program_of source_7) slow replies_7).outcome ≡ HasEnded }
{}
