//! Numbers of `set`.

ghost use Rattle.std.specs.Prelude.{◌≡◌, pos, negsuc};
ghost use Rattle.ak_machine.specs.Number.{computed, Gives, Overflows, DividesByZero};

use ak_script::statement::Operator;

/// Sums and quotients beyond 64 bits and by zero, the sign of a remainder, and a comparison.
pub fn row_operators()
    ensures above { computed Operator.Add (pos 9223372036854775807) (pos 1) ≡ Overflows }
    ensures divide_by_zero { computed Operator.Div (pos 1) (pos 0) ≡ DividesByZero }
    ensures remain_by_zero { computed Operator.Rem (pos 1) (pos 0) ≡ DividesByZero }
    ensures least_divided { computed Operator.Div (negsuc 9223372036854775807) (negsuc 0)
        ≡ Overflows }
    ensures least_remains { computed Operator.Rem (negsuc 9223372036854775807) (negsuc 0)
        ≡ Gives (pos 0) }
    ensures cut { computed Operator.Div (negsuc 6) (pos 2) ≡ Gives (negsuc 2) }
    ensures sign { computed Operator.Rem (negsuc 6) (pos 2) ≡ Gives (negsuc 0) }
    ensures less { computed Operator.Less (pos 2) (pos 3) ≡ Gives (pos 1) }
    ensures less_or_equal { computed Operator.LessEq (pos 4) (pos 3) ≡ Gives (pos 0) }
    ensures equal { computed Operator.Equal (negsuc 4) (negsuc 4) ≡ Gives (pos 1) }
    ensures not_equal { computed Operator.NotEqual (negsuc 4) (negsuc 4) ≡ Gives (pos 0) }
{}
