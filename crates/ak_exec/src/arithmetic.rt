//! Numbers of scripts.

ghost use Rattle.std.specs.Prelude.{◌≡◌};
ghost use Rattle.ak_machine.specs.Number.{computed};
ghost use Rattle.ak_exec.specs.Steps.{given_is, given_by};

use ak_base::number::Num;
use ak_script::statement::Operator;

/// What an operation gives.
#[derive(Clone, Copy, PartialEq, Eq, Debug)]
pub enum Given {
    Num(Num),
    Overflow,
    ZeroDivisor,
}

fn or_overflow(num: Option<Num>) -> Given
    ensures { result ≡ given_by num }
{
    match num {
        Some(num) => Given::Num(num),
        None => Given::Overflow,
    }
}

/// The number of an operation on numbers of 64 bits, computed without loss, or why there is none.
pub fn compute(op: Operator, a: Num, b: Num) -> Given
    ensures { computed op a b ≡ given_is result }
{
    match op {
        Operator::Add => or_overflow(a.checked_add(b)),
        Operator::Sub => or_overflow(a.checked_sub(b)),
        Operator::Mul => or_overflow(a.checked_mul(b)),
        Operator::Div => match b {
            0 => Given::ZeroDivisor,
            _ => or_overflow(a.checked_div(b)),
        },
        Operator::Rem => match b {
            0 => Given::ZeroDivisor,
            _ => Given::Num(a.wrapping_rem(b)),
        },
        Operator::Less => Given::Num((a < b) as Num),
        Operator::LessEq => Given::Num((a <= b) as Num),
        Operator::Equal => Given::Num((a == b) as Num),
        Operator::NotEqual => Given::Num((a != b) as Num),
    }
}
