//! The procedure that serves requests from outside.

ghost use Rattle.std.specs.Prelude.{◌≡◌};
ghost use Rattle.ak_valid.specs.Numbered.{is_one_number, is_ask, ask_of};

use ak_script::script::{Kind, Param, Proc};

/// Whether there is one parameter, which is a number.
fn is_one_number(params: &[Param]) -> bool
    ensures { result ≡ is_one_number params.now }
{
    match params {
        [param] => param.kind == Kind::Num,
        _ => false,
    }
}

/// Whether the procedure serves requests: it is named `ask`, and has one parameter, which is a number.
fn is_ask(proc: &Proc) -> bool
    ensures { result ≡ is_ask proc.now }
{
    b"ask".as_slice() == proc.name.as_slice() && is_one_number(proc.params.as_slice())
}

/// The place of the first procedure that serves requests: `None` exactly where none does.
pub fn ask(procs: &[Proc]) -> Option<usize>
    ensures { result ≡ ask_of procs.now }
{
    procs.iter().position(|proc| is_ask(proc))
}
