//! The words of a script's text.

ghost use Rattle.std.specs.Prelude.{◌≡◌};
ghost use Rattle.ak_syntax.specs.Names.{kind_word, operator_word, work_word};
ghost use Rattle.ak_let_text.specs.Named.{work_word as by_kind};

use ak_labor::work::WorkKind;
use ak_program::program::NumParam;
use ak_program::statement::NumAtom;
use ak_script::script::Kind;
use ak_script::statement::Operator;

/// A word of a line: one that stands as it is, the name of a local or of a procedure by its place, a number or a local, or a
/// parameter with its kind.
#[derive(Clone, Copy)]
pub enum ScriptWord {
    Text(&'static str),
    Local(usize),
    Proc(usize),
    Atom(NumAtom),
    Param(NumParam),
}

/// The word of a kind of locals.
pub fn kind_word(kind: Kind) -> &'static str
    ensures { result.now ≡ kind_word kind }
{
    match kind {
        Kind::Num => "num",
        Kind::Ivar => "ivar",
        Kind::Def => "def",
        Kind::Mon => "mon",
        Kind::Pipe => "pipe",
        Kind::Thr => "thr",
        Kind::Event => "event",
        Kind::Helper => "helper",
    }
}

/// The word of an operator.
pub fn operator_word(op: Operator) -> &'static str
    ensures { result.now ≡ operator_word op }
{
    match op {
        Operator::Add => "+",
        Operator::Sub => "-",
        Operator::Mul => "*",
        Operator::Div => "/",
        Operator::Rem => "%",
        Operator::Less => "<",
        Operator::LessEq => "<=",
        Operator::Equal => "=",
        Operator::NotEqual => "!=",
    }
}

/// The word of a kind of works.
pub fn work_word(kind: WorkKind) -> &'static str
    ensures { result.now ≡ work_word (by_kind kind) }
{
    match kind {
        WorkKind::Square => "square",
        WorkKind::Mix => "mix",
        WorkKind::Fail => "fail",
    }
}
