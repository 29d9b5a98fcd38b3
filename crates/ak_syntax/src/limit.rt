//! What counts against the limits of a script.

ghost use Rattle.std.specs.Prelude.{◌≡◌, ◌≤◌, length};
ghost use Rattle.ak_script.specs.Statements.{binds};
ghost use Rattle.ak_syntax.specs.Table.{longest_list};

use ak_script::statement::Stmt;

/// How many names a statement binds, 0 to 2.
pub fn bound_count(stmt: &Stmt) -> usize
    ensures count { result ≡ length (binds stmt.now) }
    ensures few { result ≤ 2 }
{
    match stmt {
        Stmt::Event { .. } | Stmt::Helper { .. } => 2,
        Stmt::Set { .. }
        | Stmt::Ivar { .. }
        | Stmt::Bind { .. }
        | Stmt::All { .. }
        | Stmt::Any { .. }
        | Stmt::Choose { .. }
        | Stmt::Yield { .. }
        | Stmt::Never { .. }
        | Stmt::After { .. }
        | Stmt::Monitor { .. }
        | Stmt::NextError { .. }
        | Stmt::Try { .. }
        | Stmt::Throttle { .. }
        | Stmt::Enqueue { .. }
        | Stmt::ThrottleDone { .. }
        | Stmt::Pipe { .. }
        | Stmt::Write { .. }
        | Stmt::Read { .. }
        | Stmt::Flushed { .. }
        | Stmt::Work { .. }
        | Stmt::HelperWork { .. } => 1,
        _ => 0,
    }
}

/// The length of the longest list of a statement.
pub fn longest_list(stmt: &Stmt) -> usize
    ensures { result ≡ longest_list stmt.now }
{
    match stmt {
        Stmt::Upon { args, .. }
        | Stmt::Bind { args, .. }
        | Stmt::Sched { args, .. }
        | Stmt::Low { args, .. }
        | Stmt::Within { args, .. }
        | Stmt::OnError { args, .. }
        | Stmt::Enqueue { args, .. } => args.len(),
        Stmt::All {
            deferreds,
            args,
            ..
        } => deferreds.len().max(args.len()),
        Stmt::Any { deferreds, .. } => deferreds.len(),
        Stmt::Choose { choices, args, .. } => choices.len().max(args.len()),
        Stmt::Try {
            args,
            catch_args,
            ..
        } => args.len().max(catch_args.len()),
        Stmt::Read { args, eof_args, .. } => args.len().max(eof_args.len()),
        _ => 0,
    }
}
