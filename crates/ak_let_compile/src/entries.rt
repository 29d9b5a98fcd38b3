//! Where each function begins among the procedures.

ghost use Rattle.std.specs.Prelude.{ℕ, ◌≡◌, [], ◌∷◌, ◌≤◌, length, IfOk};
ghost use Rattle.std.specs.List.{AllByRecursion};
ghost use Rattle.ak_let.specs.Compile.{awaits, entry_from};
ghost use Rattle.ak_let.specs.Correct.{FunIsWithin};
ghost use Rattle.ak_let_compile.specs.Drafts.{entry_at};

use ak_base::list::NoMemory;
use ak_let::source::{Fun, Line};
use std::alloc::Global;

/// The place of each function's first procedure, and the place behind the last.
#[derive(Drop)]
pub struct Entries {
    pub places: Vec<usize>,
    pub behind: usize,
}

impl Entries {
    /// Those of these functions, the first at 1.
    ///
    /// # Errors
    ///
    /// Want of memory.
    pub fn of(alloc: Global, funs: &[Fun]) -> Result<Entries, NoMemory>
        requires few { length funs.now ≤ 128 }
        requires within { AllByRecursion FunIsWithin funs.now }
        ensures { IfOk result (λ entries. (f : ℕ) → entry_at entries f ≡ entry_from 1 funs.now f) }
    {
        let mut places = Vec::new(alloc);
        let mut behind = 1;
        for fun in funs {
            places.push(behind)?;
            behind += count_awaits(fun.lines.as_slice()) + 1;
        }
        Ok(Entries { places, behind })
    }

    /// Where a function begins.
    pub fn entry(&self, function: usize) -> usize
        ensures { result ≡ entry_at self.now function }
    {
        self.places.get(function).copied().unwrap_or(self.behind)
    }
}

// How many of the lines await.
fn count_awaits(lines: &[Line]) -> usize
    ensures count { result ≡ awaits lines.now }
    ensures few { result ≤ length lines.now }
{
    let mut count = 0;
    for line in lines {
        count += awaited(line);
    }
    count
}

// 1 for a line that awaits, 0 for another.
fn awaited(line: &Line) -> usize
    ensures { result ≡ awaits (line.now ∷ []) }
{
    match line {
        Line::Await { .. } => 1,
        Line::AwaitWork { .. } => 1,
        Line::Try { .. } => 1,
        Line::Let { .. } => 0,
        Line::Compute { .. } => 0,
        Line::Print { .. } => 0,
        Line::Raise { .. } => 0,
        Line::Return { .. } => 0,
    }
}
