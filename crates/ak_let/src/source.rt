//! The let dialect, with numbers in place of names. Own; after Async's `let%bind` and functions that await.

use ak_base::list::Items;
use ak_base::number::Num;
use ak_labor::work::WorkKind;
use ak_script::statement::Operator;

/// A number, or a local by how many newer ones there are: 0 is the newest, 1 the one before it.
#[derive(Clone, Copy, PartialEq, Eq, Debug)]
pub enum Atom {
    Given(Num),
    Known(usize),
}

/// A line of a function. The atom of `when` is that of a condition: the line acts where it is not 0.
#[derive(Debug, Drop)]
pub enum Line {
    /// `let x = a`
    Let {
        value: Atom,
    },
    /// `let x = a op b`
    Compute {
        left: Atom,
        operator: Operator,
        right: Atom,
    },
    /// Prints a number.
    Print {
        when: Option<Atom>,
        value: Atom,
    },
    /// Raises an error.
    Raise {
        when: Option<Atom>,
        value: Atom,
    },
    /// Ends the function with a number.
    Return {
        when: Option<Atom>,
        value: Atom,
    },
    /// `await x = F a ..`: the function by its place.
    Await {
        function: usize,
        args: Items<Atom>,
    },
    /// `await x = work K a`
    AwaitWork {
        kind: WorkKind,
        value: Atom,
    },
    /// `try x = F a .. else G`: both functions by their places.
    Try {
        function: usize,
        args: Items<Atom>,
        handler: usize,
    },
}

/// A function: how many parameters it has, and its lines.
#[derive(Debug, Drop)]
pub struct Fun {
    pub params: usize,
    pub lines: Items<Line>,
}

/// The functions of a source, in its order, and the place of `main`.
#[derive(Debug, Drop)]
pub struct Source {
    pub funs: Items<Fun>,
    pub main: usize,
}
