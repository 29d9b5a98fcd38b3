//! A source of the let dialect as it is written: functions and locals by name. Own.

use ak_base::list::{Items, Word};
use ak_script::statement::{Args, Atom, Names, Operator, WorkWord};

/// What a line of a function does. The atom of `when` is that of a condition: the line acts where it is not 0.
#[derive(Debug, Drop)]
pub enum NamedStmt {
    /// `let x = a`
    Let {
        x: Word,
        value: Atom,
    },
    /// `let x = a op b`
    Compute {
        x: Word,
        left: Atom,
        operator: Operator,
        right: Atom,
    },
    /// Prints a number.
    Print {
        when: Option<Atom>,
        value: Atom,
    },
    /// Raises an error.
    Raise {
        when: Option<Atom>,
        value: Atom,
    },
    /// Ends the function with a number.
    Return {
        when: Option<Atom>,
        value: Atom,
    },
    /// `await x = F a ..`
    Await {
        x: Word,
        function: Word,
        args: Args,
    },
    /// `await x = work K a`
    AwaitWork {
        x: Word,
        kind: WorkWord,
        value: Atom,
    },
    /// `try x = F a .. else G`
    Try {
        x: Word,
        function: Word,
        args: Args,
        handler: Word,
    },
}

/// A line of a function, with its number in the text, from 1.
#[derive(Debug, Drop)]
pub struct NamedLine {
    pub number: u32,
    pub stmt: NamedStmt,
}

/// A function: its name, the number of its first line, its parameters, and its lines.
#[derive(Debug, Drop)]
pub struct NamedFun {
    pub name: Word,
    pub number: u32,
    pub params: Names,
    pub lines: Items<NamedLine>,
}

/// What a line of a text is: the first of a function, one of its own, or `end`.
#[derive(Debug, Drop)]
pub enum Form {
    Head {
        name: Word,
        number: u32,
        params: Names,
    },
    Body(NamedLine),
    End,
}
