//! What a line of a script is.

use ak_base::list::{Items, Word};
use ak_script::script::{Param, Statement};

/// A line of a script: `async 2` in front of it, the first of a procedure, a statement, or `end`.
#[derive(Debug, Drop)]
pub enum Form {
    Async,
    Head {
        name: Word,
        line: u32,
        params: Items<Param>,
    },
    Body(Statement),
    End,
}
