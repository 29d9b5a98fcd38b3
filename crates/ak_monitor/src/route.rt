//! Where an error goes.

use ak_base::number::MonNo;

/// The way of an error up the tree.
#[derive(Clone, Copy, PartialEq, Eq, Debug)]
pub struct Route {
    /// How many monitors it passes, from the first to the one that catches it, both counted; all of the path where none
    /// does.
    pub passed: u32,
    /// The monitor that catches it: `None` exactly where none on the path is detached.
    pub caught: Option<MonNo>,
}
