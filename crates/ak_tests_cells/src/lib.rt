//! Tests of the cells: random calls on them and on a plain body, and a story that was worked by hand.
#![tactic(auto)]

#[cfg(test)]
mod call;
#[cfg(test)]
mod linked;
#[cfg(test)]
mod plain;
#[cfg(test)]
mod tests;
