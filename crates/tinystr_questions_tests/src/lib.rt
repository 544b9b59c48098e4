//! The tests of the questions, case changes, order, laws and printed forms of `tinystr`, and of the words that answer. They
//! are a crate of their own, since a crate with tests is proved once more with them.
#![tactic(auto)]

#[cfg(test)]
mod laws;
#[cfg(test)]
mod printing;
#[cfg(test)]
mod questions;
#[cfg(test)]
mod table;
#[cfg(test)]
mod words;

#[cfg(test)]
use std::fmt::Debug;
#[cfg(test)]
use std::process::Abort;

/// Ends the test, and prints the row, unless it is right.
#[cfg(test)]
fn check(rt: &impl Abort, is_right: bool, row: &impl Debug) {
    assert!(rt; is_right, "{row:?}");
}
