//! The tests of the calls of `tinystr` that make a text of others, whole or in part, and of its forms. They are a crate of
//! their own, since a crate with tests is proved once more with them.
#![tactic(auto)]

#[cfg(test)]
mod bytes;
#[cfg(test)]
mod decimals;
#[cfg(test)]
mod json;
#[cfg(test)]
mod parts;

#[cfg(test)]
use std::fmt::Debug;
#[cfg(test)]
use std::process::Abort;

/// Ends the test, and prints the row, unless it is right.
#[cfg(test)]
fn check(rt: &impl Abort, is_right: bool, row: &impl Debug) {
    assert!(rt; is_right, "{row:?}");
}
