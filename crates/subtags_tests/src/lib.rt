//! The tests of `subtags`, each over its public calls. They are a crate of their own, since a crate with tests is proved
//! once more with them.
#![tactic(auto)]

#[cfg(test)]
mod reading;
#[cfg(test)]
mod values;

#[cfg(test)]
use std::fmt::Debug;
#[cfg(test)]
use std::process::Abort;

/// Ends the test, and prints the row, unless it is right.
#[cfg(test)]
fn check(rt: &impl Abort, is_right: bool, row: &impl Debug) {
    assert!(rt; is_right, "{row:?}");
}
