//! The tests of what `tinystr` reads and rejects, of its errors and of its views. They are a crate of their own, since a
//! crate with tests is proved once more with them.
#![tactic(auto)]

#[cfg(test)]
mod errors;
#[cfg(test)]
mod four_bytes;
#[cfg(test)]
mod in_rust;
#[cfg(test)]
mod original;
#[cfg(test)]
mod readers;
#[cfg(test)]
mod records;
#[cfg(test)]
mod traits;
#[cfg(test)]
mod unvalidated;

#[cfg(test)]
use std::fmt::Debug;
#[cfg(test)]
use std::process::Abort;

/// Ends the test, and prints the row, unless it is right.
#[cfg(test)]
fn check(rt: &impl Abort, is_right: bool, row: &impl Debug) {
    assert!(rt; is_right, "{row:?}");
}
