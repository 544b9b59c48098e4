//! The tests of `tinystr_packed`. They are a crate of their own, since a crate with tests is proved once more with them.
#![tactic(auto)]

#[cfg(test)]
mod each;
#[cfg(test)]
mod errors;
#[cfg(test)]
mod maps;
#[cfg(test)]
mod packing;
#[cfg(test)]
mod tables;

#[cfg(test)]
use std::fmt::Debug;
#[cfg(test)]
use std::process::Abort;

/// Ends the test, and prints the row, unless it is right.
#[cfg(test)]
fn check(rt: &impl Abort, is_right: bool, row: &impl Debug) {
    assert!(rt; is_right, "{row:?}");
}
