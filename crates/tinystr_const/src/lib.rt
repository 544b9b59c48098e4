//! Functions that only the crate for Cargo calls, in place of some of `tinystr_words`: each has the contract of the one that it
//! stands in for.
#![tactic(auto)]

pub mod bytewise;
pub mod in_words;
pub mod loading;
