//! The engine of the line program: it reads lines, and writes a reply to each.
#![tactic(auto)]

mod command;
pub mod engine;
// public for one test: no clause says when an allocation fails
#[doc(hidden)]
pub mod reply;
mod split;
