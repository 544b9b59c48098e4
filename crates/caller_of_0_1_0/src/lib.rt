//! A caller of version 0.1.0. It stays as it is, but for what CHANGELOG says to write instead.
#![tactic(auto)]

pub mod identifiers;
pub mod tables;
pub mod texts;
