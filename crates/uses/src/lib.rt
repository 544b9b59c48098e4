//! A caller of each library, and one that reads lines, proved from the contracts.
#![tactic(auto)]

pub mod code_column;
pub mod currency;
pub mod rate_line;
pub mod rates;
pub mod script_code;
pub mod tags;
