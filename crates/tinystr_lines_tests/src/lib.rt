//! The tests of `tinystr_lines`: `run` over memory, and over readers and writers that fail.
#![tactic(auto)]

#[cfg(test)]
mod failures;
#[cfg(test)]
mod lines;

/// A line of each kind.
pub const INPUT: &[u8] =
    b"4 upper tEsT\n8 alphanumeric New York\n4 text abcde\n9 alphabetic_lowercase\n7 len a\n4 shout a\n\n";

/// What `run` writes for `INPUT`.
pub const OUTPUT: &[u8] =
    b"TEST\nfalse\ntoo long 5 > 4\ntrue\nbad capacity\nbad command\nbad line\n";
