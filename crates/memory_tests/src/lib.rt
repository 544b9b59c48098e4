//! The tests of `scripts/checks/refused-memory`, which makes one allocation fail in each run. A test prints whether a call
//! got its memory, and repeats a call that didn't: no second allocation fails, so the test fails if the call always does.
#![tactic(auto)]

/// What a call makes, after it printed whether it got its memory. Where it didn't, its error is the one given.
#[cfg(test)]
macro_rules! made {
    ($rt:ident, $given:literal, $refused:literal, $error:pat, $call:expr) => {
        match $call {
            Ok(made) => {
                println!($rt; $given)?;
                made
            }
            Err(error) => {
                assert!($rt; matches!(error, $error));
                println!($rt; $refused)?;
                $call?
            }
        }
    };
}

#[cfg(test)]
mod forms;
#[cfg(test)]
mod hashing;
#[cfg(test)]
mod packing;
#[cfg(test)]
mod run;
