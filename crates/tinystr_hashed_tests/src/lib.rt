//! The tests of `tinystr_hashed`. They are apart from it, since a crate with tests is proved once more with them.
#![tactic(auto)]

#[cfg(test)]
mod chosen;
#[cfg(test)]
mod errors;
#[cfg(test)]
mod faults;
#[cfg(test)]
mod hashes;
#[cfg(test)]
mod maps;
#[cfg(test)]
mod packing;
#[cfg(test)]
mod packing_into;
#[cfg(test)]
mod spread;
#[cfg(test)]
mod tables;
#[cfg(test)]
mod text_maps;

#[cfg(test)]
use std::alloc::{AllocError, Global};
#[cfg(test)]
use std::fmt::Debug;
#[cfg(test)]
use std::process::Abort;

/// Ends the test, and prints the row, unless it is right.
#[cfg(test)]
fn check(rt: &impl Abort, is_right: bool, row: &impl Debug) {
    assert!(rt; is_right, "{row:?}");
}

/// The front of a table, which is its header, its pilots and its moves, and texts as records of `N` bytes.
#[cfg(test)]
fn file<const N: usize>(
    alloc: Global,
    front: &[u8],
    texts: &[&str],
) -> Result<Vec<u8>, AllocError> {
    let mut file = front.to_vec(alloc)?;
    for text in texts {
        let end = file.len().saturating_add(N);
        file.extend_from_slice(text.as_bytes())?;
        file.resize(end, 0)?;
    }
    Ok(file)
}
