//! Batches of texts at another capacity.

ghost use Rattle.std.specs.Prelude.{◌≤◌};

use crate::batch::{COUNT, read_texts, write_texts};
use tinystr::TinyAsciiStr;

/// Each text at another capacity; false where that isn't known.
pub fn resize_batch<const N: usize>(
    to: usize,
    rounds: usize,
    texts: &[u8],
    resized: &mut [u8],
) -> bool
    requires { N ≤ 128 }
{
    crate::to_capacity!(to, resize_each, rounds, texts, resized)
}

fn resize_each<const N: usize, const M: usize>(
    rounds: usize,
    texts: &[u8],
    resized: &mut [u8],
) -> bool
    requires from { N ≤ 128 }
    requires to { M ≤ 128 }
{
    let texts = read_texts::<N>(texts);
    let mut made = [TinyAsciiStr::<M>::default(); COUNT];
    for _ in 0..rounds {
        for i in 0..COUNT {
            made[i] = texts[i].resize();
        }
    }
    write_texts(&made, resized);
    true
}

/// Each text and then the other one, concatenated at another capacity; false where that isn't known.
pub fn concat_batch<const N: usize>(
    to: usize,
    rounds: usize,
    first: &[u8],
    second: &[u8],
    joined: &mut [u8],
) -> bool
    requires { N ≤ 128 }
{
    crate::to_capacity!(to, concat_each, rounds, first, second, joined)
}

fn concat_each<const N: usize, const Q: usize>(
    rounds: usize,
    first: &[u8],
    second: &[u8],
    joined: &mut [u8],
) -> bool
    requires from { N ≤ 128 }
    requires to { Q ≤ 128 }
{
    let first = read_texts::<N>(first);
    let second = read_texts::<N>(second);
    let mut made = [TinyAsciiStr::<Q>::default(); COUNT];
    for _ in 0..rounds {
        for i in 0..COUNT {
            made[i] = first[i].concat(second[i]);
        }
    }
    write_texts(&made, joined);
    true
}
