//! The ways to join two texts in an array. `padded::concat` takes the first that applies.

ghost use Rattle.std.specs.Prelude.{◌≡◌, ◌≤◌, ◌*◌, ◌++◌, length, replicate, take, drop, IsTrue};
ghost use Rattle.tinystr_words.specs.Text.{IsPadded, IsPaddedText, text_of};
ghost use Rattle.tinystr_words.specs.Private.{sixteen_from};

use crate::int_ops::{Aligned8, Aligned16};
use crate::padded::copying::{append, put, resize, resize_at_once};
use crate::padded::words;
use std::simd::prelude::*;

/// How many bytes a vector has.
const LANES: usize = 16;

/// How many bytes the longest array has that `concat_in_vectors` takes: past two vectors its shuffles are no faster
/// than the store-forwarding stall that they avoid.
const LONGEST: usize = 2 * LANES;

// The number of NULs before the lanes in the table: `shifted` begins at most this far before them.
const NULS_BEFORE: usize = 3 * LANES;

// The lane that each byte of `shifted` takes, in rows of a vector.
static TAKEN_LANES: [[u8; LANES]; 7] = [
    NO_LANES, NO_LANES, NO_LANES, ALL_LANES, NO_LANES, NO_LANES, NO_LANES,
];

const ALL_LANES: [u8; LANES] = [0, 1, 2, 3, 4, 5, 6, 7, 8, 9, 10, 11, 12, 13, 14, 15];

// 128 takes no lane, and gives a NUL.
const NO_LANES: [u8; LANES] = [128; LANES];

/// Whether `concat_in_vectors` takes arrays of these lengths. If it doesn't, another way gives the same text.
#[inline(always)]
pub(crate) fn fit_vectors(first_len: usize, second_len: usize) -> bool
    ensures first { IsTrue result → first_len ≤ LONGEST }
    ensures second { IsTrue result → second_len ≤ LONGEST }
{
    first_len <= LONGEST && second_len <= LONGEST
}

/// The first `Q` bytes of two texts joined, in one word of eight bytes, which a register holds: for results of at most
/// eight.
#[tactic(auto, using(crate::proofs::Parts::Splits::prefix_of_eight))]
#[inline(always)]
pub(crate) fn concat_in_word<const Q: usize>(first: &[u8], second: &[u8]) -> [u8; Q]
    requires result_fits { Q ≤ 8 }
    requires first { IsPadded first.now }
    requires first_fits { length first.now ≤ 8 }
    requires second { IsPadded second.now }
    requires second_fits { length second.now ≤ 8 }
    ensures padded { IsPaddedText result Q }
    ensures text { text_of result ≡ take Q (text_of first.now ++ text_of second.now) }
{
    let text = Aligned8::from_padded(first).concat(&Aligned8::from_padded(second));
    resize_at_once(&text.to_bytes())
}

/// The first `Q` bytes of two texts joined, each in at most two vectors: for results past eight bytes. A shuffle moves
/// the second text to its place, and each vector is stored at a place known at compile time, since a load that lies
/// across two stores would stall.
#[tactic(auto, using(crate::proofs::Vectors::stored_more))]
#[inline(always)]
pub(crate) fn concat_in_vectors<const Q: usize>(first: &[u8], second: &[u8]) -> [u8; Q]
    requires first { IsPadded first.now }
    requires first_fits { length first.now ≤ LONGEST }
    requires second { IsPadded second.now }
    requires second_fits { length second.now ≤ LONGEST }
    ensures padded { IsPaddedText result Q }
    ensures text { text_of result ≡ take Q (text_of first.now ++ text_of second.now) }
{
    let first_len = words::len(first);
    let mut joined = [0; Q];
    let bytes = &mut joined[..];
    let mut at = 0;
    while at < Q {
        let lanes = joined_from(first, first_len, second, at).to_array();
        let count = (Q - at).min(LANES);
        bytes[at..at + count].copy_from_slice(&lanes[..count]);
        at += count;
    }
    joined
}

// The sixteen bytes from `at` on of two texts joined.
#[inline(always)]
fn joined_from(first: &[u8], first_len: usize, second: &[u8], at: usize) -> u8x16
    requires first { IsPadded first.now }
    requires first_fits { length first.now ≤ LONGEST }
    requires first_len { first_len ≡ length (text_of first.now) }
    requires second { IsPadded second.now }
    requires second_fits { length second.now ≤ LONGEST }
    ensures { result ≡ sixteen_from (text_of first.now ++ text_of second.now) at }
{
    let mut lanes = lanes_from(first, at);
    // the second text's first vector ends at most `LANES` bytes after the longest first text
    if at < LONGEST + LANES {
        lanes = lanes | shifted(lanes_from(second, 0), NULS_BEFORE + at - first_len);
    }
    // its second vector follows its first
    if 0 < at && at < 2 * LONGEST {
        let start = NULS_BEFORE - LANES + at - first_len;
        lanes = lanes | shifted(lanes_from(second, LANES), start);
    }
    lanes
}

// Sixteen bytes of a text from `at` on, with NULs where it has ended.
#[tactic(auto, using(crate::proofs::Texts::padded_parts, crate::proofs::Vectors::sixteen_loaded))]
#[inline(always)]
fn lanes_from(bytes: &[u8], at: usize) -> u8x16
    requires { IsPadded bytes.now }
    ensures { result ≡ sixteen_from (text_of bytes.now) at }
{
    let start = at.min(bytes.len());
    let count = (bytes.len() - start).min(LANES);
    Aligned16::from_padded(&bytes[start..start + count]).to_lanes()
}

// The sixteen bytes from `start` on of `NULS_BEFORE` NULs, the lanes and then NULs.
#[inline(always)]
fn shifted(lanes: u8x16, start: usize) -> u8x16
    requires len { length lanes ≡ 16 }
    requires start { start ≤ 6 * LANES }
    ensures { result ≡ sixteen_from (replicate NULS_BEFORE 0 ++ lanes) start }
{
    lanes.swizzle_dyn(u8x16::from_slice(&TAKEN_LANES.as_flattened()[start..]))
}

/// The first `Q` bytes of the two texts joined, the second stored after the first: for an array of more than `LONGEST`
/// bytes.
#[inline(always)]
pub(crate) fn concat_in_memory<const N: usize, const M: usize, const Q: usize>(
    first: [u8; N],
    first_len: usize,
    second: &[u8; M],
) -> [u8; Q]
    requires first { IsPaddedText first N }
    requires first_len { first_len ≡ length (text_of first) }
    requires second { IsPaddedText second.now M }
    ensures padded { IsPaddedText result Q }
    ensures text { text_of result ≡ take Q (text_of first.entry ++ text_of second.now) }
{
    if N % 8 == 0 && first_len == N {
        // both places are known at compile time, so that no byte goes through memory
        let mut bytes = [0; Q];
        put_both(&mut bytes[..], &first[..], &second[..]);
        return bytes;
    }
    let mut bytes = resize::<Q>(&first[..]);
    append(&mut bytes[..], first_len.min(Q), &second[..]);
    bytes
}

// Copies the bytes of one and then of another, as far as they fit.
#[tactic(auto, using(crate::proofs::Pieces::Copying::copied_both))]
#[inline(always)]
fn put_both(bytes: &mut [u8], first: &[u8], second: &[u8])
    ensures { bytes.new ≡ take (length bytes.old) (first.now ++ second.now) ++ drop (length (first.now ++ second.now)) bytes.old }
{
    put(bytes, first);
    let end = first.len().min(bytes.len());
    put(&mut bytes[end..], second);
}
