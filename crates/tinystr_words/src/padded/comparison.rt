//! The order of bytes, eight at a time, and whether bytes are the same, sixteen at a time.

ghost use Rattle.std.specs.Prelude.{◌≡◌, ◌≤◌, length, ◌+◌, take, drop};
ghost use Rattle.std.specs.Cmp.Lexicographic.{slice_cmp};
ghost use Rattle.std.specs.Ordering.{nat_cmp};
ghost use Rattle.std.specs.Int.{from_be_bytes, w64};
ghost use Rattle.std.specs.Str.{bytes_eq};
ghost use Rattle.tinystr_words.specs.Text.{pad};

use crate::word::Word;
use std::cmp::Ordering;
use std::simd::prelude::*;

/// The order of two lists of bytes, which must be equally long.
#[inline(always)]
pub fn compare(left: &[u8], right: &[u8]) -> Ordering
    requires { length left.now ≡ length right.now }
    ensures { result ≡ slice_cmp nat_cmp left.now right.now }
{
    let mut left_rest = left;
    let mut right_rest = right;
    while left_rest.len() >= 8 {
        let (a, left_more) = left_rest.split_first_chunk::<8>().unwrap();
        let (b, right_more) = right_rest.split_first_chunk::<8>().unwrap();
        let found = number_of_eight(a).cmp(&number_of_eight(b));
        if found != Ordering::Equal {
            return found;
        }
        left_rest = left_more;
        right_rest = right_more;
    }
    number(left_rest).cmp(&number(right_rest))
}

// `number` of all eight, in one load.
#[inline(always)]
fn number_of_eight(bytes: &[u8; 8]) -> u64
    ensures { result ≡ from_be_bytes w64 bytes.now }
{
    // `from_be_bytes` would be eight loads
    u64::from_le_bytes(*bytes).swap_bytes()
}

/// The number of at most eight bytes, padded with NULs, the first the most significant.
#[tactic(auto, using(crate::proofs::Order::ByNumbers::loaded_number))]
#[inline(always)]
pub fn number(bytes: &[u8]) -> u64
    requires { length bytes.now ≤ 8 }
    ensures { result ≡ from_be_bytes w64 (pad bytes.now 8) }
{
    let word: u64 = Word::<8>::load(bytes);
    word.swap_bytes()
}

/// Whether two lists of bytes are the same. They must be equally long, with at least sixteen bytes.
// The kit compiles `==` of arrays that are in registers to a test of each byte. Here the last sixteen bytes may overlap
// those before them, so all bytes are tested in vectors, and up to 32 without a branch.
#[inline(always)]
#[tactic(auto, using(crate::proofs::Vectors::windows))]
pub(crate) fn equal(left: &[u8], right: &[u8]) -> bool
    requires lengths { length left.now ≡ length right.now }
    requires sixteen { 16 ≤ length left.now }
    ensures { result ≡ bytes_eq left.now right.now }
{
    let mut start = 0;
    while left.len() - start > 32 {
        if !sixteen_equal(left, right, start) {
            return false;
        }
        start += 16;
    }
    sixteen_equal(left, right, start) & sixteen_equal(left, right, left.len() - 16)
}

// Whether the sixteen bytes from a place on are the same: one vector, where a word of 128 bits would be compared by
// halves.
#[inline(always)]
fn sixteen_equal(left: &[u8], right: &[u8], start: usize) -> bool
    requires left { start + 16 ≤ length left.now }
    requires right { start + 16 ≤ length right.now }
    ensures { result ≡ bytes_eq (take 16 (drop start left.now)) (take 16 (drop start right.now)) }
{
    u8x16::from_slice(&left[start..]) == u8x16::from_slice(&right[start..])
}
