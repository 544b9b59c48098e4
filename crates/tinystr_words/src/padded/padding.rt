//! Whether bytes are a text and then NULs, sixteen at a time.

ghost use Rattle.std.specs.Prelude.{◌≡◌, ◌≤◌, ◌↔◌, length, IsTrue};
ghost use Rattle.tinystr_words.specs.Text.{IsPadded, pad};
ghost use Rattle.tinystr_words.specs.Words.{word};
ghost use Rattle.tinystr_words.specs.Private.{ArePaddedFrom, sixteen_from};

use crate::word::Word;
use std::simd::prelude::*;

/// Whether more than sixteen bytes are a text and then NULs. No load of sixteen bytes begins inside another: after a
/// copy such a load would lie across two stores, and wait for both.
#[inline(always)]
#[tactic(auto, using(crate::proofs::Padding::padding))]
pub(crate) fn is_padded(bytes: &[u8]) -> bool
    requires { 17 ≤ length bytes.now }
    ensures { IsTrue result ↔ IsPadded bytes.now }
{
    let mut start = 0;
    while bytes.len() - start >= 32 {
        if !are_sixteen_padded(bytes, start) {
            return false;
        }
        start += 16;
    }
    are_sixteen_padded(bytes, start) & are_sixteen_padded(bytes, start + 16)
}

// Whether sixteen bytes are below 128, and another NUL follows each NUL among them. Bytes past the last are NULs.
#[inline(always)]
fn are_sixteen_padded(bytes: &[u8], start: usize) -> bool
    requires { start ≤ length bytes.now }
    ensures { IsTrue result ↔ ArePaddedFrom bytes.now start 16 }
{
    let nuls = u8x16::splat(0);
    let given = sixteen_at(bytes, start);
    let following = sixteen_at(bytes, start + 16);
    let next = given.shuffle(
        following,
        [1, 2, 3, 4, 5, 6, 7, 8, 9, 10, 11, 12, 13, 14, 15, 16],
    );
    let late = given.simd_eq(nuls).select(next, nuls);
    let high = given & u8x16::splat(0x80);
    (late | high) == nuls
}

// Sixteen bytes from `at` on, with NULs where they end.
#[inline(always)]
fn sixteen_at(bytes: &[u8], at: usize) -> u8x16
    ensures { result ≡ sixteen_from bytes.now at }
{
    let start = at.min(bytes.len());
    if bytes.len() - start >= 16 {
        u8x16::from_slice(&bytes[start..])
    } else {
        sixteen_of(&bytes[start..])
    }
}

// At most sixteen bytes and then NULs.
#[tactic(auto, using(crate::proofs::Words::Texts::sixteen_bytes))]
#[inline(always)]
fn sixteen_of(bytes: &[u8]) -> u8x16
    requires { length bytes.now ≤ 16 }
    ensures { result ≡ pad bytes.now 16 }
{
    let (front, back) = bytes.split_at(bytes.len().min(8));
    u64x2::from_array([eight_of(front), eight_of(back)]).to_le_bytes()
}

// At most eight bytes, the first lowest.
#[inline(always)]
fn eight_of(bytes: &[u8]) -> u64
    requires { length bytes.now ≤ 8 }
    ensures { result ≡ word bytes.now }
{
    let (front, back) = bytes.split_at(bytes.len().min(4));
    let low = <u32 as Word<4>>::load(front);
    let high = <u32 as Word<4>>::load(back);
    u64::from(low) + (u64::from(high) << 32)
}
