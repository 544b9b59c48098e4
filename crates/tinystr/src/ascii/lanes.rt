//! The first sixteen bytes of a text, in a vector, and parts of padded bytes.

ghost use Rattle.std.specs.Prelude.{◌≡◌, ◌≤◌, ◌-◌, length, take, drop};
ghost use Rattle.tinystr_words.specs.Text.{IsPadded, text_of};

use crate::ascii::TinyAsciiStr;
use std::simd::prelude::*;
use tinystr_words::int_ops::Aligned16;
use tinystr_words::padded::{first_lanes_of_sixteen, resize, resize_at_once};

/// The first sixteen bytes of the text, and then NULs.
#[tactic(auto, using(crate::proofs::Splits::sixteen))]
#[inline(always)]
pub(crate) fn first_sixteen(bytes: &[u8]) -> u8x16
    requires { IsPadded bytes.now }
    ensures len { length result ≡ 16 }
    ensures padded { IsPadded result }
    ensures text { text_of result ≡ take 16 (text_of bytes.now) }
{
    match bytes.first_chunk::<16>() {
        Some(sixteen) => u8x16::from_array(*sixteen),
        None => Aligned16::from_padded(bytes).to_lanes(),
    }
}

/// The text in the lanes, which has to fit.
#[inline(always)]
pub(crate) fn text_of_lanes<const N: usize>(lanes: u8x16) -> TinyAsciiStr<N>
    requires padded { IsPadded lanes }
    requires fits { length (text_of lanes) ≤ N }
    ensures { result ≡ text_of lanes }
{
    TinyAsciiStr::from_padded(resize(&lanes.to_array()[..]))
}

/// The first `count` bytes of the text in the lanes, which has to fit.
#[tactic(auto, using(crate::proofs::Splits::first_lanes))]
#[inline(always)]
pub(crate) fn text_of_first_lanes<const N: usize>(lanes: u8x16, count: usize) -> TinyAsciiStr<N>
    requires len { length lanes ≡ 16 }
    requires padded { IsPadded lanes }
    requires count { count ≤ 16 }
    requires fits { length (text_of lanes) ≤ N }
    ensures { result ≡ take count (text_of lanes) }
{
    text_of_lanes(first_lanes_of_sixteen(lanes, count))
}

/// The text of padded bytes, truncated to `N`.
#[inline(always)]
pub(crate) fn text_of_bytes<const N: usize>(bytes: &[u8]) -> TinyAsciiStr<N>
    requires { IsPadded bytes.now }
    ensures { result ≡ take N (text_of bytes.now) }
{
    TinyAsciiStr::from_padded(resize_at_once(bytes))
}

/// The first of padded bytes.
#[tactic(auto, using(crate::proofs::Splits::parts_of_padded))]
#[inline(always)]
pub(crate) fn front_of(bytes: &[u8], len: usize) -> &[u8]
    requires padded { IsPadded bytes.now }
    requires inside { len ≤ length bytes.now }
    ensures len { length result.now ≡ len }
    ensures padded { IsPadded result.now }
    ensures text { text_of result.now ≡ take len (text_of bytes.now) }
{
    &bytes[..len]
}

/// Padded bytes from a place on.
#[tactic(auto, using(crate::proofs::Splits::parts_of_padded))]
#[inline(always)]
pub(crate) fn rest_of(bytes: &[u8], start: usize) -> &[u8]
    requires padded { IsPadded bytes.now }
    requires inside { start ≤ length bytes.now }
    ensures len { length result.now ≡ length bytes.now - start }
    ensures padded { IsPadded result.now }
    ensures text { text_of result.now ≡ drop start (text_of bytes.now) }
{
    &bytes[start..]
}
