//! The first lanes of a vector and then NULs, by a table: it takes fewer instructions than to compare the place of each
//! lane with their number.

ghost use Rattle.std.specs.Prelude.{◌≡◌, ◌≤◌, take};
ghost use Rattle.tinystr_words.specs.Text.{pad};

use std::simd::prelude::*;

// From place 16 - n on, n lanes are kept, and those after them are cleared.
static KEPT_LANES: [u8; 32] = [
    255, 255, 255, 255, 255, 255, 255, 255, 255, 255, 255, 255, 255, 255, 255, 255, //
    0, 0, 0, 0, 0, 0, 0, 0, 0, 0, 0, 0, 0, 0, 0, 0, //
];

/// The first `count` of eight lanes, and then NULs.
#[tactic(auto, using(crate::proofs::Padding::lanes_kept))]
#[inline(always)]
pub fn first_lanes_of_eight(lanes: u8x8, count: usize) -> u8x8
    requires { count ≤ 8 }
    ensures { result ≡ pad (take count lanes) 8 }
{
    lanes & u8x8::from_slice(&KEPT_LANES[16 - count..])
}

/// The first `count` of sixteen lanes, and then NULs.
#[tactic(auto, using(crate::proofs::Padding::lanes_kept))]
#[inline(always)]
pub fn first_lanes_of_sixteen(lanes: u8x16, count: usize) -> u8x16
    requires { count ≤ 16 }
    ensures { result ≡ pad (take count lanes) 16 }
{
    lanes & u8x16::from_slice(&KEPT_LANES[16 - count..])
}
