//! The letters that bytes begin with.

ghost use Rattle.std.specs.Prelude.{◌≡◌, ◌≤◌, take};
ghost use Rattle.std.specs.List.{prefix_len};
ghost use Rattle.tinystr_words.specs.Classes.{is_alphabetic, is_lower};
ghost use Rattle.tinystr_words.specs.Case.{lowercase};
ghost use Rattle.tinystr_words.specs.Text.{pad};

use crate::ascii::TinyAsciiStr;
use std::simd::prelude::*;
use tinystr_words::padded::first_lanes_of_eight;
use tinystr_words::word::Word;

impl TinyAsciiStr<8> {
    /// Reads the leading letters of the bytes, at most eight, and gives them in lowercase with their number.
    ///
    /// ```rust
    /// let (language, len) = TinyStr8::read_letters(b"ZH-hant");
    /// assert_eq!(rt; language.as_str(), "zh");
    /// assert_eq!(rt; len, 2);
    /// ```
    #[inline]
    pub fn read_letters(code_units: &[u8]) -> (Self, usize)
        ensures len { result.1 ≡ prefix_len is_alphabetic (take 8 code_units.now) }
        ensures fits { result.1 ≤ 8 }
        ensures text { result.0 ≡ lowercase (take result.1 code_units.now) }
    {
        // 0x20 lowercases A to Z, and turns no other byte into a letter
        let lowered = front_lanes(code_units) | u8x8::splat(0x20);
        let len = lowercase_lanes(lowered);
        let letters = first_lanes_of_eight(lowered, len).to_array();
        (TinyAsciiStr::from_padded(letters), len)
    }
}

// The first eight bytes, or all and then NULs.
#[inline(always)]
fn front_lanes(units: &[u8]) -> u8x8
    ensures { result ≡ pad (take 8 units.now) 8 }
{
    let front = &units[..units.len().min(8)];
    u8x8::from_array(<u64 as Word<8>>::load(front).to_le_bytes())
}

// The number of leading lanes that are lowercase letters. From 'a' to 'z' are 25 steps.
#[tactic(auto, using(crate::proofs::EightLanes::others_none, crate::proofs::EightLanes::others_some))]
#[inline(always)]
fn lowercase_lanes(lanes: u8x8) -> usize
    ensures len { result ≡ prefix_len is_lower lanes }
    ensures fits { result ≤ 8 }
{
    let others = u8x8::splat(25)
        .simd_lt(lanes - u8x8::splat(b'a'))
        .to_bitmask();
    if others == 0 {
        return 8;
    }
    others.trailing_zeros() as usize
}
