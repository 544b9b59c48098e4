//! Inputs of at most 17 bytes, classified in one step.

ghost use Rattle.std.specs.Prelude.{◌≡◌, ◌<◌, ◌≤◌, ◌↔◌, ◌+◌, ◌^◌, ◌++◌, ◌∷◌, ◌==◌, ◌||◌, [], if◌then◌else◌, IsSome, IsTrue, IfSome, length, map, take};
ghost use Rattle.std.specs.Simd.Lanes.{mask_l};
ghost use Rattle.tinystr_words.specs.Case.{lower, raise};
ghost use Rattle.tinystr_words.specs.Classes.{is_alphabetic, is_digit};
ghost use Rattle.tinystr_words.specs.Text.{IsPaddedText, IsText, IsTextByte, pad, text_of};
ghost use Rattle.tinystr.specs.ShortInput.{bits_of, lower_but, in_case_of};
ghost use Rattle.tinystr.specs.Private.{IsLoaded};

use crate::ascii::TinyAsciiStr;
use std::marker::Model;
use std::simd::prelude::*;
use tinystr_words::word::{Word, lanes};

/// A borrowed input of at most 17 bytes, of any values, for a parser that needs the classes of all bytes. A contract sees
/// it as the list of its bytes.
///
/// ```rust
/// let input = ShortInput::new(b"zh_TW").unwrap();
/// assert_eq!(rt; input.alphabetic_bits(), 0b11011);
/// assert_eq!(rt; input.bits_of_either(b'-', b'_'), 0b00100);
/// assert_eq!(rt; input.in_lowercase(b'_', b'-').as_str(), "zh-tw");
/// ```
#[derive(Clone, Drop)]
pub struct ShortInput<'a> {
    bytes: &'a [u8],
    // at most the first sixteen bytes, and then NULs
    first: [u8; 16],
}

impl<'a> Model for ShortInput<'a> {
    ghost use Rattle.std.specs.Prelude.{List, ℕ};
    ghost use Rattle.tinystr.specs.Private.{IsLoaded};

    ghost Value = { List ℕ };

    ghost view = { λ s. s.bytes.now };

    ghost invariant = { λ s. IsLoaded s.first s.bytes.now };
}

impl<'a> ShortInput<'a> {
    /// Borrows the bytes, or returns `None` if there are more than 17.
    #[inline(always)]
    pub fn new(bytes: &'a [u8]) -> Option<Self>
        ensures fits { IsSome result ↔ length bytes.now ≤ 17 }
        ensures bytes { IfSome result (λ input. input ≡ bytes.now) }
    {
        if bytes.len() > 17 {
            return None;
        }
        let first = first_lanes(bytes).to_array();
        Some(ShortInput { bytes, first })
    }

    /// The number of bytes.
    #[inline(always)]
    pub fn len(&self) -> usize
        ensures len { result ≡ length self.now }
        ensures fits { length self.now ≤ 17 }
    {
        self.bytes.len()
    }

    /// Whether there are no bytes.
    #[inline(always)]
    pub fn is_empty(&self) -> bool
        ensures { IsTrue result ↔ (self.now ≡ []) }
    {
        self.bytes.is_empty()
    }

    /// A bit for each byte that is a letter. The lowest bit is that of the first byte.
    #[tactic(auto, using(crate::proofs::ShortInputs::seventeen))]
    #[inline(always)]
    pub fn alphabetic_bits(&self) -> u64
        ensures { result ≡ bits_of is_alphabetic self.now }
    {
        let bits = letters(self.lanes());
        let last = self.bytes.get(16);
        last.map_or(bits, |b| with_last(bits, b.is_ascii_alphabetic()))
    }

    /// A bit for each byte that is a digit. The lowest bit is that of the first byte.
    #[tactic(auto, using(crate::proofs::ShortInputs::seventeen))]
    #[inline(always)]
    pub fn numeric_bits(&self) -> u64
        ensures { result ≡ bits_of is_digit self.now }
    {
        let bits = digits(self.lanes());
        let last = self.bytes.get(16);
        last.map_or(bits, |b| with_last(bits, b.is_ascii_digit()))
    }

    /// A bit for each byte that is one of two, neither of which may be NUL. The lowest bit is that of the first byte.
    #[tactic(auto, using(crate::proofs::ShortInputs::seventeen))]
    #[inline(always)]
    pub fn bits_of_either(&self, one: u8, other: u8) -> u64
        requires one { 0 < one }
        requires other { 0 < other }
        ensures { result ≡ bits_of (λ b. b == one || b == other) self.now }
    {
        let bits = either(self.lanes(), one, other);
        let last = self.bytes.get(16);
        last.map_or(bits, |b| with_last(bits, (*b == one) | (*b == other)))
    }

    /// The text of the bytes, with `to` for `from` and letters in lowercase. The bytes must be a text, and `from` and `to`
    /// bytes from 1 to 127.
    #[tactic(auto, using(crate::proofs::ShortInputs::all_in_lowercase))]
    #[inline(always)]
    pub fn in_lowercase(&self, from: u8, to: u8) -> TinyAsciiStr<17>
        requires text { IsText self.now }
        requires from { IsTextByte from }
        requires to { IsTextByte to }
        ensures { result ≡ map (lower_but from to) self.now }
    {
        self.in_case_of(&[b'a'; 16], from, to)
    }

    /// The text of the bytes, with `to` for `from` and each letter in the case of the example's byte at its place: in
    /// lowercase if this has the bit 0x20, as lowercase letters, digits and `-` have, else in uppercase. A 17th letter is
    /// in lowercase. The bytes must be a text, and `from` and `to` bytes from 1 to 127.
    ///
    /// ```rust
    /// let input = ShortInput::new(b"ZH_hant_tw").unwrap();
    /// assert_eq!(rt; input.in_case_of(b"aa-Aaaa-AA------", b'_', b'-').as_str(), "zh-Hant-TW");
    /// ```
    #[inline(always)]
    pub fn in_case_of(&self, example: &[u8; 16], from: u8, to: u8) -> TinyAsciiStr<17>
        requires text { IsText self.now }
        requires from { IsTextByte from }
        requires to { IsTextByte to }
        ensures { result ≡ in_case_of example.now from to self.now }
    {
        let first = lanes_in_case_of(self.lanes(), u8x16::from_array(*example), from, to);
        let last = self.bytes.get(16);
        text_of(first, last.map_or(0, |b| lower_but(*b, from, to)))
    }

    #[inline(always)]
    fn lanes(&self) -> u8x16
        ensures { IsLoaded result self.now }
    {
        u8x16::from_array(self.first)
    }
}

// At most the first sixteen bytes, and then NULs.
#[inline(always)]
fn first_lanes(units: &[u8]) -> u8x16
    ensures { result ≡ pad (take 16 units.now) 16 }
{
    let front = &units[..units.len().min(16)];
    lanes(<u128 as Word<16>>::load(front))
}

// The bits of sixteen bytes and one more.
#[inline(always)]
fn with_last(bits: u64, is_set: bool) -> u64
    requires { bits < 2 ^ 16 }
    ensures { result ≡ bits + (if is_set then 2 ^ 16 else 0) }
{
    bits + (u64::from(is_set) << 16)
}

// One bit more makes a lowercase letter of an uppercase letter, and a letter of nothing else.
const LOWERCASE: u8 = 0x20;

// The lanes that are letters.
#[tactic(auto, using(crate::proofs::ShortInputs::letter_marks))]
#[inline(always)]
fn letters(lanes: u8x16) -> u64
    ensures { result ≡ mask_l (map is_alphabetic lanes) }
{
    let from_a = (lanes | u8x16::splat(LOWERCASE)) - u8x16::splat(b'a');
    from_a.simd_lt(u8x16::splat(26)).to_bitmask()
}

// The lanes that are digits.
#[tactic(auto, using(crate::proofs::ShortInputs::digit_marks))]
#[inline(always)]
fn digits(lanes: u8x16) -> u64
    ensures { result ≡ mask_l (map is_digit lanes) }
{
    let from_0 = lanes - u8x16::splat(b'0');
    from_0.simd_lt(u8x16::splat(10)).to_bitmask()
}

// The lanes that are one of two bytes.
#[inline(always)]
fn either(lanes: u8x16, one: u8, other: u8) -> u64
    ensures { result ≡ mask_l (map (λ b. b == one || b == other) lanes) }
{
    let ones = lanes.simd_eq(u8x16::splat(one));
    (ones | lanes.simd_eq(u8x16::splat(other))).to_bitmask()
}

// The lanes with `to` for `from`, and letters in the case of the example.
#[tactic(auto, using(crate::proofs::ShortInputs::cased_lanes))]
#[inline(always)]
fn lanes_in_case_of(lanes: u8x16, example: u8x16, from: u8, to: u8) -> u8x16
    ensures { result ≡ in_case_of example from to lanes }
{
    let lowered = lanes | u8x16::splat(LOWERCASE);
    let are_letters = (lowered - u8x16::splat(b'a')).simd_lt(u8x16::splat(26));
    let cased = lowered & (example | u8x16::splat(!LOWERCASE));
    let are_from = lanes.simd_eq(u8x16::splat(from));
    are_from.select(u8x16::splat(to), are_letters.select(cased, lanes))
}

// `to` for `from`, or the byte in lowercase.
#[inline(always)]
fn lower_but(byte: u8, from: u8, to: u8) -> u8
    ensures { result ≡ lower_but from to byte }
{
    if byte == from {
        to
    } else {
        byte.to_ascii_lowercase()
    }
}

// The text of sixteen bytes and one more.
#[inline(always)]
fn text_of(lanes: u8x16, last: u8) -> TinyAsciiStr<17>
    requires { IsPaddedText (lanes ++ last ∷ []) 17 }
    ensures { result ≡ text_of (lanes ++ last ∷ []) }
{
    let mut bytes = [last; 17];
    bytes[..16].copy_from_slice(&lanes.to_array()[..]);
    TinyAsciiStr::from_padded(bytes)
}
