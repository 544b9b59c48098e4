//! What a code unit is, a byte or a 16-bit number: its value, its low byte, and whether it is a character.
//! `padded::code_units` reads many of them into arrays.

ghost use Rattle.std.specs.Prelude.{◌≡◌, ◌*◌, ◌%◌, ◌≤◌, ◌↔◌, ℕ, length, map, IsTrue, IfSome};
ghost use Rattle.tinystr_words.specs.Text.{IsText, IsTextByte};
ghost use Rattle.tinystr_words.specs.Words.{word};

use std::simd::prelude::*;

/// A code unit that a reader takes: a byte, or a 16-bit number.
///
/// ```rust
/// assert_eq!(rt; CodeUnit::code(b'E'), 0x45);
/// assert!(rt; !CodeUnit::is_character(0x20acu16));
/// ```
pub trait CodeUnit: Copy {
    ghost number: { Self → ℕ };

    /// The code unit as a number: 0 to 255 for a byte, 0 to 65535 for a 16-bit number.
    fn code(self) -> u16
        ensures { result ≡ number self };

    /// Whether the code unit is from 1 to 127.
    fn is_character(self) -> bool
        ensures { IsTrue result ↔ IsTextByte (number self) };

    /// The lowest eight bits, which hold all of a character.
    fn low_byte(self) -> u8
        ensures { result ≡ number self % 256 };

    /// The code units as bytes, if that is their type, or `None`, which changes no result, only the speed.
    fn as_bytes(units: &[Self]) -> Option<&[u8]>
        ensures { IfSome result (λ bytes. bytes.now ≡ map number units.now) };

    /// The lowest eight bits of each of four code units, as a little-endian word. The slice must have four.
    fn word_of_four(units: &[Self]) -> u32
        requires { length units.now ≡ 4 }
        ensures { result ≡ word (map (λ unit. number unit % 256) units.now) };

    /// The lowest eight bits of each of eight code units. The slice must have eight.
    fn eight_low_bytes(units: &[Self]) -> [u8; 8]
        requires { length units.now ≡ 8 }
        ensures { result ≡ map (λ unit. number unit % 256) units.now };
}

/// The number of characters: a code unit from 1 to this is one.
pub(crate) const CHARACTERS: u8 = 0x7f;

impl CodeUnit for u8 {
    ghost number = { λ unit. unit };

    #[inline(always)]
    fn code(self) -> u16 {
        u16::from(self)
    }

    #[inline(always)]
    fn is_character(self) -> bool {
        self.wrapping_sub(1) < CHARACTERS
    }

    #[inline(always)]
    fn low_byte(self) -> u8 {
        self
    }

    #[inline(always)]
    fn as_bytes(units: &[u8]) -> Option<&[u8]> {
        Some(units)
    }

    #[inline(always)]
    fn word_of_four(units: &[u8]) -> u32 {
        u32::from_le_bytes(*units.first_chunk::<4>().unwrap())
    }

    #[tactic(auto, using(crate::proofs::Pieces::Word::bytes_unchanged))]
    #[inline(always)]
    fn eight_low_bytes(units: &[u8]) -> [u8; 8] {
        let mut bytes = [0; 8];
        bytes.copy_from_slice(units);
        bytes
    }
}

impl CodeUnit for u16 {
    ghost number = { λ unit. unit };

    #[inline(always)]
    fn code(self) -> u16 {
        self
    }

    #[inline(always)]
    fn is_character(self) -> bool {
        self.wrapping_sub(1) < u16::from(CHARACTERS)
    }

    #[inline(always)]
    fn low_byte(self) -> u8 {
        (self % 256) as u8
    }

    #[inline(always)]
    fn as_bytes(_: &[u16]) -> Option<&[u8]> {
        None
    }

    // Every other byte of a vector. From an array the compiler would take each byte by itself.
    #[inline(always)]
    fn word_of_four(units: &[u16]) -> u32 {
        let bytes = u16x4::from_slice(units).to_le_bytes();
        u32x1::from_le_bytes(bytes.swizzle([0, 2, 4, 6])).to_array()[0]
    }

    // Through a number, since the compiler would copy bytes of a vector into the array one by one.
    #[inline(always)]
    fn eight_low_bytes(units: &[u16]) -> [u8; 8] {
        let bytes = u16x8::from_slice(units).to_le_bytes();
        let word = u64x1::from_le_bytes(bytes.swizzle([0, 2, 4, 6, 8, 10, 12, 14])).to_array()[0];
        word.to_le_bytes()
    }
}

/// Whether all code units are characters. There is no early exit, so that the compiler can test a known number of them
/// in one step.
#[inline(always)]
pub fn are_characters<U: CodeUnit>(units: &[U]) -> bool
    ensures { IsTrue result ↔ IsText (map U.number units.now) }
{
    let mut are_characters = true;
    for unit in units {
        are_characters &= unit.is_character();
    }
    are_characters
}

// By the first and the last `count` code units, which are all.
#[inline(always)]
fn is_text_by_ends<U: CodeUnit>(units: &[U], count: usize) -> bool
    requires least { count ≤ length units.now }
    requires most { length units.now ≤ 2 * count }
    ensures { IsTrue result ↔ IsText (map U.number units.now) }
{
    are_characters(&units[..count]) & are_characters(&units[units.len() - count..])
}

/// Whether at most sixteen code units are a text.
#[inline(always)]
pub(crate) fn is_text<U: CodeUnit>(units: &[U]) -> bool
    requires { length units.now ≤ 16 }
    ensures { IsTrue result ↔ IsText (map U.number units.now) }
{
    let len = units.len();
    if len > 8 {
        is_text_by_ends(units, 8)
    } else if len >= 4 {
        is_text_by_ends(units, 4)
    } else if len >= 2 {
        is_text_by_ends(units, 2)
    } else {
        len == 0 || is_text_by_ends(units, 1)
    }
}
