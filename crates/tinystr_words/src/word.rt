//! An unsigned integer as a little-endian word of byte lanes.

ghost use Rattle.std.specs.Prelude.{◌≡◌, ◌+◌, ◌-◌, ◌*◌, ◌/◌, ◌%◌, ◌^◌, ◌<◌, ◌≤◌, ◌==◌, ℕ, [], ◌∷◌, length, map, slice_index, bit_and, bit_or};
ghost use Rattle.std.specs.Int.Bits.{bit_xor};
ghost use Rattle.std.proofs.Common.{lit<, lit≤};
ghost use Rattle.tinystr_words.specs.Words.{word, first_then, lanes_of, text_in, HasLowLanes, HoldsText};

use crate::code_unit::CodeUnit;
use std::simd::prelude::*;

/// An integer of `LEN` bytes.
pub trait Word<const LEN: usize>: Copy + Drop {
    ghost number: { Self → ℕ };

    /// The word of these lanes.
    fn from_le_bytes(bytes: &[u8; LEN]) -> Self
        ensures { number result ≡ word bytes.now };

    /// The lanes, the lowest first, for a caller that keeps them in registers. Only this crate calls this and the next.
    fn to_bytes_in_registers(self) -> [u8; LEN]
        ensures { result ≡ lanes_of LEN (number self) };

    /// The same bytes for an array in memory: a word of sixteen in halves, since its bytes are stored one at a time.
    #[inline(always)]
    fn to_bytes_in_memory(self) -> [u8; LEN]
        ensures { result ≡ lanes_of LEN (number self) }
    {
        self.to_bytes_in_registers()
    }

    /// The word whose first lanes are the lowest bytes of these code units and whose others are NUL, made in registers:
    /// two pieces of half a word, which may overlap, are all code units.
    fn load<U: CodeUnit>(src: &[U]) -> Self
        requires { length src.now ≤ LEN }
        ensures { number result ≡ word (map (λ u. U.number u % 256) src.now) };

    /// The length of the text in the lanes.
    fn text_len(self) -> usize
        requires { HoldsText LEN (number self) }
        ensures { result ≡ length (text_in LEN (number self)) };

    /// The sum, lane by lane: no lane may carry into the next.
    fn plus(self, other: Self) -> Self
        requires left { HasLowLanes (number self) }
        requires right { HasLowLanes (number other) }
        ensures { number result ≡ number self + number other };

    /// The bits that are set in both.
    fn and(self, other: Self) -> Self
        ensures { number result ≡ bit_and (number self) (number other) };

    /// The bits that are set in one or in both.
    fn or(self, other: Self) -> Self
        ensures { number result ≡ bit_or (number self) (number other) };

    /// The bits that are set in one alone.
    fn xor(self, other: Self) -> Self
        ensures { number result ≡ bit_xor (number self) (number other) };

    /// The bits that aren't set.
    fn not(self) -> Self
        ensures { number result ≡ 256 ^ LEN - 1 - number self };

    /// The high bit of each lane two places lower, 0x20 for 0x80, and no other bit.
    fn high_bits_as_case_bits(self) -> Self
        ensures { number result ≡ bit_and (number self) (word (first_then LEN 0x80 0x80)) / 4 };

    /// Shifts right by one byte.
    fn next_lanes(self) -> Self
        ensures { number result ≡ number self / 256 };

    /// Whether all lanes are the same.
    fn equals(self, other: Self) -> bool
        ensures { result ≡ (number self == number other) };

    /// One byte in the first lane, another in each other lane.
    #[inline(always)]
    fn first_then(first: u8, others: u8) -> Self
        ensures { number result ≡ word (first_then LEN first others) }
    {
        let mut bytes = [others; LEN];
        bytes[0] = first;
        Self::from_le_bytes(&bytes)
    }

    /// The same byte in each lane.
    #[inline(always)]
    fn splat(byte: u8) -> Self
        ensures { number result ≡ word (first_then LEN byte byte) }
    {
        Self::first_then(byte, byte)
    }

    ghost size: { (0 < LEN) × (LEN ≤ 16) };
}

impl Word<4> for u32 {
    ghost number = { λ w. w };

    ghost size = { (lit< tt, lit≤ tt) };

    #[inline]
    fn from_le_bytes(bytes: &[u8; 4]) -> u32 {
        u32::from_le_bytes(*bytes)
    }

    #[inline]
    fn to_bytes_in_registers(self) -> [u8; 4] {
        u32::to_le_bytes(self)
    }

    // Of one to three code units, the first, the middle and the last are all.
    #[inline(always)]
    fn load<U: CodeUnit>(src: &[U]) -> u32 {
        let len = src.len();
        if len == 0 {
            return 0;
        }
        if len >= 4 {
            return U::word_of_four(src);
        }
        let middle = len / 2;
        let last = len - 1;
        u32::from(src[0].low_byte())
            | u32::from(src[middle].low_byte()) << (8 * middle)
            | u32::from(src[last].low_byte()) << (8 * last)
    }

    // Only NULs are above the text's last byte.
    #[tactic(auto, using(crate::proofs::Words::Texts::text_length))]
    #[inline]
    fn text_len(self) -> usize {
        4 - u32::leading_zeros(self) as usize / 8
    }

    #[tactic(auto, using(crate::proofs::Words::Numbers::low_word_bounds))]
    #[inline]
    fn plus(self, other: u32) -> u32 {
        self + other
    }

    #[inline]
    fn and(self, other: u32) -> u32 {
        self & other
    }

    #[inline]
    fn or(self, other: u32) -> u32 {
        self | other
    }

    #[inline]
    fn xor(self, other: u32) -> u32 {
        self ^ other
    }

    #[inline]
    fn not(self) -> u32 {
        !self
    }

    #[inline]
    fn high_bits_as_case_bits(self) -> u32 {
        (self & Self::splat(0x80)) >> 2
    }

    #[inline]
    fn next_lanes(self) -> u32 {
        self >> 8
    }

    #[inline]
    fn equals(self, other: u32) -> bool {
        self == other
    }
}

impl Word<8> for u64 {
    ghost number = { λ w. w };

    ghost size = { (lit< tt, lit≤ tt) };

    #[inline]
    fn from_le_bytes(bytes: &[u8; 8]) -> u64 {
        u64::from_le_bytes(*bytes)
    }

    #[inline]
    fn to_bytes_in_registers(self) -> [u8; 8] {
        u64::to_le_bytes(self)
    }

    // Four code units are two pieces too, as in `is_text`, so that a caller of both tests the length once.
    #[inline(always)]
    fn load<U: CodeUnit>(src: &[U]) -> u64 {
        let len = src.len();
        if len < 4 {
            return u64::from(<u32 as Word<4>>::load(src));
        }
        let low = <u32 as Word<4>>::load(&src[..4]);
        let high = <u32 as Word<4>>::load(&src[len - 4..]);
        u64::from(low) + ((u64::from(high) >> (8 * (8 - len))) << 32)
    }

    #[tactic(auto, using(crate::proofs::Words::Texts::text_length))]
    #[inline]
    fn text_len(self) -> usize {
        8 - u64::leading_zeros(self) as usize / 8
    }

    #[tactic(auto, using(crate::proofs::Words::Numbers::low_word_bounds))]
    #[inline]
    fn plus(self, other: u64) -> u64 {
        self + other
    }

    #[inline]
    fn and(self, other: u64) -> u64 {
        self & other
    }

    #[inline]
    fn or(self, other: u64) -> u64 {
        self | other
    }

    #[inline]
    fn xor(self, other: u64) -> u64 {
        self ^ other
    }

    #[inline]
    fn not(self) -> u64 {
        !self
    }

    #[inline]
    fn high_bits_as_case_bits(self) -> u64 {
        (self & Self::splat(0x80)) >> 2
    }

    #[inline]
    fn next_lanes(self) -> u64 {
        self >> 8
    }

    #[inline]
    fn equals(self, other: u64) -> bool {
        self == other
    }
}

// The first number past 64 bits.
const HALF: u128 = 1 << 64;

// Both halves of a word, the low one first. The compiler keeps what is made of them in a vector, from the load of a word
// on; in halves or as one number they would take two registers, and twice the steps.
#[inline(always)]
fn halves(word: u128) -> u64x2
    ensures { result ≡ (word % 2 ^ 64) ∷ (word / 2 ^ 64) ∷ [] }
{
    u64x2::from_array([(word % HALF) as u64, (word / HALF) as u64])
}

/// The sixteen lanes of a word, the lowest first, in a vector.
#[inline(always)]
pub fn lanes(word: u128) -> u8x16
    ensures { result ≡ lanes_of 16 word }
{
    halves(word).to_le_bytes()
}

// The word of two halves.
#[inline(always)]
fn joined(low: u64, high: u64) -> u128
    ensures { result ≡ low + 2 ^ 64 * high }
{
    u128::from(low) | u128::from(high) << 64
}

// The word of the halves in a vector.
#[inline(always)]
fn whole(halves: u64x2) -> u128
    ensures { result ≡ slice_index halves 0 + 2 ^ 64 * slice_index halves 1 }
{
    let [low, high] = halves.to_array();
    joined(low, high)
}

impl Word<16> for u128 {
    ghost number = { λ w. w };

    ghost size = { (lit< tt, lit≤ tt) };

    #[inline(always)]
    fn from_le_bytes(bytes: &[u8; 16]) -> u128 {
        u128::from_le_bytes(*bytes)
    }

    // In pieces that end at the bytes 7 and 15, where the compiler cuts a `Result` of a text and an error of two
    // numbers: each then stays in a register.
    #[inline(always)]
    fn to_bytes_in_registers(self) -> [u8; 16] {
        let mut bytes = [0; 16];
        bytes[15] = (self >> 120) as u8;
        bytes[7..15].copy_from_slice(&(((self >> 56) % (1 << 64)) as u64).to_le_bytes());
        bytes[6] = ((self >> 48) % (1 << 8)) as u8;
        bytes[4..6].copy_from_slice(&(((self >> 32) % (1 << 16)) as u16).to_le_bytes());
        bytes[..4].copy_from_slice(&((self % (1 << 32)) as u32).to_le_bytes());
        bytes
    }

    #[inline(always)]
    fn to_bytes_in_memory(self) -> [u8; 16] {
        let low = (self % HALF) as u64;
        let high = (self / HALF) as u64;
        let mut bytes = [0; 16];
        bytes[8..].copy_from_slice(&Word::to_bytes_in_registers(high));
        bytes[..8].copy_from_slice(&Word::to_bytes_in_registers(low));
        bytes
    }

    #[inline(always)]
    fn load<U: CodeUnit>(src: &[U]) -> u128 {
        let len = src.len();
        if len <= 8 {
            return u128::from(<u64 as Word<8>>::load(src));
        }
        let low = <u64 as Word<8>>::load(&src[..8]);
        let high = <u64 as Word<8>>::load(&src[len - 8..]);
        joined(low, high >> (8 * (16 - len)))
    }

    #[tactic(auto, using(crate::proofs::Words::Texts::text_length))]
    #[inline(always)]
    fn text_len(self) -> usize {
        16 - u128::leading_zeros(self) as usize / 8
    }

    #[tactic(auto, using(crate::proofs::Words::Numbers::low_halves))]
    #[inline(always)]
    fn plus(self, other: u128) -> u128 {
        whole(halves(self) + halves(other))
    }

    #[tactic(auto, using(crate::proofs::Words::Numbers::and_halves))]
    #[inline(always)]
    fn and(self, other: u128) -> u128 {
        whole(halves(self) & halves(other))
    }

    #[tactic(auto, using(crate::proofs::Words::Numbers::or_halves))]
    #[inline(always)]
    fn or(self, other: u128) -> u128 {
        whole(halves(self) | halves(other))
    }

    #[tactic(auto, using(crate::proofs::Words::Numbers::xor_halves))]
    #[inline(always)]
    fn xor(self, other: u128) -> u128 {
        whole(halves(self) ^ halves(other))
    }

    #[inline(always)]
    fn not(self) -> u128 {
        whole(!halves(self))
    }

    #[tactic(auto, using(crate::proofs::Words::Numbers::case_halves))]
    #[inline(always)]
    fn high_bits_as_case_bits(self) -> u128 {
        whole((halves(self) & halves(Self::splat(0x80))) >> u64x2::splat(2))
    }

    #[inline(always)]
    fn next_lanes(self) -> u128 {
        self >> 8
    }

    #[inline(always)]
    fn equals(self, other: u128) -> bool {
        self == other
    }
}
