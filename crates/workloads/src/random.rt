//! Numbers that a seed gives.

ghost use Rattle.std.specs.Prelude.{◌<◌};

use std::alloc::AllocError;

/// Numbers by Steele, Lea and Flood's SplitMix64.
#[derive(Drop)]
pub struct Random {
    state: u64,
}

impl Random {
    pub fn new(seed: u64) -> Self {
        Random { state: seed }
    }

    #[inline(always)]
    pub fn bits(&mut self) -> u64 {
        self.state = self.state.wrapping_add(0x9e37_79b9_7f4a_7c15);
        let mixed = (self.state ^ (self.state >> 30)).wrapping_mul(0xbf58_476d_1ce4_e5b9);
        let mixed = (mixed ^ (mixed >> 27)).wrapping_mul(0x94d0_49bb_1331_11eb);
        mixed ^ (mixed >> 31)
    }

    /// A number below a bound.
    #[inline(always)]
    pub fn below(&mut self, bound: u32) -> usize
        requires { 0 < bound }
        ensures { result < bound }
    {
        ((self.bits() % 0x1_0000_0000) as u32 % bound) as usize
    }

    /// True with a probability of `percent` in a hundred.
    #[inline(always)]
    pub fn with_probability(&mut self, percent: usize) -> bool {
        self.below(100) < percent
    }

    /// One of a list.
    #[inline(always)]
    pub fn one_of<'a>(&mut self, list: &[&'a [u8]]) -> &'a [u8] {
        let at = (self.bits() % 0x1_0000_0000) as usize;
        if list.is_empty() {
            return &[];
        }
        list[at % list.len()]
    }
}

/// Appends `len` consecutive ones of the given letters, at most eight.
#[inline(always)]
pub fn push_word(
    bytes: &mut Vec<u8>,
    random: &mut Random,
    letters: &[u8; 64],
    len: usize,
) -> Result<(), AllocError> {
    let start = (random.bits() % 56) as usize;
    bytes.extend_from_slice(&letters[start..start + len.min(8)])
}

/// Eight of 64 characters, by the bits of a number.
#[inline(always)]
pub fn letters_of(bits: u64, letters: &[u8; 64]) -> [u8; 8] {
    let mut word = [0; 8];
    let mut rest = bits;
    for byte in &mut word {
        *byte = letters[(rest % 64) as usize];
        rest /= 64;
    }
    word
}

/// Letters in lowercase, some often.
pub const LOWERCASE: &[u8; 64] =
    b"abcdefghijklmnopqrstuvwxyzaeioulnrstaeioulnrstaeioaeioaeiodrstlm";

/// Letters in uppercase, some often.
pub const UPPERCASE: &[u8; 64] =
    b"ABCDEFGHIJKLMNOPQRSTUVWXYZAEIOULNRSTAEIOULNRSTAEIOAEIOAEIODRSTLM";

/// Letters and digits.
pub const MIXED: &[u8; 64] = b"ABCDEFGHIJKLMNOPQRSTUVWXYZabcdefghijklmnopqrstuvwxyz0123456789-_";
