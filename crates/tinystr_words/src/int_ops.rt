//! Texts in one word each. Questions and case changes take a few sums over the whole word.

ghost use Rattle.std.specs.Prelude.{◌≡◌, ◌<◌, ◌≤◌, ◌++◌, length, map, take, MatchOption, IsTrue, ◌↔◌};
ghost use Rattle.std.specs.Fmt.{decimal};
ghost use Rattle.std.specs.Str.{bytes_eq};
ghost use Rattle.tinystr_words.specs.Text.{IsText, IsPaddedText, IsPadded, pad, text_of};
ghost use Rattle.tinystr_words.specs.Classes.{ask, is_alphabetic, is_alphanumeric};
ghost use Rattle.tinystr_words.specs.Private.{is_in, is_not_in};
ghost use Rattle.tinystr_words.specs.Decimal.{last};
ghost use Rattle.tinystr_words.specs.Questions.{ask_question, in_case};

mod by_name;

use crate::code_unit::{CodeUnit, is_text};
use crate::decimal::{decimal_fits, decimal_word, eight_digits};
use crate::kernel::{
    DIGIT, LOWER, Range, UPPER, case_bits, inside, marks, no_character_marked, no_lane_marked,
    outside, unpadded, with_case_bits,
};
use crate::question::{Case, Question};
use crate::word::{Word, lanes};
use std::marker::Model;
use std::simd::prelude::*;

/// A text of at most `LEN` bytes, each from 1 to 127: its bytes and then NULs, in one word.
///
/// ```rust
/// let word = Aligned4::from_ascii_bytes(b"gb\0");
/// assert_eq!(rt; word.len(), 2);
/// assert!(rt; word.is_ascii_alphabetic_lowercase());
/// assert_eq!(rt; word.to_ascii_uppercase(), *b"GB\0\0");
/// ```
#[derive(Drop)]
pub struct Aligned<T: Word<LEN>, const LEN: usize> {
    word: T,
}

/// A text of at most 4 bytes, in 32 bits.
///
/// ```rust
/// assert_eq!(rt; Aligned4::from_ascii_bytes(b"GB").to_bytes(), *b"GB\0\0");
/// ```
pub type Aligned4 = Aligned<u32, 4>;

/// A text of at most 8 bytes, in 64 bits.
///
/// ```rust
/// let language = Aligned8::from_ascii_bytes(b"en");
/// let region = Aligned8::from_ascii_bytes(b"-GB");
/// assert_eq!(rt; language.concat(&region).to_bytes(), *b"en-GB\0\0\0");
/// ```
pub type Aligned8 = Aligned<u64, 8>;

/// A text of at most 16 bytes, in 128 bits.
///
/// ```rust
/// let city = Aligned16::from_ascii_bytes(b"New York");
/// assert_eq!(rt; city.to_ascii_uppercase(), *b"NEW YORK\0\0\0\0\0\0\0\0");
/// ```
pub type Aligned16 = Aligned<u128, 16>;

impl<T: Word<LEN>, const LEN: usize> Model for Aligned<T, LEN> {
    ghost use Rattle.std.specs.Prelude.{List, ℕ};
    ghost use Rattle.tinystr_words.specs.Words.{text_in, HoldsText};

    ghost Value = { List ℕ };

    ghost view = { λ a. text_in LEN (T.number a.word) };

    ghost invariant = { λ a. HoldsText LEN (T.number a.word) };
}

impl<T: Word<LEN>, const LEN: usize> Aligned<T, LEN> {
    /// Takes an array of at most `LEN` bytes, which must be a text and then NULs.
    #[inline(always)]
    pub fn from_ascii_bytes<const N: usize>(src: &[u8; N]) -> Self
        requires fits { N ≤ LEN }
        requires padded { IsPaddedText src.now N }
        ensures { result ≡ text_of src.now }
    {
        Self::from_padded(src)
    }

    /// The length of the text in bytes.
    #[inline(always)]
    pub fn len(&self) -> usize
        ensures { result ≡ length self.now }
    {
        self.word.text_len()
    }

    /// Takes at most `LEN` bytes, which must be a text and then NULs.
    #[inline(always)]
    pub fn from_padded(bytes: &[u8]) -> Self
        requires fits { length bytes.now ≤ LEN }
        requires padded { IsPadded bytes.now }
        ensures { result ≡ text_of bytes.now }
    {
        Aligned {
            word: T::load(bytes),
        }
    }

    /// Reads bytes that are a text and then NULs, or gives `None`. There must be at most `LEN`.
    ///
    /// ```rust
    /// assert!(rt; Aligned8::try_from_padded(b"GB\0").is_some());
    /// assert!(rt; Aligned8::try_from_padded(b"\0GB").is_none());
    /// ```
    #[inline(always)]
    pub fn try_from_padded(bytes: &[u8]) -> Option<Self>
        requires fits { length bytes.now ≤ LEN }
        ensures { MatchOption result (¬ IsPadded bytes.now)
            (λ t. IsPadded bytes.now × (t ≡ text_of bytes.now)) }
    {
        let word = T::load(bytes);
        if unpadded(word, marks(word)).equals(T::splat(0)) {
            Some(Aligned { word })
        } else {
            None
        }
    }

    /// Reads code units that are all from 1 to 127, or gives `None`. There must be at most `LEN`.
    ///
    /// ```rust
    /// assert!(rt; Aligned8::try_from_text(b"GB").is_some());
    /// assert!(rt; Aligned8::try_from_text(b"GB\0").is_none());
    /// ```
    #[inline(always)]
    pub fn try_from_text<U: CodeUnit>(units: &[U]) -> Option<Self>
        requires fits { length units.now ≤ LEN }
        ensures { MatchOption result (¬ IsText (map U.number units.now))
            (λ t. IsText (map U.number units.now) × (t ≡ map U.number units.now)) }
    {
        if is_text(units) {
            Some(Aligned {
                word: T::load(units),
            })
        } else {
            None
        }
    }

    /// The text and then NULs.
    #[tactic(auto, using(crate::proofs::Words::Texts::padded_lanes), unfolding(crate::specs::Words::text_in))]
    #[inline(always)]
    pub fn to_bytes(&self) -> [u8; LEN]
        ensures bytes { result ≡ pad self.now LEN }
        ensures padded { IsPaddedText result LEN }
        ensures text { text_of result ≡ self.now }
    {
        self.word.to_bytes_in_registers()
    }

    /// Whether the two texts are equal.
    #[inline(always)]
    pub fn equals(&self, other: &Self) -> bool
        ensures { result ≡ bytes_eq self.now other.now }
    {
        self.word.equals(other.word)
    }

    /// Answers the given question: `ask(Question::Titlecase)` is `is_ascii_titlecase()`.
    #[inline(always)]
    pub fn ask(&self, question: Question) -> bool
        ensures { result ≡ ask_question question self.now }
    {
        match question {
            Question::Alphabetic => self.each_letter(),
            Question::Alphanumeric => self.each_letter_or_digit(),
            Question::Numeric => self.each_in(DIGIT, DIGIT),
            Question::Lowercase => self.none_in(UPPER, UPPER),
            Question::Titlecase => self.none_in(LOWER, UPPER),
            Question::Uppercase => self.none_in(LOWER, LOWER),
            Question::AlphabeticLowercase => self.each_in(LOWER, LOWER),
            Question::AlphabeticTitlecase => self.each_in(UPPER, LOWER),
            Question::AlphabeticUppercase => self.each_in(UPPER, UPPER),
        }
    }

    // Whether the first byte is in one range, and each later byte in another.
    #[tactic(auto, using(crate::proofs::Words::Kernels::asked_in))]
    #[inline(always)]
    fn each_in(&self, first: Range, others: Range) -> bool
        ensures { result ≡ ask (is_in first) (is_in others) self.now }
    {
        let word = self.word;
        no_character_marked(outside(word, first, others), word)
    }

    // Whether the first byte is outside one range, and each later byte outside another.
    #[tactic(auto, using(crate::proofs::Words::Kernels::asked_not_in))]
    #[inline(always)]
    fn none_in(&self, first: Range, others: Range) -> bool
        ensures { result ≡ ask (is_not_in first) (is_not_in others) self.now }
    {
        no_lane_marked(inside(self.word, first, others))
    }

    // Whether each byte is a letter.
    #[inline(always)]
    fn each_letter(&self) -> bool
        ensures { result ≡ ask is_alphabetic is_alphabetic self.now }
    {
        let word = self.word;
        no_character_marked(outside(with_case_bits(word), LOWER, LOWER), word)
    }

    // Whether each byte is a letter or a digit.
    #[tactic(auto, using(crate::proofs::Words::Kernels::asked_letters_or_digits))]
    #[inline(always)]
    fn each_letter_or_digit(&self) -> bool
        ensures { result ≡ ask is_alphanumeric is_alphanumeric self.now }
    {
        let word = self.word;
        let not_letter = outside(with_case_bits(word), LOWER, LOWER);
        let not_digit = outside(word, DIGIT, DIGIT);
        no_character_marked(not_letter.and(not_digit), word)
    }

    /// The text in the given case, and then NULs: `in_case(Case::Title)` is `to_ascii_titlecase()`.
    #[tactic(auto, using(crate::proofs::Words::Texts::changed_lanes))]
    #[inline(always)]
    pub fn in_case(&self, case: Case) -> [u8; LEN]
        ensures { result ≡ pad (in_case case self.now) LEN }
    {
        let word = self.word;
        let bits = match case {
            Case::Lower => case_bits(word, UPPER, UPPER),
            Case::Title => case_bits(word, LOWER, UPPER),
            Case::Upper => case_bits(word, LOWER, LOWER),
        };
        word.xor(bits).to_bytes_in_memory()
    }
}

impl Aligned<u64, 8> {
    /// The length of the text in bytes, in fewer steps than `len` takes. One more bit, below all, so that the count needs no
    /// test for 0. It fits, since no byte is above 0x7f.
    ///
    /// ```rust
    /// assert_eq!(rt; Aligned8::from_ascii_bytes(b"en-US").len_by_top(), 5);
    /// ```
    #[tactic(auto, using(crate::proofs::Words::Texts::length_by_top))]
    #[inline(always)]
    pub fn len_by_top(&self) -> usize
        ensures { result ≡ length self.now }
    {
        let bits = 63 - u64::leading_zeros(2 * self.word + 1) as usize;
        (bits + 7) / 8
    }

    /// The two texts joined, truncated to 8 bytes.
    #[inline(always)]
    pub fn concat(&self, other: &Self) -> Self
        ensures { result ≡ take 8 (self.now ++ other.now) }
    {
        let (front, back) = (self.word, other.word);
        let len = self.len_by_top();
        if len == 8 {
            return Aligned { word: front };
        }
        Aligned {
            word: front + (back << (8 * len)),
        }
    }

    /// The decimal text of `number`, or its last `most` digits if it has more. `most` must be from 1 to 8. Eight digits
    /// are made, and leading ones are shifted out, which is faster than a loop that ends with the number.
    ///
    /// ```rust
    /// assert_eq!(rt; Aligned8::from_number(2026, 4).to_bytes(), *b"2026\0\0\0\0");
    /// assert_eq!(rt; Aligned8::from_number(2006, 2).to_bytes(), *b"06\0\0\0\0\0\0");
    /// ```
    #[inline(always)]
    pub fn from_number(number: u32, most: usize) -> Self
        requires { (0 < most) × (most ≤ 8) }
        ensures { result ≡ last most (decimal number) }
    {
        let digits = eight_digits(number % 100_000_000);
        let others = if decimal_fits(number, most) {
            // of eight zeros the last is kept
            (digits | 1 << 56).trailing_zeros() as usize / 8
        } else {
            8 - most
        };
        Aligned {
            word: (digits + 0x3030_3030_3030_3030) >> (8 * others),
        }
    }
}

impl Aligned<u128, 16> {
    /// The length of the text in bytes, in fewer steps than `len` takes: `nuls` has a bit for each NUL, so
    /// `(1 << 16) - nuls` has one set bit, at the text's length.
    ///
    /// ```rust
    /// assert_eq!(rt; Aligned16::from_ascii_bytes(b"New York").len_by_nuls(), 8);
    /// ```
    #[inline(always)]
    pub fn len_by_nuls(&self) -> usize
        ensures { result ≡ length self.now }
    {
        let nuls = lanes(self.word).simd_eq(u8x16::splat(0)).to_bitmask();
        63 - u64::leading_zeros((1 << 16) - nuls) as usize
    }

    /// The text and then NULs, in a vector.
    #[tactic(auto, using(crate::proofs::Words::Texts::padded_lanes))]
    #[inline(always)]
    pub fn to_lanes(&self) -> u8x16
        ensures { result ≡ pad self.now 16 }
    {
        lanes(self.word)
    }

    /// The shortest decimal text of a number.
    ///
    /// ```rust
    /// assert_eq!(rt; Aligned16::from_decimal(4294967295).to_bytes(), *b"4294967295\0\0\0\0\0\0");
    /// ```
    #[tactic(auto, using(crate::proofs::Decimals::decimal_in_word))]
    #[inline(always)]
    pub fn from_decimal(number: u32) -> Self
        ensures { result ≡ decimal number }
    {
        Aligned {
            word: decimal_word(number),
        }
    }

    /// The last `count` digits of a number that has more. While they are made, a 1 before them keeps their zeros.
    #[tactic(auto, using(crate::proofs::Decimals::last_digits))]
    #[inline(always)]
    pub fn from_last_digits(number: u32, count: usize) -> Self
        requires { count < length (decimal number) }
        ensures { result ≡ last count (decimal number) }
    {
        let limit = 10u32.pow(count as u32);
        Aligned {
            word: decimal_word(limit + number % limit).next_lanes(),
        }
    }
}
