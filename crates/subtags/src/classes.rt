//! The classes of an input's bytes, as bits, and those of examples. That of the first byte is the lowest.

ghost use Rattle.std.specs.Prelude.{◌≡◌, ◌≤◌, length, take, ◌<◌, false, MatchOption};
ghost use Rattle.std.specs.List.{list_all, position_or_len};
ghost use Rattle.tinystr.specs.Classes.{is_alphabetic};
ghost use Rattle.subtags.specs.Grammar.{is_separator, IsLangId};
ghost use Rattle.subtags.specs.Private.{classes_of, one_more, tail_example};

use crate::language::is_language_length;
use std::marker::Model;
use tinystr::ShortInput;

/// An input of at most 17 bytes, and which of them are letters, digits and separators.
#[derive(Drop)]
pub(crate) struct Classes<'a> {
    input: ShortInput<'a>,
    letters: u64,
    digits: u64,
    separators: u64,
}

impl<'a> Model for Classes<'a> {
    ghost use Rattle.std.specs.Prelude.{List, ℕ};
    ghost use Rattle.subtags.specs.Private.{AreClassesOf};

    ghost Value = { List ℕ };

    ghost view = { λ s. s.input };

    ghost invariant = { λ s. AreClassesOf s.letters s.digits s.separators s.input };
}

impl<'a> Classes<'a> {
    /// Classifies the bytes.
    #[inline(always)]
    pub(crate) fn of(input: ShortInput<'a>) -> Self
        ensures { result ≡ input.entry }
    {
        let letters = input.alphabetic_bits();
        let digits = input.numeric_bits();
        let separators = input.bits_of_either(b'-', b'_');
        Classes {
            input,
            letters,
            digits,
            separators,
        }
    }

    /// The input.
    #[inline(always)]
    pub(crate) fn input(&self) -> &ShortInput<'a>
        ensures { result.now ≡ self.now }
    {
        &self.input
    }

    /// The number of bytes, at most 17.
    #[inline(always)]
    pub(crate) fn len(&self) -> usize
        ensures len { result ≡ length self.now }
        ensures fits { length self.now ≤ 17 }
    {
        self.input.len()
    }

    /// Whether the first `count` bytes are letters.
    #[tactic(auto, using(crate::proofs::MaskLemmas::class_bits))]
    #[inline(always)]
    pub(crate) fn are_letters(&self, count: usize) -> bool
        requires { count ≤ length self.now }
        ensures { result ≡ list_all is_alphabetic (take count self.now) }
    {
        self.letters % (1 << count) + 1 == 1 << count
    }

    /// Where the first separator is, or the number of bytes.
    #[tactic(auto, using(crate::proofs::MaskLemmas::class_bits, crate::proofs::TailLemmas::parts_of_id))]
    #[inline(always)]
    pub(crate) fn first_end(&self) -> usize
        ensures end { result ≡ position_or_len is_separator self.now }
        ensures fits { result ≤ 17 }
    {
        (self.separators + (1 << self.input.len())).trailing_zeros() as usize
    }

    /// All in one number: twenty bits for letters, then twenty for digits, and then separators.
    #[tactic(auto, using(crate::proofs::MaskLemmas::class_bits))]
    #[inline(always)]
    pub(crate) fn packed(&self) -> u64
        ensures { result ≡ classes_of self.now }
    {
        self.letters + (self.digits << 20) + (self.separators << 40)
    }

    /// The number of letters of the language, if the bytes, which aren't all letters, are an identifier: a language, and then
    /// like the example of their length. In the number of the classes the letters of a language are the lowest bits, all ones,
    /// so one more than it is one more than the example's, shifted.
    #[tactic(auto, using(crate::proofs::MaskLemmas::class_bits, crate::proofs::TailLemmas::parts_of_id))]
    #[inline(always)]
    pub(crate) fn language_len(&self) -> Option<usize>
        requires { list_all is_alphabetic self.now ≡ false }
        ensures { MatchOption result (¬ IsLangId self.now)
            (λ len. IsLangId self.now × (len ≡ position_or_len is_separator self.now)) }
    {
        let len = self.len();
        let end = self.first_end();
        if is_language_length(end) && self.packed() + 1 == one_more(len - end) << end {
            Some(end)
        } else {
            None
        }
    }
}

/// Whether all bytes are letters.
#[tactic(auto, using(crate::proofs::MaskLemmas::class_bits))]
#[inline(always)]
pub(crate) fn is_alphabetic(input: &ShortInput<'_>) -> bool
    ensures { result ≡ list_all is_alphabetic input.now }
{
    let len = input.len();
    input.alphabetic_bits() + 1 == 1 << len
}

// One more than the classes in one number of `-AA`, `-000`, `-Aaaa`, `-Aaaa-AA` and `-Aaaa-000`, by their length, and 0 for
// every other.
static EXAMPLES: [u64; 18] = [
    0, 0, 0, AA, DDD, AAAA, 0, 0, AAAA_AA, AAAA_DDD, 0, 0, 0, 0, 0, 0, 0, 0,
];

const AA: u64 = 0x00001_00000_00007;

const DDD: u64 = 0x00001_0000e_00001;

const AAAA: u64 = 0x00001_00000_0001f;

const AAAA_AA: u64 = 0x00021_00000_000df;

const AAAA_DDD: u64 = 0x00021_001c0_0001f;

#[inline(always)]
fn one_more(len: usize) -> u64
    requires { len < 18 }
    ensures { result ≡ one_more (tail_example len) }
{
    EXAMPLES[len]
}
