//! Laws of the type, each a function whose contract is the law.

ghost use Rattle.std.specs.Prelude.{◌≡◌, ◌<◌, ◌+◌, ◌*◌, ◌^◌, ◌==◌, ◌++◌, ◌↔◌, ℕ, Bool, List, Ok, Err, IsTrue, length};
ghost use Rattle.std.specs.List.{list_all};
ghost use Rattle.std.specs.declared.cmp.Ordering.TheVariants.{Less, Equal};
ghost use Rattle.tinystr_words.specs.Order.{IsBefore};
ghost use Rattle.tinystr_words.specs.Reading.{Fault};
ghost use Rattle.tinystr_words.specs.Text.{IsStrictText};
ghost use Rattle.tinystr.specs.Error.{fault_of, parse_error_of};
ghost use Rattle.tinystr.specs.ShortInput.{bits_of};

use crate::ascii::TinyAsciiStr;
use crate::error::ParseError;
use std::cmp::Ordering;

/// Each `ParseError` names one fault, and each fault is named by one `ParseError`.
#[tactic(auto, using(crate::proofs::ForCallers::error_back))]
pub fn error_back()
    ensures error { (e : ParseError) → parse_error_of (fault_of e) ≡ e }
    ensures fault { (f : Fault) → fault_of (parse_error_of f) ≡ f }
{}

/// The text of a value has at most `N` bytes, each from 1 to 127.
#[inline]
pub fn fits<const N: usize>(text: &TinyAsciiStr<N>)
    ensures { IsStrictText text.now N }
{
    let _ = text.as_utf8();
}

/// `==` is true exactly of equal texts, and `cmp` is `Less` exactly if the first text comes before the second.
pub fn text_order<const N: usize>(
    text: &TinyAsciiStr<N>,
    other: &TinyAsciiStr<N>,
) -> (bool, Ordering)
    ensures equal { IsTrue result.0 ↔ (text.now ≡ other.now) }
    ensures less { (result.1 ≡ Less) ↔ IsBefore text.now other.now }
    ensures tie { (result.1 ≡ Equal) ↔ (text.now ≡ other.now) }
{
    tinystr_words::laws::order_compared();
    (text == other, text.cmp(other))
}

/// A bit for each byte of a class: all are set exactly if all bytes are of the class, none is set past the last byte, and the
/// bits of joined lists follow each other.
#[tactic(auto, using(crate::proofs::ForCallers::bits_of_class))]
pub fn bits_of_class()
    ensures all { (class : ℕ → Bool) (u : List ℕ) → (bits_of class u + 1 == 2 ^ length u) ≡ list_all class u }
    ensures fits { (class : ℕ → Bool) (u : List ℕ) → bits_of class u < 2 ^ length u }
    ensures joined { (class : ℕ → Bool) (u v : List ℕ) →
        bits_of class (u ++ v) ≡ bits_of class v * 2 ^ length u + bits_of class u }
{}

/// A text that is made unvalidated bytes and tested again comes back.
pub fn unvalidated_back<const N: usize>(
    text: TinyAsciiStr<N>,
) -> Result<TinyAsciiStr<N>, ParseError>
    ensures { result ≡ Ok text.entry }
{
    text.to_unvalidated().try_into_tinystr()
}

/// `niche_bit_pattern`, which no text has, is rejected as `NonAscii`. `N` must be above 0.
pub fn niche_refused<const N: usize>() -> Result<TinyAsciiStr<N>, ParseError>
    requires { 0 < N }
    ensures { result ≡ Err ParseError.NonAscii }
{
    tinystr_words::laws::niche_fault();
    TinyAsciiStr::try_from_raw(TinyAsciiStr::<N>::niche_bit_pattern())
}
