//! The type of a text of bounded length.

ghost use Rattle.std.specs.Prelude.{◌≡◌, [], length};
ghost use Rattle.tinystr_words.specs.Text.{IsPadded, IsPaddedText, text_of};
ghost use Rattle.tinystr.specs.Reading.{IsStrictRead};
ghost use Rattle.tinystr.specs.Error.{fault_of};

mod concat;
mod decimals;
pub(crate) mod lanes;
mod letters;
mod order;
mod questions;
mod readers;
mod slicing;
pub mod splitting;
mod views;

use crate::error::ParseError;
pub(crate) use readers::are_padded;
pub use splitting::Parts;
use std::hash::{Hash, Hasher};
use std::marker::Model;
use std::str::FromStr;

/// A text of at most `N` bytes, each from 1 to 127, in `N` bytes: the text and then NULs, stored inline.
///
/// ```rust
/// let city = TinyAsciiStr::<8>::try_from_str("New York")?;
/// assert_eq!(rt; city.len(), 8);
/// assert_eq!(rt; city.to_ascii_uppercase().as_str(), "NEW YORK");
/// assert!(rt; city < tinystr!(8, "Paris")?);
/// ```
#[derive(Clone, Copy)]
pub struct TinyAsciiStr<const N: usize> {
    bytes: [u8; N],
}

/// A text of at most 4 bytes.
///
/// ```rust
/// assert_eq!(rt; TinyStr4::try_from_str("Latn")?.as_str(), "Latn");
/// ```
pub type TinyStr4 = TinyAsciiStr<4>;
/// A text of at most 8 bytes.
///
/// ```rust
/// assert_eq!(rt; TinyStr8::try_from_str("en-US")?.as_str(), "en-US");
/// ```
pub type TinyStr8 = TinyAsciiStr<8>;
/// A text of at most 16 bytes.
///
/// ```rust
/// assert_eq!(rt; TinyStr16::try_from_str("America/Guyana")?.as_str(), "America/Guyana");
/// ```
pub type TinyStr16 = TinyAsciiStr<16>;

impl<const N: usize> Model for TinyAsciiStr<N> {
    ghost use Rattle.std.specs.Prelude.{List, ℕ};
    ghost use Rattle.std.proofs.Common.{ap, sym};
    ghost use Rattle.tinystr_words.specs.Text.{IsPaddedText, pad, text_of};

    ghost Value = { List ℕ };

    ghost view = { λ s. text_of s.bytes };

    ghost invariant = { λ s. IsPaddedText s.bytes N };

    ghost inverse = { λ t. record { bytes = pad t N } };

    ghost inverse_ok = { λ a h. ap (λ (b : List ℕ). record { bytes = b }) (sym h.padded) };
}

// All bytes in one write: the derive feeds each by itself, and maps then take twice as long.
impl<const N: usize> Hash for TinyAsciiStr<N> {
    ghost use Rattle.std.specs.Prelude.{[], ◌∷◌};
    ghost use Rattle.std.proofs.Common.{rules};
    ghost use Rattle.std.specs.Cmp.Rules.{hashing};
    ghost use Rattle.tinystr_words.specs.Text.{pad};

    ghost hash_input = { λ t. pad t N ∷ [] };

    ghost respects_eq = { Prim.search (hashing, rules) };

    #[inline]
    fn hash<H: Hasher>(&self, state: &mut H) {
        state.write(&self.bytes[..]);
    }
}

impl<const N: usize> TinyAsciiStr<N> {
    /// The empty text, which every capacity has.
    ///
    /// ```rust
    /// assert_eq!(rt; TinyAsciiStr::<8>::default().as_str(), "");
    /// ```
    #[inline]
    pub fn default() -> Self
        ensures { result ≡ [] }
    {
        TinyAsciiStr { bytes: [0; N] }
    }

    // `from_utf8_unchecked` for this crate alone. The crate for Cargo makes only that one an `unsafe fn`: the conditions of
    // this one are proved at its calls.
    #[inline]
    pub(crate) fn from_padded(bytes: [u8; N]) -> Self
        requires { IsPaddedText bytes N }
        ensures { result ≡ text_of bytes.entry }
    {
        TinyAsciiStr { bytes }
    }

    // The text and then NULs.
    #[tactic(auto, using(crate::proofs::Splits::parts_of_padded))]
    #[inline(always)]
    pub(crate) fn padded_bytes(&self) -> &[u8]
        ensures len { length result.now ≡ N }
        ensures padded { IsPadded result.now }
        ensures text { text_of result.now ≡ self.now }
    {
        &self.bytes[..]
    }
}

impl<const N: usize> Default for TinyAsciiStr<N> {
    ghost is_default = { λ t. t ≡ [] };

    #[inline]
    fn default() -> Self
        ensures { result ≡ [] }
    {
        TinyAsciiStr::<N>::default()
    }
}

impl<const N: usize> FromStr for TinyAsciiStr<N> {
    type Err = ParseError;

    ghost from_str_gives = { λ s r. IsStrictRead fault_of s N r };

    #[inline]
    fn from_str(s: &str) -> Result<Self, ParseError> {
        Self::try_from_str(s)
    }
}

impl<'a, const N: usize> TryFrom<&'a str> for TinyAsciiStr<N> {
    type Error = ParseError;

    ghost try_from_gives = { λ s r. IsStrictRead fault_of s.now N r };

    #[inline]
    fn try_from(s: &'a str) -> Result<Self, ParseError> {
        Self::from_str(s)
    }
}

impl<'a, const N: usize> TryFrom<&'a [u8]> for TinyAsciiStr<N> {
    type Error = ParseError;

    ghost try_from_gives = { λ s r. IsStrictRead fault_of s.now N r };

    #[inline]
    fn try_from(code_units: &'a [u8]) -> Result<Self, ParseError> {
        Self::try_from_utf8(code_units)
    }
}
