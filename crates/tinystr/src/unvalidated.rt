//! The type of bytes that may not be a text.

ghost use Rattle.std.specs.Prelude.{◌≡◌, ◌≤◌, ◌↔◌, length, replicate, IsOk, IfOk, IfErr};
ghost use Rattle.tinystr_words.specs.Text.{pad, text_of, IsPaddedText};
ghost use Rattle.tinystr_words.specs.Reading.{fault_in};
ghost use Rattle.tinystr.specs.Error.{fault_of};
ghost use Rattle.tinystr.specs.Reading.{read_raw_of};
ghost use Rattle.tinystr.specs.Forms.{debug_bytes};

use crate::ascii::TinyAsciiStr;
use crate::error::ParseError;
use std::cmp::Ordering;
use std::fmt;
use std::marker::Model;

/// Any `N` bytes, which may or may not be a text and then NULs. Values are compared byte by byte.
///
/// ```rust
/// let bytes = UnvalidatedTinyAsciiStr::try_from_utf8(b"GB\0")?;
/// assert_eq!(rt; bytes.try_into_tinystr(), Ok(tinystr!(3, "GB")?));
/// let bytes = UnvalidatedTinyAsciiStr::<3>::try_from_utf8(b"\0GB")?;
/// assert_eq!(rt; bytes.try_into_tinystr(), Err(ParseError::ContainsNull));
/// ```
#[derive(Clone, Copy, PartialEq, Eq)]
pub struct UnvalidatedTinyAsciiStr<const N: usize> {
    bytes: [u8; N],
}

impl<const N: usize> Model for UnvalidatedTinyAsciiStr<N> {
    ghost use Rattle.std.specs.Prelude.{◌≡◌, List, ℕ, length};

    ghost Value = { List ℕ };

    ghost view = { λ s. s.bytes };

    ghost invariant = { λ s. length s.bytes ≡ N };

    ghost inverse = { λ bytes. record { bytes = bytes } };
}

impl<const N: usize> Ord for UnvalidatedTinyAsciiStr<N> {
    ghost use Rattle.std.proofs.Common.{rules};
    ghost use Rattle.std.specs.Cmp.Lexicographic.{slice_cmp};
    ghost use Rattle.std.specs.Ordering.{nat_cmp};
    ghost use Rattle.std.specs.Cmp.Rules.{comparing};

    ghost cmp = { slice_cmp nat_cmp };

    ghost total = { Prim.search (comparing, rules) };

    ghost matches_partial_cmp = { Prim.search (comparing, rules) };

    ghost matches_eq = { Prim.search (comparing, rules) };

    #[inline]
    fn cmp(&self, other: &Self) -> Ordering {
        self.bytes.cmp(&other.bytes)
    }
}

impl<const N: usize> PartialOrd for UnvalidatedTinyAsciiStr<N> {
    ghost use Rattle.std.proofs.Common.{rules};
    ghost use Rattle.std.specs.Cmp.{partial_order_from_own_ties};
    ghost use Rattle.std.specs.Cmp.Lexicographic.{slice_cmp};
    ghost use Rattle.std.specs.Ordering.{nat_cmp, as_partial_cmp};
    ghost use Rattle.std.specs.Cmp.Rules.{comparing};

    ghost partial_cmp = { as_partial_cmp (slice_cmp nat_cmp) };

    ghost laws = { partial_order_from_own_ties (Prim.search (comparing, rules)) (Prim.search (comparing, rules)) };

    #[inline]
    fn partial_cmp(&self, other: &Self) -> Option<Ordering> {
        Some(self.cmp(other))
    }
}

impl<const N: usize> UnvalidatedTinyAsciiStr<N> {
    /// `N` NULs.
    #[inline]
    pub fn default() -> Self
        ensures { result ≡ replicate N 0 }
    {
        UnvalidatedTinyAsciiStr { bytes: [0; N] }
    }

    /// Takes at most `N` bytes, whatever they are, and pads them with NULs. The error is `TooLong` if there are more.
    ///
    /// ```rust
    /// let bytes = UnvalidatedTinyAsciiStr::<3>::try_from_utf8(b"\xff")?;
    /// assert!(rt; bytes == UnvalidatedTinyAsciiStr::from_utf8_unchecked(*b"\xff\0\0"));
    /// ```
    pub fn try_from_utf8(bytes: &[u8]) -> Result<Self, ParseError>
        ensures accepted { IsOk result ↔ (length bytes.now ≤ N) }
        ensures padded { IfOk result (λ made. made ≡ pad bytes.now N) }
        ensures fault { IfErr result (λ e. e ≡ ParseError.TooLong N (length bytes.now)) }
    {
        let len = bytes.len();
        if len <= N {
            let mut padded = [0; N];
            padded[..len].copy_from_slice(bytes);
            Ok(UnvalidatedTinyAsciiStr { bytes: padded })
        } else {
            Err(ParseError::TooLong { len, max: N })
        }
    }

    /// Takes `N` bytes, whatever they are.
    #[inline]
    pub fn from_utf8_unchecked(bytes: [u8; N]) -> Self
        ensures { result ≡ bytes.entry }
    {
        UnvalidatedTinyAsciiStr { bytes }
    }

    /// The text, if the bytes are a text and then NULs. The errors are those of `TinyAsciiStr::try_from_raw`.
    #[inline]
    pub fn try_into_tinystr(self) -> Result<TinyAsciiStr<N>, ParseError>
        ensures accepted { IsOk result ↔ IsPaddedText self.entry N }
        ensures text { IfOk result (λ t. t ≡ text_of self.entry) }
        ensures fault { IfErr result (λ e. fault_of e ≡ fault_in N self.entry) }
        ensures read { result ≡ read_raw_of N self.entry }
    {
        TinyAsciiStr::try_from_raw(self.bytes)
    }
}

impl<const N: usize> TinyAsciiStr<N> {
    /// All `N` bytes: the text and then NULs.
    ///
    /// ```rust
    /// let bytes = tinystr!(3, "GB")?.to_unvalidated();
    /// assert!(rt; bytes == UnvalidatedTinyAsciiStr::from_utf8_unchecked(*b"GB\0"));
    /// ```
    #[inline]
    pub fn to_unvalidated(self) -> UnvalidatedTinyAsciiStr<N>
        ensures bytes { result ≡ pad self.entry N }
        ensures padded { IsPaddedText result N }
        ensures text { text_of result ≡ self.entry }
    {
        UnvalidatedTinyAsciiStr::from_utf8_unchecked(*self.all_bytes())
    }
}

impl<const N: usize> From<TinyAsciiStr<N>> for UnvalidatedTinyAsciiStr<N> {
    ghost from_gives = { λ text made. (made ≡ pad text N) × IsPaddedText made N };

    #[inline]
    fn from(text: TinyAsciiStr<N>) -> Self {
        text.to_unvalidated()
    }
}

impl<const N: usize> Default for UnvalidatedTinyAsciiStr<N> {
    ghost is_default = { λ made. made ≡ replicate N 0 };

    #[inline]
    fn default() -> Self
        ensures { result ≡ replicate N 0 }
    {
        UnvalidatedTinyAsciiStr::<N>::default()
    }
}

impl<const N: usize> fmt::Debug for UnvalidatedTinyAsciiStr<N> {
    ghost debug_output = { λ bytes. debug_bytes bytes N };

    #[tactic(auto, using(crate::proofs::Errors::padded_read))]
    fn fmt<W: fmt::Write>(&self, f: &mut fmt::Formatter<W>) -> fmt::Result {
        match self.try_into_tinystr() {
            Ok(text) => fmt::Debug::fmt(&text, f),
            Err(_) => fmt::Debug::fmt(&self.bytes, f),
        }
    }
}
