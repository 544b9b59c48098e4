//! The subtags of an identifier: languages, scripts and regions, which differ by their kind.

ghost use Rattle.std.specs.Prelude.{◌≡◌, ℕ, Bool, List, IsTrue, Some, SomeIff, IfSome, Ok, Err, if◌then◌else◌};
ghost use Rattle.std.specs.Fmt.{debug_str, styled_text};
ghost use Rattle.subtags.specs.declared.error.LangIdError.{LangIdError};
ghost use Rattle.subtags.specs.Subtags.{IsCanonicalSubtag};

use crate::error::LangIdError;
use std::convert::{AsSlice, AsStr};
use std::fmt;
use std::marker::{Model, PhantomData};
use std::str::FromStr;
use tinystr::TinyAsciiStr;

/// A kind of subtag: which texts are well-formed, the case that they are kept in, and the error for any other text.
///
/// ```rust
/// assert!(rt; RegionKind::read(b"419").is_some());
/// assert!(rt; ScriptKind::read(b"419").is_none());
/// ```
pub trait SubtagKind<const N: usize> {
    ghost is_well_formed: { List ℕ → Bool };

    ghost in_case: { List ℕ → List ℕ };

    ghost refusal: { LangIdError };

    /// The text in the case of the kind, or `None` if it isn't well-formed.
    fn read(code_units: &[u8]) -> Option<TinyAsciiStr<N>>
        ensures text { SomeIff result (IsTrue (is_well_formed code_units.now)) (in_case code_units.now) }
        ensures canonical { IfSome result (λ text. IsCanonicalSubtag is_well_formed in_case text) };

    /// The error for a text that isn't well-formed.
    fn refusal() -> LangIdError
        ensures { result ≡ refusal };
}

/// A subtag of an identifier: a `Language`, a `Script` or a `Region`, by its kind.
///
/// ```rust
/// let region: Region = "gb".parse()?;
/// assert_eq!(rt; region.as_str(), "GB");
/// assert!(rt; Script::try_from_utf8(b"Latin").is_none());
/// ```
#[derive_where(Clone, Copy, PartialEq, Eq, PartialOrd, Ord, Hash)]
pub struct Subtag<K: SubtagKind<N>, const N: usize> {
    text: TinyAsciiStr<N>,
    kind: PhantomData<K>,
}

impl<K: SubtagKind<N>, const N: usize> Model for Subtag<K, N> {
    ghost use Rattle.std.specs.Prelude.{List, ℕ};
    ghost use Rattle.subtags.specs.Subtags.{IsCanonicalSubtag};

    ghost Value = { List ℕ };

    ghost view = { λ subtag. subtag.text };

    ghost invariant = { λ subtag. IsCanonicalSubtag K.is_well_formed K.in_case subtag.text };

    ghost inverse = { λ t. record { text = t; kind = record {} } };
}

impl<K: SubtagKind<N>, const N: usize> Subtag<K, N> {
    /// Reads a language of 2, 3 or 5 to 8 letters in any case, a script of 4 letters in any case, or a region of 2
    /// letters in any case or of 3 digits, without space around it. Anything else gives `None`.
    #[inline]
    pub fn try_from_utf8(code_units: &[u8]) -> Option<Self>
        ensures { SomeIff result (IsTrue (K.is_well_formed code_units.now)) (K.in_case code_units.now) }
    {
        let text = K::read(code_units)?;
        Some(Subtag {
            text,
            kind: PhantomData,
        })
    }

    /// The subtag of a text, which must be canonical. Nothing is tested when it runs.
    #[inline]
    pub(crate) fn from_canonical(text: TinyAsciiStr<N>) -> Self
        requires { IsCanonicalSubtag K.is_well_formed K.in_case text }
        ensures { result ≡ text.entry }
    {
        Subtag {
            text,
            kind: PhantomData,
        }
    }

    /// The text: of a language in lowercase, of a script in titlecase, of a region in uppercase.
    #[inline]
    pub fn as_str(&self) -> &str
        ensures text { result.now ≡ self.now }
        ensures canonical { IsCanonicalSubtag K.is_well_formed K.in_case self.now }
    {
        self.text.as_str()
    }

    /// The text as a value.
    #[inline]
    pub fn to_text(&self) -> TinyAsciiStr<N>
        ensures text { result ≡ self.now }
        ensures canonical { IsCanonicalSubtag K.is_well_formed K.in_case self.now }
    {
        self.text
    }
}

impl<K: SubtagKind<N>, const N: usize> FromStr for Subtag<K, N> {
    type Err = LangIdError;

    ghost from_str_gives = { λ s r. r ≡ (if K.is_well_formed s then Ok (K.in_case s) else Err K.refusal) };

    #[inline]
    fn from_str(s: &str) -> Result<Self, LangIdError> {
        Self::try_from_utf8(s.as_bytes()).ok_or(K::refusal())
    }
}

impl<'a, K: SubtagKind<N>, const N: usize> TryFrom<&'a str> for Subtag<K, N> {
    type Error = LangIdError;

    ghost try_from_gives = { λ s r. r ≡ (if K.is_well_formed s.now then Ok (K.in_case s.now) else Err K.refusal) };

    #[inline]
    fn try_from(s: &'a str) -> Result<Self, LangIdError> {
        Self::from_str(s)
    }
}

impl<K: SubtagKind<N>, const N: usize> AsStr for Subtag<K, N> {
    ghost text = { λ t. t };

    #[inline]
    fn as_str(&self) -> &str {
        Subtag::as_str(self)
    }
}

impl<K: SubtagKind<N>, const N: usize> AsSlice<u8> for Subtag<K, N> {
    ghost items = { λ t. t };

    #[inline]
    fn as_slice(&self) -> &[u8] {
        self.text.as_utf8()
    }
}

impl<K: SubtagKind<N>, const N: usize> fmt::Display for Subtag<K, N> {
    ghost output = { λ subtag. Some subtag };

    ghost styled_output = { λ subtag s. Some (styled_text s subtag) };

    fn fmt<W: fmt::Write>(&self, f: &mut fmt::Formatter<W>) -> fmt::Result {
        fmt::Display::fmt(&self.text, f)
    }
}

impl<K: SubtagKind<N>, const N: usize> fmt::Debug for Subtag<K, N> {
    ghost debug_output = { debug_str };

    fn fmt<W: fmt::Write>(&self, f: &mut fmt::Formatter<W>) -> fmt::Result {
        fmt::Debug::fmt(&self.text, f)
    }
}
