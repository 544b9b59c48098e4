//! Views of a text: its length, its bytes, its string, and what it prints.

ghost use Rattle.std.specs.Prelude.{◌≡◌, ◌≤◌, [], length, ◌↔◌, IsTrue, slice_get, Some};
ghost use Rattle.std.specs.Fmt.{debug_str, styled_text};
ghost use Rattle.tinystr_words.specs.Text.{pad, text_of, IsText, IsStrictText, IsPaddedText};

use crate::ascii::TinyAsciiStr;
use std::convert::{AsSlice, AsStr};
use std::fmt::{Debug, Display, Formatter, Result, Write};
use tinystr_words::padded;

impl<const N: usize> TinyAsciiStr<N> {
    /// The length of the text in bytes.
    ///
    /// ```rust
    /// assert_eq!(rt; tinystr!(8, "en-US")?.len(), 5);
    /// ```
    #[inline]
    pub fn len(&self) -> usize
        ensures len { result ≡ length self.now }
        ensures fits { result ≤ N }
    {
        padded::len(&self.bytes)
    }

    /// Whether the text is empty. At capacity 0 it always is.
    #[inline]
    pub fn is_empty(&self) -> bool
        ensures { IsTrue result ↔ (self.now ≡ []) }
    {
        N == 0 || self.bytes[0] == 0
    }

    /// The byte of the text at an index, counted from 0, or `None` past its end.
    ///
    /// ```rust
    /// assert_eq!(rt; tinystr!(8, "en-US")?.get(2), Some(b'-'));
    /// assert_eq!(rt; tinystr!(8, "en-US")?.get(5), None);
    /// ```
    #[inline]
    pub fn get(&self, index: usize) -> Option<u8>
        ensures { result ≡ slice_get self.now index }
    {
        if index >= N || self.bytes[index] == 0 {
            return None;
        }
        Some(self.bytes[index])
    }

    /// Borrows the bytes of the text, without the NULs after it.
    ///
    /// ```rust
    /// assert_eq!(rt; tinystr!(8, "en-US")?.as_utf8(), b"en-US".as_slice());
    /// ```
    #[inline]
    #[tactic(auto, using(tinystr_words::proofs::Texts::padded_texts))]
    pub fn as_utf8(&self) -> &[u8]
        ensures text { result.now ≡ self.now }
        ensures ascii { IsText result.now }
        ensures fits { length result.now ≤ N }
        ensures strict { IsStrictText self.now N }
    {
        let bytes = self.bytes.as_slice();
        &bytes[..self.len()]
    }

    /// Borrows the text as a string.
    ///
    /// ```rust
    /// assert_eq!(rt; tinystr!(8, "en-US")?.as_str(), "en-US");
    /// ```
    #[inline]
    #[tactic(auto, using(tinystr_words::proofs::Texts::utf8_texts))]
    pub fn as_str(&self) -> &str
        ensures text { result.now ≡ self.now }
        ensures ascii { IsText result.now }
        ensures fits { length result.now ≤ N }
        ensures strict { IsStrictText self.now N }
    {
        let text = self.as_utf8();
        // proved: these bytes are ASCII, so they are UTF-8
        unsafe { std::str::from_utf8_unchecked(text) }
    }

    /// Borrows all `N` bytes: the text and then NULs.
    ///
    /// ```rust
    /// assert_eq!(rt; tinystr!(4, "GB")?.all_bytes(), b"GB\0\0");
    /// ```
    #[inline]
    pub fn all_bytes(&self) -> &[u8; N]
        ensures bytes { result.now ≡ pad self.now N }
        ensures padded { IsPaddedText result.now N }
        ensures text { text_of result.now ≡ self.now }
    {
        &self.bytes
    }
}

impl<const N: usize> AsStr for TinyAsciiStr<N> {
    ghost text = { λ t. t };

    #[inline]
    fn as_str(&self) -> &str {
        TinyAsciiStr::as_str(self)
    }
}

impl<const N: usize> AsSlice<u8> for TinyAsciiStr<N> {
    ghost items = { λ t. t };

    #[inline]
    fn as_slice(&self) -> &[u8] {
        self.as_utf8()
    }
}

/// Prints the text, with the width, the fill, the alignment and the precision that std gives a string.
///
/// ```rust
/// let code = tinystr!(3, "GB")?;
/// let printed = format!(in rt.alloc(); "{code:>4}|{code:?}")?;
/// assert_eq!(rt; printed.as_str(), r#"  GB|"GB""#);
/// ```
impl<const N: usize> Display for TinyAsciiStr<N> {
    ghost output = { λ t. Some t };

    ghost styled_output = { λ t s. Some (styled_text s t) };

    fn fmt<W: Write>(&self, f: &mut Formatter<W>) -> Result {
        Display::fmt(self.as_str(), f)
    }
}

impl<const N: usize> Debug for TinyAsciiStr<N> {
    ghost debug_output = { debug_str };

    fn fmt<W: Write>(&self, f: &mut Formatter<W>) -> Result {
        Debug::fmt(self.as_str(), f)
    }
}
