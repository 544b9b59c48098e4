//! Texts joined.

ghost use Rattle.std.specs.Prelude.{◌≡◌, ◌∷◌, ◌++◌, ◌+◌, ◌≤◌, SomeIff, length, take};
ghost use Rattle.std.specs.List.{join_with_byte};
ghost use Rattle.tinystr_words.specs.Text.{IsPadded, IsTextByte, text_of};

use crate::ascii::TinyAsciiStr;
use tinystr_words::padded;

impl<const N: usize> TinyAsciiStr<N> {
    /// The two texts joined, truncated to `Q` bytes. If `Q` is at least `N + M`, nothing is truncated.
    ///
    /// ```rust
    /// let language = tinystr!(3, "en")?;
    /// let region = tinystr!(4, "-GB")?;
    /// assert_eq!(rt; language.concat::<4, 7>(region).as_str(), "en-GB");
    /// assert_eq!(rt; language.concat::<4, 4>(region).as_str(), "en-G");
    /// ```
    #[inline]
    pub fn concat<const M: usize, const Q: usize>(self, other: TinyAsciiStr<M>) -> TinyAsciiStr<Q>
        ensures text { result ≡ take Q (self.entry ++ other.entry) }
        ensures whole { N + M ≤ Q → result ≡ self.entry ++ other.entry }
    {
        TinyAsciiStr {
            bytes: padded::concat(&self.bytes, &other.bytes),
        }
    }

    /// The two texts joined, or `None` if they have more than `Q` bytes together.
    ///
    /// ```rust
    /// let language = tinystr!(3, "en")?;
    /// let region = tinystr!(4, "-GB")?;
    /// assert!(rt; language.try_concat(region) == Some(tinystr!(5, "en-GB")?));
    /// assert!(rt; language.try_concat::<4, 4>(region).is_none());
    /// ```
    #[inline]
    pub fn try_concat<const M: usize, const Q: usize>(
        self,
        other: TinyAsciiStr<M>,
    ) -> Option<TinyAsciiStr<Q>>
        ensures { SomeIff result (length self.entry + length other.entry ≤ Q) (self.entry ++ other.entry) }
    {
        if self.len() + other.len() > Q {
            return None;
        }
        Some(self.concat(other))
    }

    /// The texts joined, with the separator between each and the next, or `None` if that has more than `Q` bytes. The
    /// separator must be from 1 to 127.
    ///
    /// ```rust
    /// let parts = [tinystr!(4, "zh")?, tinystr!(4, "Hant")?, tinystr!(4, "TW")?];
    /// assert!(rt; TinyAsciiStr::join(&parts, b'-') == Some(tinystr!(10, "zh-Hant-TW")?));
    /// assert!(rt; TinyAsciiStr::join::<9>(&parts, b'-').is_none());
    /// ```
    #[tactic(auto, using(tinystr_words::proofs::Parts::Splits::joined_parts))]
    pub fn join<const Q: usize>(texts: &[Self], separator: u8) -> Option<TinyAsciiStr<Q>>
        requires { IsTextByte separator }
        ensures { SomeIff result (length (join_with_byte separator texts.now) ≤ Q) (join_with_byte separator texts.now) }
    {
        match texts.split_first() {
            Some((first, rest)) => Self::join_after(first.try_resize()?, rest, separator),
            None => Some(TinyAsciiStr::default()),
        }
    }

    // Appends each of the others to the first text, with the separator before it, in the bytes of the first.
    #[tactic(auto, using(crate::proofs::Splits::joined_bytes))]
    fn join_after<const Q: usize>(
        first: TinyAsciiStr<Q>,
        others: &[Self],
        separator: u8,
    ) -> Option<TinyAsciiStr<Q>>
        requires { IsTextByte separator }
        ensures { SomeIff result (length (join_with_byte separator (first.entry ∷ others.now)) ≤ Q) (join_with_byte separator (first.entry ∷ others.now)) }
    {
        let separator = TinyAsciiStr::<1>::from_padded([separator]);
        let mut len = first.len();
        let mut bytes = first.bytes;
        for text in others {
            len = separator.append_to(&mut bytes[..], len)?;
            len = text.append_to(&mut bytes[..], len)?;
        }
        Some(TinyAsciiStr::from_padded(bytes))
    }

    // Appends the text to another of `len` bytes, and returns the length of both, or `None` if they don't fit. A short array
    // is copied whole where it fits, with the NULs after its text: a copy of a known length takes one or two moves.
    #[inline(always)]
    fn append_to(&self, bytes: &mut [u8], len: usize) -> Option<usize>
        requires padded { IsPadded bytes.old }
        requires at_end { len ≡ length (text_of bytes.old) }
        ensures len { length bytes.new ≡ length bytes.old }
        ensures fits { SomeIff result (len + length self.now ≤ length bytes.old) (len + length self.now) }
        ensures padded { IsPadded bytes.new }
        ensures text { len + length self.now ≤ length bytes.old → text_of bytes.new ≡ text_of bytes.old ++ self.now }
    {
        let free = bytes.len() - len;
        let text_len = self.len();
        if text_len > free {
            return None;
        }
        if N <= 16 && N <= free {
            bytes[len..len + N].copy_from_slice(&self.bytes);
        } else {
            bytes[len..len + text_len].copy_from_slice(self.as_utf8());
        }
        Some(len + text_len)
    }
}
