//! Parts of a text, by index, and texts at other capacities.

ghost use Rattle.std.specs.Prelude.{◌≡◌, ◌≤◌, ◌-◌, take, drop, SomeIff, length};

use crate::ascii::TinyAsciiStr;
use crate::ascii::lanes::{
    first_sixteen, front_of, rest_of, text_of_bytes, text_of_first_lanes, text_of_lanes,
};
use std::ops::Range;
use std::simd::prelude::*;
use tinystr_words::padded::{self, first_lanes_of_eight, resize};

impl<const N: usize> TinyAsciiStr<N> {
    /// The bytes of the text at a range of indices, as a text of capacity `M`: those that exist, and at most the first
    /// `M`. The range may end, or begin, past the text. Its start must not be above its end.
    ///
    /// ```rust
    /// let tag = tinystr!(16, "zh-Hant-TW")?;
    /// assert_eq!(rt; tag.slice::<4>(3..7).as_str(), "Hant");
    /// assert_eq!(rt; tag.slice::<8>(8..16).as_str(), "TW");
    /// assert_eq!(rt; tag.slice::<2>(3..7).as_str(), "Ha");
    /// ```
    #[inline]
    pub fn slice<const M: usize>(&self, range: Range<usize>) -> TinyAsciiStr<M>
        requires { range.start ≤ range.end }
        ensures { result ≡ take M (take (range.end - range.start) (drop range.start self.now)) }
    {
        self.suffix::<M>(range.start)
            .prefix(range.end - range.start)
    }

    /// The first `len` bytes of the text, or all of it if it has no more.
    ///
    /// ```rust
    /// let tag = tinystr!(16, "zh-Hant-TW")?;
    /// assert_eq!(rt; tag.take(2).as_str(), "zh");
    /// assert_eq!(rt; tag.take(99).as_str(), "zh-Hant-TW");
    /// ```
    #[inline]
    pub fn take(&self, len: usize) -> Self
        ensures { result ≡ take len self.now }
    {
        self.prefix(len)
    }

    // The text from `start` on, truncated to `M` bytes. Where the array has `M` bytes from there on, one copy takes them.
    // Otherwise up to sixteen bytes stay in a vector.
    #[inline(always)]
    pub(crate) fn suffix<const M: usize>(&self, start: usize) -> TinyAsciiStr<M>
        ensures { result ≡ take M (drop start self.now) }
    {
        let bytes = self.padded_bytes();
        if M <= N && start <= N - M {
            return text_of_bytes(front_of(rest_of(bytes, start), M));
        }
        let rest = rest_of(bytes, start.min(N));
        if rest.len() <= 16 || rest[16] == 0 {
            return text_of_lanes(first_sixteen(rest));
        }
        text_of_bytes(rest)
    }

    // The first bytes. Up to sixteen stay in a vector.
    #[inline(always)]
    fn prefix(self, len: usize) -> Self
        ensures { result ≡ take len self.entry }
    {
        if len >= N {
            return self;
        }
        let bytes = self.padded_bytes();
        if N <= 8 {
            let lanes = first_lanes_of_eight(u8x8::from_array(resize(bytes)), len);
            return TinyAsciiStr::from_padded(resize(&lanes.to_array()[..]));
        }
        if len <= 16 {
            return text_of_first_lanes(first_sixteen(bytes), len);
        }
        text_of_bytes(front_of(bytes, len))
    }
}

impl<const N: usize> TinyAsciiStr<N> {
    /// The text at capacity `M`, truncated to its first `M` bytes. If `M` is at least `N`, nothing is truncated.
    ///
    /// ```rust
    /// assert_eq!(rt; tinystr!(8, "en-US")?.resize::<16>().as_str(), "en-US");
    /// assert_eq!(rt; tinystr!(8, "en-US")?.resize::<2>().as_str(), "en");
    /// ```
    #[inline]
    pub fn resize<const M: usize>(self) -> TinyAsciiStr<M>
        ensures text { result ≡ take M self.entry }
        ensures whole { N ≤ M → result ≡ self.entry }
    {
        TinyAsciiStr {
            bytes: padded::resize(&self.bytes),
        }
    }

    /// The text at capacity `M`, or `None` if it has more than `M` bytes.
    ///
    /// ```rust
    /// let language = tinystr!(8, "en")?;
    /// assert!(rt; language.try_resize() == Some(tinystr!(2, "en")?));
    /// assert!(rt; language.try_resize::<1>().is_none());
    /// ```
    #[inline]
    pub fn try_resize<const M: usize>(self) -> Option<TinyAsciiStr<M>>
        ensures { SomeIff result (length self.entry ≤ M) self.entry }
    {
        if self.len() > M {
            return None;
        }
        Some(self.resize())
    }
}
