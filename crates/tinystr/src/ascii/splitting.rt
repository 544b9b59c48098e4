//! A byte found in a text, and texts split at it.

ghost use Rattle.std.specs.Prelude.{◌≡◌, ◌==◌, ◌∷◌, ◌<◌, ◌≤◌, ◌+◌, Contains, IfSome, None, SomeIff, length, position, take, drop, option_map};
ghost use Rattle.std.specs.Iterator.{YieldsFirst, item_count};
ghost use Rattle.std.specs.List.{after_first, before_first, slice_split};
ghost use Rattle.std.specs.Option.{option_copied};
ghost use Rattle.tinystr_words.specs.Text.{IsPadded, text_of};
ghost use Rattle.tinystr.specs.Private.{parts_left};

use crate::ascii::TinyAsciiStr;
use crate::ascii::lanes::{
    first_sixteen, front_of, rest_of, text_of_bytes, text_of_first_lanes, text_of_lanes,
};
use crate::laws;
use std::marker::Model;
use std::simd::prelude::*;
use tinystr_words::int_ops::Aligned8;
use tinystr_words::word::Word;

/// An iterator over the parts of a text, in order. A contract sees it as the list of those that are left.
///
/// ```rust
/// let tag = tinystr!(8, "en-US")?;
/// assert_eq!(rt; tag.split(b'-').last(), Some(tinystr!(8, "US")?));
/// ```
#[derive(Clone, Drop)]
pub struct Parts<'a, const N: usize> {
    // the remainder after the parts that were returned, if there is another part: at capacities up to 8 it is the text
    // `short`, and otherwise the padded bytes `rest`
    short: Option<TinyAsciiStr<8>>,
    rest: Option<&'a [u8]>,
    separator: u8,
}

impl<'a, const N: usize> Model for Parts<'a, N> {
    ghost use Rattle.std.specs.Prelude.{◌<◌, ◌≤◌, List, ℕ, IfSome, length, option_map};
    ghost use Rattle.std.specs.Option.{option_copied, option_or};
    ghost use Rattle.tinystr_words.specs.Text.{IsPadded, text_of};
    ghost use Rattle.tinystr.specs.Private.{parts_left};

    ghost Value = { List (List ℕ) };

    ghost view = { λ s. parts_left s.separator (option_or s.short (option_map text_of (option_copied s.rest))) };

    ghost invariant = { λ s. IfSome s.short (λ text. (N ≤ 8) × (length text ≤ N))
        × IfSome s.rest (λ rest. (8 < N) × IsPadded rest.now × (length rest.now ≤ N)) };
}

impl<const N: usize> TinyAsciiStr<N> {
    /// The index of the first `byte` in the text, counted from 0, or `None` if the text doesn't have it.
    ///
    /// ```rust
    /// let tag = tinystr!(16, "zh-Hant-TW")?;
    /// assert_eq!(rt; tag.find(b'-'), Some(2));
    /// assert_eq!(rt; tag.find(b'_'), None);
    /// ```
    #[inline]
    pub fn find(&self, byte: u8) -> Option<usize>
        ensures place { result ≡ position (λ b. b == byte) self.now }
        ensures inside { IfSome result (λ at. at < N) }
        ensures within { IfSome result (λ at. at < length self.now) }
    {
        let bytes = &self.bytes[..];
        let found = find_in_sixteen(first_sixteen(bytes), byte);
        if found.is_none() && N > 16 && bytes[16] != 0 {
            return find_past_sixteen(bytes, byte);
        }
        found
    }

    /// The text before the first separator and the text after it, or `None` if there is no separator.
    ///
    /// ```rust
    /// let tag = tinystr!(16, "zh-Hant-TW")?;
    /// let parts = tag.split_once(b'-');
    /// assert!(rt; parts == Some((tinystr!(16, "zh")?, tinystr!(16, "Hant-TW")?)));
    /// assert!(rt; tag.split_once(b'_').is_none());
    /// ```
    #[inline]
    pub fn split_once(&self, separator: u8) -> Option<(Self, Self)>
        ensures { SomeIff result (Contains self.now separator)
            (before_first (λ b. b == separator) self.now, after_first (λ b. b == separator) self.now) }
    {
        laws::fits(self);
        let at = self.find(separator)?;
        if N <= 8 {
            let (before, after) = split_around(self.resize(), at);
            return Some((before.resize(), after.resize()));
        }
        Some((self.take(at), self.suffix(at + 1)))
    }

    /// The parts before, between and after the separators, in order. A text without a separator is a single part, and
    /// so is the empty text.
    ///
    /// ```rust
    /// let tag = tinystr!(16, "zh-Hant--TW")?;
    /// let mut parts = tag.split(b'-');
    /// assert_eq!(rt; parts.next(), Some(tinystr!(16, "zh")?));
    /// assert_eq!(rt; parts.next(), Some(tinystr!(16, "Hant")?));
    /// assert_eq!(rt; parts.next(), Some(tinystr!(16, "")?));
    /// assert_eq!(rt; parts.next(), Some(tinystr!(16, "TW")?));
    /// assert_eq!(rt; parts.next(), None);
    /// ```
    #[tactic(auto, using(tinystr_words::proofs::Parts::Splits::first_parts))]
    pub fn split(&self, separator: u8) -> Parts<'_, N>
        ensures parts { result ≡ slice_split (λ b. b == separator) self.now }
        ensures bound { length result ≤ N + 1 }
    {
        let mut parts = Parts {
            short: None,
            rest: None,
            separator,
        };
        if N <= 8 {
            let bytes = Aligned8::from_ascii_bytes(&self.bytes).to_bytes();
            parts.short = Some(TinyAsciiStr::from_padded(bytes));
        } else {
            parts.rest = Some(&self.bytes[..]);
        }
        parts
    }
}

impl<'a, const N: usize> Iterator for Parts<'a, N> {
    type Item = TinyAsciiStr<N>;

    ghost next_gives = { YieldsFirst (λ rest. rest) };

    ghost remaining = { item_count (λ rest. rest) };

    fn next(&mut self) -> Option<TinyAsciiStr<N>> {
        if N <= 8 {
            let (part, rest) = split_first_of_eight(self.short?, self.separator);
            self.short = rest;
            return Some(part.resize());
        }
        let (part, rest) = split_first(self.rest?, self.separator);
        self.rest = rest;
        Some(part)
    }

    fn size_hint(&self) -> (usize, Option<usize>) {
        (0, None)
    }
}

// The first part of a text of at most eight bytes, and the text after its separator, if there is one. Both stay in
// registers: to load a short remainder is slow.
#[tactic(auto, using(crate::proofs::Splits::first_part))]
#[inline(always)]
fn split_first_of_eight(
    text: TinyAsciiStr<8>,
    separator: u8,
) -> (TinyAsciiStr<8>, Option<TinyAsciiStr<8>>)
    ensures parts { slice_split (λ b. b == separator) text ≡ result.0 ∷ parts_left separator result.1 }
    ensures part { length result.0 ≤ length text }
    ensures rest { IfSome result.1 (λ rest. length rest ≤ length text) }
{
    match find_in_eight(text, separator) {
        Some(at) => {
            let (part, rest) = split_around(text, at);
            (part, Some(rest))
        }
        None => (text, None),
    }
}

// The index of the first such byte. The first byte of the text is compared by itself, so that the remainder after an
// empty part doesn't wait for a search.
#[inline(always)]
fn find_in_eight(text: TinyAsciiStr<8>, byte: u8) -> Option<usize>
    ensures place { result ≡ position (λ b. b == byte) text }
    ensures inside { IfSome result (λ at. at < 8) }
{
    match text.get(0) {
        Some(first) if first == byte => Some(0),
        _ => text.find(byte),
    }
}

// The text before the byte at an index, and the text after it, by shifts of the word.
#[inline(always)]
fn split_around(text: TinyAsciiStr<8>, at: usize) -> (TinyAsciiStr<8>, TinyAsciiStr<8>)
    requires { at < 8 }
    ensures part { result.0 ≡ take at text }
    ensures rest { result.1 ≡ drop (at + 1) text }
{
    let word = <u64 as Word<8>>::from_le_bytes(&text.bytes);
    let bits = 8 * at;
    let part = word % (1 << bits);
    let rest = (word >> 8) >> bits;
    (
        TinyAsciiStr::from_padded(part.to_le_bytes()),
        TinyAsciiStr::from_padded(rest.to_le_bytes()),
    )
}

// The first part of padded bytes, and the bytes after its separator, if there is one. A part that ends in the first
// sixteen bytes stays in a vector.
#[tactic(auto, using(crate::proofs::Splits::first_part))]
#[inline(always)]
fn split_first<const N: usize>(bytes: &[u8], separator: u8) -> (TinyAsciiStr<N>, Option<&[u8]>)
    requires padded { IsPadded bytes.now }
    requires fits { length bytes.now ≤ N }
    ensures parts { slice_split (λ b. b == separator) (text_of bytes.now)
        ≡ result.0 ∷ parts_left separator (option_map text_of (option_copied result.1)) }
    ensures rest { IfSome result.1 (λ rest. IsPadded rest.now × (length rest.now ≤ N)) }
{
    let lanes = first_sixteen(bytes);
    match find_in_sixteen(lanes, separator) {
        Some(at) => (text_of_first_lanes(lanes, at), Some(rest_of(bytes, at + 1))),
        None if bytes.len() <= 16 || bytes[16] == 0 => (text_of_lanes(lanes), None),
        None => split_first_by_copy(bytes, separator),
    }
}

// The same where the first sixteen bytes have no separator: the part is copied.
#[tactic(auto, using(crate::proofs::Splits::first_part))]
fn split_first_by_copy<const N: usize>(
    bytes: &[u8],
    separator: u8,
) -> (TinyAsciiStr<N>, Option<&[u8]>)
    requires padded { IsPadded bytes.now }
    requires fits { length bytes.now ≤ N }
    requires missed { position (λ b. b == separator) (take 16 (text_of bytes.now)) ≡ None }
    ensures parts { slice_split (λ b. b == separator) (text_of bytes.now)
        ≡ result.0 ∷ parts_left separator (option_map text_of (option_copied result.1)) }
    ensures rest { IfSome result.1 (λ rest. IsPadded rest.now × (length rest.now ≤ N)) }
{
    match find_past_sixteen(bytes, separator) {
        Some(at) => (
            text_of_bytes(front_of(bytes, at)),
            Some(rest_of(bytes, at + 1)),
        ),
        None => (text_of_bytes(bytes), None),
    }
}

// The index of the first such byte in the text, sixteen bytes at a time. None of the first sixteen is it.
#[tactic(auto, using(crate::proofs::Splits::found_past))]
fn find_past_sixteen(bytes: &[u8], byte: u8) -> Option<usize>
    requires padded { IsPadded bytes.now }
    requires missed { position (λ b. b == byte) (take 16 (text_of bytes.now)) ≡ None }
    ensures { result ≡ position (λ b. b == byte) (text_of bytes.now) }
{
    let mut start = 16;
    while start < bytes.len() {
        if let Some(at) = find_in_sixteen(first_sixteen(rest_of(bytes, start)), byte) {
            return Some(start + at);
        }
        start += 16;
    }
    None
}

// The index of the first such byte in a text of at most sixteen bytes, all compared in one step. A NUL isn't found, since
// NULs are only after the text.
#[inline(always)]
fn find_in_sixteen(lanes: u8x16, byte: u8) -> Option<usize>
    requires len { length lanes ≡ 16 }
    requires padded { IsPadded lanes }
    ensures { result ≡ position (λ b. b == byte) (text_of lanes) }
{
    let equal = lanes.simd_eq(u8x16::splat(byte)).to_bitmask();
    if equal == 0 || byte == 0 {
        return None;
    }
    Some(equal.trailing_zeros() as usize)
}
