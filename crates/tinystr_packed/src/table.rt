//! Tables of packed records, and the iterator over their texts.

ghost use Rattle.std.specs.Prelude.{◌≡◌, ◌<◌, ◌≤◌, ◌↔◌, ◌^◌, ◌-◌, [], length, map, take, drop, All, IsOk, IsNone, IfSome, IsTrue, IfOk, IfErr, Some, slice_get, slice_index_or};
ghost use Rattle.std.specs.Iterator.{YieldsFirst, YieldsLast, item_count, UpTo, at_most};
ghost use Rattle.std.specs.Iterator.SizeHint.{IsWithinCount};
ghost use Rattle.std.specs.List.{flat_map};
ghost use Rattle.std.specs.Result.{result_ok};
ghost use Rattle.tinystr_words.specs.Packed.{IsPacked};
ghost use Rattle.tinystr_words.specs.Text.{IsStrictText, IsPaddedText, pad, text_of};
ghost use Rattle.tinystr.specs.Records.{RefusesRecords};
ghost use Rattle.tinystr_packed.specs.Reading.{table_of};
ghost use Rattle.tinystr_packed.specs.Rising.{IsRising, IsFirstFall};

use crate::record::is_below;
use std::iter::FusedIterator;
use std::marker::Model;
use std::ops::Range;
use tinystr::TinyAsciiStr;
use tinystr::ule::UleError;

/// A table of packed records of `N` bytes. A contract sees it as the list of their texts.
///
/// ```rust
/// let table = Table::<3>::new(b"EURGB\0").unwrap();
/// assert_eq!(rt; table.len(), 2);
/// assert_eq!(rt; table.get(1), Some(tinystr!(3, "GB")?));
/// ```
#[derive(Clone, Drop)]
pub struct Table<'a, const N: usize> {
    records: &'a [[u8; N]],
}

impl<'a, const N: usize> Model for Table<'a, N> {
    ghost use Rattle.std.specs.Prelude.{List, ℕ, All, map};
    ghost use Rattle.tinystr_words.specs.Text.{IsPaddedText, text_of};

    ghost Value = { List (List ℕ) };

    ghost view = { λ s. map text_of s.records.now };

    ghost invariant = { λ s. All (λ raw. IsPaddedText raw N) s.records.now };
}

impl<'a, const N: usize> Table<'a, N> {
    /// Reads a table from bytes, which only this call checks. `N` must be above 0.
    ///
    /// The error is that of `TinyAsciiStr::validate_bytes`: `Length` if `N` doesn't divide the number of bytes, else
    /// `Parse`, with the index of the first record that isn't a padded text and its fault.
    ///
    /// ```rust
    /// assert!(rt; Table::<3>::new(b"EURJPY").is_ok());
    /// assert_eq!(rt; Table::<3>::new(b"EURJP").err(), Some(UleError::Length { len: 5 }));
    /// ```
    #[tactic(auto, using(crate::proofs::PackedTexts::table_steps, crate::proofs::Computed::packed_tables))]
    pub fn new(bytes: &'a [u8]) -> Result<Self, UleError>
        requires { 0 < N }
        ensures packed { IsOk result ↔ IsPacked bytes.now N }
        ensures bytes { IfOk result (λ table. bytes.now ≡ flat_map (λ t. pad t N) table) }
        ensures texts { IfOk result (λ table. All (λ t. IsStrictText t N) table) }
        ensures fault { IfErr result (λ e. RefusesRecords e bytes.now N) }
        ensures value { result_ok result ≡ table_of N bytes.now }
    {
        TinyAsciiStr::<N>::validate_bytes(bytes)?;
        // where there is no record, an array of `N` bytes may have no size
        if bytes.is_empty() {
            return Ok(Table { records: &[] });
        }
        Ok(Table {
            records: bytes.as_chunks().0,
        })
    }

    /// The number of texts.
    pub fn len(&self) -> usize
        ensures len { result ≡ length self.now }
        ensures strict { All (λ t. IsStrictText t N) self.now }
    {
        self.records.len()
    }

    /// Whether the table has no texts.
    pub fn is_empty(&self) -> bool
        ensures { IsTrue result ↔ (self.now ≡ []) }
    {
        self.records.is_empty()
    }

    /// The text at an index, counted from 0, in constant time, or `None` past the end.
    #[tactic(auto, using(crate::proofs::PackedTexts::places))]
    pub fn get(&self, index: usize) -> Option<TinyAsciiStr<N>>
        ensures text { result ≡ slice_get self.now index }
        ensures strict { All (λ t. IsStrictText t N) self.now }
    {
        let raw = self.records.get(index)?;
        Some(TinyAsciiStr::from_utf8_unchecked(*raw))
    }

    /// The text at an index, counted from 0, which must be below the number of texts.
    pub fn text_at(&self, index: usize) -> TinyAsciiStr<N>
        requires { index < length self.now }
        ensures { result ≡ slice_index_or self.now index [] }
    {
        self.get(index).unwrap()
    }

    /// The first text, if there is one.
    pub fn first(&self) -> Option<TinyAsciiStr<N>>
        ensures { result ≡ slice_get self.now 0 }
    {
        self.get(0)
    }

    /// The last text, if there is one.
    pub fn last(&self) -> Option<TinyAsciiStr<N>>
        ensures { result ≡ slice_get self.now (length self.now - 1) }
    {
        self.get(self.len().checked_sub(1)?)
    }

    /// The table of the texts at a range of indices, which must not end before it begins, nor past the last text.
    ///
    /// ```rust
    /// let table = Table::<3>::new(b"CHFEURJPYUSD").unwrap();
    /// assert_eq!(rt; table.slice(1..3).first(), Some(tinystr!(3, "EUR")?));
    /// assert_eq!(rt; table.slice(1..3).last(), Some(tinystr!(3, "JPY")?));
    /// ```
    #[tactic(auto, using(crate::proofs::PackedTexts::slices))]
    pub fn slice(&self, range: Range<usize>) -> Table<'a, N>
        requires start { range.start ≤ range.end }
        requires end { range.end ≤ length self.now }
        ensures { result ≡ take (range.end - range.start) (drop range.start self.now) }
    {
        let records = self.records;
        Table {
            records: &records[range],
        }
    }

    /// The texts in order.
    ///
    /// ```rust
    /// let table = Table::<3>::new(b"EURJPYUSD").unwrap();
    /// assert!(rt; table.iter().all(|text| text.is_ascii_uppercase()));
    /// ```
    pub fn iter(&self) -> Texts<'a, N>
        ensures texts { result ≡ self.now }
        ensures strict { All (λ t. IsStrictText t N) self.now }
        ensures bound { length result < 2 ^ 64 }
    {
        let records = self.records;
        Texts {
            rest: Table { records },
        }
    }

    // The index of the first text that isn't above the one before it.
    pub(crate) fn first_not_above(&self) -> Option<usize>
        ensures rising { IsNone result ↔ IsRising self.now }
        ensures first { IfSome result (λ index. IsFirstFall self.now index) }
    {
        let (first, rest) = self.records.split_first()?;
        let mut before = first;
        for (index, raw) in rest.iter().enumerate() {
            if !is_below(&before[..], &raw[..]) {
                return Some(index + 1);
            }
            before = raw;
        }
        None
    }

    /// The records themselves: each text, padded with NULs to `N` bytes.
    ///
    /// ```rust
    /// let table = Table::<3>::new(b"EURGB\0").unwrap();
    /// assert_eq!(rt; table.records()[1], *b"GB\0");
    /// ```
    #[inline(always)]
    pub fn records(&self) -> &'a [[u8; N]]
        ensures texts { map text_of result.now ≡ self.now }
        ensures padded { All (λ raw. IsPaddedText raw N) result.now }
    {
        self.records
    }
}

impl<'a, const N: usize> Default for Table<'a, N> {
    ghost is_default = { λ table. table ≡ [] };

    fn default() -> Self
        ensures { result ≡ [] }
    {
        Table { records: &[] }
    }
}

/// An iterator over the texts of a table, in order. A contract sees it as the list of the remaining ones.
///
/// ```rust
/// let table = Table::<3>::new(b"EURGB\0").unwrap();
/// assert_eq!(rt; table.iter().rev().next(), Some(tinystr!(3, "GB")?));
/// ```
#[derive(Clone, Drop)]
pub struct Texts<'a, const N: usize> {
    rest: Table<'a, N>,
}

impl<'a, const N: usize> Model for Texts<'a, N> {
    ghost use Rattle.std.specs.Prelude.{List, ℕ};

    ghost Value = { List (List ℕ) };

    ghost view = { λ s. s.rest };
}

impl<'a, const N: usize> Iterator for Texts<'a, N> {
    type Item = TinyAsciiStr<N>;

    ghost next_gives = { YieldsFirst (λ rest. rest) };

    ghost remaining = { item_count (λ rest. rest) };

    #[tactic(auto, using(crate::proofs::PackedTexts::ends))]
    fn next(&mut self) -> Option<TinyAsciiStr<N>> {
        let text = self.rest.first()?;
        self.rest = self.rest.slice(1..self.rest.len());
        Some(text)
    }

    fn size_hint(&self) -> (usize, Option<usize>)
        ensures lower { IsWithinCount result.0 (at_most (length self.now)) }
        ensures upper { IfSome result.1 (UpTo (at_most (length self.now))) }
        ensures exact { result ≡ (length self.now, Some (length self.now)) }
    {
        let len = self.rest.len();
        (len, Some(len))
    }
}

impl<'a, const N: usize> DoubleEndedIterator for Texts<'a, N> {
    ghost next_back_gives = { YieldsLast (λ rest. rest) };

    #[tactic(auto, using(crate::proofs::PackedTexts::ends))]
    fn next_back(&mut self) -> Option<TinyAsciiStr<N>> {
        let text = self.rest.last()?;
        self.rest = self.rest.slice(0..self.rest.len() - 1);
        Some(text)
    }
}

impl<'a, const N: usize> ExactSizeIterator for Texts<'a, N> {
    fn len(&self) -> usize {
        self.rest.len()
    }
}

impl<'a, const N: usize> FusedIterator for Texts<'a, N> {}
