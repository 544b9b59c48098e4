//! Maps whose keys and values are packed texts, read in place.

ghost use Rattle.std.specs.Prelude.{◌≡◌, ◌<◌, ◌^◌, ◌↔◌, [], List, ℕ, filter, is_some, length, nat_eq, zip, IsOk, IsTrue, IfOk, IfErr, IfSome, Some};
ghost use Rattle.std.specs.Iterator.{YieldsFirst, YieldsLast, item_count, UpTo, at_most};
ghost use Rattle.std.specs.Iterator.SizeHint.{IsWithinCount};
ghost use Rattle.std.specs.List.{starts_with};
ghost use Rattle.std.specs.Map.{keys_of, values_of};
ghost use Rattle.std.specs.Result.{result_ok};
ghost use Rattle.tinystr_packed.specs.Map as Spec;
ghost use Rattle.tinystr_packed.specs.Reading.{text_map_of};
ghost use Rattle.tinystr_packed.specs.Rising.{IsRising};
ghost use Rattle.tinystr_packed.specs.TextMap.{ArePackedTexts, RefusesTextMap};

use crate::laws;
use crate::sorted::{SortedError, SortedTable};
use crate::table::{Table, Texts};
use std::iter::FusedIterator;
use std::marker::Model;
use std::ops::Range;
use tinystr::TinyAsciiStr;
use tinystr::ule::UleError;

/// Why bytes aren't a packed map of texts.
///
/// ```rust
/// let fault = TextMap::<2, 3>::new(b"CHJP", b"CHF").err();
/// assert_eq!(rt; fault, Some(TextMapError::Count { keys: 2, values: 1 }));
/// ```
#[derive(Clone, Copy, Debug, PartialEq, Eq)]
pub enum TextMapError {
    /// The keys aren't a sorted table.
    Keys(SortedError),
    /// The values aren't packed records.
    Values(UleError),
    /// There are fewer or more values than keys.
    Count { keys: usize, values: usize },
}

/// A map from strictly ascending texts of at most `N` bytes to texts of at most `M` bytes. A contract sees it as the entries
/// of a `BTreeMap`.
///
/// ```rust
/// let currencies = TextMap::<2, 3>::new(b"CHJP", b"CHFJPY").unwrap();
/// assert_eq!(rt; currencies.get(&tinystr!(2, "JP")?), Some(tinystr!(3, "JPY")?));
/// assert_eq!(rt; currencies.get(&tinystr!(2, "US")?), None);
/// ```
#[derive(Clone, Drop)]
pub struct TextMap<'a, const N: usize, const M: usize> {
    keys: SortedTable<'a, N>,
    values: Table<'a, M>,
}

impl<'a, const N: usize, const M: usize> Model for TextMap<'a, N, M> {
    ghost use Rattle.std.specs.Prelude.{◌≡◌, List, ℕ, length, zip};
    ghost use Rattle.tinystr_packed.specs.Rising.{IsRising};

    ghost Value = { List (List ℕ × List ℕ) };

    ghost view = { λ s. zip s.keys s.values };

    ghost invariant = { λ s. IsRising s.keys × (length s.values ≡ length s.keys) };
}

impl<'a, const N: usize, const M: usize> TextMap<'a, N, M> {
    /// Reads a map from the bytes of its keys and those of its values, which only this call checks. `N` and `M` must be
    /// above 0.
    ///
    /// The error is `Keys` if the keys aren't a sorted table, else `Values` if the values aren't packed records, else
    /// `Count`.
    ///
    /// ```rust
    /// assert!(rt; TextMap::<2, 3>::new(b"CHJP", b"CHFJPY").is_ok());
    /// let fault = TextMap::<2, 3>::new(b"CHJP", b"CHFJP").err();
    /// assert_eq!(rt; fault, Some(TextMapError::Values(UleError::Length { len: 5 })));
    /// ```
    pub fn new(keys: &'a [u8], values: &'a [u8]) -> Result<Self, TextMapError>
        requires keys { 0 < N }
        requires values { 0 < M }
        ensures accepted { IsOk result
            ↔ ((entries : List (List ℕ × List ℕ)) × ArePackedTexts entries keys.now values.now N M) }
        ensures entries { IfOk result (λ map. ArePackedTexts map keys.now values.now N M) }
        ensures fault { IfErr result (λ e. RefusesTextMap e keys.now values.now N M) }
        ensures value { result_ok result ≡ text_map_of N M keys.now values.now }
    {
        let keys = match SortedTable::from_bytes(keys) {
            Ok(keys) => keys,
            Err(fault) => return Err(TextMapError::Keys(fault)),
        };
        let values = match Table::new(values) {
            Ok(values) => values,
            Err(fault) => return Err(TextMapError::Values(fault)),
        };
        let count = keys.table().len();
        let len = values.len();
        if len != count {
            return Err(TextMapError::Count {
                keys: count,
                values: len,
            });
        }
        Ok(TextMap { keys, values })
    }

    /// The number of entries.
    #[tactic(auto, using(crate::proofs::PackedMaps::map_steps))]
    pub fn len(&self) -> usize
        ensures len { result ≡ length self.now }
        ensures rising { IsRising (keys_of self.now) }
    {
        self.values.len()
    }

    /// Whether there is no entry.
    pub fn is_empty(&self) -> bool
        ensures { IsTrue result ↔ (self.now ≡ []) }
    {
        self.len() == 0
    }

    /// The value of a key, or `None` if the map doesn't have the key.
    #[tactic(auto, using(crate::proofs::PackedMaps::lookups))]
    pub fn get(&self, key: &TinyAsciiStr<N>) -> Option<TinyAsciiStr<M>>
        ensures { result ≡ Spec.get self.now key.now }
    {
        match self.keys.binary_search(key) {
            Ok(index) => self.values.get(index),
            Err(_) => None,
        }
    }

    /// The value of a key of any capacity, or `None` if the map doesn't have the key. Both capacities must be below 2^63.
    ///
    /// ```rust
    /// let currencies = TextMap::<2, 3>::new(b"CHJP", b"CHFJPY").unwrap();
    /// assert_eq!(rt; currencies.find_text(&tinystr!(8, "JP")?), Some(tinystr!(3, "JPY")?));
    /// assert_eq!(rt; currencies.find_text(&tinystr!(8, "JPN")?), None);
    /// ```
    pub fn find_text<const K: usize>(&self, key: &TinyAsciiStr<K>) -> Option<TinyAsciiStr<M>>
        requires texts { N < 2 ^ 63 }
        requires key { K < 2 ^ 63 }
        ensures { result ≡ Spec.get self.now key.now }
    {
        laws::text_map_texts(self);
        let key = key.try_resize()?;
        self.get(&key)
    }

    /// Whether the map has a key.
    pub fn contains_key(&self, key: &TinyAsciiStr<N>) -> bool
        ensures { result ≡ is_some (Spec.get self.now key.now) }
    {
        self.keys.contains(key)
    }

    /// The map of the entries whose keys begin with `beginning`.
    ///
    /// ```rust
    /// let currencies = TextMap::<2, 3>::new(b"CACHJP", b"CADCHFJPY").unwrap();
    /// let found = currencies.with_prefix(&tinystr!(2, "C")?);
    /// assert_eq!(rt; found.len(), 2);
    /// assert_eq!(rt; found.get(&tinystr!(2, "CH")?), Some(tinystr!(3, "CHF")?));
    /// ```
    pub fn with_prefix(&self, beginning: &TinyAsciiStr<N>) -> TextMap<'a, N, M>
        ensures { result ≡ filter (λ e. starts_with nat_eq e.0 beginning.now) self.now }
    {
        let Range { start, end } = self.keys.prefix_range(beginning);
        TextMap {
            keys: self.keys.slice(start..end),
            values: self.values.slice(start..end),
        }
    }

    /// The keys in order.
    #[tactic(auto, using(crate::proofs::PackedMaps::map_steps))]
    pub fn keys(&self) -> &SortedTable<'a, N>
        ensures { result.now ≡ keys_of self.now }
    {
        &self.keys
    }

    /// The values, in the order of their keys.
    #[tactic(auto, using(crate::proofs::PackedMaps::map_steps))]
    pub fn values(&self) -> &Table<'a, M>
        ensures { result.now ≡ values_of self.now }
    {
        &self.values
    }

    /// The keys with their values, in the order of the keys.
    #[tactic(auto, using(crate::proofs::PackedMaps::map_steps))]
    pub fn iter(&self) -> TextEntries<'a, N, M>
        ensures entries { result ≡ self.now }
        ensures rising { IsRising (keys_of self.now) }
        ensures bound { length result < 2 ^ 64 }
    {
        TextEntries::new(self.keys.table(), &self.values)
    }
}

impl<'a, const N: usize, const M: usize> Default for TextMap<'a, N, M> {
    ghost is_default = { λ map. map ≡ [] };

    fn default() -> Self
        ensures { result ≡ [] }
    {
        TextMap {
            keys: SortedTable::default(),
            values: Table::default(),
        }
    }
}

/// An iterator over the entries of a map, in the order of their keys. A contract sees it as the list of the
/// remaining ones.
///
/// ```rust
/// let currencies = TextMap::<2, 3>::new(b"CHJP", b"CHFJPY").unwrap();
/// assert_eq!(rt; currencies.iter().next(), Some((tinystr!(2, "CH")?, tinystr!(3, "CHF")?)));
/// assert_eq!(rt; currencies.iter().next_back(), Some((tinystr!(2, "JP")?, tinystr!(3, "JPY")?)));
/// ```
#[derive(Clone, Drop)]
pub struct TextEntries<'a, const N: usize, const M: usize> {
    keys: Texts<'a, N>,
    values: Texts<'a, M>,
}

impl<'a, const N: usize, const M: usize> Model for TextEntries<'a, N, M> {
    ghost use Rattle.std.specs.Prelude.{◌≡◌, List, ℕ, length, zip};

    ghost Value = { List (List ℕ × List ℕ) };

    ghost view = { λ s. zip s.keys s.values };

    ghost invariant = { λ s. length s.values ≡ length s.keys };
}

impl<'a, const N: usize, const M: usize> TextEntries<'a, N, M> {
    /// The entries of keys and of the same number of texts, in their order.
    ///
    /// ```rust
    /// let keys = Table::<2>::new(b"CHJP").unwrap();
    /// let texts = Table::<3>::new(b"CHFJPY").unwrap();
    /// let mut entries = TextEntries::new(&keys, &texts);
    /// assert_eq!(rt; entries.next(), Some((tinystr!(2, "CH")?, tinystr!(3, "CHF")?)));
    /// ```
    #[tactic(auto, using(crate::proofs::PackedMaps::map_steps))]
    pub fn new(keys: &Table<'a, N>, values: &Table<'a, M>) -> Self
        requires { length values.now ≡ length keys.now }
        ensures entries { result ≡ zip keys.now values.now }
        ensures bound { length result < 2 ^ 64 }
    {
        TextEntries {
            keys: keys.iter(),
            values: values.iter(),
        }
    }
}

impl<'a, const N: usize, const M: usize> Iterator for TextEntries<'a, N, M> {
    type Item = (TinyAsciiStr<N>, TinyAsciiStr<M>);

    ghost next_gives = { YieldsFirst (λ rest. rest) };

    ghost remaining = { item_count (λ rest. rest) };

    fn next(&mut self) -> Option<(TinyAsciiStr<N>, TinyAsciiStr<M>)> {
        let key = self.keys.next()?;
        let value = self.values.next()?;
        Some((key, value))
    }

    #[tactic(auto, using(crate::proofs::PackedMaps::map_steps))]
    fn size_hint(&self) -> (usize, Option<usize>)
        ensures lower { IsWithinCount result.0 (at_most (length self.now)) }
        ensures upper { IfSome result.1 (UpTo (at_most (length self.now))) }
        ensures exact { result ≡ (length self.now, Some (length self.now)) }
    {
        self.keys.size_hint()
    }
}

impl<'a, const N: usize, const M: usize> DoubleEndedIterator for TextEntries<'a, N, M> {
    ghost next_back_gives = { YieldsLast (λ rest. rest) };

    #[tactic(auto, using(crate::proofs::PackedMaps::last_entry))]
    fn next_back(&mut self) -> Option<(TinyAsciiStr<N>, TinyAsciiStr<M>)> {
        let key = self.keys.next_back()?;
        let value = self.values.next_back()?;
        Some((key, value))
    }
}

impl<'a, const N: usize, const M: usize> ExactSizeIterator for TextEntries<'a, N, M> {
    #[tactic(auto, using(crate::proofs::PackedMaps::map_steps))]
    fn len(&self) -> usize {
        self.keys.len()
    }
}

impl<'a, const N: usize, const M: usize> FusedIterator for TextEntries<'a, N, M> {}
