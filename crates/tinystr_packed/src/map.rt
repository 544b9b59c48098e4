//! Maps whose keys and values are packed, read in place.

ghost use Rattle.std.specs.Prelude.{◌≡◌, ◌<◌, ◌^◌, ◌↔◌, [], List, ℕ, filter, is_some, length, map, nat_eq, IsOk, IsTrue, IfOk, IfErr, IfSome, Some};
ghost use Rattle.std.specs.Iterator.{YieldsFirstBy, YieldsLastBy, item_count, UpTo, at_most};
ghost use Rattle.std.specs.Iterator.SizeHint.{IsWithinCount};
ghost use Rattle.std.specs.List.{starts_with};
ghost use Rattle.std.specs.Map.{keys_of, values_of};
ghost use Rattle.std.specs.Option.{option_copied};
ghost use Rattle.std.specs.Result.{result_ok};
ghost use Rattle.tinystr_packed.specs.Map as Spec;
ghost use Rattle.tinystr_packed.specs.Reading.{map_of};
ghost use Rattle.tinystr_packed.specs.Rising.{IsRising};

use crate::each::BinarySearchEach;
use crate::laws;
use crate::sorted::{NotRising, SortedError, SortedTable};
use crate::table::Texts;
use std::iter::FusedIterator;
use std::marker::Model;
use std::ops::Range;
use tinystr::TinyAsciiStr;
use tinystr::ule::UleError;

/// Why bytes aren't a packed map.
///
/// ```rust
/// let fault = PackedMap::<3, 1>::new(b"JPYEUR", &[0, 2]).err();
/// assert_eq!(rt; fault, Some(MapError::Order(NotRising { index: 1 })));
/// ```
#[derive(Clone, Copy, Debug, PartialEq, Eq)]
pub enum MapError {
    /// The keys aren't packed records.
    Keys(UleError),
    /// A key isn't above the one before it.
    Order(NotRising),
    /// The values have `len` bytes, which isn't `M` for each of `keys` keys.
    Values { keys: usize, len: usize },
}

/// A map from strictly ascending texts of at most `N` bytes to values of `M` bytes. A contract sees it as the entries of a
/// `BTreeMap`.
///
/// ```rust
/// let places = PackedMap::<3, 1>::new(b"EURJPY", &[2, 0]).unwrap();
/// assert_eq!(rt; places.get(&tinystr!(3, "EUR")?), Some(&[2]));
/// assert_eq!(rt; places.get(&tinystr!(3, "CHF")?), None);
/// ```
#[derive(Clone, Drop)]
pub struct PackedMap<'a, const N: usize, const M: usize> {
    keys: SortedTable<'a, N>,
    values: &'a [[u8; M]],
}

impl<'a, const N: usize, const M: usize> Model for PackedMap<'a, N, M> {
    ghost use Rattle.std.specs.Prelude.{◌≡◌, List, ℕ, length, zip};
    ghost use Rattle.tinystr_packed.specs.Rising.{IsRising};

    ghost Value = { List (List ℕ × List ℕ) };

    ghost view = { λ s. zip s.keys s.values.now };

    ghost invariant = { λ s. IsRising s.keys × (length s.values.now ≡ length s.keys) };
}

impl<'a, const N: usize, const M: usize> PackedMap<'a, N, M> {
    /// Reads a map from the bytes of its keys and those of its values, which only this call checks. `N` and `M` must be
    /// above 0.
    ///
    /// The error is `Keys` if the keys aren't packed records, else `Order` if they aren't strictly ascending, else
    /// `Values`.
    ///
    /// ```rust
    /// assert!(rt; PackedMap::<3, 1>::new(b"EURJPY", &[2, 0]).is_ok());
    /// let fault = PackedMap::<3, 1>::new(b"EURJPY", &[2]).err();
    /// assert_eq!(rt; fault, Some(MapError::Values { keys: 2, len: 1 }));
    /// ```
    pub fn new(keys: &'a [u8], values: &'a [u8]) -> Result<Self, MapError>
        requires keys { 0 < N }
        requires values { 0 < M }
        ensures accepted { IsOk result
            ↔ ((entries : List (List ℕ × List ℕ)) × Spec.ArePacked entries keys.now values.now N M) }
        ensures entries { IfOk result (λ map. Spec.ArePacked map keys.now values.now N M) }
        ensures fault { IfErr result (λ e. Spec.RefusesMap e keys.now values.now N M) }
        ensures value { result_ok result ≡ map_of N M keys.now values.now }
    {
        let keys = match SortedTable::from_bytes(keys) {
            Ok(keys) => keys,
            Err(SortedError::Records(fault)) => return Err(MapError::Keys(fault)),
            Err(SortedError::Order(fault)) => return Err(MapError::Order(fault)),
        };
        let count = keys.table().len();
        let len = values.len();
        if len % M != 0 || len / M != count {
            return Err(MapError::Values { keys: count, len });
        }
        // where there is no value, an array of `M` bytes may have no size
        if values.is_empty() {
            return Ok(PackedMap { keys, values: &[] });
        }
        Ok(PackedMap {
            keys,
            values: values.as_chunks().0,
        })
    }

    /// The number of entries.
    #[tactic(auto, using(crate::proofs::PackedMaps::map_steps))]
    pub fn len(&self) -> usize
        ensures len { result ≡ length self.now }
        ensures rising { IsRising (keys_of self.now) }
    {
        self.values.len()
    }

    /// Whether there is no entry.
    #[tactic(auto, using(crate::proofs::PackedMaps::map_steps))]
    pub fn is_empty(&self) -> bool
        ensures { IsTrue result ↔ (self.now ≡ []) }
    {
        self.len() == 0
    }

    /// The value of a key, or `None` if the map doesn't have the key.
    #[tactic(auto, using(crate::proofs::PackedMaps::lookups))]
    pub fn get(&self, key: &TinyAsciiStr<N>) -> Option<&'a [u8; M]>
        ensures { option_copied result ≡ Spec.get self.now key.now }
    {
        match self.keys.binary_search(key) {
            Ok(index) => self.values.get(index),
            Err(_) => None,
        }
    }

    /// What `get` returns for each of many keys, in their order. `SortedTable::binary_search_each` documents how the keys are
    /// looked up.
    ///
    /// ```rust
    /// let places = PackedMap::<3, 1>::new(b"EURJPY", &[2, 0]).unwrap();
    /// let keys = [tinystr!(3, "JPY")?, tinystr!(3, "CHF")?];
    /// let mut values = places.get_each(&keys);
    /// assert_eq!(rt; values.next(), Some(Some(&[0])));
    /// assert_eq!(rt; values.next(), Some(None));
    /// assert_eq!(rt; values.next(), None);
    /// ```
    #[tactic(auto, using(crate::proofs::Searches::values))]
    pub fn get_each<'k>(&self, keys: &'k [TinyAsciiStr<N>]) -> GetEach<'a, 'k, N, M>
        ensures values { result ≡ map (Spec.get self.now) keys.now }
        ensures rising { IsRising (keys_of self.now) }
    {
        GetEach {
            answers: self.keys.binary_search_each(keys),
            values: self.values,
        }
    }

    /// The value of a key of any capacity, or `None` if the map doesn't have the key. Both capacities must be below 2^63.
    ///
    /// ```rust
    /// let places = PackedMap::<3, 1>::new(b"EURJPY", &[2, 0]).unwrap();
    /// assert_eq!(rt; places.find_text(&tinystr!(8, "JPY")?), Some(&[0]));
    /// assert_eq!(rt; places.find_text(&tinystr!(8, "JPYEN")?), None);
    /// ```
    pub fn find_text<const K: usize>(&self, key: &TinyAsciiStr<K>) -> Option<&'a [u8; M]>
        requires texts { N < 2 ^ 63 }
        requires key { K < 2 ^ 63 }
        ensures { option_copied result ≡ Spec.get self.now key.now }
    {
        laws::map_keys(self);
        let key = key.try_resize()?;
        self.get(&key)
    }

    /// Whether the map has a key.
    pub fn contains_key(&self, key: &TinyAsciiStr<N>) -> bool
        ensures { result ≡ is_some (Spec.get self.now key.now) }
    {
        self.keys.contains(key)
    }

    /// The map of the entries whose keys begin with `beginning`.
    ///
    /// ```rust
    /// let places = PackedMap::<3, 1>::new(b"CADCHFEUR", &[2, 2, 2]).unwrap();
    /// let found = places.with_prefix(&tinystr!(3, "C")?);
    /// assert_eq!(rt; found.len(), 2);
    /// assert_eq!(rt; found.get(&tinystr!(3, "EUR")?), None);
    /// ```
    pub fn with_prefix(&self, beginning: &TinyAsciiStr<N>) -> PackedMap<'a, N, M>
        ensures { result ≡ filter (λ e. starts_with nat_eq e.0 beginning.now) self.now }
    {
        let Range { start, end } = self.keys.prefix_range(beginning);
        let values = self.values;
        PackedMap {
            keys: self.keys.slice(start..end),
            values: &values[start..end],
        }
    }

    /// The keys in order.
    #[tactic(auto, using(crate::proofs::PackedMaps::map_steps))]
    pub fn keys(&self) -> &SortedTable<'a, N>
        ensures { result.now ≡ keys_of self.now }
    {
        &self.keys
    }

    /// The values, in the order of their keys.
    #[tactic(auto, using(crate::proofs::PackedMaps::map_steps))]
    pub fn values(&self) -> &'a [[u8; M]]
        ensures { result.now ≡ values_of self.now }
    {
        self.values
    }

    /// The keys with their values, in the order of the keys.
    #[tactic(auto, using(crate::proofs::PackedMaps::map_steps))]
    pub fn iter(&self) -> Entries<'a, N, M>
        ensures entries { result ≡ self.now }
        ensures rising { IsRising (keys_of self.now) }
        ensures bound { length result < 2 ^ 64 }
    {
        Entries {
            keys: self.keys.iter(),
            values: self.values,
        }
    }
}

impl<'a, const N: usize, const M: usize> Default for PackedMap<'a, N, M> {
    ghost is_default = { λ map. map ≡ [] };

    fn default() -> Self
        ensures { result ≡ [] }
    {
        PackedMap {
            keys: SortedTable::default(),
            values: &[],
        }
    }
}

/// An iterator over the entries of a map, in the order of their keys. A contract sees it as the list of the
/// remaining ones.
///
/// ```rust
/// let places = PackedMap::<3, 1>::new(b"EURJPY", &[2, 0]).unwrap();
/// assert_eq!(rt; places.iter().next(), Some((tinystr!(3, "EUR")?, &[2])));
/// assert_eq!(rt; places.iter().next_back(), Some((tinystr!(3, "JPY")?, &[0])));
/// ```
#[derive(Clone, Drop)]
pub struct Entries<'a, const N: usize, const M: usize> {
    keys: Texts<'a, N>,
    values: &'a [[u8; M]],
}

impl<'a, const N: usize, const M: usize> Model for Entries<'a, N, M> {
    ghost use Rattle.std.specs.Prelude.{◌≡◌, List, ℕ, length, zip};

    ghost Value = { List (List ℕ × List ℕ) };

    ghost view = { λ s. zip s.keys s.values.now };

    ghost invariant = { λ s. length s.values.now ≡ length s.keys };
}

impl<'a, const N: usize, const M: usize> Iterator for Entries<'a, N, M> {
    type Item = (TinyAsciiStr<N>, &'a [u8; M]);

    ghost next_gives = { YieldsFirstBy (λ entry. (entry.0, entry.1.now)) (λ rest. rest) };

    ghost remaining = { item_count (λ rest. rest) };

    fn next(&mut self) -> Option<(TinyAsciiStr<N>, &'a [u8; M])> {
        let key = self.keys.next()?;
        let values = self.values;
        let (value, rest) = values.split_first()?;
        self.values = rest;
        Some((key, value))
    }

    #[tactic(auto, using(crate::proofs::PackedMaps::map_steps))]
    fn size_hint(&self) -> (usize, Option<usize>)
        ensures lower { IsWithinCount result.0 (at_most (length self.now)) }
        ensures upper { IfSome result.1 (UpTo (at_most (length self.now))) }
        ensures exact { result ≡ (length self.now, Some (length self.now)) }
    {
        let len = self.values.len();
        (len, Some(len))
    }
}

impl<'a, const N: usize, const M: usize> DoubleEndedIterator for Entries<'a, N, M> {
    ghost next_back_gives = { YieldsLastBy (λ entry. (entry.0, entry.1.now)) (λ rest. rest) };

    #[tactic(auto, using(crate::proofs::PackedMaps::last_entry))]
    fn next_back(&mut self) -> Option<(TinyAsciiStr<N>, &'a [u8; M])> {
        let key = self.keys.next_back()?;
        let values = self.values;
        let (value, rest) = values.split_last()?;
        self.values = rest;
        Some((key, value))
    }
}

impl<'a, const N: usize, const M: usize> ExactSizeIterator for Entries<'a, N, M> {
    #[tactic(auto, using(crate::proofs::PackedMaps::map_steps))]
    fn len(&self) -> usize {
        self.values.len()
    }
}

impl<'a, const N: usize, const M: usize> FusedIterator for Entries<'a, N, M> {}

/// What `PackedMap::get` returns for each of many keys, in their order. A contract sees it as the list of the remaining
/// values.
///
/// ```rust
/// let places = PackedMap::<3, 1>::new(b"EURJPY", &[2, 0]).unwrap();
/// let keys = [tinystr!(3, "JPY")?, tinystr!(3, "CHF")?];
/// let mut found = places.get_each(&keys);
/// assert!(rt; found.any(|value| value.is_none()));
/// ```
#[derive(Drop)]
pub struct GetEach<'a, 'k, const N: usize, const M: usize> {
    answers: BinarySearchEach<'a, 'k, N>,
    values: &'a [[u8; M]],
}

impl<'a, 'k, const N: usize, const M: usize> Model for GetEach<'a, 'k, N, M> {
    ghost use Rattle.std.specs.Prelude.{List, ℕ, map};
    ghost use Rattle.std.specs.declared.option.Option.{Option};
    ghost use Rattle.tinystr_packed.specs.Rising.{value_at};

    ghost Value = { List (Option (List ℕ)) };

    ghost view = { λ s. map (value_at s.values.now) s.answers };
}

impl<'a, 'k, const N: usize, const M: usize> Iterator for GetEach<'a, 'k, N, M> {
    type Item = Option<&'a [u8; M]>;

    ghost next_gives = { YieldsFirstBy (λ value. option_copied value) (λ rest. rest) };

    ghost remaining = { item_count (λ rest. rest) };

    #[tactic(auto, using(crate::proofs::PackedMaps::items))]
    #[inline]
    fn next(&mut self) -> Option<Option<&'a [u8; M]>> {
        match self.answers.next()? {
            Ok(index) => Some(self.values.get(index)),
            Err(_) => Some(None),
        }
    }

    fn size_hint(&self) -> (usize, Option<usize>)
        ensures lower { IsWithinCount result.0 (at_most (length self.now)) }
        ensures upper { IfSome result.1 (UpTo (at_most (length self.now))) }
        ensures exact { result ≡ (length self.now, Some (length self.now)) }
    {
        self.answers.size_hint()
    }
}

impl<'a, 'k, const N: usize, const M: usize> ExactSizeIterator for GetEach<'a, 'k, N, M> {
    fn len(&self) -> usize {
        self.answers.len()
    }
}

impl<'a, 'k, const N: usize, const M: usize> FusedIterator for GetEach<'a, 'k, N, M> {}
