//! Maps whose keys are a hashed table, read in place.

ghost use Rattle.std.specs.Prelude.{◌≡◌, ◌<◌, ◌^◌, ◌↔◌, [], List, ℕ, is_some, length, IsOk, IsTrue, IfOk, IfErr, IfSome, Some};
ghost use Rattle.std.specs.Iterator.{YieldsFirstBy, YieldsLastBy, item_count, UpTo, at_most};
ghost use Rattle.std.specs.Iterator.SizeHint.{IsWithinCount};
ghost use Rattle.std.specs.Map.{keys_of, values_of};
ghost use Rattle.std.specs.Option.{option_copied};
ghost use Rattle.std.specs.Result.{result_ok};
ghost use Rattle.tinystr_packed.specs.Map as Spec;
ghost use Rattle.tinystr_hashed.specs.Hashing.{AreDistinct};
ghost use Rattle.tinystr_hashed.specs.Map.{AreHashed, RefusesHashedMap, hashed_map_of};

use crate::table::{HashedError, HashedTable};
use std::iter::FusedIterator;
use std::marker::Model;
use tinystr::TinyAsciiStr;
use tinystr_packed::Texts;

/// Why bytes aren't a hashed map.
///
/// ```rust
/// let keys = b"\x01\0\0\0\0\0\0\0\0\0\0\0\0\0\0\0EUR";
/// let fault = HashedMap::<3, 1>::new(keys, &[]).err();
/// assert_eq!(rt; fault, Some(HashedMapError::Values { keys: 1, len: 0 }));
/// ```
#[derive(Clone, Copy, Debug, PartialEq, Eq)]
pub enum HashedMapError {
    /// The keys aren't a hashed table.
    Keys(HashedError),
    /// The values have `len` bytes, which isn't `M` for each of `keys` keys.
    Values { keys: usize, len: usize },
}

/// A map from the texts of a hashed table, of at most `N` bytes, to values of `M` bytes, in the order of the keys. A contract
/// sees it as the list of its entries.
///
/// ```rust
/// let keys = b"\x01\0\0\0\0\0\0\0\0\0\0\0\0\0\0\0EUR";
/// let places = HashedMap::<3, 1>::new(keys, &[2]).unwrap();
/// assert_eq!(rt; places.get(&tinystr!(3, "EUR")?), Some(&[2]));
/// assert_eq!(rt; places.get(&tinystr!(3, "CHF")?), None);
/// ```
#[derive(Clone, Drop)]
pub struct HashedMap<'a, const N: usize, const M: usize> {
    keys: HashedTable<'a, N>,
    values: &'a [[u8; M]],
}

impl<'a, const N: usize, const M: usize> Model for HashedMap<'a, N, M> {
    ghost use Rattle.std.specs.Prelude.{◌≡◌, List, ℕ, length, zip};

    ghost Value = { List (List ℕ × List ℕ) };

    ghost view = { λ s. zip s.keys s.values.now };

    ghost invariant = { λ s. length s.values.now ≡ length s.keys };
}

impl<'a, const N: usize, const M: usize> HashedMap<'a, N, M> {
    /// Reads a map from the bytes of a hashed table and those of the values, which only this call checks. `N` and `M` must be
    /// above 0.
    ///
    /// The error is `Keys` if the keys aren't a hashed table, else `Values`.
    pub fn new(keys: &'a [u8], values: &'a [u8]) -> Result<Self, HashedMapError>
        requires keys { 0 < N }
        requires values { 0 < M }
        ensures accepted { IsOk result
            ↔ ((entries : List (List ℕ × List ℕ)) × AreHashed entries keys.now values.now N M) }
        ensures entries { IfOk result (λ map. AreHashed map keys.now values.now N M) }
        ensures fault { IfErr result (λ e. RefusesHashedMap e keys.now values.now N M) }
        ensures value { result_ok result ≡ hashed_map_of N M keys.now values.now }
    {
        let keys = match HashedTable::from_bytes(keys) {
            Ok(keys) => keys,
            Err(fault) => return Err(HashedMapError::Keys(fault)),
        };
        let count = keys.len();
        let len = values.len();
        if len % M != 0 || len / M != count {
            return Err(HashedMapError::Values { keys: count, len });
        }
        // where there is no value, an array of `M` bytes may have no size
        if values.is_empty() {
            return Ok(HashedMap { keys, values: &[] });
        }
        Ok(HashedMap {
            keys,
            values: values.as_chunks().0,
        })
    }

    /// The number of entries.
    #[tactic(auto, using(tinystr_packed::proofs::PackedMaps::map_steps))]
    pub fn len(&self) -> usize
        ensures { result ≡ length self.now }
    {
        self.values.len()
    }

    /// Whether there is no entry.
    #[tactic(auto, using(tinystr_packed::proofs::PackedMaps::map_steps))]
    pub fn is_empty(&self) -> bool
        ensures { IsTrue result ↔ (self.now ≡ []) }
    {
        self.len() == 0
    }

    /// The value of a key, or `None` if the map doesn't have the key. Each key takes a look-up of `HashedTable::position`.
    #[tactic(auto, using(crate::proofs::HashedMaps::lookups))]
    pub fn get(&self, key: &TinyAsciiStr<N>) -> Option<&'a [u8; M]>
        ensures value { option_copied result ≡ Spec.get self.now key.now }
        ensures distinct { AreDistinct (keys_of self.now) }
    {
        match self.keys.position(key) {
            Some(index) => self.values.get(index),
            None => None,
        }
    }

    /// The value of a key of any capacity, or `None` if the map doesn't have the key. Both capacities must be below 2^63.
    #[tactic(auto, using(crate::proofs::HashedMaps::absent_keys))]
    pub fn find_text<const K: usize>(&self, key: &TinyAsciiStr<K>) -> Option<&'a [u8; M]>
        requires texts { N < 2 ^ 63 }
        requires key { K < 2 ^ 63 }
        ensures { option_copied result ≡ Spec.get self.now key.now }
    {
        // Its contract says that no key is longer than `N` bytes.
        let _ = self.keys.table().len();
        let key = key.try_resize()?;
        self.get(&key)
    }

    /// Whether the map has a key.
    pub fn contains_key(&self, key: &TinyAsciiStr<N>) -> bool
        ensures { result ≡ is_some (Spec.get self.now key.now) }
    {
        self.keys.contains(key)
    }

    /// The keys, in the order of the hash.
    #[tactic(auto, using(tinystr_packed::proofs::PackedMaps::map_steps))]
    pub fn keys(&self) -> &HashedTable<'a, N>
        ensures { result.now ≡ keys_of self.now }
    {
        &self.keys
    }

    /// The values, in the order of their keys.
    #[tactic(auto, using(tinystr_packed::proofs::PackedMaps::map_steps))]
    pub fn values(&self) -> &'a [[u8; M]]
        ensures { result.now ≡ values_of self.now }
    {
        self.values
    }

    /// The keys with their values, in the order of the hash.
    #[tactic(auto, using(tinystr_packed::proofs::PackedMaps::map_steps))]
    pub fn iter(&self) -> Entries<'a, N, M>
        ensures entries { result ≡ self.now }
        ensures bound { length result < 2 ^ 64 }
    {
        Entries {
            keys: self.keys.iter(),
            values: self.values,
        }
    }
}

impl<'a, const N: usize, const M: usize> Default for HashedMap<'a, N, M> {
    ghost is_default = { λ map. map ≡ [] };

    fn default() -> Self
        ensures { result ≡ [] }
    {
        HashedMap {
            keys: HashedTable::default(),
            values: &[],
        }
    }
}

/// An iterator over the entries of a map, in the order of its keys. A contract sees it as the list of the remaining ones.
///
/// ```rust
/// let keys = b"\x01\0\0\0\0\0\0\0\0\0\0\0\0\0\0\0EUR";
/// let places = HashedMap::<3, 1>::new(keys, &[2]).unwrap();
/// assert_eq!(rt; places.iter().next(), Some((tinystr!(3, "EUR")?, &[2])));
/// ```
#[derive(Clone, Drop)]
pub struct Entries<'a, const N: usize, const M: usize> {
    keys: Texts<'a, N>,
    values: &'a [[u8; M]],
}

impl<'a, const N: usize, const M: usize> Model for Entries<'a, N, M> {
    ghost use Rattle.std.specs.Prelude.{◌≡◌, List, ℕ, length, zip};

    ghost Value = { List (List ℕ × List ℕ) };

    ghost view = { λ s. zip s.keys s.values.now };

    ghost invariant = { λ s. length s.values.now ≡ length s.keys };
}

impl<'a, const N: usize, const M: usize> Iterator for Entries<'a, N, M> {
    type Item = (TinyAsciiStr<N>, &'a [u8; M]);

    ghost next_gives = { YieldsFirstBy (λ entry. (entry.0, entry.1.now)) (λ rest. rest) };

    ghost remaining = { item_count (λ rest. rest) };

    fn next(&mut self) -> Option<(TinyAsciiStr<N>, &'a [u8; M])> {
        let key = self.keys.next()?;
        let values = self.values;
        let (value, rest) = values.split_first()?;
        self.values = rest;
        Some((key, value))
    }

    #[tactic(auto, using(tinystr_packed::proofs::PackedMaps::map_steps))]
    fn size_hint(&self) -> (usize, Option<usize>)
        ensures lower { IsWithinCount result.0 (at_most (length self.now)) }
        ensures upper { IfSome result.1 (UpTo (at_most (length self.now))) }
        ensures exact { result ≡ (length self.now, Some (length self.now)) }
    {
        let len = self.values.len();
        (len, Some(len))
    }
}

impl<'a, const N: usize, const M: usize> DoubleEndedIterator for Entries<'a, N, M> {
    ghost next_back_gives = { YieldsLastBy (λ entry. (entry.0, entry.1.now)) (λ rest. rest) };

    #[tactic(auto, using(tinystr_packed::proofs::PackedMaps::last_entry))]
    fn next_back(&mut self) -> Option<(TinyAsciiStr<N>, &'a [u8; M])> {
        let key = self.keys.next_back()?;
        let values = self.values;
        let (value, rest) = values.split_last()?;
        self.values = rest;
        Some((key, value))
    }
}

impl<'a, const N: usize, const M: usize> ExactSizeIterator for Entries<'a, N, M> {
    #[tactic(auto, using(tinystr_packed::proofs::PackedMaps::map_steps))]
    fn len(&self) -> usize {
        self.values.len()
    }
}

impl<'a, const N: usize, const M: usize> FusedIterator for Entries<'a, N, M> {}
