//! Maps whose keys are a hashed table and whose values are packed texts, read in place.

ghost use Rattle.std.specs.Prelude.{◌≡◌, ◌<◌, ◌^◌, ◌↔◌, [], List, ℕ, is_some, length, IsOk, IsTrue, IfOk, IfErr};
ghost use Rattle.std.specs.Map.{keys_of, values_of};
ghost use Rattle.std.specs.Result.{result_ok};
ghost use Rattle.tinystr_packed.specs.Map as Spec;
ghost use Rattle.tinystr_hashed.specs.Hashing.{AreDistinct};
ghost use Rattle.tinystr_hashed.specs.TextMap.{AreHashedTexts, RefusesHashedTextMap, hashed_text_map_of};

use crate::table::{HashedError, HashedTable};
use std::marker::Model;
use tinystr::TinyAsciiStr;
use tinystr::ule::UleError;
use tinystr_packed::{Table, TextEntries};

/// Why bytes aren't a hashed map of texts.
///
/// ```rust
/// let keys = b"\x01\0\0\0\0\0\0\0\0\0\0\0\0\0\0\0CH";
/// let fault = HashedTextMap::<2, 3>::new(keys, b"").err();
/// assert_eq!(rt; fault, Some(HashedTextMapError::Count { keys: 1, values: 0 }));
/// ```
#[derive(Clone, Copy, Debug, PartialEq, Eq)]
pub enum HashedTextMapError {
    /// The keys aren't a hashed table.
    Keys(HashedError),
    /// The values aren't packed records.
    Values(UleError),
    /// There are fewer or more values than keys.
    Count { keys: usize, values: usize },
}

/// A map from the texts of a hashed table, of at most `N` bytes, to texts of at most `M` bytes, in the same order. A contract
/// sees it as the list of its entries.
///
/// ```rust
/// let keys = b"\x01\0\0\0\0\0\0\0\0\0\0\0\0\0\0\0CH";
/// let currencies = HashedTextMap::<2, 3>::new(keys, b"CHF").unwrap();
/// assert_eq!(rt; currencies.get(&tinystr!(2, "CH")?), Some(tinystr!(3, "CHF")?));
/// assert_eq!(rt; currencies.get(&tinystr!(2, "US")?), None);
/// ```
#[derive(Clone, Drop)]
pub struct HashedTextMap<'a, const N: usize, const M: usize> {
    keys: HashedTable<'a, N>,
    values: Table<'a, M>,
}

impl<'a, const N: usize, const M: usize> Model for HashedTextMap<'a, N, M> {
    ghost use Rattle.std.specs.Prelude.{◌≡◌, List, ℕ, length, zip};

    ghost Value = { List (List ℕ × List ℕ) };

    ghost view = { λ s. zip s.keys s.values };

    ghost invariant = { λ s. length s.values ≡ length s.keys };
}

impl<'a, const N: usize, const M: usize> HashedTextMap<'a, N, M> {
    /// Reads a map from the bytes of a hashed table and those of the values, which only this call checks. `N` and `M` must be
    /// above 0.
    ///
    /// The error is `Keys` if the keys aren't a hashed table, else `Values` if the values aren't packed records, else
    /// `Count`.
    pub fn new(keys: &'a [u8], values: &'a [u8]) -> Result<Self, HashedTextMapError>
        requires keys { 0 < N }
        requires values { 0 < M }
        ensures accepted { IsOk result
            ↔ ((entries : List (List ℕ × List ℕ)) × AreHashedTexts entries keys.now values.now N M) }
        ensures entries { IfOk result (λ map. AreHashedTexts map keys.now values.now N M) }
        ensures fault { IfErr result (λ e. RefusesHashedTextMap e keys.now values.now N M) }
        ensures value { result_ok result ≡ hashed_text_map_of N M keys.now values.now }
    {
        let keys = match HashedTable::from_bytes(keys) {
            Ok(keys) => keys,
            Err(fault) => return Err(HashedTextMapError::Keys(fault)),
        };
        let values = match Table::new(values) {
            Ok(values) => values,
            Err(fault) => return Err(HashedTextMapError::Values(fault)),
        };
        let count = keys.len();
        let len = values.len();
        if len != count {
            return Err(HashedTextMapError::Count {
                keys: count,
                values: len,
            });
        }
        Ok(HashedTextMap { keys, values })
    }

    /// The number of entries.
    #[tactic(auto, using(tinystr_packed::proofs::PackedMaps::map_steps))]
    pub fn len(&self) -> usize
        ensures { result ≡ length self.now }
    {
        self.values.len()
    }

    /// Whether there is no entry.
    #[tactic(auto, using(tinystr_packed::proofs::PackedMaps::map_steps))]
    pub fn is_empty(&self) -> bool
        ensures { IsTrue result ↔ (self.now ≡ []) }
    {
        self.len() == 0
    }

    /// The value of a key, or `None` if the map doesn't have the key. Each key takes a look-up of `HashedTable::position`.
    #[tactic(auto, using(crate::proofs::HashedMaps::lookups))]
    pub fn get(&self, key: &TinyAsciiStr<N>) -> Option<TinyAsciiStr<M>>
        ensures value { result ≡ Spec.get self.now key.now }
        ensures distinct { AreDistinct (keys_of self.now) }
    {
        match self.keys.position(key) {
            Some(index) => self.values.get(index),
            None => None,
        }
    }

    /// The value of a key of any capacity, or `None` if the map doesn't have the key. Both capacities must be below 2^63.
    #[tactic(auto, using(crate::proofs::HashedMaps::absent_keys))]
    pub fn find_text<const K: usize>(&self, key: &TinyAsciiStr<K>) -> Option<TinyAsciiStr<M>>
        requires texts { N < 2 ^ 63 }
        requires key { K < 2 ^ 63 }
        ensures { result ≡ Spec.get self.now key.now }
    {
        // Its contract says that no key is longer than `N` bytes.
        let _ = self.keys.table().len();
        let key = key.try_resize()?;
        self.get(&key)
    }

    /// Whether the map has a key.
    pub fn contains_key(&self, key: &TinyAsciiStr<N>) -> bool
        ensures { result ≡ is_some (Spec.get self.now key.now) }
    {
        self.keys.contains(key)
    }

    /// The keys, in the order of the hash.
    #[tactic(auto, using(tinystr_packed::proofs::PackedMaps::map_steps))]
    pub fn keys(&self) -> &HashedTable<'a, N>
        ensures { result.now ≡ keys_of self.now }
    {
        &self.keys
    }

    /// The values, in the order of their keys.
    #[tactic(auto, using(tinystr_packed::proofs::PackedMaps::map_steps))]
    pub fn values(&self) -> &Table<'a, M>
        ensures { result.now ≡ values_of self.now }
    {
        &self.values
    }

    /// The keys with their values, in the order of the hash.
    #[tactic(auto, using(tinystr_packed::proofs::PackedMaps::map_steps))]
    pub fn iter(&self) -> TextEntries<'a, N, M>
        ensures entries { result ≡ self.now }
        ensures bound { length result < 2 ^ 64 }
    {
        TextEntries::new(self.keys.table(), &self.values)
    }
}

impl<'a, const N: usize, const M: usize> Default for HashedTextMap<'a, N, M> {
    ghost is_default = { λ map. map ≡ [] };

    fn default() -> Self
        ensures { result ≡ [] }
    {
        HashedTextMap {
            keys: HashedTable::default(),
            values: Table::default(),
        }
    }
}
