//! Maps packed, with hashed keys.

ghost use Rattle.std.specs.Prelude.{◌<◌, IfOk, IfErr};
ghost use Rattle.std.specs.BTreeMap.{keys};
ghost use Rattle.tinystr_hashed.specs.Packing.{ArePackedHashed, ArePackedHashedEntries, ArePackedHashedTexts, IsNotDuplicate};

use crate::packing::{PackHashedError, pack_hashed};
use crate::table::HashedTable;
use std::alloc::Global;
use std::collections::BTreeMap;
use tinystr::TinyAsciiStr;

/// The packed keys and values of a map, as `HashedMap::new` takes them. `N` must be above 0. It fails as `pack_hashed`
/// does, but never with `Duplicate`, since the keys of a map differ.
///
/// ```rust
/// let mut places = BTreeMap::new(rt.alloc());
/// places.insert(tinystr!(3, "JPY")?, [0])?;
/// places.insert(tinystr!(3, "EUR")?, [2])?;
/// let (keys, values) = pack_hashed_map(rt.alloc(), &places).unwrap();
/// let packed = HashedMap::<3, 1>::new(keys.as_slice(), values.as_slice()).unwrap();
/// assert_eq!(rt; packed.get(&tinystr!(3, "EUR")?), Some(&[2]));
/// assert_eq!(rt; packed.get(&tinystr!(3, "CHF")?), None);
/// ```
pub fn pack_hashed_map<const N: usize, const M: usize>(
    alloc: Global,
    map: &BTreeMap<TinyAsciiStr<N>, [u8; M]>,
) -> Result<(Vec<u8>, Vec<u8>), PackHashedError<N>>
    requires { 0 < N }
    ensures packed { IfOk result (λ made. ArePackedHashedEntries map.now.entries made.0.items made.1.items N M) }
    ensures fault { IfErr result (λ e. IsNotDuplicate e) }
{
    let keys = packed_keys(alloc, map)?;
    let hashed = HashedTable::<N>::from_bytes(keys.as_slice()).unwrap();
    let mut values = Vec::with_capacity(alloc, hashed.len().saturating_mul(M))?;
    for key in hashed.iter() {
        values.extend_from_slice(&map[&key])?;
    }
    Ok((keys, values))
}

/// The packed keys and texts of a map, as `HashedTextMap::new` takes them. `N` must be above 0. It fails as
/// `pack_hashed` does, but never with `Duplicate`, since the keys of a map differ.
///
/// ```rust
/// let mut currencies = BTreeMap::new(rt.alloc());
/// currencies.insert(tinystr!(2, "JP")?, tinystr!(3, "JPY")?)?;
/// currencies.insert(tinystr!(2, "CH")?, tinystr!(3, "CHF")?)?;
/// let (keys, values) = pack_hashed_text_map(rt.alloc(), &currencies).unwrap();
/// let packed = HashedTextMap::<2, 3>::new(keys.as_slice(), values.as_slice()).unwrap();
/// assert_eq!(rt; packed.get(&tinystr!(2, "CH")?), Some(tinystr!(3, "CHF")?));
/// assert_eq!(rt; packed.get(&tinystr!(2, "US")?), None);
/// ```
pub fn pack_hashed_text_map<const N: usize, const M: usize>(
    alloc: Global,
    map: &BTreeMap<TinyAsciiStr<N>, TinyAsciiStr<M>>,
) -> Result<(Vec<u8>, Vec<u8>), PackHashedError<N>>
    requires { 0 < N }
    ensures packed { IfOk result (λ made. ArePackedHashedTexts map.now.entries made.0.items made.1.items N M) }
    ensures fault { IfErr result (λ e. IsNotDuplicate e) }
{
    let keys = packed_keys(alloc, map)?;
    let hashed = HashedTable::<N>::from_bytes(keys.as_slice()).unwrap();
    let mut values = Vec::with_capacity(alloc, hashed.len().saturating_mul(M))?;
    for key in hashed.iter() {
        let value = &map[&key];
        tinystr::laws::fits(value);
        values.extend_from_slice(value.all_bytes())?;
    }
    Ok((keys, values))
}

// The keys of a map, packed as a hashed table.
fn packed_keys<const N: usize, V>(
    alloc: Global,
    map: &BTreeMap<TinyAsciiStr<N>, V>,
) -> Result<Vec<u8>, PackHashedError<N>>
    requires { 0 < N }
    ensures packed { IfOk result (λ made. ArePackedHashed (keys map.now) made.items N) }
    ensures fault { IfErr result (λ e. IsNotDuplicate e) }
{
    let keys: Vec<TinyAsciiStr<N>> = map.keys().copied().collect(alloc)?;
    pack_hashed(alloc, keys.as_slice())
}
