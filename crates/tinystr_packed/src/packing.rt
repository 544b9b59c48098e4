//! Texts and maps packed, and texts read back and counted.

ghost use Rattle.std.specs.Prelude.{◌≡◌, All, IfOk, ℕ, List, bytes_eq, count_by, is_some, unwrap_or};
ghost use Rattle.std.specs.List.{flat_map, list_any};
ghost use Rattle.std.specs.BTreeMap.{get};
ghost use Rattle.std.specs.Cmp.Lexicographic.{slice_cmp};
ghost use Rattle.std.specs.Ordering.{nat_cmp};
ghost use Rattle.tinystr_words.specs.Packed.{IsPacked};
ghost use Rattle.tinystr_words.specs.Text.{IsStrictText, pad};
ghost use Rattle.tinystr_packed.specs.Map.{ArePacked};
ghost use Rattle.tinystr_packed.specs.TextMap.{ArePackedTexts};
ghost use Rattle.tinystr_packed.specs.Sorting.{ArePackedInOrder};

use crate::table::Table;
use std::alloc::{AllocError, Global};
use std::collections::BTreeMap;
use tinystr::TinyAsciiStr;

/// Packs texts, each padded to `N` bytes, one after another. It fails only if an allocation fails.
///
/// ```rust
/// let bytes = pack(rt.alloc(), &[tinystr!(3, "EUR")?, tinystr!(3, "GB")?])?;
/// assert_eq!(rt; bytes.as_slice(), b"EURGB\0".as_slice());
/// ```
pub fn pack<const N: usize>(alloc: Global, texts: &[TinyAsciiStr<N>]) -> Result<Vec<u8>, AllocError>
    ensures packed { IfOk result (λ made. IsPacked made.items N) }
    ensures each { IfOk result (λ _. All (λ t. IsStrictText t N) texts.now) }
    ensures bytes { IfOk result (λ made. made.items ≡ flat_map (λ t. pad t N) texts.now) }
{
    let mut bytes = Vec::with_capacity(alloc, texts.len() * N)?;
    for text in texts {
        // Its contract says that the text fits.
        let _ = text.as_utf8();
        bytes.extend_from_slice(text.all_bytes())?;
    }
    tinystr_words::laws::texts_packed();
    Ok(bytes)
}

/// The texts of a table, in a vector. It fails only if an allocation fails.
///
/// ```rust
/// let texts = unpack(rt.alloc(), &Table::<3>::new(b"EURGB\0").unwrap())?;
/// assert_eq!(rt; texts.as_slice(), [tinystr!(3, "EUR")?, tinystr!(3, "GB")?].as_slice());
/// ```
pub fn unpack<const N: usize>(
    alloc: Global,
    table: &Table<'_, N>,
) -> Result<Vec<TinyAsciiStr<N>>, AllocError>
    ensures { IfOk result (λ made. made.items ≡ table.now) }
{
    let mut texts = Vec::with_capacity(alloc, table.len())?;
    for text in table.iter() {
        texts.push(text)?;
    }
    Ok(texts)
}

/// The packed keys and values of a map, as `PackedMap::new` takes them. It fails only if an allocation fails.
///
/// ```rust
/// let mut places = BTreeMap::new(rt.alloc());
/// places.insert(tinystr!(3, "JPY")?, [0])?;
/// places.insert(tinystr!(3, "EUR")?, [2])?;
/// let (keys, values) = pack_map(rt.alloc(), &places)?;
/// assert_eq!(rt; keys.as_slice(), b"EURJPY".as_slice());
/// assert_eq!(rt; values.as_slice(), [2, 0].as_slice());
/// ```
pub fn pack_map<const N: usize, const M: usize>(
    alloc: Global,
    map: &BTreeMap<TinyAsciiStr<N>, [u8; M]>,
) -> Result<(Vec<u8>, Vec<u8>), AllocError>
    ensures { IfOk result (λ made. ArePacked map.now.entries made.0.items made.1.items N M) }
{
    // Its contract says that the keys are strictly ascending.
    let count = map.len();
    let mut keys = Vec::with_capacity(alloc, count.saturating_mul(N))?;
    let mut values = Vec::with_capacity(alloc, count.saturating_mul(M))?;
    for (key, value) in map {
        // Its contract says that the text fits.
        let _ = key.as_utf8();
        keys.extend_from_slice(key.all_bytes())?;
        values.extend_from_slice(value)?;
    }
    Ok((keys, values))
}

/// The packed keys and texts of a map, as `TextMap::new` takes them. It fails only if an allocation fails.
///
/// ```rust
/// let mut currencies = BTreeMap::new(rt.alloc());
/// currencies.insert(tinystr!(2, "JP")?, tinystr!(3, "JPY")?)?;
/// currencies.insert(tinystr!(2, "CH")?, tinystr!(3, "CHF")?)?;
/// let (keys, values) = pack_text_map(rt.alloc(), &currencies)?;
/// assert_eq!(rt; keys.as_slice(), b"CHJP".as_slice());
/// assert_eq!(rt; values.as_slice(), b"CHFJPY".as_slice());
/// ```
pub fn pack_text_map<const N: usize, const M: usize>(
    alloc: Global,
    map: &BTreeMap<TinyAsciiStr<N>, TinyAsciiStr<M>>,
) -> Result<(Vec<u8>, Vec<u8>), AllocError>
    ensures { IfOk result (λ made. ArePackedTexts map.now.entries made.0.items made.1.items N M) }
{
    // Its contract says that the keys are strictly ascending.
    let count = map.len();
    let mut keys = Vec::with_capacity(alloc, count.saturating_mul(N))?;
    let mut values = Vec::with_capacity(alloc, count.saturating_mul(M))?;
    for (key, value) in map {
        tinystr::laws::fits(key);
        tinystr::laws::fits(value);
        keys.extend_from_slice(key.all_bytes())?;
        values.extend_from_slice(value.all_bytes())?;
    }
    Ok((keys, values))
}

/// Packs texts in order and each once, as `SortedTable` takes them. It fails only if an allocation fails.
///
/// ```rust
/// let texts = [tinystr!(3, "JPY")?, tinystr!(3, "EUR")?, tinystr!(3, "JPY")?];
/// assert_eq!(rt; pack_sorted(rt.alloc(), &texts)?.as_slice(), b"EURJPY".as_slice());
/// ```
pub fn pack_sorted<const N: usize>(
    alloc: Global,
    texts: &[TinyAsciiStr<N>],
) -> Result<Vec<u8>, AllocError>
    ensures { IfOk result (λ made. ArePackedInOrder texts.now made.items N) }
{
    let mut sorted = Vec::new(alloc);
    sorted.extend_from_slice(texts)?;
    sorted.sort_unstable();
    sorted.dedup();
    pack(alloc, sorted.as_slice())
}

/// Counts how often each text occurs in a list; one that doesn't has no entry. It fails only if an allocation fails.
///
/// ```rust
/// let texts = [tinystr!(3, "EUR")?, tinystr!(3, "CHF")?, tinystr!(3, "EUR")?];
/// let counts = count_texts(rt.alloc(), &texts)?;
/// assert_eq!(rt; counts.get(&tinystr!(3, "EUR")?), Some(&2));
/// assert_eq!(rt; counts.get(&tinystr!(3, "USD")?), None);
/// ```
pub fn count_texts<const N: usize>(
    alloc: Global,
    texts: &[TinyAsciiStr<N>],
) -> Result<BTreeMap<TinyAsciiStr<N>, usize>, AllocError>
    ensures counts { IfOk result (λ counts. (t : List ℕ) →
        unwrap_or (get (slice_cmp nat_cmp) counts t) 0 ≡ count_by (bytes_eq t) texts.now) }
    ensures keys { IfOk result (λ counts. (t : List ℕ) →
        is_some (get (slice_cmp nat_cmp) counts t) ≡ list_any (bytes_eq t) texts.now) }
{
    let mut counts = BTreeMap::new(alloc);
    for text in texts {
        let count = counts.get(text).copied().unwrap_or(0);
        counts.insert(*text, count + 1)?;
    }
    Ok(counts)
}
