//! Searches in the bytes of records that were checked before, and aren't checked again. For any other bytes they return
//! places inside them.

ghost use Rattle.std.specs.Prelude.{◌≡◌, ◌<◌, ◌≤◌, ◌/◌, ◌+◌, List, ℕ, length, take, drop, filter, nat_eq, slice_index_or, IfOk, IfErr, Ok};
ghost use Rattle.std.specs.List.{starts_with};
ghost use Rattle.tinystr_packed.specs.Rising.{text_at, ArePackedRising, IsSearched, IsFirstNotBelow};

use crate::eight::{answers_of_short, answers_one_by_one};
use crate::prefix::range_by_fronts;
use crate::search::{LongRecords, binary_search_whole};
use tinystr::TinyAsciiStr;

/// The index of a text among packed records whose texts are strictly ascending or, as the error, the index at which it belongs,
/// as `SortedTable::binary_search` returns them. For any other bytes the result is a place inside them. `N` must be above 0.
///
/// ```rust
/// assert_eq!(rt; in_place::search(b"CHFEURJPY", &tinystr!(3, "EUR")?), Ok(1));
/// assert_eq!(rt; in_place::search(b"CHFEURJPY", &tinystr!(3, "GBP")?), Err(2));
/// ```
pub fn search<const N: usize>(bytes: &[u8], key: &TinyAsciiStr<N>) -> Result<usize, usize>
    requires { 0 < N }
    ensures inside { IfOk result (λ index. index < length bytes.now / N) }
    ensures bound { IfErr result (λ place. place ≤ length bytes.now / N) }
    ensures searched { (texts : List (List ℕ)) → ArePackedRising texts bytes.now N → IsSearched key.now texts result }
{
    binary_search_whole(bytes.as_chunks().0, key)
}

/// What `search` returns for each of eight keys, among packed records whose texts are strictly ascending. For any other bytes
/// each result is a place inside them, which may differ from that of `search`. `N` must be above 0.
///
/// Among records of at most sixteen bytes the keys are searched for together, so that each search waits for memory while the
/// others do, unless they are one key. Keys in order are searched for first in the records after the index `near`, for
/// example that of the last result. For packed records whose texts are strictly ascending, `near` changes only the time. For
/// other bytes it may also change which place inside them is returned.
///
/// ```rust
/// let keys = [tinystr!(3, "EUR")?; 8];
/// assert_eq!(rt; in_place::search_eight(b"CHFEURJPY", &keys, 0), [Ok(1); 8]);
/// ```
pub fn search_eight<const N: usize>(
    bytes: &[u8],
    keys: &[TinyAsciiStr<N>; 8],
    near: usize,
) -> [Result<usize, usize>; 8]
    requires { 0 < N }
    ensures inside { (i : ℕ) → i < 8 → IfOk (slice_index_or result i (Ok 0)) (λ index. index < length bytes.now / N) }
    ensures bound { (i : ℕ) → i < 8 → IfErr (slice_index_or result i (Ok 0)) (λ place. place ≤ length bytes.now / N) }
    ensures searched { (texts : List (List ℕ)) → ArePackedRising texts bytes.now N → (i : ℕ) → i < 8 →
        IsSearched (text_at keys.now i) texts (slice_index_or result i (Ok 0)) }
{
    let records = bytes.as_chunks().0;
    if N > 16 {
        answers_one_by_one(records, keys, LongRecords::Whole)
    } else {
        answers_of_short(records, keys, near)
    }
}

/// The range of the texts with a prefix, among packed records whose texts are strictly ascending: the index of the first, or
/// the index at which such a text belongs, and their number. For any other bytes the result is a range inside them. `N` must be
/// above 0.
///
/// ```rust
/// assert_eq!(rt; in_place::with_prefix(b"CADCHFCZKEUR", &tinystr!(3, "C")?), (0, 3));
/// ```
#[tactic(auto, using(crate::proofs::InPlace::records_are))]
pub fn with_prefix<const N: usize>(bytes: &[u8], beginning: &TinyAsciiStr<N>) -> (usize, usize)
    requires { 0 < N }
    ensures bound { result.0 + result.1 ≤ length bytes.now / N }
    ensures start { (texts : List (List ℕ)) → ArePackedRising texts bytes.now N → IsFirstNotBelow beginning.now texts result.0 }
    ensures range { (texts : List (List ℕ)) → ArePackedRising texts bytes.now N →
        take result.1 (drop result.0 texts) ≡ filter (λ t. starts_with nat_eq t beginning.now) texts }
{
    range_by_fronts(bytes.as_chunks().0, beginning)
}
