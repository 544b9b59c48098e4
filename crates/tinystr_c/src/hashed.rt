//! Hashed tables and maps.

ghost use Rattle.std.specs.Prelude.{◌≡◌, ◌<◌, ◌≤◌, ℕ, length, slice_index_or};
ghost use Rattle.tinystr_packed.specs.Rising.{text_at};
ghost use Rattle.tinystr_c.specs.Codes.{success, bad_argument};
ghost use Rattle.tinystr_c.specs.Hashed.{ChecksHashed, SearchesHashed, SearchesHashedEach, ChecksHashedMap};
ghost use Rattle.tinystr_c.specs.Tables.{IsValueSize};

use crate::answer::{
    TinystrResult, bad_argument, failure, fault_answer, hashed_answer, hashed_map_answer,
    position_answer, records_answer, success,
};
use crate::numbers::NO_ROOM;
use tinystr::TinyAsciiStr;
use tinystr_hashed::{HashedMap, HashedTable, in_place};
use tinystr_packed::Table;

/// The number of texts in a hashed table, or why the bytes aren't one.
pub fn hashed_check<const N: usize>(bytes: &[u8]) -> TinystrResult
    requires { 0 < N }
    ensures { ChecksHashed result bytes.now N }
{
    match HashedTable::<N>::from_bytes(bytes) {
        Ok(table) => success(table.len()),
        Err(fault) => hashed_answer(fault),
    }
}

/// The index of a key in a hashed table, or that the table doesn't have it. For any other bytes an index is inside them.
pub fn hashed_search<const N: usize>(bytes: &[u8], key: &[u8]) -> TinystrResult
    requires above { 0 < N }
    requires below { N ≤ 16 }
    ensures { SearchesHashed result bytes.now key.now N }
{
    match TinyAsciiStr::<N>::try_from_utf8(key) {
        Ok(text) => position_answer(in_place::position(bytes, &text)),
        Err(fault) => fault_answer(fault, key),
    }
}

/// The number of keys, whose answers are put at the start of `out`, or why there are none. The keys are checked before
/// the length of `out`.
pub fn hashed_search_each<const N: usize>(
    bytes: &[u8],
    keys: &[u8],
    out: &mut [TinystrResult],
) -> TinystrResult
    requires above { 0 < N }
    requires below { N ≤ 16 }
    ensures { SearchesHashedEach result out.old out.new bytes.now keys.now N }
{
    let keys = match Table::<N>::new(keys) {
        Ok(keys) => keys,
        Err(fault) => return records_answer(fault),
    };
    let count = keys.len();
    if out.len() < count {
        return failure(NO_ROOM, count);
    }
    let (front, _) = out.split_at_mut(count);
    search_keys(bytes, &keys, front);
    success(count)
}

// Puts the answer for each key.
fn search_keys<const N: usize>(bytes: &[u8], keys: &Table<'_, N>, out: &mut [TinystrResult])
    requires above { 0 < N }
    requires below { N ≤ 16 }
    requires room { length keys.now ≡ length out.old }
    ensures room { length out.new ≡ length out.old }
    ensures each { (i : ℕ) → i < length keys.now
        → SearchesHashed (slice_index_or out.new i (success 0)) bytes.now (text_at keys.now i) N }
{
    for index in 0..keys.len() {
        out[index] = position_answer(in_place::position(bytes, &keys.text_at(index)));
    }
}

/// The number of entries of a hashed map, or why the bytes aren't one, at one of the sizes of values.
pub fn hashed_map_check<const N: usize>(
    keys: &[u8],
    values: &[u8],
    value_size: usize,
) -> TinystrResult
    requires { 0 < N }
    ensures argument { ¬ IsValueSize value_size → result ≡ bad_argument value_size }
    ensures checked { IsValueSize value_size → ChecksHashedMap result keys.now values.now N value_size }
{
    match value_size {
        1 => hashed_map_check_of::<N, 1>(keys, values),
        2 => hashed_map_check_of::<N, 2>(keys, values),
        4 => hashed_map_check_of::<N, 4>(keys, values),
        8 => hashed_map_check_of::<N, 8>(keys, values),
        _ => bad_argument(value_size),
    }
}

fn hashed_map_check_of<const N: usize, const M: usize>(keys: &[u8], values: &[u8]) -> TinystrResult
    requires keys { 0 < N }
    requires values { 0 < M }
    ensures { ChecksHashedMap result keys.now values.now N M }
{
    match HashedMap::<N, M>::new(keys, values) {
        Ok(map) => success(map.len()),
        Err(fault) => hashed_map_answer(fault),
    }
}
