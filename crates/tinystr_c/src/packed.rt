//! Packed records and maps.

ghost use Rattle.std.specs.Prelude.{◌≡◌, ◌<◌, ◌≤◌};
ghost use Rattle.tinystr_c.specs.Codes.{bad_argument};
ghost use Rattle.tinystr_c.specs.Tables.{IsValueSize, ChecksTable, ChecksSorted, ChecksMap, Searches, FindsPrefix};

use crate::answer::{
    TinystrRange, TinystrResult, bad_argument, failure, fault_answer, map_answer, no_range,
    records_answer, search_answer, success,
};
use crate::numbers::{NOT_RISING, OK};
use tinystr::TinyAsciiStr;
use tinystr_packed::{PackedMap, SortedError, SortedTable, in_place};

/// The number of packed records, or why the bytes aren't packed records.
pub fn table_check<const N: usize>(bytes: &[u8]) -> TinystrResult
    requires { 0 < N }
    ensures { ChecksTable result bytes.now N }
{
    match TinyAsciiStr::<N>::validate_bytes(bytes) {
        Ok(()) => success(bytes.len() / N),
        Err(fault) => records_answer(fault),
    }
}

/// The number of packed records that are strictly ascending, or why the bytes aren't such records.
pub fn sorted_check<const N: usize>(bytes: &[u8]) -> TinystrResult
    requires { 0 < N }
    ensures { ChecksSorted result bytes.now N }
{
    match SortedTable::<N>::from_bytes(bytes) {
        Ok(_) => success(bytes.len() / N),
        Err(SortedError::Records(fault)) => records_answer(fault),
        Err(SortedError::Order(fault)) => failure(NOT_RISING, fault.index),
    }
}

/// The index of a key among packed records that are strictly ascending, or the index at which it belongs. Of any other
/// bytes it is a place inside them.
pub fn sorted_search<const N: usize>(bytes: &[u8], key: &[u8]) -> TinystrResult
    requires above { 0 < N }
    requires below { N ≤ 16 }
    ensures { Searches result bytes.now key.now N }
{
    match TinyAsciiStr::<N>::try_from_utf8(key) {
        Ok(text) => search_answer(in_place::search(bytes, &text)),
        Err(fault) => fault_answer(fault, key),
    }
}

/// The range of the texts with a prefix, among packed records that are strictly ascending. Of any other bytes it is a
/// range inside them.
pub fn sorted_prefix<const N: usize>(bytes: &[u8], beginning: &[u8]) -> TinystrRange
    requires above { 0 < N }
    requires below { N ≤ 16 }
    ensures { FindsPrefix result bytes.now beginning.now N }
{
    match TinyAsciiStr::<N>::try_from_utf8(beginning) {
        Ok(text) => {
            let (start, count) = in_place::with_prefix(bytes, &text);
            TinystrRange {
                start,
                count,
                code: OK,
                detail: 0,
            }
        }
        Err(fault) => no_range(fault_answer(fault, beginning)),
    }
}

/// The number of entries of a packed map, or why the bytes aren't one, at one of the sizes of values.
pub fn map_check<const N: usize>(keys: &[u8], values: &[u8], value_size: usize) -> TinystrResult
    requires { 0 < N }
    ensures argument { ¬ IsValueSize value_size → result ≡ bad_argument value_size }
    ensures checked { IsValueSize value_size → ChecksMap result keys.now values.now N value_size }
{
    match value_size {
        1 => map_check_of::<N, 1>(keys, values),
        2 => map_check_of::<N, 2>(keys, values),
        4 => map_check_of::<N, 4>(keys, values),
        8 => map_check_of::<N, 8>(keys, values),
        _ => bad_argument(value_size),
    }
}

fn map_check_of<const N: usize, const M: usize>(keys: &[u8], values: &[u8]) -> TinystrResult
    requires keys { 0 < N }
    requires values { 0 < M }
    ensures { ChecksMap result keys.now values.now N M }
{
    match PackedMap::<N, M>::new(keys, values) {
        Ok(_) => success(keys.len() / N),
        Err(fault) => map_answer(fault),
    }
}
