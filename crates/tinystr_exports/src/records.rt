//! Batches over packed records.

ghost use Rattle.std.specs.Prelude.{◌≤◌};

use crate::batch::read_texts;
use crate::tables::search_each;
use tinystr::ule::UleError;
use tinystr::{ParseError, TinyAsciiStr};

/// Writes what is found of records of `N` bytes: 0 for packed ones, 1 where the length is rejected, and else a number
/// for the fault and the first bad record.
pub fn records_found<const N: usize>(bytes: &[u8], found: &mut [u32]) -> bool
    requires { N ≤ 128 }
{
    if N == 0 || found.is_empty() {
        return false;
    }
    found[0] = match TinyAsciiStr::<N>::validate_bytes(bytes) {
        Ok(()) => 0,
        Err(UleError::Length { .. }) => 1,
        Err(
            UleError::Parse {
                index,
                fault: ParseError::ContainsNull,
            },
        ) => 2 + 4 * (index % (1 << 28)) as u32,
        Err(UleError::Parse { index, .. }) => 3 + 4 * (index % (1 << 28)) as u32,
    };
    true
}

/// Answers a call for each key; false where there is no such call, or the capacity is none of a table.
pub fn search_batch<const N: usize>(
    call: usize,
    bytes: &[u8],
    values: &[u8],
    keys: &[u8],
    answers: &mut [u64],
) -> bool
    requires { N ≤ 128 }
{
    let keys = read_texts::<N>(keys);
    search_each(call, bytes, values, &keys[..], answers)
}
