//! Searches for one key after another, and for many.

ghost use Rattle.std.specs.Prelude.{◌<◌, ◌^◌};

use crate::inputs::{Order, Shape};
use crate::print_sum;
use std::io::{self, ErrorKind};
use tinystr::TinyAsciiStr;
use tinystr_hashed::{HashedTable, PackHashedError, pack_hashed};
use tinystr_packed::{SortedTable, in_place};

// All orders, each of which another path serves: eight keys at a time, the next record, the records or the windows after the
// last place, and keys that repeat.
const ORDERS: &[(&str, Order)] = &[
    ("random", Order::Random),
    ("each record", Order::Steps(1)),
    ("every fifth record", Order::Steps(5)),
    ("every fortieth record", Order::Steps(40)),
    ("one key", Order::Same),
];

// Those of which one key is near the next.
const ORDERS_NEAR: &[(&str, Order)] = &[
    ("random", Order::Random),
    ("each record", Order::Steps(1)),
    ("every fifth record", Order::Steps(5)),
];

const RANDOM: &[(&str, Order)] = &[("random", Order::Random)];

// Orders of keys of which some begin with the same sixteen bytes.
const ORDERS_ALIKE: &[(&str, Order)] = &[
    ("random among alike", Order::Random),
    ("firsts of alike", Order::FirstAlike),
    ("firsts of alike but one", Order::OneNotFirst),
];

pub fn run(rt: &HostRuntime) -> io::Result<()> {
    count_at::<3>(rt, 1_000, 1, RANDOM)?;
    count_at::<8>(rt, 20, 1, RANDOM)?;
    count_at::<8>(rt, 1_000, 1, ORDERS)?;
    count_at::<16>(rt, 1_000, 1, RANDOM)?;
    count_at::<16>(rt, 70_000, 1, ORDERS_NEAR)?;
    count_at::<24>(rt, 20, 1, RANDOM)?;
    count_at::<24>(rt, 1_000, 1, ORDERS)?;
    count_at::<24>(rt, 1_000, 16, ORDERS_ALIKE)?;
    count_at::<32>(rt, 1_000, 16, ORDERS_ALIKE)?;
    count_in_place::<8>(rt)?;
    count_in_place::<16>(rt)?;
    count_in_place::<24>(rt)?;
    count_position::<8>(rt)
}

// One search for each key in the first order, and one for all keys in each.
fn count_at<const N: usize>(
    rt: &HostRuntime,
    count: u32,
    alike: u32,
    orders: &[(&str, Order)],
) -> io::Result<()>
    requires above { 0 < N }
    requires below { N < 2 ^ 63 }
{
    let shape = Shape { count, alike };
    let records = shape.records::<N>(rt.alloc())?;
    let Ok(sorted) = SortedTable::<N>::from_bytes(records.as_slice()) else {
        return Err(ErrorKind::Other.into());
    };
    let count = count as usize;
    if let Some((name, order)) = orders.first() {
        let keys = shape.keys::<N>(rt.alloc(), *order)?;
        let sum = counted_search(&sorted, keys.as_slice());
        print_sum(rt, "search", N, count, name, sum)?;
    }
    for (name, order) in orders {
        let keys = shape.keys::<N>(rt.alloc(), *order)?;
        let sum = counted_search_each(&sorted, keys.as_slice());
        print_sum(rt, "search_each", N, count, name, sum)?;
    }
    Ok(())
}

fn count_in_place<const N: usize>(rt: &HostRuntime) -> io::Result<()>
    requires above { 0 < N }
    requires below { N < 2 ^ 63 }
{
    let shape = Shape {
        count: 1_000,
        alike: 1,
    };
    let records = shape.records::<N>(rt.alloc())?;
    let keys = shape.keys::<N>(rt.alloc(), Order::Random)?;
    let (records, keys) = (records.as_slice(), keys.as_slice());
    let sum = counted_in_place(records, keys);
    print_sum(rt, "in_place::search", N, 1_000, "random", sum)
}

// Look-ups in the hashed table that `pack_hashed` makes of the keys' records. One without pilots takes more than twice as many.
fn count_position<const N: usize>(rt: &HostRuntime) -> io::Result<()>
    requires above { 0 < N }
    requires below { N < 2 ^ 62 }
{
    let shape = Shape {
        count: 1_000,
        alike: 1,
    };
    let texts = shape.texts::<N>(rt.alloc())?;
    let keys = shape.keys::<N>(rt.alloc(), Order::Random)?;
    let bytes = match pack_hashed(rt.alloc(), texts.as_slice()) {
        Ok(bytes) => bytes,
        Err(PackHashedError::Memory) => return Err(ErrorKind::OutOfMemory.into()),
        Err(PackHashedError::Duplicate { .. }) => return Err(ErrorKind::Other.into()),
    };
    let Ok(table) = HashedTable::<N>::from_bytes(bytes.as_slice()) else {
        return Err(ErrorKind::Other.into());
    };
    let sum = counted_position(&table, keys.as_slice());
    print_sum(rt, "position", N, 1_000, "random", sum)
}

// A number of an answer.
fn number_of(answer: Result<usize, usize>) -> usize {
    match answer {
        Ok(index) => index.wrapping_mul(2).wrapping_add(1),
        Err(place) => place.wrapping_mul(2),
    }
}

#[inline(never)]
fn counted_search<const N: usize>(sorted: &SortedTable<'_, N>, keys: &[TinyAsciiStr<N>]) -> usize {
    let mut sum = 0usize;
    for key in keys {
        sum = sum.wrapping_add(number_of(sorted.binary_search(key)));
    }
    sum
}

#[inline(never)]
fn counted_search_each<const N: usize>(
    sorted: &SortedTable<'_, N>,
    keys: &[TinyAsciiStr<N>],
) -> usize {
    let mut sum = 0usize;
    for answer in sorted.binary_search_each(keys) {
        sum = sum.wrapping_add(number_of(answer));
    }
    sum
}

#[inline(never)]
fn counted_in_place<const N: usize>(records: &[u8], keys: &[TinyAsciiStr<N>]) -> usize
    requires { 0 < N }
{
    let mut sum = 0usize;
    for key in keys {
        sum = sum.wrapping_add(number_of(in_place::search(records, key)));
    }
    sum
}

#[inline(never)]
fn counted_position<const N: usize>(table: &HashedTable<'_, N>, keys: &[TinyAsciiStr<N>]) -> usize {
    let mut sum = 0usize;
    for key in keys {
        sum = sum.wrapping_add(table.position(key).unwrap_or(0));
    }
    sum
}
