//! Packed files: packed, sorted, opened, searched, walked and unpacked.

ghost use Rattle.std.specs.Prelude.{◌<◌, ◌^◌};

use crate::codes::{short_code, short_codes};
use crate::digest::Digest;
use crate::random::Random;
use std::alloc::{AllocError, Global};
use std::collections::BTreeMap;
use tinystr::TinyAsciiStr;
use tinystr_packed::{PackedMap, SortedTable, Table, pack, pack_map, pack_sorted, unpack};

/// Makes a file of codes of 3, of 8 and of 16 bytes, and reads each.
pub fn run(alloc: Global, random: &mut Random, digest: &mut Digest) -> Result<(), AllocError> {
    run_at::<3, 2>(alloc, random, digest, 100_000, 4_096)?;
    run_at::<8, 3>(alloc, random, digest, 400_000, 50_000)?;
    run_at::<16, 3>(alloc, random, digest, 200_000, 25_000)
}

// `count` codes, and `beginnings` of the 64 ^ B beginnings of `B` characters.
fn run_at<const N: usize, const B: usize>(
    alloc: Global,
    random: &mut Random,
    digest: &mut Digest,
    count: usize,
    beginnings: usize,
) -> Result<(), AllocError>
    requires some { 0 < N }
    requires bound { N < 2 ^ 63 }
    requires beginning { B < 2 ^ 63 }
{
    let codes = short_codes::<N>(alloc, random, count)?;
    let records = pack(alloc, &codes)?;
    digest.add_bytes(&records);
    let file = pack_sorted(alloc, &codes)?;
    digest.add_bytes(&file);
    let Some(sorted) = open::<N>(&file) else {
        return Ok(());
    };
    search(&sorted, &codes, random, digest);
    search_beginnings::<N, B>(&sorted, beginnings, random, digest);
    for text in &unpack(alloc, sorted.table())? {
        digest.add_text(text);
    }
    map(alloc, &codes, random, digest)
}

fn open<const N: usize>(file: &[u8]) -> Option<SortedTable<'_, N>>
    requires some { 0 < N }
    requires bound { N < 2 ^ 63 }
{
    SortedTable::new(Table::<N>::new(file).ok()?).ok()
}

// Look-ups in order, of all codes as they came, and of others.
#[inline(never)]
fn search<const N: usize>(
    sorted: &SortedTable<'_, N>,
    codes: &[TinyAsciiStr<N>],
    random: &mut Random,
    digest: &mut Digest,
)
    requires some { 0 < N }
    requires bound { N < 2 ^ 63 }
{
    for text in sorted.table().iter() {
        digest.add_text(&text);
        digest.add(u64::from(sorted.contains(&text)));
    }
    for code in codes {
        digest.add_place(sorted.binary_search(code));
    }
    for _ in 0..codes.len() {
        digest.add_place(sorted.binary_search(&short_code(random)));
    }
}

#[inline(never)]
fn search_beginnings<const N: usize, const B: usize>(
    sorted: &SortedTable<'_, N>,
    count: usize,
    random: &mut Random,
    digest: &mut Digest,
)
    requires some { 0 < N }
    requires bound { N < 2 ^ 63 }
    requires beginning { B < 2 ^ 63 }
{
    for _ in 0..count {
        let beginning = short_code::<N>(random).resize::<B>().resize::<N>();
        digest.add_table(sorted.with_prefix(&beginning).table());
    }
}

// A map of every fourth code: packed, looked up and walked.
#[inline(never)]
fn map<const N: usize>(
    alloc: Global,
    codes: &[TinyAsciiStr<N>],
    random: &mut Random,
    digest: &mut Digest,
) -> Result<(), AllocError>
    requires some { 0 < N }
    requires bound { N < 2 ^ 63 }
{
    let mut places = BTreeMap::new(alloc);
    for code in codes.iter().step_by(4) {
        places.insert(
            *code,
            ((random.bits() % 0x1_0000_0000) as u32).to_le_bytes(),
        )?;
    }
    let (keys, values) = pack_map(alloc, &places)?;
    let Ok(map) = PackedMap::<N, 4>::new(&keys, &values) else {
        return Ok(());
    };
    for code in codes {
        digest.add(
            map.get(code)
                .map_or(0, |value| u64::from(u32::from_le_bytes(*value))),
        );
    }
    for (key, value) in map.iter() {
        digest.add_text(&key);
        digest.add(u64::from(u32::from_le_bytes(*value)));
    }
    Ok(())
}
