//! Times look-ups of many keys in a sorted table and in a hashed table of the same records. The arguments are the bytes
//! of a record, 3, 8, 16 or 32, and the number of records. Each line has the table, the order of the keys, the number
//! of records, whose the time is, the nanoseconds of the processor for a key in the fastest of some rounds, and sums of
//! the results: of the places, each twice and one more where the key is there, and of the keys that are. The first
//! lines have the bytes of a record and the nanoseconds to build and to open one, and 0 for both sums.
#![tactic(auto)]

mod numbers;

ghost use Rattle.std.specs.Prelude.{◌<◌, ◌^◌};

use numbers::{KEYS, Numbers, ORDERS, Order, bytes_of};
use std::alloc::{AllocError, Global};
use std::env;
use std::io::{self, ErrorKind};
use std::time::{CpuClock, Duration};
use tinystr::TinyAsciiStr;
use tinystr_hashed::{HashedTable, pack_hashed};
use tinystr_packed::{SortedTable, Table, pack};

const ROUNDS: u32 = 9;

const BUILDING_ROUNDS: u32 = 3;

// A table of few records is built or opened several times in a round, of about this number of records in all.
const RECORDS: usize = 100_000;

/// A search for each of many keys. In a dependent one the next key comes from the record that was found last.
#[derive(Clone, Copy)]
enum Search {
    SortedInBulk,
    SortedOneByOne,
    SortedDependent,
    HashedOneByOne,
    HashedDependent,
}

// The searches for independent keys, and those for dependent ones.
const INDEPENDENT: [Search; 3] = [
    Search::SortedInBulk,
    Search::SortedOneByOne,
    Search::HashedOneByOne,
];

const DEPENDENT: [Search; 2] = [Search::SortedDependent, Search::HashedDependent];

impl Search {
    // Whose its time is.
    fn whose(&self) -> &'static str {
        match self {
            Search::SortedInBulk => "here",
            Search::SortedOneByOne | Search::SortedDependent => "one by one",
            Search::HashedOneByOne | Search::HashedDependent => "hashed",
        }
    }
}

/// The least time of a search so far, and what it gives.
#[derive(Clone, Copy)]
struct Timed {
    search: Search,
    picoseconds: u128,
    sums: Sums,
}

/// A sorted and a hashed table of the same records.
#[derive(Drop)]
struct Tables<'a, const N: usize> {
    sorted: SortedTable<'a, N>,
    hashed: HashedTable<'a, N>,
}

fn main(rt: HostRuntime) -> io::Result<()> {
    let mut words = env::args(&rt)?;
    let _program = words.next();
    let (Some(bytes), Some(count)) = (words.next(), words.next()) else {
        return Ok(());
    };
    let Ok(count) = count.as_str().parse::<u32>() else {
        return Err(ErrorKind::InvalidInput.into());
    };
    match bytes.as_str() {
        "3" => time::<3>(&rt, count),
        "8" => time::<8>(&rt, count),
        "16" => time::<16>(&rt, count),
        "32" => time::<32>(&rt, count),
        _ => Err(ErrorKind::InvalidInput.into()),
    }
}

fn time<const N: usize>(rt: &HostRuntime, count: u32) -> io::Result<()>
    requires above { 0 < N }
    requires below { N < 2 ^ 62 }
{
    let texts = texts::<N>(rt.alloc(), count)?;
    let texts = texts.as_slice();
    let sorted = pack(rt.alloc(), texts)?;
    let hashed = packed_hashed(rt.alloc(), texts)?;
    let (sorted, hashed) = (sorted.as_slice(), hashed.as_slice());
    print_size(rt, texts, hashed)?;
    time_building(rt, texts)?;
    time_opening::<N>(rt, texts.len(), Kind::Sorted, sorted)?;
    time_opening::<N>(rt, texts.len(), Kind::Hashed, hashed)?;
    let tables = open::<N>(sorted, hashed).ok_or(io::Error::from(ErrorKind::Other))?;
    for (order, name) in ORDERS.iter().map(|(name, order)| (*order, *name)) {
        let keys = keys::<N>(rt.alloc(), order, count)?;
        time_searches(rt, &tables, &INDEPENDENT, name, keys.as_slice())?;
    }
    let keys = keys::<N>(rt.alloc(), Order::Present, count)?;
    time_searches(
        rt,
        &tables,
        &DEPENDENT,
        "random, there, dependent",
        keys.as_slice(),
    )
}

fn print_size<const N: usize>(
    rt: &HostRuntime,
    texts: &[TinyAsciiStr<N>],
    hashed: &[u8],
) -> io::Result<()> {
    let thousandths = (hashed.len() as u128).saturating_mul(1000) / (texts.len() as u128).max(1);
    print::<N>(
        rt,
        texts.len(),
        "bytes a record",
        "hashed",
        thousandths,
        Sums::default(),
    )
}

fn time_searches<const N: usize>(
    rt: &HostRuntime,
    tables: &Tables<'_, N>,
    searches: &[Search],
    name: &str,
    keys: &[TinyAsciiStr<N>],
) -> io::Result<()>
    requires above { 0 < N }
    requires below { N < 2 ^ 62 }
{
    let mut all = Vec::new(rt.alloc());
    for search in searches {
        all.push(Timed {
            search: *search,
            picoseconds: u128::MAX,
            sums: Sums::default(),
        })?;
    }
    // all rounds of one search, as the searches of std are timed: none begins with what another left in the caches
    for timed in all.iter_mut() {
        for _ in 0..ROUNDS {
            let start = rt.thread_cpu_time()?;
            timed.sums = sums_of(timed.search, tables, keys);
            timed.picoseconds = timed.picoseconds.min(since(rt, start, keys.len())?);
        }
    }
    let count = tables.sorted.table().len();
    for timed in all.iter() {
        print::<N>(
            rt,
            count,
            name,
            timed.search.whose(),
            timed.picoseconds,
            timed.sums,
        )?;
    }
    Ok(())
}

fn sums_of<const N: usize>(search: Search, tables: &Tables<'_, N>, keys: &[TinyAsciiStr<N>]) -> Sums
    requires above { 0 < N }
    requires below { N < 2 ^ 62 }
{
    match search {
        Search::SortedInBulk => sums_in_bulk(&tables.sorted, keys),
        Search::SortedOneByOne => sums_one_by_one(&tables.sorted, keys),
        Search::SortedDependent => sums_dependent(&tables.sorted, keys),
        Search::HashedOneByOne => sums_hashed(&tables.hashed, keys),
        Search::HashedDependent => sums_hashed_dependent(&tables.hashed, keys),
    }
}

fn time_building<const N: usize>(rt: &HostRuntime, texts: &[TinyAsciiStr<N>]) -> io::Result<()>
    requires above { 0 < N }
    requires below { N < 2 ^ 62 }
{
    let count = texts.len();
    let times = times_to(count);
    let mut least = u128::MAX;
    for _ in 0..BUILDING_ROUNDS {
        let start = rt.thread_cpu_time()?;
        for _ in 0..times {
            packed_hashed(rt.alloc(), texts)?;
        }
        least = least.min(since(rt, start, count.saturating_mul(times))?);
    }
    print::<N>(
        rt,
        count,
        "build, a record",
        "hashed",
        least,
        Sums::default(),
    )
}

/// What is opened.
#[derive(Clone, Copy)]
enum Kind {
    Sorted,
    Hashed,
}

fn time_opening<const N: usize>(
    rt: &HostRuntime,
    count: usize,
    kind: Kind,
    bytes: &[u8],
) -> io::Result<()>
    requires { 0 < N }
{
    let times = times_to(count);
    let mut copies = Vec::new(rt.alloc());
    for _ in 0..times {
        copies.extend_from_slice(bytes)?;
    }
    let mut least = u128::MAX;
    for _ in 0..ROUNDS {
        let start = rt.thread_cpu_time()?;
        let opened = count_opened::<N>(kind, copies.as_slice(), bytes.len());
        least = least.min(since(rt, start, count.saturating_mul(times))?);
        if opened != times {
            return Err(ErrorKind::Other.into());
        }
    }
    let whose = match kind {
        Kind::Sorted => "here",
        Kind::Hashed => "hashed",
    };
    print::<N>(rt, count, "open, a record", whose, least, Sums::default())
}

// How many copies of the bytes of a table, of `len` bytes each, are opened.
#[inline(never)]
fn count_opened<const N: usize>(kind: Kind, copies: &[u8], len: usize) -> usize
    requires { 0 < N }
{
    let mut opened = 0usize;
    for copy in copies.chunks_exact(len.max(1)) {
        let is_open = match kind {
            Kind::Sorted => SortedTable::<N>::from_bytes(copy).is_ok(),
            Kind::Hashed => HashedTable::<N>::from_bytes(copy).is_ok(),
        };
        opened = opened.wrapping_add(usize::from(is_open));
    }
    opened
}

// How often a table of `count` records is built or opened in a round.
fn times_to(count: usize) -> usize {
    (RECORDS / count.max(1)).max(1)
}

fn packed_hashed<const N: usize>(alloc: Global, texts: &[TinyAsciiStr<N>]) -> io::Result<Vec<u8>>
    requires above { 0 < N }
    requires below { N < 2 ^ 62 }
{
    match pack_hashed(alloc, texts) {
        Ok(bytes) => Ok(bytes),
        Err(_) => Err(ErrorKind::Other.into()),
    }
}

fn open<'a, const N: usize>(sorted: &'a [u8], hashed: &'a [u8]) -> Option<Tables<'a, N>>
    requires { 0 < N }
{
    Some(Tables {
        sorted: SortedTable::from_bytes(sorted).ok()?,
        hashed: HashedTable::from_bytes(hashed).ok()?,
    })
}

// Picoseconds for each of `count` keys or records.
fn since(clock: &impl CpuClock, start: Duration, count: usize) -> io::Result<u128> {
    let taken = clock.thread_cpu_time()?.saturating_sub(start);
    Ok(taken.as_nanos().saturating_mul(1000) / (count as u128).max(1))
}

fn print<const N: usize>(
    rt: &HostRuntime,
    count: usize,
    name: &str,
    whose: &str,
    thousandths: u128,
    sums: Sums,
) -> io::Result<()> {
    let (whole, part) = (thousandths / 1000, thousandths % 1000);
    let Sums { places, found } = sums;
    println!(rt;
        "{N} bytes, {count} records|{name}|{count}|{whose}|{whole}.{part:03}|{places}|{found}"
    )?;
    Ok(())
}

#[derive(Clone, Copy, Default)]
struct Sums {
    places: u64,
    found: u64,
}

impl Sums {
    #[inline(always)]
    fn with(self, answer: Result<usize, usize>) -> Sums {
        let (place, found) = match answer {
            Ok(place) => (place as u64, 1),
            Err(place) => (place as u64, 0),
        };
        Sums {
            places: self
                .places
                .wrapping_add(place.wrapping_mul(2))
                .wrapping_add(found),
            found: self.found.wrapping_add(found),
        }
    }
}

#[inline(never)]
fn sums_one_by_one<const N: usize>(sorted: &SortedTable<'_, N>, keys: &[TinyAsciiStr<N>]) -> Sums {
    let mut sums = Sums::default();
    for key in keys {
        sums = sums.with(sorted.binary_search(key));
    }
    sums
}

#[inline(never)]
fn sums_in_bulk<const N: usize>(sorted: &SortedTable<'_, N>, keys: &[TinyAsciiStr<N>]) -> Sums {
    let mut sums = Sums::default();
    for answer in sorted.binary_search_each(keys) {
        sums = sums.with(answer);
    }
    sums
}

#[inline(never)]
fn sums_hashed<const N: usize>(hashed: &HashedTable<'_, N>, keys: &[TinyAsciiStr<N>]) -> Sums {
    let mut sums = Sums::default();
    for key in keys {
        sums = sums.with(hashed.position(key).ok_or(0));
    }
    sums
}

#[inline(never)]
fn sums_dependent<const N: usize>(sorted: &SortedTable<'_, N>, keys: &[TinyAsciiStr<N>]) -> Sums
    requires above { 0 < N }
    requires below { N < 2 ^ 62 }
{
    let mut sums = Sums::default();
    let mut skipped = 0usize;
    for index in 0..keys.len() {
        let Some(key) = keys.get(index.wrapping_add(skipped)) else {
            return sums;
        };
        let answer = sorted.binary_search(key);
        skipped = first_bit(sorted.table(), answer.unwrap_or_default());
        sums = sums.with(answer);
    }
    sums
}

#[inline(never)]
fn sums_hashed_dependent<const N: usize>(
    hashed: &HashedTable<'_, N>,
    keys: &[TinyAsciiStr<N>],
) -> Sums
    requires above { 0 < N }
    requires below { N < 2 ^ 62 }
{
    let mut sums = Sums::default();
    let mut skipped = 0usize;
    for index in 0..keys.len() {
        let Some(key) = keys.get(index.wrapping_add(skipped)) else {
            return sums;
        };
        let answer = hashed.position(key);
        skipped = first_bit(hashed.table(), answer.unwrap_or_default());
        sums = sums.with(answer.ok_or(0));
    }
    sums
}

// The first bit of a record. It is 0, but the processor doesn't know the next key before it has loaded the record.
#[inline(always)]
fn first_bit<const N: usize>(table: &Table<'_, N>, index: usize) -> usize
    requires above { 0 < N }
    requires below { N < 2 ^ 62 }
{
    match table.records().get(index) {
        Some(raw) => usize::from(raw[0] >> 7),
        None => 0,
    }
}

// The texts of every second number from 0 on. Keys that aren't there are those of the numbers between.
fn texts<const N: usize>(alloc: Global, count: u32) -> Result<Vec<TinyAsciiStr<N>>, AllocError> {
    let mut texts = Vec::new(alloc);
    for index in 0..count {
        texts.push(text::<N>(u64::from(index).wrapping_mul(2), count))?;
    }
    Ok(texts)
}

fn keys<const N: usize>(
    alloc: Global,
    order: Order,
    count: u32,
) -> Result<Vec<TinyAsciiStr<N>>, AllocError> {
    let mut numbers = Numbers::new(order, count);
    let mut keys = Vec::new(alloc);
    for _ in 0..KEYS {
        keys.push(text::<N>(numbers.next(), count))?;
    }
    Ok(keys)
}

fn text<const N: usize>(number: u64, count: u32) -> TinyAsciiStr<N> {
    TinyAsciiStr::try_from_raw(bytes_of(number, count)).unwrap_or_default()
}
