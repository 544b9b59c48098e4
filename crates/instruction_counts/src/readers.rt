//! Each reader of texts, the reader of language identifiers, and the lines of the line program.

ghost use Rattle.std.specs.Prelude.{◌<◌, ◌^◌};

use crate::print_sum;
use std::alloc::{AllocError, Global};
use std::io::{self, ErrorKind};
use subtags::LangId;
use tinystr::{ParseError, TinyAsciiStr};
use tinystr_lines::engine;

// How many lists each reader reads.
const LISTS: usize = 256;

// How often the twelve lines come.
const TIMES: usize = 20;

const IDENTIFIERS: [&[u8]; 12] = [
    b"en-US",
    b"de",
    b"zh_hant_tw",
    b"EN_us",
    b"fr-CA",
    b"es-419",
    b"en-US-posix",
    b"e",
    b"sr-Latn",
    b"ja-JP",
    b"pt_BR",
    b"hsb-DE",
];

const LINES: &[u8] = b"8 title new york
3 upper eur
17 locale zh_hant_tw
4 text toolong
16 lossy caf\xc3\xa9
9 alphanumeric 1a2b3c
0 text
32 lower THE QUICK BROWN FOX JUMPS
8 records abcdefghABCDEFGH
5 numeric 12345
2 len gb
no such line
";

pub fn run(rt: &HostRuntime) -> io::Result<()> {
    count_strict::<8>(rt)?;
    count_strict::<16>(rt)?;
    count_strict::<32>(rt)?;
    count_lossy::<16>(rt)?;
    count_lossy::<32>(rt)?;
    print_lists(rt, "LangId::try_from_utf8", 17, counted_identifiers())?;
    count_lines(rt)
}

fn count_strict<const N: usize>(rt: &HostRuntime) -> io::Result<()>
    requires { N < 2 ^ 63 }
{
    let bytes = bytes(rt.alloc())?;
    let units = units(rt.alloc(), bytes.as_slice())?;
    let raws = raws::<N>(rt.alloc(), bytes.as_slice())?;
    print_lists(rt, "try_from_utf8", N, counted_utf8::<N>(bytes.as_slice()))?;
    print_lists(
        rt,
        "try_from_utf16",
        N,
        counted_utf16::<N>(units.as_slice()),
    )?;
    print_lists(rt, "try_from_raw", N, counted_raw(raws.as_slice()))
}

fn count_lossy<const N: usize>(rt: &HostRuntime) -> io::Result<()>
    requires { N < 2 ^ 63 }
{
    let bytes = bytes(rt.alloc())?;
    let units = units(rt.alloc(), bytes.as_slice())?;
    print_lists(
        rt,
        "from_utf8_lossy",
        N,
        counted_utf8_lossy::<N>(bytes.as_slice()),
    )?;
    print_lists(
        rt,
        "from_utf16_lossy",
        N,
        counted_utf16_lossy::<N>(units.as_slice()),
    )
}

fn print_lists(rt: &HostRuntime, call: &str, capacity: usize, sum: usize) -> io::Result<()> {
    print_sum(rt, call, capacity, LISTS, "lists", sum)
}

// Letters, and every 61st byte is none.
fn bytes(alloc: Global) -> Result<Vec<u8>, AllocError> {
    let mut bytes = Vec::new(alloc);
    for index in 0..LISTS + 64 {
        bytes.push(if index % 61 == 60 {
            0x80
        } else {
            b'a' + (index % 26) as u8
        })?;
    }
    Ok(bytes)
}

fn units(alloc: Global, bytes: &[u8]) -> Result<Vec<u16>, AllocError> {
    let mut units = Vec::new(alloc);
    for byte in bytes {
        units.push(u16::from(*byte))?;
    }
    Ok(units)
}

// Arrays that are texts of up to `N` bytes.
fn raws<const N: usize>(alloc: Global, bytes: &[u8]) -> Result<Vec<[u8; N]>, AllocError> {
    let mut raws = Vec::new(alloc);
    for start in 0..LISTS {
        let text = TinyAsciiStr::<N>::from_utf8_lossy(list::<u8, N>(bytes, start), b'?');
        raws.push(*text.all_bytes())?;
    }
    Ok(raws)
}

// The list at an index, of up to `N + 1` elements.
#[inline(always)]
fn list<U, const N: usize>(units: &[U], start: usize) -> &[U] {
    let len = start % N.saturating_add(2);
    units.get(start..start.saturating_add(len)).unwrap_or(&[])
}

#[inline(always)]
fn number_of<const N: usize>(read: Result<TinyAsciiStr<N>, ParseError>) -> usize {
    match read {
        Ok(text) => text.len(),
        Err(_) => 100,
    }
}

#[inline(never)]
fn counted_utf8<const N: usize>(bytes: &[u8]) -> usize
    requires { N < 2 ^ 63 }
{
    let mut sum = 0usize;
    for start in 0..LISTS {
        let read = TinyAsciiStr::<N>::try_from_utf8(list::<u8, N>(bytes, start));
        sum = sum.wrapping_add(number_of(read));
    }
    sum
}

#[inline(never)]
fn counted_utf16<const N: usize>(units: &[u16]) -> usize
    requires { N < 2 ^ 63 }
{
    let mut sum = 0usize;
    for start in 0..LISTS {
        let read = TinyAsciiStr::<N>::try_from_utf16(list::<u16, N>(units, start));
        sum = sum.wrapping_add(number_of(read));
    }
    sum
}

#[inline(never)]
fn counted_raw<const N: usize>(raws: &[[u8; N]]) -> usize {
    let mut sum = 0usize;
    for raw in raws {
        sum = sum.wrapping_add(number_of(TinyAsciiStr::try_from_raw(*raw)));
    }
    sum
}

#[inline(never)]
fn counted_utf8_lossy<const N: usize>(bytes: &[u8]) -> usize
    requires { N < 2 ^ 63 }
{
    let mut sum = 0usize;
    for start in 0..LISTS {
        let text = TinyAsciiStr::<N>::from_utf8_lossy(list::<u8, N>(bytes, start), b'?');
        sum = sum.wrapping_add(text.len());
    }
    sum
}

#[inline(never)]
fn counted_utf16_lossy<const N: usize>(units: &[u16]) -> usize
    requires { N < 2 ^ 63 }
{
    let mut sum = 0usize;
    for start in 0..LISTS {
        let text = TinyAsciiStr::<N>::from_utf16_lossy(list::<u16, N>(units, start), b'?');
        sum = sum.wrapping_add(text.len());
    }
    sum
}

#[inline(never)]
fn counted_identifiers() -> usize {
    let mut sum = 0usize;
    for index in 0..LISTS {
        if let Ok(id) = LangId::try_from_utf8(IDENTIFIERS[index % 12]) {
            sum = sum.wrapping_add(id.as_str().len());
        }
    }
    sum
}

fn count_lines(rt: &HostRuntime) -> io::Result<()> {
    let mut input = Vec::new(rt.alloc());
    for _ in 0..TIMES {
        input.extend_from_slice(LINES)?;
    }
    let mut output = Vec::new(rt.alloc());
    if !counted_lines(rt.alloc(), input.as_slice(), &mut output) {
        return Err(ErrorKind::Other.into());
    }
    print_sum(rt, "engine::run", 32, 12 * TIMES, "lines", output.len())
}

#[inline(never)]
fn counted_lines(alloc: Global, input: &[u8], output: &mut Vec<u8>) -> bool {
    let mut input = input;
    engine::run(alloc, &mut input, output).is_ok()
}
