//! What is rare and hard: capacities beside the borders of words, texts that differ late, faults at the end, identifiers
//! that are nearly one, keys outside of all others, numbers of 16 bits above 127, lines of one size.

ghost use Rattle.std.specs.Prelude.{◌<◌, ◌^◌};

use crate::codes::long_codes;
use crate::digest::Digest;
use crate::random::{LOWERCASE, MIXED, Random, letters_of};
use std::alloc::{AllocError, Global};
use subtags::{LangId, LangIdError};
use tinystr::TinyAsciiStr;
use tinystr::ule::UleError;
use tinystr_lines::engine::{RunError, run as answer};
use tinystr_packed::{SortedTable, Table, pack, pack_sorted};

/// Files of texts of one byte; texts of at most 17, 31, 33 and 255 bytes, in files and alone; identifiers and lines.
pub fn run(alloc: Global, random: &mut Random, digest: &mut Digest) -> Result<(), RunError> {
    files_of_bytes(alloc, random, digest)?;
    texts_at::<17>(alloc, random, digest, 20_000)?;
    texts_at::<31>(alloc, random, digest, 20_000)?;
    texts_at::<33>(alloc, random, digest, 20_000)?;
    texts_at::<255>(alloc, random, digest, 4_000)?;
    near_identifiers(random, digest);
    lines(alloc, random, digest)
}

// There are only 127 texts of one byte, so they are packed and spoiled, and not searched.
fn files_of_bytes(
    alloc: Global,
    random: &mut Random,
    digest: &mut Digest,
) -> Result<(), AllocError> {
    let codes = long_codes::<1>(alloc, random, 20_000)?;
    digest.add_bytes(&pack_sorted(alloc, &codes)?);
    spoil(alloc, &codes, digest)
}

fn texts_at<const N: usize>(
    alloc: Global,
    random: &mut Random,
    digest: &mut Digest,
    count: usize,
) -> Result<(), AllocError>
    requires some { 0 < N }
    requires bound { N < 2 ^ 63 }
{
    let codes = long_codes::<N>(alloc, random, count)?;
    let file = pack_sorted(alloc, &codes)?;
    digest.add_bytes(&file);
    if let Ok(table) = Table::<N>::new(&file) {
        if let Ok(sorted) = SortedTable::new(table) {
            search(&sorted, &codes, digest);
        }
    }
    for pair in codes.as_slice().windows(2) {
        if let [left, right] = pair {
            digest.add(u64::from(left < right) << 1 | u64::from(left == right));
        }
    }
    spoil(alloc, &codes, digest)?;
    read_units(alloc, &codes, random, digest)
}

// Keys that are there, others below and above all, and all that begins with all but the last byte.
#[inline(never)]
fn search<const N: usize>(
    sorted: &SortedTable<'_, N>,
    codes: &[TinyAsciiStr<N>],
    digest: &mut Digest,
)
    requires some { 0 < N }
    requires bound { N < 2 ^ 63 }
{
    for code in codes {
        digest.add_place(sorted.binary_search(code));
        digest.add_place(sorted.binary_search(&begun_with(code, b'!')));
        digest.add_place(sorted.binary_search(&begun_with(code, 127)));
        let beginning = TinyAsciiStr::<N>::from_utf8_lossy(&code.all_bytes()[..N - 1], b'~');
        digest.add_table(sorted.with_prefix(&beginning).table());
    }
}

// The code with another first byte.
#[inline(always)]
fn begun_with<const N: usize>(code: &TinyAsciiStr<N>, byte: u8) -> TinyAsciiStr<N>
    requires { 0 < N }
{
    let mut raw = *code.all_bytes();
    raw[0] = byte;
    TinyAsciiStr::try_from_raw(raw).unwrap_or_default()
}

// Files whose last record is bad, whose length is wrong, or whose records are in no order.
#[inline(never)]
fn spoil<const N: usize>(
    alloc: Global,
    codes: &[TinyAsciiStr<N>],
    digest: &mut Digest,
) -> Result<(), AllocError>
    requires some { 0 < N }
    requires bound { N < 2 ^ 63 }
{
    let mut file = pack(alloc, codes)?;
    let len = file.len();
    let short = file.as_slice().split_at(len - len.min(1)).0;
    add_refusal(digest, Table::<N>::new(short).err());
    for byte in 0x80..0x94u8 {
        if let Some(last) = file.as_mut_slice().last_mut() {
            *last = byte;
        }
        add_refusal(digest, Table::<N>::new(&file).err());
    }
    file.truncate(file.len() - file.len().min(N));
    if let Ok(table) = Table::<N>::new(&file) {
        if let Err(fault) = SortedTable::new(table) {
            digest.add(fault.index as u64);
        }
    }
    Ok(())
}

fn add_refusal(digest: &mut Digest, refusal: Option<UleError>) {
    match refusal {
        Some(UleError::Length { len }) => digest.add(len as u64),
        Some(UleError::Parse { index, fault }) => {
            digest.add(index as u64);
            digest.add_fault(fault);
        }
        None => digest.add(0),
    }
}

// The texts as numbers of 16 bits whose last is half of a pair, or a character.
#[inline(never)]
fn read_units<const N: usize>(
    alloc: Global,
    codes: &[TinyAsciiStr<N>],
    random: &mut Random,
    digest: &mut Digest,
) -> Result<(), AllocError>
    requires some { 0 < N }
    requires bound { N < 2 ^ 63 }
{
    let mut units: Vec<u16> = Vec::new(alloc);
    for code in codes {
        units.clear();
        for byte in code.as_utf8() {
            units.push(u16::from(*byte))?;
        }
        if let Some(last) = units.as_mut_slice().last_mut() {
            if random.with_probability(50) {
                *last = 0xd800;
            }
        }
        match TinyAsciiStr::<N>::try_from_utf16(&units) {
            Ok(text) => digest.add_text(&text),
            Err(fault) => digest.add_fault(fault),
        }
        let text = TinyAsciiStr::<N>::from_utf16_lossy(&units, b'?');
        digest.add_text(&text.to_ascii_lowercase());
    }
    Ok(())
}

#[inline(never)]
fn near_identifiers(random: &mut Random, digest: &mut Digest) {
    for _ in 0..100_000 {
        let (bytes, len) = near_identifier(random);
        match LangId::try_from_utf8(&bytes[..len.min(48)]) {
            Ok(id) => digest.add_bytes(id.as_str().as_bytes()),
            Err(LangIdError::InvalidLanguage) => digest.add(1),
            Err(LangIdError::InvalidSubtag) => digest.add(2),
        }
    }
}

// At most three subtags, many of a length that is accepted, of letters and here and there a digit; and their length.
#[inline(always)]
fn near_identifier(random: &mut Random) -> ([u8; 48], usize) {
    let mut bytes = [b'a'; 48];
    let mut end = 0usize;
    for (accepted, most) in [(2, 9), (4, 5), (2, 4)] {
        let start = end.min(32);
        bytes[start..start + 8].copy_from_slice(&letters_of(random.bits(), MIXED));
        let len = if random.with_probability(60) {
            accepted
        } else {
            1 + random.below(most)
        };
        end = start.saturating_add(len).min(46);
        if random.with_probability(30) {
            break;
        }
        bytes[end] = if random.with_probability(80) {
            b'-'
        } else {
            b'_'
        };
        end += 1;
    }
    (bytes, end)
}

// Lines with nothing in them, a line that never ends, and lines of no command.
#[inline(never)]
fn lines(alloc: Global, random: &mut Random, digest: &mut Digest) -> Result<(), RunError> {
    let mut input = Vec::new(alloc);
    for _ in 0..20_000 {
        match random.below(4) {
            0 => input.push(b'\n').map_err(AllocError::from)?,
            1 => push_line(
                &mut input,
                random,
                b"32 alphabetic_titlecasf ",
                b"qrstuvwxyzabcdef\n",
            )?,
            2 => push_line(
                &mut input,
                random,
                b"17 records ",
                b"qabcdefghijklmn\0\0qabcdefghijklmnopq\n",
            )?,
            _ => push_line(&mut input, random, b"32 upper ", b"qrstuvwxyzabcdefg\n")?,
        }
    }
    for _ in 0..100_000 {
        input.extend_from_slice(b"8 text ")?;
    }
    let mut output = Vec::new(alloc);
    answer(alloc, &mut input.as_slice(), &mut output)?;
    digest.add_bytes(output.as_slice());
    Ok(())
}

// A command, sixteen letters, and the end of the line.
fn push_line(
    input: &mut Vec<u8>,
    random: &mut Random,
    command: &[u8],
    end: &[u8],
) -> Result<(), AllocError> {
    input.extend_from_slice(command)?;
    input.extend_from_slice(&letters_of(random.bits(), LOWERCASE))?;
    input.extend_from_slice(&letters_of(random.bits(), LOWERCASE))?;
    input.extend_from_slice(end)
}
