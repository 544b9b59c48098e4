//! Columns of codes, as a CSV file of currencies, units or airports has them: read, tested, changed, counted, printed and
//! written as JSON, with empty cells and faults among them.

ghost use Rattle.std.specs.Prelude.{◌<◌, ◌^◌};

use crate::cells::Cells;
use crate::digest::Digest;
use crate::random::{LOWERCASE, MIXED, Random, UPPERCASE, push_word};
use std::alloc::{AllocError, Global};
use std::collections::BTreeMap;
use tinystr::TinyAsciiStr;

const COUNT: usize = 50_000;

/// Columns of 3, 4, 8, 16 and 48 bytes.
pub fn run(alloc: Global, random: &mut Random, digest: &mut Digest) -> Result<(), AllocError> {
    run_at::<3>(alloc, random, digest)?;
    run_at::<4>(alloc, random, digest)?;
    run_at::<8>(alloc, random, digest)?;
    run_at::<16>(alloc, random, digest)?;
    run_at::<48>(alloc, random, digest)
}

fn run_at<const N: usize>(
    alloc: Global,
    random: &mut Random,
    digest: &mut Digest,
) -> Result<(), AllocError>
    requires some { 0 < N }
    requires bound { N < 2 ^ 63 }
{
    let cells = make_cells::<N>(alloc, random)?;
    let texts = read::<N>(alloc, &cells, digest)?;
    read_others::<N>(alloc, &cells, digest)?;
    read_records(alloc, &texts, random, digest)?;
    let changed = change(alloc, &texts, digest)?;
    count(alloc, &changed, digest)?;
    print(alloc, &changed, digest)?;
    through_json(alloc, &texts, digest)
}

// Most cells fill the capacity or nearly; some are empty, too long, or have a byte that is no character.
#[inline(never)]
fn make_cells<const N: usize>(alloc: Global, random: &mut Random) -> Result<Cells, AllocError> {
    let mut cells = Cells::new(alloc);
    for _ in 0..COUNT {
        push_cell::<N>(cells.bytes(), random)?;
        cells.end()?;
    }
    Ok(cells)
}

fn push_cell<const N: usize>(cell: &mut Vec<u8>, random: &mut Random) -> Result<(), AllocError> {
    let kind = random.below(100);
    if kind < 6 {
        return Ok(());
    }
    let letters = match kind % 4 {
        0 => LOWERCASE,
        1 => MIXED,
        _ => UPPERCASE,
    };
    let mut left = if kind < 60 {
        N
    } else {
        N.min(1 + random.below(48))
    };
    for _ in 0..N / 8 {
        push_word(cell, random, letters, left)?;
        left = left.saturating_sub(8);
    }
    push_word(cell, random, letters, left)?;
    match kind {
        94 | 95 => cell.extend_from_slice(b"more"),
        96 | 97 => cell.extend_from_slice("é".as_bytes()),
        98 => put(cell, 0xff),
        99 => put(cell, 0),
        _ => Ok(()),
    }
}

// Puts a byte into the place of the last.
fn put(cell: &mut Vec<u8>, byte: u8) -> Result<(), AllocError> {
    let _ = cell.pop();
    cell.push(byte)?;
    Ok(())
}

#[inline(never)]
fn read<const N: usize>(
    alloc: Global,
    cells: &Cells,
    digest: &mut Digest,
) -> Result<Vec<TinyAsciiStr<N>>, AllocError>
    requires { N < 2 ^ 63 }
{
    let mut texts = Vec::new(alloc);
    for index in 0..cells.len() {
        match TinyAsciiStr::<N>::try_from_utf8(cells.get(index)) {
            Ok(text) => texts.push(text)?,
            Err(fault) => digest.add_fault(fault),
        }
    }
    Ok(texts)
}

// The same cells by the lossy reader, and as numbers of 16 bits by both.
#[inline(never)]
fn read_others<const N: usize>(
    alloc: Global,
    cells: &Cells,
    digest: &mut Digest,
) -> Result<(), AllocError>
    requires { N < 2 ^ 63 }
{
    let mut texts = Vec::new(alloc);
    let mut units: Vec<u16> = Vec::new(alloc);
    for index in 0..cells.len() {
        let cell = cells.get(index);
        texts.push(TinyAsciiStr::<N>::from_utf8_lossy(cell, b'?'))?;
        units.clear();
        for byte in cell {
            units.push(u16::from(*byte))?;
        }
        if index % 2 == 0 {
            match TinyAsciiStr::<N>::try_from_utf16(&units) {
                Ok(text) => texts.push(text)?,
                Err(fault) => digest.add_fault(fault),
            }
        } else {
            texts.push(TinyAsciiStr::<N>::from_utf16_lossy(&units, b'?'))?;
        }
    }
    for text in &texts {
        digest.add_text(text);
    }
    Ok(())
}

// The texts as records of a file, of which one in some hundreds was spoiled.
#[inline(never)]
fn read_records<const N: usize>(
    alloc: Global,
    texts: &[TinyAsciiStr<N>],
    random: &mut Random,
    digest: &mut Digest,
) -> Result<(), AllocError>
    requires some { 0 < N }
    requires bound { N < 2 ^ 63 }
{
    let mut file = Vec::new(alloc);
    for text in texts {
        file.extend_from_slice(text.all_bytes())?;
    }
    digest.add(u64::from(TinyAsciiStr::<N>::validate_bytes(&file).is_ok()));
    for _ in 0..COUNT / 256 {
        let at = random.bits() as usize;
        if !file.is_empty() {
            let place = at % file.len();
            file[place] = 0x80;
        }
    }
    if file.is_empty() {
        return Ok(());
    }
    let (records, _) = file.as_slice().as_chunks::<N>();
    for raw in records {
        match TinyAsciiStr::try_from_raw(*raw) {
            Ok(text) => digest.add_text(&text),
            Err(fault) => digest.add_fault(fault),
        }
    }
    Ok(())
}

#[inline(never)]
fn change<const N: usize>(
    alloc: Global,
    texts: &[TinyAsciiStr<N>],
    digest: &mut Digest,
) -> Result<Vec<TinyAsciiStr<N>>, AllocError> {
    let mut changed = Vec::new(alloc);
    for text in texts {
        digest.add(
            u64::from(text.is_ascii_alphabetic())
                | u64::from(text.is_ascii_alphanumeric()) << 1
                | u64::from(text.is_ascii_alphabetic_uppercase()) << 2,
        );
        let kept = if text.is_ascii_lowercase() {
            text.to_ascii_titlecase()
        } else {
            text.to_ascii_uppercase()
        };
        changed.push(kept)?;
    }
    Ok(changed)
}

#[inline(never)]
fn count<const N: usize>(
    alloc: Global,
    texts: &[TinyAsciiStr<N>],
    digest: &mut Digest,
) -> Result<(), AllocError> {
    let mut counts = BTreeMap::new(alloc);
    for text in texts {
        let count = counts.entry(*text)?.or_insert(0u32);
        *count = count.saturating_add(1);
    }
    for (text, count) in &counts {
        digest.add_bytes(text.all_bytes());
        digest.add(u64::from(*count));
    }
    Ok(())
}

#[inline(never)]
fn print<const N: usize>(
    alloc: Global,
    texts: &[TinyAsciiStr<N>],
    digest: &mut Digest,
) -> Result<(), AllocError> {
    let mut printed = String::new(alloc);
    for text in texts {
        write!(printed, "{text},")?;
    }
    digest.add_bytes(printed.as_bytes());
    Ok(())
}

#[inline(never)]
fn through_json<const N: usize>(
    alloc: Global,
    texts: &[TinyAsciiStr<N>],
    digest: &mut Digest,
) -> Result<(), AllocError>
    requires { N < 2 ^ 63 }
{
    let mut values = Vec::new(alloc);
    for text in texts {
        values.push(text.to_json(alloc)?)?;
    }
    for value in &values {
        match TinyAsciiStr::<N>::from_json(value) {
            Ok(text) => digest.add_text(&text),
            Err(_) => digest.add(1 << 40),
        }
    }
    Ok(())
}
