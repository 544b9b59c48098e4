//! Batches of lists of code units read, and decimal texts.

ghost use Rattle.std.specs.Prelude.{◌≤◌};

use crate::batch::{COUNT, list_at, write_numbers, write_texts};
use crate::numbers::{LOSSY, RAW, READ};
use tinystr::{ParseError, TinyAsciiStr};

const REPLACEMENT: u8 = b'?';

// Reads what is found of each list of a batch, by an expression for a `Result`. It is matched where it is made, since
// each function that hands such a value on moves it once more.
macro_rules! read_each {
    ($rounds:ident, $units:ident, $starts:ident, $texts:ident, $faults:ident, $list:ident => $found:expr, $input:ident => $read:expr) => {
        let mut made = [TinyAsciiStr::<N>::default(); COUNT];
        let mut codes = [0u32; COUNT];
        let count = $starts.len().saturating_sub(1).min(COUNT);
        for _ in 0..$rounds {
            for i in 0..count {
                let Some($list) = list_at($units, $starts, i) else {
                    break;
                };
                let Some($input) = $found else {
                    continue;
                };
                match $read {
                    Ok(text) => {
                        made[i] = text;
                        codes[i] = 0;
                    }
                    Err(fault) => codes[i] = code_of(fault),
                }
            }
        }
        write_texts(&made, $texts);
        write_codes(&codes, $faults);
    };
}

// Reads each list of a batch by an expression for a text.
macro_rules! replace_each {
    ($rounds:ident, $units:ident, $starts:ident, $texts:ident, $list:ident => $read:expr) => {
        let mut made = [TinyAsciiStr::<N>::default(); COUNT];
        let count = $starts.len().saturating_sub(1).min(COUNT);
        for _ in 0..$rounds {
            for i in 0..count {
                let Some($list) = list_at($units, $starts, i) else {
                    break;
                };
                made[i] = $read;
            }
        }
        write_texts(&made, $texts);
    };
}

/// Reads each list of bytes by reader number `reader`; false where there is no such reader.
pub fn read8_batch<const N: usize>(
    reader: usize,
    rounds: usize,
    units: &[u8],
    starts: &[u32],
    texts: &mut [u8],
    faults: &mut [u32],
) -> bool
    requires { N ≤ 128 }
{
    match reader {
        READ => read8_each::<N>(rounds, units, starts, texts, faults),
        LOSSY => lossy8_each::<N>(rounds, units, starts, texts),
        RAW => raw_each::<N>(rounds, units, starts, texts, faults),
        _ => return false,
    }
    true
}

fn read8_each<const N: usize>(
    rounds: usize,
    units: &[u8],
    starts: &[u32],
    texts: &mut [u8],
    faults: &mut [u32],
)
    requires { N ≤ 128 }
{
    read_each!(rounds, units, starts, texts, faults, list => Some(list), units => TinyAsciiStr::<N>::try_from_utf8(units));
}

// A list that has no array of N bytes leaves the empty text.
fn raw_each<const N: usize>(
    rounds: usize,
    units: &[u8],
    starts: &[u32],
    texts: &mut [u8],
    faults: &mut [u32],
)
    requires { N ≤ 128 }
{
    read_each!(rounds, units, starts, texts, faults, list => list.first_chunk::<N>(), raw => TinyAsciiStr::<N>::try_from_raw(*raw));
}

fn lossy8_each<const N: usize>(rounds: usize, units: &[u8], starts: &[u32], texts: &mut [u8])
    requires { N ≤ 128 }
{
    replace_each!(rounds, units, starts, texts, list => TinyAsciiStr::<N>::from_utf8_lossy(list, REPLACEMENT));
}

/// The same of code units of 16 bits.
pub fn read16_batch<const N: usize>(
    reader: usize,
    rounds: usize,
    units: &[u16],
    starts: &[u32],
    texts: &mut [u8],
    faults: &mut [u32],
) -> bool
    requires { N ≤ 128 }
{
    match reader {
        READ => read16_each::<N>(rounds, units, starts, texts, faults),
        LOSSY => lossy16_each::<N>(rounds, units, starts, texts),
        _ => return false,
    }
    true
}

fn read16_each<const N: usize>(
    rounds: usize,
    units: &[u16],
    starts: &[u32],
    texts: &mut [u8],
    faults: &mut [u32],
)
    requires { N ≤ 128 }
{
    read_each!(rounds, units, starts, texts, faults, list => Some(list), units => TinyAsciiStr::<N>::try_from_utf16(units));
}

fn lossy16_each<const N: usize>(rounds: usize, units: &[u16], starts: &[u32], texts: &mut [u8])
    requires { N ≤ 128 }
{
    replace_each!(rounds, units, starts, texts, list => TinyAsciiStr::<N>::from_utf16_lossy(list, REPLACEMENT));
}

/// Reads each text from the start of the remaining bytes, up to the first fault.
pub fn read_bytes_batch<const N: usize>(rounds: usize, bytes: &[u8], texts: &mut [u8]) -> bool
    requires { N ≤ 128 }
{
    let mut made = [TinyAsciiStr::<N>::default(); COUNT];
    for _ in 0..rounds {
        let mut rest = bytes;
        for i in 0..COUNT {
            match TinyAsciiStr::<N>::read_bytes(rest) {
                Ok((text, more)) => {
                    made[i] = text;
                    rest = more;
                }
                Err(_) => break,
            }
        }
    }
    write_texts(&made, texts);
    true
}

// 1 for a NUL, 2 for a code unit above 127, and 3 for a list that is too long, with both lengths above that.
fn code_of(fault: ParseError) -> u32 {
    match fault {
        ParseError::ContainsNull => 1,
        ParseError::TooLong { max, len } => 3
            + 4 * (max % 256) as u32
            + 1024 * (len % 65536) as u32,
        ParseError::NonAscii => 2,
    }
}

fn write_codes(codes: &[u32; COUNT], faults: &mut [u32]) {
    let count = faults.len().min(COUNT);
    faults[..count].copy_from_slice(&codes[..count]);
}

/// The decimal text of each number, and 1 where it is cut.
pub fn decimal_batch<const N: usize>(
    rounds: usize,
    numbers: &[u32],
    texts: &mut [u8],
    cuts: &mut [u8],
) -> bool
    requires { N ≤ 128 }
{
    let mut made = [TinyAsciiStr::<N>::default(); COUNT];
    let mut codes = [0; COUNT];
    let count = numbers.len().min(COUNT);
    for _ in 0..rounds {
        for i in 0..count {
            match TinyAsciiStr::new_unsigned_decimal(numbers[i]) {
                Ok(text) => {
                    made[i] = text;
                    codes[i] = 0;
                }
                Err(text) => {
                    made[i] = text;
                    codes[i] = 1;
                }
            }
        }
    }
    write_texts(&made, texts);
    write_numbers(&codes, cuts);
    true
}
