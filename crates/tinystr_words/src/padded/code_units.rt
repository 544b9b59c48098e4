//! Readers take many code units into an array of bytes, by pieces of a known length. `code_unit` says what one of them is.
//! Lossy readers take at most sixteen bytes in a vector.

ghost use Rattle.std.specs.Prelude.{◌≡◌, ◌+◌, ◌*◌, ◌%◌, ◌≤◌, map, length, replicate};
ghost use Rattle.tinystr_words.specs.Text.{pad};
ghost use Rattle.tinystr_words.specs.Reading.{lossy, lossy_byte};
ghost use Rattle.tinystr_words.specs.Private.{IsReadPiece};

use crate::code_unit::{CHARACTERS, CodeUnit};
use crate::padded::copying::resize;
use crate::padded::first_lanes::first_lanes_of_sixteen;
use crate::word::{Word, lanes};
use std::simd::prelude::*;

// The byte of a character, or the replacement.
#[inline(always)]
fn byte_or<U: CodeUnit>(unit: U, replacement: u8) -> u8
    ensures { result ≡ lossy_byte replacement (U.number unit) }
{
    if unit.is_character() {
        unit.low_byte()
    } else {
        replacement
    }
}

// Reads `K` code units into the bytes at the same places, with the replacement for each that isn't a character, and
// returns whether all are characters. There is no early exit, so that the compiler can read all of them in one step.
#[inline(always)]
fn read_piece<U: CodeUnit, const K: usize>(
    bytes: &mut [u8],
    units: &[U],
    replacement: u8,
    at: usize,
) -> bool
    requires inside { at + K ≤ length units.now }
    requires room { length units.now ≤ length bytes.old }
    ensures read { IsReadPiece result bytes.old bytes.new (map U.number units.now) replacement at (at + K) }
    ensures len { length bytes.new ≡ length bytes.old }
{
    let mut are_characters = true;
    for i in at..at + K {
        let unit = units[i];
        are_characters &= unit.is_character();
        bytes[i] = byte_or(unit, replacement);
    }
    are_characters
}

// Two pieces, which may overlap, are all code units.
#[inline(always)]
fn read_pair<U: CodeUnit, const K: usize>(bytes: &mut [u8], units: &[U], replacement: u8) -> bool
    requires least { K ≤ length units.now }
    requires most { length units.now ≤ 2 * K }
    requires room { length units.now ≤ length bytes.old }
    ensures read { IsReadPiece result bytes.old bytes.new (map U.number units.now) replacement 0 (length units.now) }
    ensures len { length bytes.new ≡ length bytes.old }
{
    let are_characters = read_piece::<U, K>(bytes, units, replacement, 0);
    are_characters & read_piece::<U, K>(bytes, units, replacement, units.len() - K)
}

// Pieces of 32 code units, the last of which may overlap the one before it.
#[inline(always)]
fn read_many<U: CodeUnit>(bytes: &mut [u8], units: &[U], replacement: u8) -> bool
    requires least { 32 ≤ length units.now }
    requires room { length units.now ≤ length bytes.old }
    ensures read { IsReadPiece result bytes.old bytes.new (map U.number units.now) replacement 0 (length units.now) }
    ensures len { length bytes.new ≡ length bytes.old }
{
    let last = units.len() - 32;
    let mut are_characters = true;
    let mut at = 0;
    while at < last {
        are_characters &= read_piece::<U, 32>(bytes, units, replacement, at);
        at += 32;
    }
    are_characters & read_piece::<U, 32>(bytes, units, replacement, last)
}

/// Reads all code units in the largest pieces that fit, writes the replacement for each that isn't a character, and
/// returns whether all are characters.
#[inline(always)]
pub fn read_all<U: CodeUnit>(bytes: &mut [u8], units: &[U], replacement: u8) -> bool
    requires room { length units.now ≤ length bytes.old }
    ensures read { IsReadPiece result bytes.old bytes.new (map U.number units.now) replacement 0 (length units.now) }
    ensures len { length bytes.new ≡ length bytes.old }
{
    // The capacity is known at compile time, so no code is built for pieces that are longer.
    let capacity = bytes.len();
    let len = units.len();
    if capacity >= 32 && len >= 32 {
        read_many(bytes, units, replacement)
    } else if capacity >= 16 && len >= 16 {
        read_pair::<U, 16>(bytes, units, replacement)
    } else if capacity >= 8 && len >= 8 {
        read_pair::<U, 8>(bytes, units, replacement)
    } else if capacity >= 4 && len >= 4 {
        read_pair::<U, 4>(bytes, units, replacement)
    } else if len >= 2 {
        read_pair::<U, 2>(bytes, units, replacement)
    } else {
        len == 0 || read_pair::<U, 1>(bytes, units, replacement)
    }
}

// The low bytes of all code units, eight at a time. The pieces end at 7, 15 and so on, where the compiler cuts a
// `Result` of a text and an error of two numbers, so that each stays in a register.
#[tactic(auto, using(crate::proofs::Pieces::Copying::mapped_more))]
#[inline(always)]
fn put_low_bytes<U: CodeUnit>(bytes: &mut [u8], units: &[U])
    requires least { 8 ≤ length units.now }
    requires len { length bytes.old ≡ length units.now }
    ensures { bytes.new ≡ map (λ unit. U.number unit % 256) units.now }
{
    let len = units.len();
    let mut start = 0;
    let mut end = 7;
    while end < len {
        let eight = U::eight_low_bytes(&units[start..start + 8]);
        bytes[start..end].copy_from_slice(&eight[..end - start]);
        start = end;
        end += 8;
    }
    let eight = U::eight_low_bytes(&units[len - 8..]);
    bytes[start..len].copy_from_slice(&eight[8 - (len - start)..]);
}

/// The low bytes of `N` code units. For bytes this is one copy of a known length, which the compiler splits wherever it
/// splits a `Result`. 16-bit code units are packed eight at a time, since a loop would put their bytes together one by
/// one.
#[inline(always)]
pub fn low_bytes<U: CodeUnit, const N: usize>(units: &[U]) -> [u8; N]
    requires { length units.now ≡ N }
    ensures { result ≡ map (λ unit. U.number unit % 256) units.now }
{
    let mut bytes = [0; N];
    if N >= 8 && U::as_bytes(units).is_none() {
        put_low_bytes(&mut bytes[..], units);
        return bytes;
    }
    for i in 0..N {
        bytes[i] = units[i].low_byte();
    }
    bytes
}

// `N` code units in an array of their own, which the compiler keeps in registers.
#[inline(always)]
fn lossy_chunk<U: CodeUnit, const N: usize>(units: &[U], replacement: u8) -> [u8; N]
    requires { length units.now ≡ N }
    ensures { result ≡ map (lossy_byte replacement) (map U.number units.now) }
{
    let mut bytes = [0; N];
    read_piece::<U, N>(&mut bytes[..], units, replacement, 0);
    bytes
}

/// The first `N` code units, with the replacement for each that isn't a character, and then NULs.
#[tactic(auto, using(crate::proofs::Pieces::CodeUnits::lossy_pieces))]
#[inline(always)]
pub fn lossy<U: CodeUnit, const N: usize>(units: &[U], replacement: u8) -> [u8; N]
    ensures { result ≡ pad (lossy (map U.number units.now) replacement N) N }
{
    if units.len() >= N {
        // past 8 bytes the loop of a known length is faster
        let front = &units[..N];
        return match U::as_bytes(front) {
            Some(bytes) if N <= 8 => lossy_word(bytes, replacement),
            _ => lossy_chunk(front, replacement),
        };
    }
    if let Some(bytes) = U::as_bytes(units)
        && bytes.len() <= 16
    {
        return lossy_word(bytes, replacement);
    }
    let mut bytes = [0; N];
    read_all(&mut bytes[..], units, replacement);
    bytes
}

// At most sixteen bytes, with the replacement for each that isn't a character, and then NULs.
#[tactic(auto, using(crate::proofs::Vectors::replaced))]
#[inline(always)]
fn lossy_word<const N: usize>(bytes: &[u8], replacement: u8) -> [u8; N]
    requires one_word { length bytes.now ≤ 16 }
    requires fits { length bytes.now ≤ N }
    ensures { result ≡ pad (map (lossy_byte replacement) bytes.now) N }
{
    resize(&lossy_lanes(bytes, replacement).to_array()[..])
}

// As `lossy_word`, in a vector. The bytes are loaded in registers: a load of bytes that were stored in pieces would wait
// for them.
#[inline(always)]
fn lossy_lanes(bytes: &[u8], replacement: u8) -> u8x16
    requires { length bytes.now ≤ 16 }
    ensures { result ≡ pad (map (lossy_byte replacement) bytes.now) 16 }
{
    let given = lanes(<u128 as Word<16>>::load(bytes));
    let are_characters = (given - u8x16::splat(1)).simd_lt(u8x16::splat(CHARACTERS));
    are_characters.select(given, replacements(replacement, bytes.len()))
}

// `count` replacements, and then NULs.
#[tactic(auto, using(crate::proofs::Vectors::replaced))]
#[inline(always)]
fn replacements(replacement: u8, count: usize) -> u8x16
    requires { count ≤ 16 }
    ensures { result ≡ pad (replicate count replacement) 16 }
{
    first_lanes_of_sixteen(u8x16::splat(replacement), count)
}
