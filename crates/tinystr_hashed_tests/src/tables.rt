//! Literal tables. Their seeds, pilots, moves and order come from another program, which is written from the definition.

ghost use Rattle.std.specs.Prelude.{◌<◌, ◌≤◌, ◌^◌};

use crate::{check, file};
use std::alloc::{AllocError, Global};
use std::test::Fail;
use tinystr::TinyAsciiStr;
use tinystr::ule::UleError;
use tinystr_hashed::{HashedError, HashedTable, in_place};

// The front of a table without pilots.
const SORTED: &[u8] = b"\x01\0\0\0\0\0\0\0\0\0\0\0\0\0\0\0";

// Fronts, each with its texts of at most three bytes.
const SHORT: &[(&[u8], &[&str])] = &[
    // no text
    (b"\x01\0\0\0\0\0\0\0\0\0\0\0\x79\xf1\xfd\x05", &[]),
    (b"\x01\0\0\0\x01\0\0\0\0\0\0\0\xd9\x97\x50\x17\xca", &[]),
    (
        b"\x01\0\0\0\0\0\0\0\x01\0\0\0\x9c\x51\x63\x0d\x28\xf7\x4a\x1b",
        &[],
    ),
    (
        b"\x01\0\0\0\x02\0\0\0\x02\0\0\0\x7a\xc1\x2c\xd9\x02\x1b\x7b\xe1\x03\x79\xfb\xc8\x1d\x0b",
        &[],
    ),
    // one text
    (
        b"\x01\0\0\0\x01\0\0\0\0\0\0\0\x0a\xf2\x88\x90\xdf",
        &["EUR"],
    ),
    (
        b"\x01\0\0\0\x01\0\0\0\x01\0\0\0\x87\x17\x82\xd7\0\x4b\xcd\x94\xf0",
        &["EUR"],
    ),
    (b"\x01\0\0\0\x01\0\0\0\0\0\0\0\x6e\x22\xc5\x7d\x95", &[""]),
    (
        b"\x01\0\0\0\x03\0\0\0\x02\0\0\0\x84\x44\xd6\x91\x08\x6f\x15\xe9\xb7\xac\xbb\xd8\x2f\xe6\x58",
        &["EUR"],
    ),
    // several
    (
        b"\x01\0\0\0\x02\0\0\0\x01\0\0\0\x9f\xd6\x20\xea\x51\xdc\x02\0\0\0",
        &["EUR", "", "JPY", "A", "USD"],
    ),
    (
        b"\x01\0\0\0\x04\0\0\0\0\0\0\0\x5e\x1c\xa2\x0a\x43\x47\xe9\xae",
        &["A", "JPY", "USD", "", "EUR"],
    ),
    (
        b"\x01\0\0\0\x05\0\0\0\x03\0\0\0\x1e\xaf\xf5\x76\x59\x8b\x86\xde\x41\x99\x45\xa2\x6e\x05\0\0\0\0\0\0\0",
        &["USD", "A", "JPY", "ABC", "EUR", "AB"],
    ),
    // ascending texts, without pilots: any moves and any seed are accepted
    (b"\x01\0\0\0\0\0\0\0\0\0\0\0\0\0\0\0", &["EUR"]),
    (
        b"\x01\0\0\0\0\0\0\0\0\0\0\0\0\0\0\0",
        &["", "A", "EUR", "JPY", "USD"],
    ),
    (
        b"\x01\0\0\0\0\0\0\0\x01\0\0\0\xd8\xd2\xe5\xcf\x5d\x03\x53\x7b",
        &["A", "AB", "ABC", "EUR", "JPY", "USD"],
    ),
];

// Tables of longer texts, and of shorter ones.
const OF_1: (&[u8], &[&str]) = (
    b"\x01\0\0\0\x02\0\0\0\x01\0\0\0\xb5\x8b\x2f\x45\x34\xc4\x02\0\0\0",
    &["a", "", "b", "c"],
);

const OF_8: (&[u8], &[&str]) = (
    b"\x01\0\0\0\x03\0\0\0\x01\0\0\0\x31\x5d\xd7\x12\x24\x7b\xdb\x04\0\0\0",
    &["", "abcdefgi", "bbcdefgh", "a", "abcdefgh"],
);

const OF_9: (&[u8], &[&str]) = (
    b"\x01\0\0\0\x02\0\0\0\x02\0\0\0\x18\xec\xaa\x66\xa2\xbb\x02\0\0\0\x28\xa2\x0c\x61",
    &["bbcdefghi", "abcdefghi", "", "abcdefghj", "abcdefgh"],
);

const OF_16: (&[u8], &[&str]) = (
    b"\x01\0\0\0\x02\0\0\0\x01\0\0\0\xb8\xe0\xad\x25\x63\x0f\x01\0\0\0",
    &[
        "abcdefghi",
        "abcdefghijklmnoq",
        "abcdefgh",
        "bbcdefghijklmnop",
        "abcdefghijklmnop",
    ],
);

const OF_17: (&[u8], &[&str]) = (
    b"\x01\0\0\0\x02\0\0\0\x01\0\0\0\xf2\xed\xe6\x2b\x0c\x07\x04\0\0\0",
    &[
        "bbcdefghijklmnopq",
        "abcdefghijklmnopq",
        "abcdefghi",
        "abcdefghijklmnop",
        "abcdefghijklmnopr",
    ],
);

const OF_32: (&[u8], &[&str]) = (
    b"\x01\0\0\0\x02\0\0\0\x01\0\0\0\x5f\x8d\x7a\xc9\x32\x9d\x03\0\0\0",
    &[
        "abcdefghijklmnop",
        "abcdefghijklmnopqrstuvwxyzABCDEF",
        "abcdefghijklmnopr",
        "abcdefghijklmnopqrstuvwx",
        "abcdefghijklmnopqrstuvwxyzABCDEG",
    ],
);

const OF_33: (&[u8], &[&str]) = (
    b"\x01\0\0\0\x02\0\0\0\0\0\0\0\x59\x60\x1e\0\x63\xcf",
    &[
        "abcdefghijklmnop",
        "abcdefghijklmnopqrstuvwxyzABCDEFH",
        "",
        "abcdefghijklmnopqrstuvwxyzABCDEF",
        "abcdefghijklmnopqrstuvwxyzABCDEFG",
    ],
);

const OF_3: (&[u8], &[&str]) = (
    b"\x01\0\0\0\x02\0\0\0\x01\0\0\0\x3a\x92\xae\x66\xed\x28\x01\0\0\0",
    &["EUR", "", "A", "USD", "JPY"],
);

// The same texts without pilots.
const SORTED_OF_1: &[&str] = &["", "a", "b", "c"];

const SORTED_OF_3: &[&str] = &["", "A", "EUR", "JPY", "USD"];

const SORTED_OF_8: &[&str] = &["", "a", "abcdefgh", "abcdefgi", "bbcdefgh"];

const SORTED_OF_16: &[&str] = &[
    "abcdefgh",
    "abcdefghi",
    "abcdefghijklmnop",
    "abcdefghijklmnoq",
    "bbcdefghijklmnop",
];

const SORTED_OF_33: &[&str] = &[
    "",
    "abcdefghijklmnop",
    "abcdefghijklmnopqrstuvwxyzABCDEF",
    "abcdefghijklmnopqrstuvwxyzABCDEFG",
    "abcdefghijklmnopqrstuvwxyzABCDEFH",
];

// The texts of all tables, and others that differ from one of them in a byte or in their length.
const KEYS: &str = "|A|AB|ABC|ABD|B|E|EU|EUR|EUS|EVR|FUR|eur|USD|US|JPY|JPZ|EURO|a|b|c|d|aa|\
    abcdefg|abcdefgh|abcdefgi|abcdefgj|bbcdefgh|cbcdefgh|abcdefghi|abcdefghj|abcdefghk|bbcdefghi|\
    abcdefghijklmno|abcdefghijklmnop|abcdefghijklmnoq|abcdefghijklmnor|bbcdefghijklmnop|abcdefgiijklmnop|\
    abcdefghijklmnopq|abcdefghijklmnopr|abcdefghijklmnops|bbcdefghijklmnopq|cbcdefghijklmnopq|abcdefghijklmnoqq|\
    abcdefghijklmnopqrstuvwx|abcdefghijklmnopqrstuvwxyzABCDE|abcdefghijklmnopqrstuvwxyzABCDEF|\
    abcdefghijklmnopqrstuvwxyzABCDEG|abcdefghijklmnopqrstuvwxyzABCDEH|abcdefghijklmnorqrstuvwxyzABCDEF|\
    abcdefghijklmnopqrstuvwxyzABCDEFG|abcdefghijklmnopqrstuvwxyzABCDEFH|abcdefghijklmnopqrstuvwxyzABCDEFI|\
    abcdefghijklmnopqrstuvwxyzABCDEGG|abcdefghijklmnopqrstuvwxyzABCDEFGH";

#[test]
fn each_text_is_found_at_its_index_and_no_other(rt: HostRuntime) -> Result<(), Fail> {
    for literal in SHORT {
        check(&rt, is_table::<3>(rt.alloc(), literal)?, &literal);
    }
    Ok(())
}

#[test]
fn each_byte_of_longer_texts_counts(rt: HostRuntime) -> Result<(), Fail> {
    let are_right = [
        is_table::<1>(rt.alloc(), &OF_1)?,
        is_table::<8>(rt.alloc(), &OF_8)?,
        is_table::<9>(rt.alloc(), &OF_9)?,
        is_table::<16>(rt.alloc(), &OF_16)?,
        is_table::<17>(rt.alloc(), &OF_17)?,
        is_table::<32>(rt.alloc(), &OF_32)?,
        is_table::<33>(rt.alloc(), &OF_33)?,
        is_table::<8>(rt.alloc(), &(SORTED, SORTED_OF_8))?,
        is_table::<16>(rt.alloc(), &(SORTED, SORTED_OF_16))?,
        is_table::<33>(rt.alloc(), &(SORTED, SORTED_OF_33))?,
    ];
    check(&rt, are_right == [true; 10], &are_right);
    Ok(())
}

/// Whether the front is that of a table of these texts, in which each key has its index, if it is one of them.
pub(crate) fn is_table<const N: usize>(
    alloc: Global,
    literal: &(&[u8], &[&str]),
) -> Result<bool, AllocError>
    requires positive { 0 < N }
    requires sized { N < 2 ^ 63 }
{
    let (front, texts) = *literal;
    let file = file::<N>(alloc, front, texts)?;
    match HashedTable::<N>::from_bytes(&file) {
        Ok(table) => Ok(
            has_texts(&table, texts)
                && are_searched(&table, texts)
                && are_found_in_place::<N>(&file, texts),
        ),
        Err(_) => Ok(false),
    }
}

fn has_texts<const N: usize>(table: &HashedTable<'_, N>, texts: &[&str]) -> bool
    requires { N < 2 ^ 63 }
{
    for (index, text) in texts.iter().enumerate() {
        if !is_text_at(table, index, text) {
            return false;
        }
    }
    table.len() == texts.len() && table.is_empty() == texts.is_empty()
}

fn is_text_at<const N: usize>(table: &HashedTable<'_, N>, index: usize, text: &str) -> bool
    requires { N < 2 ^ 63 }
{
    match table.get(index) {
        Some(found) => found.as_str() == text,
        None => false,
    }
}

fn are_searched<const N: usize>(table: &HashedTable<'_, N>, texts: &[&str]) -> bool
    requires { N < 2 ^ 63 }
{
    for key in KEYS.split('|') {
        let index = index_of(texts, key);
        if !is_found(table, key, index) || !is_found_by_text(table, key, index) {
            return false;
        }
    }
    true
}

fn are_found_in_place<const N: usize>(file: &[u8], texts: &[&str]) -> bool
    requires positive { 0 < N }
    requires sized { N < 2 ^ 63 }
{
    for key in KEYS.split('|') {
        if let Ok(text) = TinyAsciiStr::<N>::try_from_str(key) {
            if in_place::position(file, &text) != index_of(texts, key) {
                return false;
            }
        }
    }
    true
}

fn index_of(texts: &[&str], key: &str) -> Option<usize> {
    for (index, text) in texts.iter().enumerate() {
        if *text == key {
            return Some(index);
        }
    }
    None
}

/// Whether a key has an index in the table, or is too long for it and has none.
fn is_found<const N: usize>(table: &HashedTable<'_, N>, key: &str, index: Option<usize>) -> bool
    requires { N < 2 ^ 63 }
{
    match TinyAsciiStr::<N>::try_from_str(key) {
        Ok(key) => table.position(&key) == index && table.contains(&key) == index.is_some(),
        Err(_) => index.is_none(),
    }
}

/// Whether a key has an index at the capacity of 64 bytes, and at that of sixteen where it fits.
fn is_found_by_text<const N: usize>(
    table: &HashedTable<'_, N>,
    key: &str,
    index: Option<usize>,
) -> bool
    requires { N < 2 ^ 63 }
{
    let is_found_if_it_fits = match TinyAsciiStr::<16>::try_from_str(key) {
        Ok(shorter) => table.find_text(&shorter) == index,
        Err(_) => true,
    };
    match TinyAsciiStr::<64>::try_from_str(key) {
        Ok(longer) => is_found_if_it_fits && table.find_text(&longer) == index,
        Err(_) => false,
    }
}

#[test]
fn each_flipped_bit_has_its_fault(rt: HostRuntime) -> Result<(), Fail> {
    let are_right = [
        has_digest_of_flips::<1>(rt.alloc(), OF_1.0, OF_1.1, 0x593b_4e71_0bda_21c7)?,
        has_digest_of_flips::<1>(rt.alloc(), SORTED, SORTED_OF_1, 0x20ae_62ba_5986_6e35)?,
        has_digest_of_flips::<3>(rt.alloc(), OF_3.0, OF_3.1, 0x8f1c_cea3_9f48_de3f)?,
        has_digest_of_flips::<3>(rt.alloc(), SORTED, SORTED_OF_3, 0x1064_334a_9469_0981)?,
        has_digest_of_flips::<8>(rt.alloc(), OF_8.0, OF_8.1, 0x1789_0683_5899_603e)?,
        has_digest_of_flips::<8>(rt.alloc(), SORTED, SORTED_OF_8, 0x77ad_47cd_00d5_f9be)?,
        has_digest_of_flips::<16>(rt.alloc(), OF_16.0, OF_16.1, 0x4802_0558_19ff_7780)?,
        has_digest_of_flips::<16>(rt.alloc(), SORTED, SORTED_OF_16, 0x0809_9bda_9673_5e22)?,
        has_digest_of_flips::<33>(rt.alloc(), OF_33.0, OF_33.1, 0xa419_50a1_31c6_0980)?,
        has_digest_of_flips::<33>(rt.alloc(), SORTED, SORTED_OF_33, 0x80d3_28bb_c1c3_ef56)?,
    ];
    check(&rt, are_right == [true; 10], &are_right);
    Ok(())
}

/// Whether the results of a table's bytes, with each bit flipped in turn, have a digest, and each that is accepted is a table.
fn has_digest_of_flips<const N: usize>(
    alloc: Global,
    front: &[u8],
    texts: &[&str],
    digest: u64,
) -> Result<bool, AllocError>
    requires positive { 0 < N }
    requires sized { N < 2 ^ 63 }
{
    let mut file = file::<N>(alloc, front, texts)?;
    let mut found: u64 = 0xcbf2_9ce4_8422_2325;
    for index in 0..file.len() {
        for bit in [1, 2, 4, 8, 16, 32, 64, 128] {
            flip(&mut file, index, bit);
            let result = match HashedTable::<N>::from_bytes(&file) {
                Ok(table) if !has_each_at_its_index(&table) => return Ok(false),
                Ok(_) => 0,
                Err(fault) => number_of(fault),
            };
            flip(&mut file, index, bit);
            found = (found ^ result).wrapping_mul(0x100_0000_01b3);
        }
    }
    Ok(found == digest)
}

fn flip(file: &mut Vec<u8>, index: usize, bit: u8) {
    if let Some(byte) = file.get_mut(index) {
        *byte ^= bit;
    }
}

fn has_each_at_its_index<const N: usize>(table: &HashedTable<'_, N>) -> bool
    requires { N < 2 ^ 63 }
{
    for index in 0..table.len() {
        match table.get(index) {
            Some(text) if table.position(&text) == Some(index) => {}
            _ => return false,
        }
    }
    true
}

/// The number of a fault: its kind, and its first number.
fn number_of(fault: HashedError) -> u64 {
    let (kind, number) = match fault {
        HashedError::Header { len } => (1, len),
        HashedError::Version { version } => (2, version as usize),
        HashedError::Index { size, .. } => (3, size),
        HashedError::Records(UleError::Length { len }) => (4, len),
        HashedError::Records(UleError::Parse { index, .. }) => (5, index),
        HashedError::Place { index } => (6, index),
    };
    (number as u64).wrapping_mul(8) | kind
}
