//! Searches for many keys, and the number of those whose answers follow.

ghost use Rattle.std.specs.Prelude.{◌<◌, ◌^◌};

use crate::check;
use std::alloc::{AllocError, Global};
use std::test::Fail;
use tinystr::TinyAsciiStr;
use tinystr_packed::{PackedMap, SortedTable, in_place, pack};

// The letters of the table's texts, each second one, and keys: the letters from `a` on, in order and in any.
const LETTERS: &[u8] = b"bdfhjlnpr";

const KEYS: &[&[u8]] = &[
    b"",
    b"abcdefghijklmnopqrs",
    b"srqponmlkjihgfedcba",
    b"bbbrbrhmasa",
];

// What is found of a letter.
fn answer(letter: u8) -> Result<usize, usize> {
    let index = usize::from(letter.saturating_sub(b'a'));
    let place = index / 2;
    if index % 2 == 1 {
        Ok(place)
    } else {
        Err(place)
    }
}

// Texts that fill their capacity, and end with these letters.
fn texts<const N: usize>(alloc: Global, letters: &[u8]) -> Result<Vec<TinyAsciiStr<N>>, AllocError>
    requires { N < 2 ^ 63 }
{
    let mut texts = Vec::new(alloc);
    for letter in letters {
        let mut raw = [b'm'; N];
        if let Some(last) = raw.last_mut() {
            *last = *letter;
        }
        if let Ok(text) = TinyAsciiStr::try_from_raw(raw) {
            texts.push(text)?;
        }
    }
    Ok(texts)
}

fn are_searched<const N: usize>(
    sorted: &SortedTable<'_, N>,
    keys: &[TinyAsciiStr<N>],
    letters: &[u8],
) -> bool {
    let mut answers = sorted.binary_search_each(keys);
    let mut left = keys.len();
    for letter in letters {
        let is_left = answers.size_hint() == (left, Some(left)) && answers.len() == left;
        if !is_left || answers.next() != Some(answer(*letter)) {
            return false;
        }
        left = left.saturating_sub(1);
    }
    answers.next().is_none()
}

// Whether eight keys at a time have their answers.
fn are_searched_in_place<const N: usize>(
    file: &[u8],
    keys: &[TinyAsciiStr<N>],
    letters: &[u8],
) -> bool
    requires above { 0 < N }
    requires below { N < 2 ^ 60 }
{
    for (eight, letters) in keys
        .as_chunks::<8>()
        .0
        .iter()
        .zip(letters.as_chunks::<8>().0)
    {
        if in_place::search_eight(file, eight, 0) != letters.map(answer) {
            return false;
        }
    }
    true
}

fn are_found<const N: usize>(alloc: Global) -> Result<bool, AllocError>
    requires above { 0 < N }
    requires below { N < 2 ^ 60 }
{
    let file = pack(alloc, &texts::<N>(alloc, LETTERS)?)?;
    let Ok(sorted) = SortedTable::<N>::from_bytes(&file) else {
        return Ok(false);
    };
    for letters in KEYS {
        let keys = texts::<N>(alloc, letters)?;
        if !are_searched(&sorted, &keys, letters) || !are_searched_in_place(&file, &keys, letters) {
            return Ok(false);
        }
    }
    Ok(true)
}

// In one word, in two, and longer.
#[test]
fn each_key_has_its_answer(rt: HostRuntime) -> Result<(), Fail> {
    let are_right = [
        are_found::<3>(rt.alloc())?,
        are_found::<12>(rt.alloc())?,
        are_found::<17>(rt.alloc())?,
    ];
    check(&rt, are_right == [true; 3], &are_right);
    Ok(())
}

fn have_values(map: &PackedMap<'_, 1, 1>, keys: &[TinyAsciiStr<1>]) -> bool {
    let mut values = map.get_each(keys);
    let mut left = keys.len();
    for value in [Some(b"0"), None, Some(b"8")] {
        let is_left = values.size_hint() == (left, Some(left)) && values.len() == left;
        if !is_left || values.next() != Some(value) {
            return false;
        }
        left = left.saturating_sub(1);
    }
    values.next().is_none()
}

#[test]
fn each_key_has_its_value(rt: HostRuntime) -> Result<(), Fail> {
    let keys = texts::<1>(rt.alloc(), b"bcr")?;
    let are_values = match PackedMap::<1, 1>::new(LETTERS, b"012345678") {
        Ok(map) => have_values(&map, &keys),
        Err(_) => false,
    };
    assert!(rt; are_values);
    Ok(())
}
