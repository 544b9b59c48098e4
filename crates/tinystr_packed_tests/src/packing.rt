//! The bytes of packed texts and maps, and texts counted.

use crate::check;
use std::alloc::{AllocError, Global};
use std::collections::BTreeMap;
use std::test::Fail;
use tinystr::{TinyAsciiStr, TinyStr4};
use tinystr_packed::{Table, count_texts, pack, pack_map, pack_sorted, pack_text_map, unpack};

// The words of a text.
fn texts(alloc: Global, words: &str) -> Result<Vec<TinyStr4>, AllocError> {
    let mut made = Vec::new(alloc);
    for word in words.split('|') {
        made.push(TinyAsciiStr::from_utf8_lossy(word.as_bytes(), b'?'))?;
    }
    Ok(made)
}

fn are_unpacked(alloc: Global, file: &[u8], texts: &[TinyStr4]) -> Result<bool, AllocError> {
    match Table::<4>::new(file) {
        Ok(table) => Ok(unpack(alloc, &table)?.as_slice() == texts),
        Err(_) => Ok(false),
    }
}

#[test]
fn texts_are_padded_and_joined_as_they_are(rt: HostRuntime) -> Result<(), Fail> {
    let texts = texts(rt.alloc(), "b||a|Cyrl|b")?;
    let file = pack(rt.alloc(), &texts)?;
    let are_right = [
        file.as_slice() == b"b\0\0\0\0\0\0\0a\0\0\0Cyrlb\0\0\0".as_slice(),
        are_unpacked(rt.alloc(), &file, &texts)?,
    ];
    check(&rt, are_right == [true; 2], &are_right);
    Ok(())
}

#[test]
fn texts_are_packed_in_order_and_each_once(rt: HostRuntime) -> Result<(), Fail> {
    let texts = texts(rt.alloc(), "abc|ab|abcd||Z|ab")?;
    let file = pack_sorted(rt.alloc(), &texts)?;
    assert!(rt; file.as_slice() == b"\0\0\0\0Z\0\0\0ab\0\0abc\0abcd".as_slice());
    Ok(())
}

#[test]
fn keys_and_values_of_a_map_are_packed(rt: HostRuntime) -> Result<(), Fail> {
    let mut map = BTreeMap::new(rt.alloc());
    let mut text_map = BTreeMap::new(rt.alloc());
    for (key, value) in texts(rt.alloc(), "USD|CHF|EUR")?
        .iter()
        .zip([b"78", b"12", b"3\0"])
    {
        map.insert(*key, *value)?;
        text_map.insert(*key, TinyAsciiStr::from_utf8_unchecked(*value))?;
    }
    let (keys, values) = pack_map(rt.alloc(), &map)?;
    let are_right = [
        keys.as_slice() == b"CHF\0EUR\0USD\0".as_slice(),
        values.as_slice() == b"123\078".as_slice(),
    ];
    check(&rt, are_right == [true; 2], &are_right);
    let (same, texts) = pack_text_map(rt.alloc(), &text_map)?;
    assert!(rt; same == keys && texts == values);
    Ok(())
}

#[test]
fn each_text_is_counted(rt: HostRuntime) -> Result<(), Fail> {
    let texts = texts(rt.alloc(), "b|a|ab|b")?;
    let counts = count_texts(rt.alloc(), &texts)?;
    let a = TinyAsciiStr::from_utf8_unchecked(*b"a\0\0\0");
    let b = TinyAsciiStr::from_utf8_unchecked(*b"b\0\0\0");
    assert!(rt; counts.len() == 3 && counts.get(&b) == Some(&2) && counts.get(&a) == Some(&1));
    Ok(())
}

// 320 texts, more than a byte counts.
fn many(alloc: Global) -> Result<Vec<TinyStr4>, AllocError> {
    let mut texts = Vec::new(alloc);
    for first in b'a'..=b'p' {
        for second in b'a'..=b't' {
            texts.push(TinyAsciiStr::from_utf8_lossy(&[first, second], b'?'))?;
        }
    }
    Ok(texts)
}

#[test]
fn many_texts_are_packed_sorted_and_counted(rt: HostRuntime) -> Result<(), Fail> {
    let texts = many(rt.alloc())?;
    let file = pack(rt.alloc(), &texts)?;
    let are_right = [
        file.len() == 1280 && are_unpacked(rt.alloc(), &file, &texts)?,
        pack_sorted(rt.alloc(), &texts)? == file,
        count_texts(rt.alloc(), &texts)?.len() == 320,
    ];
    check(&rt, are_right == [true; 3], &are_right);
    let mut map = BTreeMap::new(rt.alloc());
    let mut text_map = BTreeMap::new(rt.alloc());
    for text in texts.iter() {
        map.insert(*text, text.to_bytes())?;
        text_map.insert(*text, *text)?;
    }
    let (keys, values) = pack_map(rt.alloc(), &map)?;
    assert!(rt; keys == file && values == file);
    let (keys, values) = pack_text_map(rt.alloc(), &text_map)?;
    assert!(rt; keys == file && values == file);
    Ok(())
}
