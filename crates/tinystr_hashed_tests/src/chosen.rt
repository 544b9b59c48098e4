//! Texts that are chosen so that their hashes are equal.

use std::alloc::{AllocError, Global};
use std::collections::BTreeMap;
use std::test::Fail;
use tinystr::TinyAsciiStr;
use tinystr_hashed::{PackHashedError, pack_hashed, pack_hashed_map, pack_hashed_text_map};

// Two texts that begin with one of these have the hash 0, one for each seed that the packing tries: the last eight of its bytes are
// the hash of the others. Another program computes them from the definition. They are no constant, since each proof would read it.
fn beginnings() -> &'static [&'static str; 12] {
    &[
        "rybwihuzjjyqaqpyKn4*kkvX",
        "offxwfioyliolnpo.'<YW5hl",
        "vrupmxaghfoaakxoo:_P$vqu",
        "zxbjznbruzxqzafv`5.s'Up{",
        "gjvyhxrgedvoeavfs`-io!Cr",
        "arvkjfgzkfahjocq;g'(xbge",
        "qqbllqaoopejqthm,H/FmmU1",
        "aifsqdgiolnkxduy+pVMobF0",
        "bolyrsgczxnuzacv$%-[k7fQ",
        "cppipfbcowtarmqf%UyUW,R$",
        "geqhemczlfevckru+W[H`xVZ",
        "etdleemcyylficef8tC^CAUY",
    ]
}

/// Two texts of each beginning.
fn texts(alloc: Global, beginnings: &[&str]) -> Result<Vec<TinyAsciiStr<32>>, AllocError> {
    let mut texts = Vec::new(alloc);
    for beginning in beginnings {
        let beginning = TinyAsciiStr::<24>::from_utf8_lossy(beginning.as_bytes(), b'?');
        for end in [b"a", b"b"] {
            texts.push(beginning.concat(TinyAsciiStr::<8>::from_utf8_lossy(end, b'?')))?;
        }
    }
    Ok(texts)
}

#[test]
fn texts_of_equal_hashes_for_each_seed_are_packed_in_order(rt: HostRuntime) -> Result<(), Fail> {
    let mut texts = texts(rt.alloc(), beginnings())?;
    let bytes = pack_hashed(rt.alloc(), &texts)?;
    texts.sort_unstable();
    assert!(rt; is_in_order(&bytes, &texts));
    Ok(())
}

/// Whether bytes are a constant header and the records of texts.
fn is_in_order(bytes: &[u8], texts: &[TinyAsciiStr<32>]) -> bool {
    let (header, records) = bytes.split_at(bytes.len().min(16));
    header == b"\x01\0\0\0\0\0\0\0\0\0\0\0\0\0\0\0".as_slice()
        && records.len() / 32 == texts.len()
        && records
            .as_chunks()
            .0
            .iter()
            .zip(texts)
            .all(|(record, text)| record == text.all_bytes())
}

#[test]
fn a_text_among_them_that_occurs_twice_is_named(rt: HostRuntime) -> Result<(), Fail> {
    let mut texts = texts(rt.alloc(), beginnings())?;
    let Some(text) = texts.get(5).copied() else {
        return Ok(());
    };
    texts.push(text)?;
    let fault = pack_hashed(rt.alloc(), &texts).err();
    assert!(rt; fault == Some(PackHashedError::Duplicate { text }));
    Ok(())
}

#[test]
fn a_map_with_such_keys_is_packed(rt: HostRuntime) -> Result<(), Fail> {
    let mut map = BTreeMap::new(rt.alloc());
    let mut text_map = BTreeMap::new(rt.alloc());
    for key in texts(rt.alloc(), beginnings())?.iter() {
        map.insert(*key, [1])?;
        text_map.insert(*key, *key)?;
    }
    let (keys, values) = pack_hashed_map(rt.alloc(), &map)?;
    assert!(rt; keys.len() == 784 && values.len() == 24);
    let (keys, values) = pack_hashed_text_map(rt.alloc(), &text_map)?;
    assert!(rt; keys.len() == 784 && keys.get(16..) == Some(values.as_slice()));
    Ok(())
}

// Without a beginning, the texts are packed by the seed that it was computed for.
#[test]
fn the_seeds_are_tried_from_the_first_to_the_last(rt: HostRuntime) -> Result<(), Fail> {
    let but_the_first = texts(rt.alloc(), &beginnings()[1..])?;
    let bytes = pack_hashed(rt.alloc(), &but_the_first)?;
    assert!(rt; has_seed(&bytes, b"\x01\0\0\0"));
    let but_the_last = texts(rt.alloc(), &beginnings()[..11])?;
    let bytes = pack_hashed(rt.alloc(), &but_the_last)?;
    assert!(rt; has_seed(&bytes, b"\x0c\0\0\0"));
    Ok(())
}

fn has_seed(bytes: &[u8], seed: &[u8]) -> bool {
    bytes.get(12..16) == Some(seed)
}
