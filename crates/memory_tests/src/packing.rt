//! Texts are packed, sorted and unpacked whole, or not at all.

use std::alloc::AllocError;
use std::collections::BTreeMap;
use std::test::Fail;
use tinystr::TinyAsciiStr;
use tinystr_packed::{Table, count_texts, pack, pack_map, pack_sorted, pack_text_map, unpack};

fn texts() -> [TinyAsciiStr<2>; 3] {
    let text = TinyAsciiStr::from_utf8_unchecked;
    [text(*b"b\0"), text(*b"a\0"), text(*b"b\0")]
}

// A vector that isn't made as long as its texts are grows several times.
#[test]
fn want_of_memory_for_packing_and_unpacking(rt: HostRuntime) -> Result<(), Fail> {
    let given = [TinyAsciiStr::<2>::from_utf8_unchecked(*b"ab"); 100];
    let packed = made!(
        rt,
        "pack given",
        "pack refused",
        AllocError,
        pack(rt.alloc(), &given)
    );
    let table = match Table::<2>::new(&packed) {
        Ok(table) => table,
        Err(_) => return Ok(assert!(rt; false)),
    };
    let texts = made!(
        rt,
        "unpack given",
        "unpack refused",
        AllocError,
        unpack(rt.alloc(), &table)
    );
    assert!(rt; texts.as_slice() == given.as_slice());
    Ok(())
}

#[test]
fn want_of_memory_for_sorting(rt: HostRuntime) -> Result<(), Fail> {
    let made = made!(
        rt,
        "pack_sorted given",
        "pack_sorted refused",
        AllocError,
        pack_sorted(rt.alloc(), &texts())
    );
    assert!(rt; made.as_slice() == b"a\0b\0".as_slice());
    Ok(())
}

// The values are much longer than the keys, so they don't fit in an allocation of the keys' length.
#[test]
fn want_of_memory_for_a_map(rt: HostRuntime) -> Result<(), Fail> {
    let mut map = BTreeMap::new(rt.alloc());
    let [key, ..] = texts();
    made!(rt, "map given", "map refused", _, map.insert(key, [1; 64]));
    let (keys, values) = made!(
        rt,
        "pack_map given",
        "pack_map refused",
        AllocError,
        pack_map(rt.alloc(), &map)
    );
    assert!(rt; keys.as_slice() == b"b\0".as_slice() && values.as_slice() == [1; 64].as_slice());
    Ok(())
}

#[test]
fn want_of_memory_for_a_map_of_texts(rt: HostRuntime) -> Result<(), Fail> {
    let mut map = BTreeMap::new(rt.alloc());
    let [key, ..] = texts();
    let value = TinyAsciiStr::<64>::from_utf8_unchecked([b'a'; 64]);
    made!(rt, "map given", "map refused", _, map.insert(key, value));
    let (keys, texts) = made!(
        rt,
        "pack_text_map given",
        "pack_text_map refused",
        AllocError,
        pack_text_map(rt.alloc(), &map)
    );
    assert!(rt; keys.as_slice() == b"b\0".as_slice() && texts.as_slice() == [b'a'; 64].as_slice());
    Ok(())
}

#[test]
fn want_of_memory_for_counting(rt: HostRuntime) -> Result<(), Fail> {
    let counts = made!(
        rt,
        "count_texts given",
        "count_texts refused",
        AllocError,
        count_texts(rt.alloc(), &texts())
    );
    let [twice, once, ..] = texts();
    assert!(rt; counts.get(&twice) == Some(&2) && counts.get(&once) == Some(&1));
    Ok(())
}
