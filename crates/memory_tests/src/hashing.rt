//! Hashed tables and maps are packed whole, or not at all.

use std::collections::BTreeMap;
use std::test::Fail;
use tinystr::TinyAsciiStr;
use tinystr_hashed::PackHashedError::Memory;
use tinystr_hashed::{pack_hashed, pack_hashed_map, pack_hashed_text_map};

// The table of the texts below. Another program computes it from the definition, with the first seed that is tried.
const FILE: &[u8] =
    b"\x01\0\0\0\x05\0\0\0\0\0\0\0\x01\0\0\0\0\x05\0\x0a\x0cCLFCADCHFBHDKWDEURAUDTNDGBP";

// A vector that isn't allocated for all of them grows several times.
fn texts() -> [TinyAsciiStr<3>; 9] {
    let text = TinyAsciiStr::from_utf8_unchecked;
    [
        text(*b"AUD"),
        text(*b"BHD"),
        text(*b"CAD"),
        text(*b"CHF"),
        text(*b"CLF"),
        text(*b"EUR"),
        text(*b"GBP"),
        text(*b"KWD"),
        text(*b"TND"),
    ]
}

#[test]
fn want_of_memory_for_hashing(rt: HostRuntime) -> Result<(), Fail> {
    let made = made!(
        rt,
        "pack_hashed given",
        "pack_hashed refused",
        Memory,
        pack_hashed(rt.alloc(), &texts())
    );
    assert!(rt; made.as_slice() == FILE);
    Ok(())
}

// The values are much longer than the keys, so they don't fit in an allocation of the keys' length.
#[test]
fn want_of_memory_for_a_hashed_map(rt: HostRuntime) -> Result<(), Fail> {
    let mut map = BTreeMap::new(rt.alloc());
    for key in texts() {
        made!(rt, "map given", "map refused", _, map.insert(key, [1; 64]));
    }
    let (keys, values) = made!(
        rt,
        "pack_hashed_map given",
        "pack_hashed_map refused",
        Memory,
        pack_hashed_map(rt.alloc(), &map)
    );
    assert!(rt; keys.as_slice() == FILE && values.as_slice() == [1; 576].as_slice());
    Ok(())
}

#[test]
fn want_of_memory_for_a_hashed_map_of_texts(rt: HostRuntime) -> Result<(), Fail> {
    let mut map = BTreeMap::new(rt.alloc());
    let value = TinyAsciiStr::<64>::from_utf8_unchecked([b'a'; 64]);
    for key in texts() {
        made!(rt, "map given", "map refused", _, map.insert(key, value));
    }
    let (keys, values) = made!(
        rt,
        "pack_hashed_text_map given",
        "pack_hashed_text_map refused",
        Memory,
        pack_hashed_text_map(rt.alloc(), &map)
    );
    assert!(rt; keys.as_slice() == FILE && values.as_slice() == [b'a'; 576].as_slice());
    Ok(())
}
