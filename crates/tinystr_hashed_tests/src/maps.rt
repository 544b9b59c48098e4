//! Hashed maps.

use crate::check;
use std::alloc::Global;
use std::collections::BTreeMap;
use tinystr::ParseError::NonAscii;
use tinystr::TinyAsciiStr;
use tinystr::ule::UleError::{Length, Parse};
use tinystr_hashed::HashedError::{Header, Index, Place, Records, Version};
use tinystr_hashed::HashedMapError::{Keys, Values};
use tinystr_hashed::{HashedMap, HashedMapError, pack_hashed_map};

// A table of the keys below, in their order. Another program computes it from the definition.
const KEYS: &[u8] = b"\x01\0\0\0\x03\0\0\0\x01\0\0\0\xce\x2c\x23\x0f\xe0\x7c\xc6\x02\0\0\0\
    EUR\0\0\0USDA\0\0JPY";

const VALUES: &[u8] = b"\x01\x02\x03\x04\x05\x06\0\xff\0\0";

// The keys, each with its value.
const ENTRIES: &[(&str, [u8; 2])] = &[
    ("EUR", [1, 2]),
    ("", [3, 4]),
    ("USD", [5, 6]),
    ("A", [0, 255]),
    ("JPY", [0, 0]),
];

// Tables of no key and of one.
const NO_KEY: &[u8] = b"\x01\0\0\0\0\0\0\0\0\0\0\0\0\0\0\0";

const ONE_KEY: &[u8] = b"\x01\0\0\0\0\0\0\0\0\0\0\0\0\0\0\0EUR";

fn value_of(keys: &[u8], values: &[u8], key: &str) -> Option<[u8; 2]> {
    let map = HashedMap::<3, 2>::new(keys, values).ok()?;
    map.find_text(&TinyAsciiStr::<8>::try_from_str(key).ok()?)
        .copied()
}

fn is_key(keys: &[u8], values: &[u8], key: &str) -> bool {
    match (
        HashedMap::<3, 2>::new(keys, values),
        TinyAsciiStr::try_from_str(key),
    ) {
        (Ok(map), Ok(key)) => map.contains_key(&key),
        _ => false,
    }
}

/// Whether the map has the key with this value.
fn is_value(keys: &[u8], values: &[u8], key: &str, value: [u8; 2]) -> bool {
    value_of(keys, values, key) == Some(value) && is_key(keys, values, key)
}

/// Whether the map has neither the key nor a value of it.
fn is_no_key(keys: &[u8], values: &[u8], key: &str) -> bool {
    value_of(keys, values, key).is_none() && !is_key(keys, values, key)
}

#[test]
fn each_key_has_its_value(rt: HostRuntime) {
    for (key, value) in ENTRIES {
        check(&rt, is_value(KEYS, VALUES, key, *value), &key);
    }
    assert!(rt; is_value(ONE_KEY, b"\0\xff", "EUR", [0, 255]));
}

#[test]
fn other_texts_have_no_value(rt: HostRuntime) {
    for key in "AA|B|E|EU|EUS|FUR|eur|USA|U|JPZ|~~~|EURO".split('|') {
        check(
            &rt,
            is_no_key(KEYS, VALUES, key) && is_no_key(ONE_KEY, b"\x01\x02", key),
            &key,
        );
    }
    for key in ["", "EUR", "USD"] {
        check(&rt, is_no_key(NO_KEY, b"", key), &key);
    }
    assert!(rt; is_no_key(ONE_KEY, b"\x01\x02", "") && is_no_key(ONE_KEY, b"\x01\x02", "USD"));
}

#[test]
fn entries_are_in_the_order_of_the_keys(rt: HostRuntime) {
    let are_right = [
        has_entries(KEYS, VALUES, ENTRIES),
        has_entries(ONE_KEY, b"\x07\x08", &[("EUR", [7, 8])]),
        has_entries(NO_KEY, b"", &[]) && has_len(&HashedMap::default(), 0),
    ];
    check(&rt, are_right == [true; 3], &are_right);
}

/// Whether the map has these entries in this order and no more, and each count is that of those that are left.
fn has_entries(keys: &[u8], values: &[u8], entries: &[(&str, [u8; 2])]) -> bool {
    let Ok(map) = HashedMap::<3, 2>::new(keys, values) else {
        return false;
    };
    let mut found = map.iter();
    let mut left = entries.len();
    for (key, value) in entries {
        if found.size_hint() != (left, Some(left)) {
            return false;
        }
        match found.next() {
            Some((text, bytes)) if text.as_str() == *key && bytes == value => {}
            _ => return false,
        }
        left = left.saturating_sub(1);
    }
    found.size_hint() == (0, Some(0)) && found.next().is_none() && has_len(&map, entries.len())
}

fn has_len(map: &HashedMap<'_, 3, 2>, len: usize) -> bool {
    map.len() == len
        && map.is_empty() == (len == 0)
        && map.keys().len() == len
        && map.values().len() == len
}

// Keys and values, each with the fault for which they are rejected.
const REJECTED: &[(&[u8], &[u8], HashedMapError)] = &[
    // keys that aren't a hashed table
    (b"", b"", Keys(Header { len: 0 })),
    (b"EUR", b"\x01\x02", Keys(Header { len: 3 })),
    (
        b"\x02\0\0\0\0\0\0\0\0\0\0\0\0\0\0\0EUR",
        b"\x01\x02",
        Keys(Version { version: 2 }),
    ),
    (
        b"\x01\0\0\0\x04\0\0\0\0\0\0\0\0\0\0\0EUR",
        b"\x01\x02",
        Keys(Index { size: 4, len: 3 }),
    ),
    (
        b"\x01\0\0\0\0\0\0\0\0\0\0\0\0\0\0\0EURO",
        b"\x01\x02",
        Keys(Records(Length { len: 4 })),
    ),
    (
        b"\x01\0\0\0\0\0\0\0\0\0\0\0\0\0\0\0EU\xff",
        b"\x01\x02",
        Keys(Records(Parse {
            index: 0,
            fault: NonAscii,
        })),
    ),
    (
        b"\x01\0\0\0\x03\0\0\0\x01\0\0\0\xce\x2c\x23\x0f\xe0\x7c\xc6\x02\0\0\0\
            EUR\0\0\0USDJPYA\0\0",
        VALUES,
        Keys(Place { index: 3 }),
    ),
    // that, though the values are too few
    (b"EUR", b"\x01", Keys(Header { len: 3 })),
    (
        b"\x01\0\0\0\x03\0\0\0\x01\0\0\0\xce\x2c\x23\x0f\xe0\x7c\xc6\x02\0\0\0\
            EUR\0\0\0USDJPYA\0\0",
        b"\x01",
        Keys(Place { index: 3 }),
    ),
    // values that aren't two bytes for each key
    (KEYS, b"", Values { keys: 5, len: 0 }),
    (KEYS, b"\0\0\0\0\0\0\0\0", Values { keys: 5, len: 8 }),
    (KEYS, b"\0\0\0\0\0\0\0\0\0", Values { keys: 5, len: 9 }),
    (KEYS, b"\0\0\0\0\0\0\0\0\0\0\0", Values { keys: 5, len: 11 }),
    (
        KEYS,
        b"\0\0\0\0\0\0\0\0\0\0\0\0",
        Values { keys: 5, len: 12 },
    ),
    (ONE_KEY, b"\0", Values { keys: 1, len: 1 }),
    (ONE_KEY, b"\0\0\0", Values { keys: 1, len: 3 }),
    (NO_KEY, b"\0", Values { keys: 0, len: 1 }),
    (NO_KEY, b"\0\0", Values { keys: 0, len: 2 }),
];

#[test]
fn keys_are_rejected_first_and_then_the_values(rt: HostRuntime) {
    for (keys, values, fault) in REJECTED {
        check(&rt, is_rejected(keys, values, *fault), &fault);
    }
}

fn is_rejected(keys: &[u8], values: &[u8], fault: HashedMapError) -> bool {
    match HashedMap::<3, 2>::new(keys, values) {
        Ok(_) => false,
        Err(found) => found == fault,
    }
}

// The entries above as they are packed, in another order. Another program computes the keys, as it does those of `packing`.
const PACKED_KEYS: &[u8] =
    b"\x01\0\0\0\x04\0\0\0\0\0\0\0\x01\0\0\0\x02\x01\x01\x01USD\0\0\0EURJPYA\0\0";

const PACKED_VALUES: &[u8] = b"\x05\x06\x03\x04\x01\x02\0\0\0\xff";

const PACKED_ENTRIES: &[(&str, [u8; 2])] = &[
    ("USD", [5, 6]),
    ("", [3, 4]),
    ("EUR", [1, 2]),
    ("JPY", [0, 0]),
    ("A", [0, 255]),
];

// The keys that are packed of none and of one.
const PACKED_NO_KEY: &[u8] = b"\x01\0\0\0\0\0\0\0\0\0\0\0\0\0\0\0";

const PACKED_ONE_KEY: &[u8] = b"\x01\0\0\0\0\0\0\0\0\0\0\0\0\0\0\0EUR";

#[test]
fn a_map_of_std_is_packed(rt: HostRuntime) {
    let are_right = [
        is_packed(rt.alloc(), ENTRIES, PACKED_KEYS, PACKED_VALUES),
        is_packed(rt.alloc(), &[("EUR", [7, 8])], PACKED_ONE_KEY, b"\x07\x08"),
        is_packed(rt.alloc(), &[], PACKED_NO_KEY, b""),
    ];
    check(&rt, are_right == [true; 3], &are_right);
}

/// Whether std's map of the entries is packed to the keys and the values.
fn is_packed(alloc: Global, entries: &[(&str, [u8; 2])], keys: &[u8], values: &[u8]) -> bool {
    let mut map = BTreeMap::new(alloc);
    for (key, value) in entries {
        let Ok(key) = TinyAsciiStr::<3>::try_from_str(key) else {
            return false;
        };
        if map.insert(key, *value).is_err() {
            return false;
        }
    }
    match pack_hashed_map(alloc, &map) {
        Ok((made, others)) => made.as_slice() == keys && others.as_slice() == values,
        Err(_) => false,
    }
}

#[test]
fn a_packed_map_has_its_entries_and_no_others(rt: HostRuntime) {
    assert!(rt; has_entries(PACKED_KEYS, PACKED_VALUES, PACKED_ENTRIES));
    for (key, value) in ENTRIES {
        check(&rt, is_value(PACKED_KEYS, PACKED_VALUES, key, *value), &key);
    }
    for key in "AA|B|E|EU|EUS|FUR|eur|USA|U|JPZ|~~~".split('|') {
        check(&rt, is_no_key(PACKED_KEYS, PACKED_VALUES, key), &key);
    }
    let are_right = [
        has_entries(PACKED_ONE_KEY, b"\x07\x08", &[("EUR", [7, 8])]),
        has_entries(PACKED_NO_KEY, b"", &[]),
        is_no_key(PACKED_ONE_KEY, b"\x07\x08", "") && is_no_key(PACKED_NO_KEY, b"", ""),
    ];
    check(&rt, are_right == [true; 3], &are_right);
}
