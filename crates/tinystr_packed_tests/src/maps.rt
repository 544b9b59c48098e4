//! Packed maps, of bytes and of texts.

use crate::check;
use tinystr::ParseError::{ContainsNull, NonAscii};
use tinystr::ule::UleError::{Length, Parse};
use tinystr::{TinyAsciiStr, TinyStr4};
use tinystr_packed::SortedError::{Order, Records};
use tinystr_packed::{MapError, NotRising, PackedMap, TextMap, TextMapError};

const KEYS: &[u8] = b"CH\0\0EU\0\0JP\0\0US\0\0";

const VALUES: &[u8] = b"CHFEURJPY\0\0\0";

// The keys, each with its value.
const ENTRIES: &[(&str, &str, &[u8; 3])] = &[
    ("CH", "CHF", b"CHF"),
    ("EU", "EUR", b"EUR"),
    ("JP", "JPY", b"JPY"),
    ("US", "", b"\0\0\0"),
];

fn key(text: &str) -> TinyStr4 {
    TinyAsciiStr::from_utf8_lossy(text.as_bytes(), b'?')
}

// Whether both maps have the entries, by their keys and in order, and their iterators report each time the number of those
// that follow.
fn have_entries(map: &PackedMap<'_, 4, 3>, texts: &TextMap<'_, 4, 3>) -> bool {
    let (mut entries, mut text_entries) = (map.iter(), texts.iter());
    let mut left = 4usize;
    for (code, text, bytes) in ENTRIES {
        let key = key(code);
        let value = TinyAsciiStr::from_utf8_lossy(text.as_bytes(), b'?');
        let hint = (left, Some(left));
        let is_entry = entries.size_hint() == hint
            && entries.next() == Some((key, *bytes))
            && map.get(&key) == Some(*bytes)
            && map.find_text(&key.resize::<8>()) == Some(*bytes)
            && map.contains_key(&key);
        let is_text_entry = text_entries.size_hint() == hint
            && text_entries.next() == Some((key, value))
            && texts.get(&key) == Some(value)
            && texts.find_text(&key.resize::<8>()) == Some(value)
            && texts.contains_key(&key);
        if !is_entry || !is_text_entry {
            return false;
        }
        left = left.saturating_sub(1);
    }
    let are_ended = entries.size_hint() == (0, Some(0)) && text_entries.size_hint() == (0, Some(0));
    are_ended && entries.next().is_none() && text_entries.next().is_none()
}

// Whether both maps have no other entries, and their parts are those that they are made of.
fn have_no_others(map: &PackedMap<'_, 4, 3>, texts: &TextMap<'_, 4, 3>) -> bool {
    let other = key("EUR");
    let are_none = map.get(&other).is_none()
        && texts.get(&other).is_none()
        && !map.contains_key(&other)
        && !texts.contains_key(&other);
    let have_len = map.len() == 4 && texts.len() == 4 && !map.is_empty() && !texts.is_empty();
    let have_parts = map.keys().len() == 4
        && texts.keys().len() == 4
        && map.values().as_flattened() == VALUES
        && texts.values().len() == 4;
    let begun = map.with_prefix(&key("E"));
    let texts_begun = texts.with_prefix(&key("E"));
    are_none && have_len && have_parts && begun.len() == 1 && texts_begun.len() == 1
}

#[test]
fn each_key_has_its_value_and_its_text(rt: HostRuntime) {
    let are_maps = match (
        PackedMap::<4, 3>::new(KEYS, VALUES),
        TextMap::<4, 3>::new(KEYS, VALUES),
    ) {
        (Ok(map), Ok(texts)) => have_entries(&map, &texts) && have_no_others(&map, &texts),
        _ => false,
    };
    let are_right = [
        are_maps,
        PackedMap::<4, 3>::default().is_empty() && TextMap::<4, 3>::default().is_empty(),
    ];
    check(&rt, are_right == [true; 2], &are_right);
}

// Keys and values, each with the fault for which they are rejected: the first of several.
const REJECTED: &[(&[u8], &[u8], MapError)] = &[
    (b"CHFE", b"\x01\x02", MapError::Keys(Length { len: 4 })),
    (
        b"EURCHF\0US",
        b"\x01",
        MapError::Keys(Parse {
            index: 2,
            fault: ContainsNull,
        }),
    ),
    (
        b"CHFEURUSDJPY",
        b"\x01",
        MapError::Order(NotRising { index: 3 }),
    ),
    (
        b"CHFEUR",
        b"\x01\x02\x03",
        MapError::Values { keys: 2, len: 3 },
    ),
    (b"", b"\x01\x02", MapError::Values { keys: 0, len: 2 }),
];

#[test]
fn keys_are_rejected_first_then_their_order_then_the_values(rt: HostRuntime) {
    for (keys, values, fault) in REJECTED {
        check(
            &rt,
            PackedMap::<3, 2>::new(keys, values).err() == Some(*fault),
            &fault,
        );
    }
}

const REJECTED_TEXTS: &[(&[u8], &[u8], TextMapError)] = &[
    (
        b"EUCH\0U",
        b"\xff",
        TextMapError::Keys(Records(Parse {
            index: 2,
            fault: ContainsNull,
        })),
    ),
    (
        b"CHEUUSJP",
        b"\xff",
        TextMapError::Keys(Order(NotRising { index: 3 })),
    ),
    (b"CHEU", b"CHFEU", TextMapError::Values(Length { len: 5 })),
    (
        b"CHEU",
        b"\xffHF",
        TextMapError::Values(Parse {
            index: 0,
            fault: NonAscii,
        }),
    ),
    (b"CHEU", b"CHF", TextMapError::Count { keys: 2, values: 1 }),
];

#[test]
fn keys_are_rejected_first_then_the_texts_then_their_number(rt: HostRuntime) {
    for (keys, values, fault) in REJECTED_TEXTS {
        check(
            &rt,
            TextMap::<2, 3>::new(keys, values).err() == Some(*fault),
            &fault,
        );
    }
}
