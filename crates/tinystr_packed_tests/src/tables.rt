//! Tables and sorted tables.

use crate::check;
use tinystr::ParseError::{ContainsNull, NonAscii};
use tinystr::TinyAsciiStr;
use tinystr::ule::UleError::{self, Length, Parse};
use tinystr_packed::SortedError::{self, Order, Records};
use tinystr_packed::{NotRising, SortedTable, Table, in_place};

type Text = TinyAsciiStr<3>;

// Records, and their texts, a line each. They aren't ascending.
const FILE: &[u8] = b"d\0\0abc\0\0\0b\0\0";

const TEXTS: &str = "d\nabc\n\nb\n";

fn is_text(found: Option<Text>, text: Option<&str>) -> bool {
    match (found, text) {
        (Some(found), Some(text)) => found.as_str() == text,
        (None, None) => true,
        _ => false,
    }
}

// Whether the table has exactly the texts of the lines, and its iterator reports each time the number of those that follow.
fn has_texts(table: &Table<'_, 3>, lines: &str) -> bool {
    let mut left = table.len();
    let mut found = table.iter();
    for text in lines.lines() {
        if found.size_hint() != (left, Some(left)) || !is_text(found.next(), Some(text)) {
            return false;
        }
        left = left.saturating_sub(1);
    }
    found.size_hint() == (0, Some(0)) && found.next().is_none()
}

// Whether the table is that of the file.
fn is_of_file(table: &Table<'_, 3>) -> bool {
    table.len() == 4
        && !table.is_empty()
        && is_text(table.first(), Some("d"))
        && is_text(table.last(), Some("b"))
        && is_text(Some(table.text_at(1)), Some("abc"))
        && is_text(table.get(1), Some("abc"))
        && is_text(table.get(4), None)
        && has_texts(&table.slice(1..3), "abc\n\n")
        && has_texts(table, TEXTS)
}

#[test]
fn a_table_has_its_texts_in_their_order(rt: HostRuntime) {
    let is_table = Table::<3>::new(FILE).is_ok_and(|table| is_of_file(&table));
    let is_empty = Table::<3>::new(b"").is_ok_and(|table| table.is_empty());
    assert!(rt; is_table && is_empty);
}

// Bytes, each with the fault for which they are rejected.
const REJECTED: &[(&[u8], UleError)] = &[
    (b"\0aaL", Length { len: 4 }),
    (
        b"USDa\0bUS\x80",
        Parse {
            index: 1,
            fault: ContainsNull,
        },
    ),
    (
        b"US\x80a\0b",
        Parse {
            index: 0,
            fault: NonAscii,
        },
    ),
];

#[test]
fn bytes_are_rejected_for_their_length_or_their_first_bad_record(rt: HostRuntime) {
    for (bytes, fault) in REJECTED {
        check(&rt, Table::<3>::new(bytes).err() == Some(*fault), &fault);
    }
}

// Bytes, each with the fault for which they aren't a sorted table.
const UNSORTED: &[(&[u8], SortedError)] = &[
    (b"EURCHFE", Records(Length { len: 7 })),
    (
        b"EURCHF\0US",
        Records(Parse {
            index: 2,
            fault: ContainsNull,
        }),
    ),
    (b"EUREUR", Order(NotRising { index: 1 })),
    (b"CHFEURUSDJPYAAA", Order(NotRising { index: 3 })),
];

#[test]
fn records_are_rejected_first_and_then_their_order(rt: HostRuntime) {
    for (bytes, fault) in UNSORTED {
        check(
            &rt,
            SortedTable::<3>::from_bytes(bytes).err() == Some(*fault),
            &fault,
        );
    }
}

// A sorted table, and texts with their answers in it.
const SORTED: &[u8] = b"\0\0\0Cy\0ab\0abcb\0\0";

const ANSWERS: &[(&str, Result<usize, usize>)] = &[
    ("", Ok(0)),
    ("Cy", Ok(1)),
    ("b", Ok(4)),
    ("A", Err(1)),
    ("abb", Err(3)),
    ("bb", Err(5)),
];

// Whether the text has the answer, also in place, and is found from another capacity.
fn is_searched(text: &str, answer: Result<usize, usize>) -> bool {
    let key = Text::from_utf8_lossy(text.as_bytes(), b'?');
    match SortedTable::<3>::from_bytes(SORTED) {
        Ok(sorted) => sorted.binary_search(&key) == answer
            && in_place::search(SORTED, &key) == answer
            && sorted.contains(&key) == answer.is_ok()
            && sorted.find_text(&key.resize::<8>()) == answer.ok(),
        Err(_) => false,
    }
}

#[test]
fn sorted_tables_are_searched(rt: HostRuntime) {
    for (text, answer) in ANSWERS {
        check(&rt, is_searched(text, *answer), &text);
    }
}

// Prefixes, each with the index and the number of the texts that begin with it, and these texts, a line each.
const BEGUN: &[(&str, (usize, usize), &str)] = &[
    ("", (0, 5), "\nCy\nab\nabc\nb\n"),
    ("ab", (2, 2), "ab\nabc\n"),
    ("abc", (3, 1), "abc\n"),
    ("c", (5, 0), ""),
];

fn has_begun(prefix: &str, range: (usize, usize), lines: &str) -> bool {
    let beginning = Text::from_utf8_lossy(prefix.as_bytes(), b'?');
    match SortedTable::<3>::from_bytes(SORTED) {
        Ok(sorted) => {
            has_texts(sorted.with_prefix(&beginning).table(), lines)
                && in_place::with_prefix(SORTED, &beginning) == range
        }
        Err(_) => false,
    }
}

#[test]
fn texts_with_a_prefix_are_a_range(rt: HostRuntime) {
    for (prefix, range, lines) in BEGUN {
        check(&rt, has_begun(prefix, *range, lines), &prefix);
    }
}
