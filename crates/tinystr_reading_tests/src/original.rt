//! A few answers of the original Rust crate, tinystr 0.8.5.

use crate::check;
use std::cmp::Ordering;
use tinystr::{ParseError, TinyAsciiStr};

// In each row a list, the text that the strict reader at 8 takes or after `!` the name of its fault, and the text of
// the lossy reader with `?`.
const LISTS: &[u8] = b"\
0|0|0
cz|cz|cz
0\x8c|!NonAscii|0?
\x80\xff0|!NonAscii|??0
9a90\x7faa|9a90\x7faa|9a90\x7faa
zzza\x009|!ContainsNull|zzza?9
\xee0\x009 9zZ|!NonAscii|?0?9 9zZ
Z\x00\x00\x7fZ9\x80|!ContainsNull|Z??\x7fZ9?
ZzZa0\x800|!NonAscii|ZzZa0?0
\x0099Z0\x80Z\xff0|!TooLong|?99Z0?Z?
 z Za9a9a|!TooLong| z Za9a9
0za9|0za9|0za9
a\x00 jZa|!ContainsNull|a? jZa
 0a9| 0a9| 0a9
aZ9{z za|aZ9{z za|aZ9{z za
\x00ZZ9z\x00\x00|!ContainsNull|?ZZ9z??";

// A number, and its decimal text at 6, whole or cut.
const DECIMALS: &[(u32, Result<&str, &str>)] = &[
    (334002911, Err("002911")),
    (0, Ok("0")),
    (6, Ok("6")),
    (18515742, Err("515742")),
    (62, Ok("62")),
    (76376463, Err("376463")),
    (3546460, Err("546460")),
    (12, Ok("12")),
];

// In each row two texts at 6, both joined to 8, and their order.
const PAIRS: &str = "\
aZbbZ|Zbaaaa|aZbbZZba|Greater
|Zaab|Zaab|Less
bba|aba|bbaaba|Greater
bZ|b|bZb|Greater
aa|aabaaa|aaaabaaa|Less
b|abZZ|babZZ|Greater
b|ab|bab|Greater
a|Za|aZa|Greater";

fn is_line_feed(byte: &u8) -> bool {
    *byte == b'\n'
}

fn is_bar(byte: &u8) -> bool {
    *byte == b'|'
}

fn name_of(fault: ParseError) -> &'static [u8] {
    match fault {
        ParseError::TooLong { .. } => b"!TooLong",
        ParseError::ContainsNull => b"!ContainsNull",
        ParseError::NonAscii => b"!NonAscii",
    }
}

// Whether the list of a row is read as the row says.
fn is_read_so(row: &[u8]) -> bool {
    let mut fields = row.split(is_bar);
    let (Some(list), Some(strict), Some(lossy)) = (fields.next(), fields.next(), fields.next())
    else {
        return false;
    };
    let is_strict = match TinyAsciiStr::<8>::try_from_utf8(list) {
        Ok(text) => text.as_utf8() == strict,
        Err(fault) => name_of(fault) == strict,
    };
    is_strict && TinyAsciiStr::<8>::from_utf8_lossy(list, b'?').as_utf8() == lossy
}

#[test]
fn lists_are_read_as_by_the_original(rt: HostRuntime) {
    let mut rows = 0usize;
    for row in LISTS.split(is_line_feed) {
        check(&rt, is_read_so(row), &row);
        rows = rows.saturating_add(1);
    }
    assert!(rt; rows == 16);
}

fn is_decimal(number: u32, expected: Result<&str, &str>) -> bool {
    match (TinyAsciiStr::<6>::new_unsigned_decimal(number), expected) {
        (Ok(text), Ok(expected)) | (Err(text), Err(expected)) => text.as_str() == expected,
        _ => false,
    }
}

#[test]
fn decimals_are_those_of_the_original(rt: HostRuntime) {
    for &(number, expected) in DECIMALS {
        check(&rt, is_decimal(number, expected), &number);
    }
}

fn order_name(order: Ordering) -> &'static str {
    match order {
        Ordering::Less => "Less",
        Ordering::Equal => "Equal",
        Ordering::Greater => "Greater",
    }
}

// Whether the texts of a row are joined and ordered as the row says.
fn are_joined_and_ordered_so(row: &str) -> bool {
    let mut fields = row.split('|');
    let first = TinyAsciiStr::<6>::try_from_str(fields.next().unwrap_or(""));
    let second = TinyAsciiStr::<6>::try_from_str(fields.next().unwrap_or(""));
    let joined = fields.next().unwrap_or("");
    let order = fields.next().unwrap_or("");
    match (first, second) {
        (Ok(first), Ok(second)) => {
            let is_joined = first.concat::<6, 8>(second).as_str() == joined;
            is_joined && order_name(first.cmp(&second)) == order
        }
        _ => false,
    }
}

#[test]
fn pairs_are_joined_and_ordered_as_by_the_original(rt: HostRuntime) {
    let mut rows = 0usize;
    for row in PAIRS.lines() {
        check(&rt, are_joined_and_ordered_so(row), &row);
        rows = rows.saturating_add(1);
    }
    assert!(rt; rows == 8);
}
