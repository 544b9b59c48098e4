//! The JSON form of both types, written, read and rejected.

use crate::check;
use serde_json::Value;
use std::alloc::Global;
use std::test::Fail;
use tinystr::forms::JsonReadError;
use tinystr::{TinyAsciiStr, UnvalidatedTinyAsciiStr};

fn is_printed(alloc: Global, value: &Value, compact: &str) -> bool {
    match value.to_string(alloc) {
        Ok(printed) => printed.as_str() == compact,
        Err(_) => false,
    }
}

// Whether both types are read from the compact JSON text.
fn is_parsed<const N: usize>(alloc: Global, text: TinyAsciiStr<N>, compact: &str) -> bool {
    match Value::from_str(alloc, compact) {
        Ok(value) => {
            TinyAsciiStr::from_json(&value) == Ok(text)
                && UnvalidatedTinyAsciiStr::from_json(&value) == Ok(text.to_unvalidated())
        }
        Err(_) => false,
    }
}

// Whether both types give the compact JSON text, and are read back from their values and from that text.
fn comes_back<const N: usize>(alloc: Global, text: TinyAsciiStr<N>, compact: &str) -> bool {
    let bytes = text.to_unvalidated();
    match (text.to_json(alloc), bytes.to_json(alloc)) {
        (Ok(value), Ok(same)) => {
            is_printed(alloc, &value, compact)
                && is_printed(alloc, &same, compact)
                && TinyAsciiStr::from_json(&value) == Ok(text)
                && UnvalidatedTinyAsciiStr::from_json(&same) == Ok(bytes)
                && is_parsed(alloc, text, compact)
        }
        _ => false,
    }
}

// The same of a text, read at the capacity of the value given.
fn read_comes_back<const N: usize>(
    alloc: Global,
    text: &str,
    _like: TinyAsciiStr<N>,
    compact: &str,
) -> bool {
    match TinyAsciiStr::<N>::try_from_str(text) {
        Ok(text) => comes_back(alloc, text, compact),
        Err(_) => false,
    }
}

#[test]
fn texts_come_back_from_json(rt: HostRuntime) {
    let alloc = rt.alloc();
    let four = TinyAsciiStr::<4>::default();
    let eight = TinyAsciiStr::<8>::default();
    let are_right = [
        read_comes_back(alloc, "en", four, r#""en""#),
        read_comes_back(alloc, "Latn", four, r#""Latn""#),
        read_comes_back(alloc, "calendar", eight, r#""calendar""#),
        read_comes_back(alloc, "", four, r#""""#),
        read_comes_back(alloc, "", TinyAsciiStr::<0>::default(), r#""""#),
    ];
    check(&rt, are_right == [true; 5], &are_right);
    let eleven = TinyAsciiStr::<11>::default();
    let sixteen = TinyAsciiStr::<16>::default();
    let twenty_four = TinyAsciiStr::<24>::default();
    assert!(rt; read_comes_back(alloc, "shortstring", eleven, r#""shortstring""#));
    assert!(rt; read_comes_back(alloc, "verylongstring", sixteen, r#""verylongstring""#));
    let compact = r#""veryveryverylongstring""#;
    assert!(rt; read_comes_back(alloc, "veryveryverylongstring", twenty_four, compact));
}

#[test]
fn characters_that_json_escapes_come_back(rt: HostRuntime) {
    let alloc = rt.alloc();
    let four = TinyAsciiStr::<4>::default();
    assert!(rt; read_comes_back(alloc, "a\"b", four, r#""a\"b""#));
    let compact = "\"\\u0001\\u001b\\n\x7F\"";
    assert!(rt; read_comes_back(alloc, "\x01\x1B\n\x7F", four, compact));
}

// Whether both types reject the JSON at 4 so.
fn is_rejected_by_both(alloc: Global, compact: &str, expected: JsonReadError) -> bool {
    match Value::from_str(alloc, compact) {
        Ok(value) => {
            TinyAsciiStr::<4>::from_json(&value) == Err(expected)
                && UnvalidatedTinyAsciiStr::<4>::from_json(&value) == Err(expected)
        }
        Err(_) => false,
    }
}

#[test]
fn json_that_is_no_text_of_the_capacity_is_rejected(rt: HostRuntime) -> Result<(), Fail> {
    for (compact, expected) in [
        ("1", JsonReadError::NotText),
        ("null", JsonReadError::NotText),
        (r#"["en"]"#, JsonReadError::NotText),
        (r#""abcde""#, JsonReadError::InvalidText),
        (r#""a\u0000""#, JsonReadError::InvalidText),
        ("\"é\"", JsonReadError::InvalidText),
    ] {
        check(
            &rt,
            is_rejected_by_both(rt.alloc(), compact, expected),
            &compact,
        );
    }
    let value = Value::from_str(rt.alloc(), r#""a""#)?;
    let read = TinyAsciiStr::<0>::from_json(&value);
    assert!(rt; read == Err(JsonReadError::InvalidText));
    Ok(())
}
