//! Any bytes: made of shorter ones, read as texts, ordered and printed.

use crate::check;
use crate::errors::is_printed;
use std::cmp::Ordering;
use std::test::Fail;
use tinystr::{ParseError, TinyAsciiStr, UnvalidatedTinyAsciiStr};

type Unvalidated<const N: usize> = UnvalidatedTinyAsciiStr<N>;

#[test]
fn bytes_that_are_no_text_are_kept_and_printed_as_a_list(rt: HostRuntime) -> Result<(), Fail> {
    let bytes = Unvalidated::<3>::try_from_utf8(b"\0A")?;
    let same = Unvalidated::from_utf8_unchecked([0, 0x41, 0]);
    let expected = Err(ParseError::ContainsNull);
    let other = Unvalidated::from_utf8_unchecked(*b"caf\xe9");
    let are_right = [
        bytes == same && bytes.try_into_tinystr() == expected,
        is_printed(format!(in rt.alloc(); "{bytes:?}"), "[0, 65, 0]"),
        is_printed(format!(in rt.alloc(); "{other:?}"), "[99, 97, 102, 233]"),
    ];
    check(&rt, are_right == [true; 3], &are_right);
    Ok(())
}

#[test]
fn bytes_that_are_a_text_become_it(rt: HostRuntime) -> Result<(), Fail> {
    let text = TinyAsciiStr::<3>::try_from_utf8(b"ab")?;
    let bytes = Unvalidated::from_utf8_unchecked(*b"ab\0");
    assert!(rt; bytes.try_into_tinystr() == Ok(text));
    for made in [
        text.to_unvalidated(),
        Unvalidated::from(text),
        Unvalidated::try_from_utf8(b"ab")?,
        bytes.clone()?,
    ] {
        check(&rt, made == bytes, &made);
    }
    assert!(rt; is_printed(format!(in rt.alloc(); "{bytes:?}"), "\"ab\""));
    Ok(())
}

#[test]
fn bytes_are_read_up_to_the_capacity(rt: HostRuntime) {
    let abc = Unvalidated::from_utf8_unchecked(*b"abc");
    let are_right = [
        Unvalidated::<3>::try_from_utf8(b"abc") == Ok(abc),
        Unvalidated::<3>::try_from_utf8(b"abcd") == Err(ParseError::TooLong { max: 3, len: 4 }),
        Unvalidated::<0>::try_from_utf8(b"a") == Err(ParseError::TooLong { max: 0, len: 1 }),
    ];
    check(&rt, are_right == [true; 3], &are_right);
}

#[test]
fn no_bytes_are_the_empty_text(rt: HostRuntime) -> Result<(), Fail> {
    let none = Unvalidated::<0>::default();
    assert!(rt; none.try_into_tinystr() == Ok(TinyAsciiStr::default()));
    assert!(rt; is_printed(format!(in rt.alloc(); "{none:?}"), "\"\""));
    Ok(())
}

// Whether the NULs are the empty text to all but the strict reader, which rejects them.
fn are_the_empty_text<const N: usize>(nuls: [u8; N]) -> bool {
    let empty = TinyAsciiStr::<N>::default();
    TinyAsciiStr::try_from_raw(nuls) == Ok(empty)
        && Unvalidated::default().try_into_tinystr() == Ok(empty)
        && TinyAsciiStr::<N>::try_from_utf8(empty.all_bytes()) == Err(ParseError::ContainsNull)
}

#[test]
fn nuls_alone_are_the_empty_text(rt: HostRuntime) {
    let are_right = [
        are_the_empty_text([0; 1]),
        are_the_empty_text([0; 4]),
        are_the_empty_text([0; 8]),
        are_the_empty_text([0; 9]),
        are_the_empty_text([0; 16]),
        are_the_empty_text([0; 17]),
        are_the_empty_text([0; 32]),
    ];
    check(&rt, are_right == [true; 7], &are_right);
}

#[test]
fn any_bytes_are_ordered_byte_by_byte(rt: HostRuntime) {
    let [first, second, third] = [[0, 0x61], [0x61, 0], [0x61, 0xFF]].map(
        UnvalidatedTinyAsciiStr::from_utf8_unchecked,
    );
    let are_right = [
        first < second && second < third,
        first.cmp(&second) == Ordering::Less && third.cmp(&second) == Ordering::Greater,
        second.cmp(&second) == Ordering::Equal && second == second && second != third,
    ];
    check(&rt, are_right == [true; 3], &are_right);
}

#[test]
fn control_characters_are_printed_escaped(rt: HostRuntime) -> Result<(), Fail> {
    let bytes = TinyAsciiStr::<4>::try_from_utf8(b"\x01\x1B\n\x7F")?.to_unvalidated();
    assert!(rt;
        is_printed(
            format!(in rt.alloc(); "{bytes:?}"),
            r#""\u{1}\u{1b}\n\u{7f}""#
        )
    );
    Ok(())
}
