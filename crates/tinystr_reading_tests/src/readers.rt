//! What each reader takes, the first fault of what it rejects, and views of what is read.

ghost use Rattle.std.specs.Prelude.{◌<◌, ◌^◌};

use crate::check;
use std::test::Fail;
use tinystr::ParseError::{self, ContainsNull, NonAscii, TooLong};
use tinystr::{TinyAsciiStr, TinyStr4, TinyStr8, TinyStr16, tinystr};

// Whether the reader returned exactly this text, or this fault.
fn is_read<const N: usize>(
    read: Result<TinyAsciiStr<N>, ParseError>,
    expected: Result<&str, ParseError>,
) -> bool {
    match (read, expected) {
        (Ok(text), Ok(expected)) => {
            text.as_str() == expected && text.is_empty() == expected.is_empty()
        }
        (Err(fault), Err(expected)) => fault == expected,
        _ => false,
    }
}

const FAULTS: &[(&[u8], ParseError)] = &[
    (&[0, 0x80], NonAscii),
    (&[0, 0x61, 0x80], ContainsNull),
    (&[0x61, 0], ContainsNull),
    (&[0x80; 5], TooLong { max: 4, len: 5 }),
];

#[test]
fn the_strict_reader_names_the_first_fault(rt: HostRuntime) {
    for &(bytes, fault) in FAULTS {
        check(&rt, TinyStr4::try_from_utf8(bytes) == Err(fault), &bytes);
    }
}

#[test]
fn texts_are_read_and_parsed_as_they_are_spelled(rt: HostRuntime) {
    let long = Err(TooLong { max: 2, len: 3 });
    let are_right = [
        is_read(TinyAsciiStr::<2>::try_from_str("abc"), long),
        is_read("abc".parse::<TinyAsciiStr<2>>(), long),
        is_read("GB".parse::<TinyAsciiStr<2>>(), Ok("GB")),
    ];
    check(&rt, are_right == [true; 3], &are_right);
}

// Bytes, and what the strict and the raw reader answer.
const PADDED: &[([u8; 4], Result<&str, ParseError>, Result<&str, ParseError>)] = &[
    (*b"abcd", Ok("abcd"), Ok("abcd")),
    (*b"a\0\0\0", Err(ContainsNull), Ok("a")),
    (*b"\0\0\0\0", Err(ContainsNull), Ok("")),
    (*b"\0\x80\0\0", Err(NonAscii), Err(NonAscii)),
    (*b"\0a\x80\0", Err(ContainsNull), Err(ContainsNull)),
    (*b"a\x80\0b", Err(NonAscii), Err(NonAscii)),
    (*b"a\0b\x80", Err(ContainsNull), Err(ContainsNull)),
    (*b"\x80\0a\0", Err(NonAscii), Err(NonAscii)),
    (*b"abc\xff", Err(NonAscii), Err(NonAscii)),
    (*b"ab\0\x80", Err(NonAscii), Err(NonAscii)),
];

#[test]
fn the_strict_and_the_raw_reader_differ_at_nulls(rt: HostRuntime) {
    for &(bytes, strict, raw) in PADDED {
        let is_strict = is_read(TinyStr4::try_from_utf8(&bytes), strict);
        let is_raw = is_read(TinyStr4::try_from_raw(bytes), raw);
        check(&rt, is_strict && is_raw, &bytes);
    }
}

const RAW: &[([u8; 3], Result<&str, ParseError>)] = &[
    (*b"GB\0", Ok("GB")),
    (*b"USD", Ok("USD")),
    (*b"\0A\0", Err(ContainsNull)),
];

#[test]
fn the_raw_reader_takes_padded_texts_alone(rt: HostRuntime) {
    for &(raw, expected) in RAW {
        let is_right = is_read(TinyAsciiStr::<3>::try_from_raw(raw), expected);
        check(&rt, is_right, &raw);
    }
    let unchecked = TinyAsciiStr::<3>::from_utf8_unchecked(*b"GB\0");
    assert!(rt; unchecked.as_str() == "GB");
}

#[test]
fn a_text_that_fills_its_array_is_read_tested_and_changed(rt: HostRuntime) -> Result<(), Fail> {
    let city = TinyStr8::try_from_raw(*b"New York")?;
    let are_right = [
        is_read(Ok(city), Ok("New York")),
        is_read(Ok(city.to_ascii_uppercase()), Ok("NEW YORK")),
        is_read(Ok(city.to_ascii_lowercase()), Ok("new york")),
        is_read(Ok(city.to_ascii_titlecase()), Ok("New york")),
        !city.is_ascii_alphanumeric() && !city.is_ascii_titlecase(),
    ];
    check(&rt, are_right == [true; 5], &are_right);
    Ok(())
}

const UNITS: &[(&[u16], Result<&str, ParseError>)] = &[
    (&[0x65, 0x6e], Ok("en")),
    (&[0x0161], Err(NonAscii)),
    (&[0x0100], Err(NonAscii)),
    (&[0, 0x0161], Err(NonAscii)),
    (&[0, 0x61, 0x0161], Err(ContainsNull)),
    (&[0xffff; 5], Err(TooLong { max: 4, len: 5 })),
];

#[test]
fn sixteen_bit_units_are_compared_before_they_are_narrowed(rt: HostRuntime) {
    for &(units, expected) in UNITS {
        let is_right = is_read(TinyStr4::try_from_utf16(units), expected);
        check(&rt, is_right, &units);
    }
}

const REPLACED: &[(&[u8], &str)] = &[
    (b"a\0\xc3\xa9z", "a???"),
    (b"toolong", "tool"),
    (b"oh\0o", "oh?o"),
    (b"\0", "?"),
    (b"", ""),
    (b"a\x80\xff1", "a??1"),
];

#[test]
fn lossy_readers_replace_each_bad_unit(rt: HostRuntime) {
    for &(bytes, text) in REPLACED {
        let read = TinyStr4::from_utf8_lossy(bytes, b'?');
        check(&rt, is_read(Ok(read), Ok(text)), &bytes);
    }
    let grin = [0x61, 0xd83d, 0xde00, 0x7a];
    assert!(rt; is_read(Ok(TinyStr4::from_utf16_lossy(&grin, b'?')), Ok("a??z")));
    let cut = TinyAsciiStr::<3>::from_utf16_lossy(&grin, b'?');
    assert!(rt; is_read(Ok(cut), Ok("a??")));
}

#[test]
fn a_literal_is_read_at_its_capacity(rt: HostRuntime) {
    let are_right = [
        is_read(tinystr!(8, "foobar"), Ok("foobar")),
        is_read(tinystr!(12, "foobarbaz"), Ok("foobarbaz")),
        is_read(tinystr!(2, "abc"), Err(TooLong { max: 2, len: 3 })),
    ];
    check(&rt, are_right == [true; 3], &are_right);
}

#[test]
fn capacity_zero_holds_the_empty_text_alone(rt: HostRuntime) {
    type Empty = TinyAsciiStr<0>;
    let are_right = [
        is_read(Empty::try_from_utf8(&[0]), Err(TooLong { max: 0, len: 1 })),
        is_read(Empty::try_from_raw([]), Ok("")),
        is_read(Ok(Empty::from_utf8_lossy(b"abc", b'?')), Ok("")),
        Empty::default().all_bytes().is_empty(),
    ];
    check(&rt, are_right == [true; 4], &are_right);
}

fn is_empty_text<const N: usize>(text: TinyAsciiStr<N>) -> bool {
    text.len() == 0
        && text.is_empty()
        && text.as_str().is_empty()
        && text.as_utf8().is_empty()
        && *text.all_bytes() == [0; N]
        && text == TinyAsciiStr::default()
}

// Whether the empty list is read as the empty text.
fn is_read_empty<const N: usize>() -> bool
    requires { N < 2 ^ 63 }
{
    match TinyAsciiStr::<N>::try_from_utf8(b"") {
        Ok(text) => is_empty_text(text),
        Err(_) => false,
    }
}

#[test]
fn the_empty_text_at_every_kind_of_capacity(rt: HostRuntime) {
    let are_right = [
        is_read_empty::<0>(),
        is_read_empty::<4>(),
        is_read_empty::<8>(),
        is_read_empty::<9>(),
        is_read_empty::<17>(),
        is_empty_text(<TinyStr16 as Default>::default()),
    ];
    check(&rt, are_right == [true; 6], &are_right);
}

#[test]
fn views_show_the_text_and_its_padding(rt: HostRuntime) -> Result<(), Fail> {
    let en = TinyStr4::try_from_str("en")?;
    let are_right = [
        is_read(Ok(en.clone()?), Ok("en")) && en.len() == 2,
        en.as_utf8() == b"en".as_slice() && *en.all_bytes() == *b"en\0\0",
        en.get(1) == Some(b'n') && en.get(2).is_none(),
    ];
    check(&rt, are_right == [true; 3], &are_right);
    Ok(())
}

#[test]
fn letters_at_the_start_are_read_in_lowercase(rt: HostRuntime) {
    for (bytes, letters) in [
        (&b"ZH-hant"[..], "zh"),
        (b"ABCDEFGHI", "abcdefgh"),
        (b"-en", ""),
    ] {
        let (text, len) = TinyStr8::read_letters(bytes);
        check(
            &rt,
            text.as_str() == letters && len == letters.len(),
            &letters,
        );
    }
}
