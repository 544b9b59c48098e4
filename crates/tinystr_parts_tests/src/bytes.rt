//! The byte form of both types, written, read and rejected.

ghost use Rattle.std.specs.Prelude.{◌<◌, ◌≤◌, ◌^◌, length};

use crate::check;
use tinystr::forms::{BytesReadError, FormWriteError};
use tinystr::{TinyAsciiStr, UnvalidatedTinyAsciiStr};

// Whether the text is read from the start of the input, and this is the remainder.
fn is_read_at_start<const N: usize>(input: &[u8], text: TinyAsciiStr<N>, left: &[u8]) -> bool {
    match TinyAsciiStr::<N>::read_bytes(input) {
        Ok((read, rest)) => read == text && rest == left,
        Err(_) => false,
    }
}

// The same of a text at N.
fn is_text_at_start<const N: usize>(input: &[u8], text: &str, left: &[u8]) -> bool
    requires { N < 2 ^ 63 }
{
    match TinyAsciiStr::<N>::try_from_str(text) {
        Ok(text) => is_read_at_start(input, text, left),
        Err(_) => false,
    }
}

#[test]
fn bytes_at_the_start_are_read_and_the_remainder_is_returned(rt: HostRuntime) {
    let are_right = [
        is_text_at_start::<4>(b"abcd", "abcd", b""),
        is_text_at_start::<4>(b"a\0\0\0", "a", b""),
        is_text_at_start::<4>(b"\0\0\0\0", "", b""),
        is_text_at_start::<4>(b"abcde", "abcd", b"e"),
        is_text_at_start::<2>(b"enXY", "en", b"XY"),
        is_text_at_start::<0>(b"ab", "", b"ab"),
    ];
    check(&rt, are_right == [true; 6], &are_right);
}

fn is_rejected(input: &[u8], expected: BytesReadError) -> bool {
    match TinyAsciiStr::<4>::read_bytes(input) {
        Ok(_) => false,
        Err(fault) => fault == expected,
    }
}

#[test]
fn bytes_are_rejected_for_their_first_fault(rt: HostRuntime) {
    for (input, expected) in [
        (b"\0\x80\0\0".as_slice(), BytesReadError::Null),
        (b"\0a\x80\0", BytesReadError::Null),
        (b"a\x80\0b", BytesReadError::NonAscii),
        (b"a\0b\x80", BytesReadError::Null),
        (b"\x80\0a\0", BytesReadError::NonAscii),
        (b"abc\xFF", BytesReadError::NonAscii),
        (b"ab\0\x80", BytesReadError::Null),
        (b"", BytesReadError::Length { expected: 4 }),
        (b"a", BytesReadError::Length { expected: 4 }),
        (b"a\0", BytesReadError::Length { expected: 4 }),
        (b"\0\0", BytesReadError::Length { expected: 4 }),
        (b"\x80", BytesReadError::NonAscii),
        (b"\0a", BytesReadError::Null),
    ] {
        check(&rt, is_rejected(input, expected), &input);
    }
}

// Whether the text's byte form is this one, and is read back.
fn is_byte_form<const N: usize>(text: TinyAsciiStr<N>, form: [u8; N]) -> bool {
    text.to_bytes() == form && is_read_at_start(&form, text, b"")
}

// The same of a text at N.
fn has_byte_form<const N: usize>(text: &str, form: [u8; N]) -> bool {
    match TinyAsciiStr::try_from_str(text) {
        Ok(text) => is_byte_form(text, form),
        Err(_) => false,
    }
}

#[test]
fn byte_forms_are_padded_texts(rt: HostRuntime) {
    let are_right = [
        has_byte_form("verylongstring", *b"verylongstring\0\0"),
        has_byte_form("shortstring", *b"shortstring"),
        has_byte_form("veryveryverylongstring", *b"veryveryverylongstring\0\0"),
    ];
    check(&rt, are_right == [true; 3], &are_right);
}

// Whether the text, written over bytes `#`, gives these bytes, and is read back from them with the others as the remainder.
fn is_written<const N: usize, const M: usize>(text: TinyAsciiStr<N>, written: &[u8; M]) -> bool
    requires { N ≤ M }
{
    let mut buffer = [b'#'; M];
    text.write_bytes(&mut buffer);
    let bytes = written.as_slice();
    buffer == *written && is_read_at_start(bytes, text, &bytes[N..])
}

// The same of a text at N.
fn is_text_written<const N: usize, const M: usize>(text: &str, written: &[u8; M]) -> bool
    requires { N ≤ M }
{
    match TinyAsciiStr::<N>::try_from_str(text) {
        Ok(text) => is_written(text, written),
        Err(_) => false,
    }
}

#[test]
fn bytes_are_written_at_the_start_and_the_others_stay(rt: HostRuntime) {
    assert!(rt; is_text_written::<3, 4>("GB", b"GB\0#"));
    assert!(rt; is_text_written::<16, 17>("MacintoshOSX2019", b"MacintoshOSX2019#"));
}

// Whether any bytes are read from the start of the input, and this is the remainder.
fn are_read_unless_too_few<const N: usize>(input: &[u8], bytes: [u8; N], left: &[u8]) -> bool {
    match UnvalidatedTinyAsciiStr::<N>::read_bytes(input) {
        Ok((read, rest)) => {
            read == UnvalidatedTinyAsciiStr::from_utf8_unchecked(bytes) && rest == left
        }
        Err(_) => false,
    }
}

#[test]
fn bytes_that_are_no_text_are_read_and_not_written(rt: HostRuntime) {
    let bytes = UnvalidatedTinyAsciiStr::from_utf8_unchecked([0, 0x41, 0]);
    let are_right = [
        matches!(bytes.to_bytes(), Err(FormWriteError::NotAscii)),
        matches!(bytes.to_json(rt.alloc()), Err(FormWriteError::NotAscii)),
        are_read_unless_too_few(&[0, 0x41, 0], [0, 0x41, 0], b""),
    ];
    check(&rt, are_right == [true; 3], &are_right);
}

fn are_too_few(input: &[u8]) -> bool {
    match UnvalidatedTinyAsciiStr::<4>::read_bytes(input) {
        Ok(_) => false,
        Err(fault) => fault == BytesReadError::Length { expected: 4 },
    }
}

#[test]
fn any_bytes_are_read_unless_too_few(rt: HostRuntime) {
    let are_right = [
        are_read_unless_too_few(b"\0\x80\0\0", *b"\0\x80\0\0", b""),
        are_read_unless_too_few(b"\0\x80\0\0X", *b"\0\x80\0\0", b"X"),
        are_too_few(b"abc") && are_too_few(b"\0\x80a") && are_too_few(b"\0\0\0"),
    ];
    check(&rt, are_right == [true; 3], &are_right);
    let text = UnvalidatedTinyAsciiStr::from_utf8_unchecked(*b"ab\0");
    assert!(rt; matches!(text.to_bytes(), Ok(bytes) if bytes == *b"ab\0"));
}
