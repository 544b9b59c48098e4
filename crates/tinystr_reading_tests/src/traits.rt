//! std's traits that read a text and show it, through functions that are generic over them.

use std::convert::{AsSlice, AsStr};
use tinystr::ParseError::{self, ContainsNull, NonAscii};
use tinystr::{TinyStr4, TinyStr8};

// Whether the text is tried as a value that shows it.
fn is_taken<'a, T: TryFrom<&'a str, Error = ParseError> + AsStr + AsSlice<u8> + Drop>(
    text: &'a str,
) -> bool {
    match T::try_from(text) {
        Ok(value) => value.as_str() == text && value.as_slice() == text.as_bytes(),
        Err(_) => false,
    }
}

// Whether the bytes are tried as a value that shows them.
fn are_bytes_taken<'a, T: TryFrom<&'a [u8], Error = ParseError> + AsSlice<u8> + Drop>(
    bytes: &'a [u8],
) -> bool {
    match T::try_from(bytes) {
        Ok(value) => value.as_slice() == bytes,
        Err(_) => false,
    }
}

#[test]
fn texts_and_bytes_are_taken_and_shown(rt: HostRuntime) {
    assert!(rt; is_taken::<TinyStr8>("New York"));
    assert!(rt; are_bytes_taken::<TinyStr8>(b"en"));
}

fn is_rejected<'a, T: TryFrom<&'a str, Error = ParseError> + Drop>(
    text: &'a str,
    fault: ParseError,
) -> bool {
    T::try_from(text).err() == Some(fault)
}

fn are_bytes_rejected<'a, T: TryFrom<&'a [u8], Error = ParseError> + Drop>(
    bytes: &'a [u8],
    fault: ParseError,
) -> bool {
    T::try_from(bytes).err() == Some(fault)
}

#[test]
fn texts_and_bytes_are_rejected_for_their_first_fault(rt: HostRuntime) {
    assert!(rt; is_rejected::<TinyStr4>("en\0", ContainsNull));
    assert!(rt; are_bytes_rejected::<TinyStr4>(b"\0\x80", NonAscii));
}
