//! Each reader of four bytes, for each byte at each position: those that no text has, and those at their edges.

use crate::check;
use tinystr::ParseError::{self, ContainsNull, NonAscii};
use tinystr::TinyStr4;
use tinystr::forms::BytesReadError;

// Whether the strict readers answer so.
fn are_read_strictly(bytes: [u8; 4], fault: Option<ParseError>) -> bool {
    let units = bytes.map(u16::from);
    match (
        TinyStr4::try_from_utf8(&bytes),
        TinyStr4::try_from_utf16(&units),
    ) {
        (Ok(narrow), Ok(wide)) => {
            fault.is_none()
                && narrow == wide
                && narrow.all_bytes() == &bytes
                && TinyStr4::try_from_str(narrow.as_str()) == Ok(narrow)
        }
        (Err(narrow), Err(wide)) => Some(narrow) == fault && Some(wide) == fault,
        _ => false,
    }
}

// Whether the raw reader answers so.
fn are_read_raw(bytes: [u8; 4], fault: Option<ParseError>) -> bool {
    match TinyStr4::try_from_raw(bytes) {
        Ok(text) => {
            let len = if bytes[3] == 0 { 3 } else { 4 };
            fault.is_none() && text.all_bytes() == &bytes && text.len() == len
        }
        Err(found) => Some(found) == fault,
    }
}

// Whether the reader of the byte form answers so.
fn are_read_at_start(bytes: [u8; 4], fault: Option<BytesReadError>) -> bool {
    match TinyStr4::read_bytes(&bytes) {
        Ok((text, rest)) => fault.is_none() && text.all_bytes() == &bytes && rest.is_empty(),
        Err(found) => Some(found) == fault,
    }
}

fn are_read_rightly(bytes: [u8; 4], byte: u8, at: usize) -> bool {
    let (strict, raw, form) = match (byte, at) {
        (0, 3) => (Some(ContainsNull), None, None),
        (0, _) => (
            Some(ContainsNull),
            Some(ContainsNull),
            Some(BytesReadError::Null),
        ),
        (1..=127, _) => (None, None, None),
        _ => (
            Some(NonAscii),
            Some(NonAscii),
            Some(BytesReadError::NonAscii),
        ),
    };
    are_read_strictly(bytes, strict) && are_read_raw(bytes, raw) && are_read_at_start(bytes, form)
}

#[test]
fn readers_of_four_bytes_name_the_fault_of_each_byte_at_each_position(rt: HostRuntime) {
    for at in 0..4 {
        for byte in 0..=u8::MAX {
            let mut bytes = *b"abcd";
            bytes[at] = byte;
            check(&rt, are_read_rightly(bytes, byte, at), &bytes);
        }
    }
}

// Whether the value is one character.
fn is_byte(text: TinyStr4, byte: u8) -> bool {
    text.as_utf8() == [byte].as_slice()
}

#[test]
fn characters_and_replacements_go_up_to_127(rt: HostRuntime) {
    let highest = TinyStr4::try_from_utf16(&[0x7f]);
    let are_right = [
        matches!(highest, Ok(text) if is_byte(text, 0x7f)),
        is_byte(TinyStr4::from_utf16_lossy(&[0x0100], b'?'), b'?'),
        is_byte(TinyStr4::from_utf8_lossy(&[0], 1), 1),
        is_byte(TinyStr4::from_utf8_lossy(&[0], 127), 127),
    ];
    check(&rt, are_right == [true; 4], &are_right);
}
