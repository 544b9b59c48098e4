//! The cases of each error, printed.

use crate::check;
use std::alloc::{AllocError, Global};
use std::fmt::Debug;
use std::string::String;
use tinystr::ParseError::{self, ContainsNull, NonAscii, TooLong};
use tinystr::forms::{BytesReadError, FormWriteError, JsonReadError};
use tinystr::ule::UleError;

/// Whether a value was printed as this text.
pub fn is_printed(printed: Result<String, AllocError>, text: &str) -> bool {
    match printed {
        Ok(printed) => printed.as_str() == text,
        Err(_) => false,
    }
}

fn is_debugged<E: Debug + Drop>(alloc: Global, error: E, text: &str) -> bool {
    is_printed(format!(in alloc; "{error:?}"), text)
}

#[test]
fn cases_of_an_error_are_printed_by_their_names(rt: HostRuntime) {
    let alloc = rt.alloc();
    let length = BytesReadError::Length { expected: 4 };
    let parse = UleError::Parse {
        index: 1,
        fault: ContainsNull,
    };
    let are_right = [
        is_debugged(
            alloc,
            [TooLong { max: 4, len: 5 }, ContainsNull, NonAscii],
            "[TooLong { max: 4, len: 5 }, ContainsNull, NonAscii]",
        ),
        is_debugged(
            alloc,
            [JsonReadError::NotText, JsonReadError::InvalidText],
            "[NotText, InvalidText]",
        ),
        is_debugged(
            alloc,
            [length, BytesReadError::Null, BytesReadError::NonAscii],
            "[Length { expected: 4 }, Null, NonAscii]",
        ),
        is_debugged(
            alloc,
            [UleError::Length { len: 7 }, parse],
            "[Length { len: 7 }, Parse { index: 1, fault: ContainsNull }]",
        ),
        is_debugged(
            alloc,
            [FormWriteError::NotAscii, FormWriteError::Memory(AllocError)],
            "[NotAscii, Memory(AllocError)]",
        ),
    ];
    check(&rt, are_right == [true; 5], &are_right);
}

const SAID: &[(ParseError, &str)] = &[
    (
        TooLong { max: 4, len: 5 },
        "found string of larger length 5 when constructing string of length 4",
    ),
    (
        ContainsNull,
        "tinystr types do not support strings with null bytes",
    ),
    (
        NonAscii,
        "attempted to construct TinyAsciiStr from a non-ASCII string",
    ),
];

#[test]
fn errors_say_what_is_wrong(rt: HostRuntime) {
    for &(fault, text) in SAID {
        check(
            &rt,
            is_printed(format!(in rt.alloc(); "{fault}"), text),
            &text,
        );
    }
}
