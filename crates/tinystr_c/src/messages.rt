//! The texts of the codes.

ghost use Rattle.std.specs.Prelude.{◌≡◌, length};
ghost use Rattle.tinystr_c.specs.Messages.{message, message_answer, message_bytes};

use crate::answer::{TinystrResult, failure, success};
use crate::numbers::{
    BAD_ARGUMENT, BAD_HEADER, BAD_INDEX, BAD_LENGTH, BAD_VALUES, BAD_VERSION, DUPLICATE,
    INVALID_LANGUAGE, INVALID_SUBTAG, MISPLACED, NO_ROOM, NON_ASCII, NOT_FOUND, NOT_RISING, NUL,
    OK, TOO_LONG,
};

/// Writes the text of a code.
pub fn write_message(code: u32, out: &mut [u8]) -> TinystrResult
    ensures answer { result ≡ message_answer code (length out.old) }
    ensures bytes { out.new ≡ message_bytes code out.old }
{
    let text = message(code).as_bytes();
    let len = text.len();
    if len > out.len() {
        return failure(NO_ROOM, len);
    }
    let (front, back) = out.split_at_mut(len);
    front.copy_from_slice(text);
    back.fill(0);
    success(len)
}

fn message(code: u32) -> &'static str
    ensures { result.now ≡ message code }
{
    match code {
        OK => "the call succeeded",
        TOO_LONG => "a text has more bytes than the capacity",
        NUL => "a text has a NUL",
        NON_ASCII => "a byte is above 127",
        INVALID_LANGUAGE => "the first subtag isn't a language",
        INVALID_SUBTAG => "a later subtag isn't accepted",
        NO_ROOM => "`out` or `scratch` is too short",
        BAD_ARGUMENT => "there is no such capacity, size, question or case",
        BAD_LENGTH => "the capacity doesn't divide the number of bytes",
        NOT_RISING => "a text isn't above the one before it",
        BAD_VALUES => "the values aren't one for each key",
        NOT_FOUND => "no record has the text",
        BAD_HEADER => "a hashed table ends before its header does",
        BAD_VERSION => "the version of a hashed table isn't 1",
        BAD_INDEX => "a hashed table ends before its records",
        MISPLACED => "a text of a hashed table isn't at its place",
        DUPLICATE => "a text occurs twice",
        _ => "there is no such code",
    }
}
