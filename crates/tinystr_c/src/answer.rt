//! What the exports return.

ghost use Rattle.std.specs.Prelude.{◌≡◌};
ghost use Rattle.tinystr.specs.Error.{fault_of};
ghost use Rattle.tinystr_c.specs.Hashed.{hashed_map_answer};
ghost use Rattle.tinystr_c.specs.Codes.{success, failure, bad_argument, no_range, no_parts, fault_code, first_nul, first_non_ascii, fault_answer, records_answer, map_answer, search_answer, hashed_answer, position_answer};

use crate::numbers::{
    BAD_ARGUMENT, BAD_HEADER, BAD_INDEX, BAD_LENGTH, BAD_VALUES, BAD_VERSION, MISPLACED, NON_ASCII,
    NOT_FOUND, NOT_RISING, NUL, OK, TOO_LONG,
};
use tinystr::ParseError;
use tinystr::ule::UleError;
use tinystr_hashed::{HashedError, HashedMapError};
use tinystr_packed::MapError;

/// A value, which is 0 unless the code is `OK`; a code; and its detail, which is 0 if the code is `OK`.
#[repr(C)]
#[derive(Clone, Copy)]
pub struct TinystrResult {
    pub value: usize,
    pub code: u32,
    pub detail: u32,
}

/// A range of records, by its start and its length, which are 0 unless the code is `OK`; a code; and its detail, which is 0
/// if the code is `OK`.
#[repr(C)]
#[derive(Clone, Copy)]
pub struct TinystrRange {
    pub start: usize,
    pub count: usize,
    pub code: u32,
    pub detail: u32,
}

/// The length of a canonical text, and the places of its subtags in it, which are 0 unless the code is `OK`; a code; its
/// detail, which is 0 if the code is `OK`; and the index of the subtag that isn't accepted, which is 0 unless the code is
/// `INVALID_SUBTAG`.
#[repr(C)]
#[derive(Clone, Copy)]
pub struct TinystrParts {
    pub value: usize,
    pub code: u32,
    pub detail: u32,
    pub subtag: usize,
    pub language_len: usize,
    pub script_start: usize,
    pub script_len: usize,
    pub region_start: usize,
    pub region_len: usize,
}

/// The result of a call that succeeds.
#[inline]
pub fn success(value: usize) -> TinystrResult
    ensures { result ≡ success value }
{
    TinystrResult {
        value,
        code: OK,
        detail: 0,
    }
}

/// The result of any other call: a code, and its detail, or the greatest `u32` where it is above that.
#[inline]
pub fn failure(code: u32, detail: usize) -> TinystrResult
    ensures { result ≡ failure code detail }
{
    TinystrResult {
        value: 0,
        code,
        detail: detail.min(u32::MAX as usize) as u32,
    }
}

/// An argument that isn't one of those that there are.
#[inline]
pub fn bad_argument(argument: usize) -> TinystrResult
    ensures { result ≡ bad_argument argument }
{
    failure(BAD_ARGUMENT, argument)
}

/// No records, and why.
#[inline]
pub fn no_range(failed: TinystrResult) -> TinystrRange
    ensures { result ≡ no_range failed }
{
    TinystrRange {
        start: 0,
        count: 0,
        code: failed.code,
        detail: failed.detail,
    }
}

/// No subtags, and why: the index of one, and what else is told.
#[inline]
pub fn no_parts(failed: TinystrResult, subtag: usize) -> TinystrParts
    ensures { result ≡ no_parts failed subtag }
{
    TinystrParts {
        value: 0,
        code: failed.code,
        detail: failed.detail,
        subtag,
        language_len: 0,
        script_start: 0,
        script_len: 0,
        region_start: 0,
        region_len: 0,
    }
}

/// The code of a fault.
#[inline]
pub fn fault_code(fault: ParseError) -> u32
    ensures { result ≡ fault_code (fault_of fault) }
{
    match fault {
        ParseError::TooLong { .. } => TOO_LONG,
        ParseError::ContainsNull => NUL,
        ParseError::NonAscii => NON_ASCII,
    }
}

/// A fault and its place: the index of the first NUL or of the first byte above 127, or the number of bytes if there
/// are too many.
// A text that is rejected for a NUL or a byte above 127 has one, so a place is always found.
pub fn fault_answer(fault: ParseError, bytes: &[u8]) -> TinystrResult
    ensures { result ≡ fault_answer (fault_of fault) bytes.now }
{
    match fault {
        ParseError::TooLong { .. } => failure(TOO_LONG, bytes.len()),
        ParseError::ContainsNull => failure(NUL, first_nul(bytes).unwrap_or(0)),
        ParseError::NonAscii => failure(NON_ASCII, first_non_ascii(bytes).unwrap_or(0)),
    }
}

// The index of the first NUL.
fn first_nul(bytes: &[u8]) -> Option<usize>
    ensures { result ≡ first_nul bytes.now }
{
    bytes.iter().position(|byte| *byte == 0)
}

// The index of the first byte above 127.
fn first_non_ascii(bytes: &[u8]) -> Option<usize>
    ensures { result ≡ first_non_ascii bytes.now }
{
    bytes.iter().position(|byte| *byte > 127)
}

/// Why bytes aren't packed records.
#[inline]
pub fn records_answer(fault: UleError) -> TinystrResult
    ensures { result ≡ records_answer fault }
{
    match fault {
        UleError::Length { len } => failure(BAD_LENGTH, len),
        UleError::Parse { index, fault } => failure(fault_code(fault), index),
    }
}

/// Why bytes aren't a packed map.
#[inline]
pub fn map_answer(fault: MapError) -> TinystrResult
    ensures { result ≡ map_answer fault }
{
    match fault {
        MapError::Keys(fault) => records_answer(fault),
        MapError::Order(fault) => failure(NOT_RISING, fault.index),
        MapError::Values { len, .. } => failure(BAD_VALUES, len),
    }
}

/// The index of a text, or the place at which it belongs.
#[inline]
pub fn search_answer(found: Result<usize, usize>) -> TinystrResult
    ensures { result ≡ search_answer found }
{
    match found {
        Ok(index) => success(index),
        Err(place) => failure(NOT_FOUND, place),
    }
}

/// Why bytes aren't a hashed table.
#[inline]
pub fn hashed_answer(fault: HashedError) -> TinystrResult
    ensures { result ≡ hashed_answer fault }
{
    match fault {
        HashedError::Header { len } => failure(BAD_HEADER, len),
        HashedError::Version { version } => failure(BAD_VERSION, version as usize),
        HashedError::Index { size, .. } => failure(BAD_INDEX, size),
        HashedError::Records(fault) => records_answer(fault),
        HashedError::Place { index } => failure(MISPLACED, index),
    }
}

/// Why bytes aren't a hashed map.
#[inline]
pub fn hashed_map_answer(fault: HashedMapError) -> TinystrResult
    ensures { result ≡ hashed_map_answer fault }
{
    match fault {
        HashedMapError::Keys(fault) => hashed_answer(fault),
        HashedMapError::Values { len, .. } => failure(BAD_VALUES, len),
    }
}

/// The index of a text, or that it isn't there.
#[inline]
pub fn position_answer(found: Option<usize>) -> TinystrResult
    ensures { result ≡ position_answer found }
{
    match found {
        Some(index) => success(index),
        None => failure(NOT_FOUND, 0),
    }
}
