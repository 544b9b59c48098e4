//! The numbers by which the callers of the exports choose a call. The programs in Rust of diff/ and bench/ read this file
//! too.

/// What `ask` answers: the length, whether the text is empty, the questions, or the last byte of `as_str`.
pub const LEN: usize = 0;

pub const IS_EMPTY: usize = 1;

pub const ALPHABETIC: usize = 2;

pub const ALPHANUMERIC: usize = 3;

pub const NUMERIC: usize = 4;

pub const LOWERCASE: usize = 5;

pub const TITLECASE: usize = 6;

pub const UPPERCASE: usize = 7;

pub const ALPHABETIC_LOWERCASE: usize = 8;

pub const ALPHABETIC_TITLECASE: usize = 9;

pub const ALPHABETIC_UPPERCASE: usize = 10;

pub const LAST_OF_STR: usize = 11;

/// What `change` makes of a text.
pub const LOWER: usize = 0;

pub const TITLE: usize = 1;

pub const UPPER: usize = 2;

pub const COPY: usize = 3;

/// What `compare` computes of two texts.
pub const ORDER: usize = 0;

pub const EQUALITY: usize = 1;

pub const EQUALITY_OF_HASHES: usize = 2;

/// How `read8` and `read16` read a list of code units; the last of bytes alone.
pub const READ: usize = 0;

pub const LOSSY: usize = 1;

pub const RAW: usize = 2;

/// How `print` prints a value; the last any bytes.
pub const DISPLAY: usize = 0;

pub const PADDED: usize = 1;

pub const DEBUG: usize = 2;

pub const UNVALIDATED_DEBUG: usize = 3;

/// What `search` answers, by the table or map that it makes of the bytes: of records,
pub const SEARCH: usize = 0;

pub const SEARCH_EACH: usize = 1;

pub const FIND_TEXT: usize = 2;

pub const PREFIX: usize = 3;

/// of records and values,
pub const GET: usize = 4;

pub const GET_EACH: usize = 5;

pub const GET_TEXT: usize = 6;

/// of a hashed table,
pub const POSITION: usize = 7;

pub const HASHED_FIND_TEXT: usize = 8;

/// of a hashed table and values,
pub const HASHED_GET: usize = 9;

pub const HASHED_GET_TEXT: usize = 10;

/// or of bytes that aren't checked.
pub const SEARCH_IN_PLACE: usize = 11;

pub const PREFIX_IN_PLACE: usize = 12;

pub const POSITION_IN_PLACE: usize = 13;
