//! The numbers of `tinystr.h`. The contracts have those of specs/Codes.antt and specs/Texts.antt, so the proofs fail where
//! they differ.

pub const VERSION: u32 = 300;

// The codes.

pub const OK: u32 = 0;

pub const TOO_LONG: u32 = 1;

pub const NUL: u32 = 2;

pub const NON_ASCII: u32 = 3;

pub const INVALID_LANGUAGE: u32 = 4;

pub const INVALID_SUBTAG: u32 = 5;

pub const NO_ROOM: u32 = 6;

pub const BAD_ARGUMENT: u32 = 7;

pub const BAD_LENGTH: u32 = 8;

pub const NOT_RISING: u32 = 9;

pub const BAD_VALUES: u32 = 10;

pub const NOT_FOUND: u32 = 11;

pub const BAD_HEADER: u32 = 12;

pub const BAD_VERSION: u32 = 13;

pub const BAD_INDEX: u32 = 14;

pub const MISPLACED: u32 = 15;

pub const DUPLICATE: u32 = 16;

// The questions.

pub const ALPHABETIC: u32 = 0;

pub const ALPHANUMERIC: u32 = 1;

pub const NUMERIC: u32 = 2;

pub const LOWERCASE: u32 = 3;

pub const TITLECASE: u32 = 4;

pub const UPPERCASE: u32 = 5;

pub const ALPHABETIC_LOWERCASE: u32 = 6;

pub const ALPHABETIC_TITLECASE: u32 = 7;

pub const ALPHABETIC_UPPERCASE: u32 = 8;

// The cases.

pub const LOWER: u32 = 0;

pub const TITLE: u32 = 1;

pub const UPPER: u32 = 2;
