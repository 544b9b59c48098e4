//! ASCII strings of bounded length: a `TinyAsciiStr<N>` holds a text of at most `N` bytes, each from 1 to 127, padded
//! with NULs to `N` bytes and stored inline. Names and signatures are those of ICU4X's `tinystr` 0.8.5, but for what
//! docs/DIFFERENCES.md lists.
#![tactic(auto)]

pub mod ascii;
pub mod error;
pub mod forms;
pub mod laws;
pub mod macros;
pub mod short_input;
pub mod ule;
pub mod unvalidated;

pub use ascii::{Parts, TinyAsciiStr, TinyStr4, TinyStr8, TinyStr16};
pub use error::ParseError;
pub use short_input::ShortInput;
pub use tinystr_words::{Case, Question};
pub use unvalidated::UnvalidatedTinyAsciiStr;
