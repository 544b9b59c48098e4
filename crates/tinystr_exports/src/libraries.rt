//! What `tables` and `lang_ids` call. The programs in Rust of diff/ have a module of this name over the crate for Cargo.

pub use subtags::{LangId, LangIdError};
pub use tinystr::ule::UleError;
pub use tinystr::{ParseError, TinyAsciiStr};
pub use tinystr_hashed::in_place::position;
pub use tinystr_hashed::{
    HashedError, HashedMap, HashedMapError, HashedTable, HashedTextMap, HashedTextMapError,
};
pub use tinystr_packed::in_place::{search, with_prefix};
pub use tinystr_packed::{
    MapError, NotRising, PackedMap, SortedError, SortedTable, TextMap, TextMapError,
};
