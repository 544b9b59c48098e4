//! Language identifiers: a language, then a script, a region, both or neither, as `en`, `es-419` and
//! `zh-Hant-TW`. They are read in any case, with `-` or `_` between the subtags. A value is its canonical text. No call
//! allocates, and none looks subtags up in a registry.
#![tactic(auto)]

mod classes;
pub mod error;
pub mod lang_id;
pub mod language;
pub mod laws;
mod places;
pub mod region;
pub mod script;
pub mod subtag;
mod texts;

pub use error::LangIdError;
pub use lang_id::LangId;
pub use language::Language;
pub use region::Region;
pub use script::Script;
