//! Packed records: texts of at most `N` bytes, each padded with NULs to `N` bytes, one after another. Their bytes are
//! checked once, and then read in place.
#![tactic(auto)]

mod each;
mod eight;
pub mod in_place;
pub mod laws;
mod map;
mod packing;
mod prefix;
mod record;
mod search;
mod sorted;
mod table;
mod text_map;

pub use each::BinarySearchEach;
pub use map::{Entries, GetEach, MapError, PackedMap};
pub use packing::{count_texts, pack, pack_map, pack_sorted, pack_text_map, unpack};
pub use sorted::{NotRising, SortedError, SortedTable};
pub use table::{Table, Texts};
pub use text_map::{TextEntries, TextMap, TextMapError};
