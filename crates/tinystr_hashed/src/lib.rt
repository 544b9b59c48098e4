//! Hashed tables: packed records in the order of a hash, so that a key is looked up in one record. Their bytes are checked
//! once, and then read in place.
#![tactic(auto)]

mod building;
mod hashing;
pub mod in_place;
pub mod laws;
mod map;
mod packing;
mod packing_into;
mod packing_maps;
mod placing;
mod table;
mod text_map;

pub use map::{Entries, HashedMap, HashedMapError};
pub use packing::{PackHashedError, pack_hashed};
pub use packing_into::{PackIntoError, most_bytes, pack_hashed_into, scratch_bytes};
pub use packing_maps::{pack_hashed_map, pack_hashed_text_map};
pub use table::{HashedError, HashedTable};
pub use text_map::{HashedTextMap, HashedTextMapError};
