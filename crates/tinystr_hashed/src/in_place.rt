//! Look-ups in the bytes of a hashed table that were checked before, and aren't checked again. For any other bytes a look-up
//! returns a place inside them, or none.

ghost use Rattle.std.specs.Prelude.{◌≡◌, ◌<◌, ◌/◌, List, ℕ, IfSome, length};
ghost use Rattle.std.specs.List as list;
ghost use Rattle.std.specs.Str.{bytes_eq};
ghost use Rattle.tinystr_hashed.specs.Reading.{IsHashed, records_in};

use crate::table::Parts;
use tinystr::TinyAsciiStr;
use tinystr_packed::in_place::search;

/// The index of a text in the bytes of a hashed table, as `HashedTable::position` returns it, or `None` if the table doesn't
/// have it. For any other bytes an index is inside them. `N` must be above 0.
///
/// ```rust
/// let bytes = b"\x01\0\0\0\0\0\0\0\0\0\0\0\0\0\0\0EUR";
/// assert_eq!(rt; in_place::position(bytes, &tinystr!(3, "EUR")?), Some(0));
/// assert_eq!(rt; in_place::position(bytes, &tinystr!(3, "GBP")?), None);
/// ```
pub fn position<const N: usize>(bytes: &[u8], key: &TinyAsciiStr<N>) -> Option<usize>
    requires { 0 < N }
    ensures inside { IfSome result (λ index. index < length (records_in bytes.now) / N) }
    ensures position { (texts : List (List ℕ)) → IsHashed texts bytes.now N
        → result ≡ list.position (bytes_eq key.now) texts }
{
    let Ok(parts) = Parts::of(bytes) else {
        return None;
    };
    let records = parts.records.as_chunks().0;
    let raw = key.all_bytes();
    let Some(place) = parts.places.place(raw, records.len()) else {
        return search(parts.records, key).ok();
    };
    let Some(found) = records.get(place) else {
        return None;
    };
    if found == raw { Some(place) } else { None }
}
