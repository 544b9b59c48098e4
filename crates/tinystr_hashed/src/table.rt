//! Hashed tables, and the look-up in them.

ghost use Rattle.std.specs.Prelude.{◌≡◌, ◌≢◌, ◌<◌, ◌≤◌, ◌^◌, ◌↔◌, ℕ, List, [], IsOk, IsSome, IsNone, IsTrue, IfOk, IfErr, IfSome, Some, Contains, length, map, slice_get};
ghost use Rattle.tinystr_words.specs.Words.{word};
ghost use Rattle.std.specs.List as list;
ghost use Rattle.std.specs.Result.{result_ok};
ghost use Rattle.std.specs.Str.{bytes_eq};
ghost use Rattle.tinystr_packed.specs.Rising.{IsRising};
ghost use Rattle.tinystr_hashed.specs.Hashing.{start_of, place_in, place_of_slot, AreOrdered, IsFirstOutOfOrder, AreDistinct};
ghost use Rattle.tinystr_hashed.specs.Reading.{IsHashed, IsWhole, RefusesHashed, seed_of, pilots_of, moves_of, records_in, hashed_table_of};

use crate::hashing::{Places, short_number, start_of};
use std::marker::Model;
use tinystr::TinyAsciiStr;
use tinystr::ule::UleError;
use tinystr_packed::in_place::search;
use tinystr_packed::{SortedTable, Table, Texts};
use tinystr_words::padded;

/// The version of the bytes, which their first four are.
pub(crate) const VERSION: u32 = 1;

/// A table of packed texts in the order of a hash: a key is looked up in one record. A contract sees it as the list of its
/// texts, no two of which are equal.
///
/// Its bytes are a header, pilots, moves and records, one after another. All numbers are little-endian.
///
/// | bytes | what they are |
/// |---|---|
/// | 0 to 3 | the version, which is 1 |
/// | 4 to 7 | `D`, the number of pilots |
/// | 8 to 11 | `M`, the number of moves |
/// | 12 to 15 | the seed |
/// | 16 to 15 + `D` | the pilots, of one byte each |
/// | the next 4 `M` | the moves, of four bytes each |
/// | the rest | the records, of `N` bytes each |
///
/// The place of each text comes from its hash, one pilot and, for some texts, one move, as the definition `place_of` says. If
/// `D` is 0, the texts are strictly ascending, and a key is searched for by halves. `pack_hashed` makes the bytes of any
/// texts that differ.
///
/// ```rust
/// let bytes = b"\x01\0\0\0\0\0\0\0\0\0\0\0\0\0\0\0EUR";
/// let table = HashedTable::<3>::from_bytes(bytes).unwrap();
/// assert_eq!(rt; table.position(&tinystr!(3, "EUR")?), Some(0));
/// assert_eq!(rt; table.position(&tinystr!(3, "CHF")?), None);
/// ```
#[derive(Clone, Drop)]
pub struct HashedTable<'a, const N: usize> {
    table: Table<'a, N>,
    places: Places<'a>,
}

impl<'a, const N: usize> Model for HashedTable<'a, N> {
    ghost use Rattle.std.specs.Prelude.{◌<◌, List, ℕ, length, map};
    ghost use Rattle.tinystr_words.specs.Words.{word};
    ghost use Rattle.tinystr_hashed.specs.Hashing.{place_in, AreOrdered};

    ghost Value = { List (List ℕ) };

    ghost view = { λ s. s.table };

    ghost invariant = { λ s. (0 < length s.table → 0 < N) × AreOrdered s.places.pilots.now
        (place_in s.places.start s.places.pilots.now (map word s.places.moves.now) N (length s.table)) s.table };
}

/// Why bytes aren't a hashed table.
///
/// ```rust
/// assert_eq!(rt; HashedTable::<3>::from_bytes(b"EUR").err(), Some(HashedError::Header { len: 3 }));
/// ```
#[derive(Clone, Copy, Debug, PartialEq, Eq)]
pub enum HashedError {
    /// There are only `len` bytes, fewer than the sixteen of the header.
    Header { len: usize },
    /// The version isn't 1.
    Version { version: u32 },
    /// Only `len` bytes follow the header, fewer than the `size` bytes of the pilots and the moves. With a 32-bit `usize`, a
    /// greater size is `usize::MAX`.
    Index { size: usize, len: usize },
    /// The bytes after the moves aren't packed records.
    Records(UleError),
    /// The text at `index` is the first that isn't at its place or, if there are no pilots, isn't above the one before it.
    Place { index: usize },
}

impl<'a, const N: usize> HashedTable<'a, N> {
    /// Reads a hashed table from bytes, which only this call checks, in time linear in their number. `N` must be above 0.
    ///
    /// The error names the first fault: `Header`, `Version`, `Index`, `Records`, and then `Place`.
    ///
    /// ```rust
    /// let bytes = b"\x01\0\0\0\0\0\0\0\0\0\0\0\0\0\0\0EUR";
    /// let table = HashedTable::<3>::from_bytes(bytes).unwrap();
    /// assert!(rt; table.contains(&tinystr!(3, "EUR")?));
    /// ```
    pub fn from_bytes(bytes: &'a [u8]) -> Result<Self, HashedError>
        requires { 0 < N }
        ensures accepted { IsOk result ↔ ((texts : List (List ℕ)) × IsHashed texts bytes.now N) }
        ensures texts { IfOk result (λ table. IsHashed table bytes.now N) }
        ensures fault { IfErr result (λ e. RefusesHashed e bytes.now N) }
        ensures value { result_ok result ≡ hashed_table_of N bytes.now }
    {
        let parts = match Parts::of(bytes) {
            Ok(parts) => parts,
            Err(fault) => return Err(fault),
        };
        let table = match Table::new(parts.records) {
            Ok(table) => table,
            Err(fault) => return Err(HashedError::Records(fault)),
        };
        let places = parts.places;
        // where there is no record, an array of `N` bytes may have no size
        if table.is_empty() {
            return Ok(HashedTable { table, places });
        }
        match first_out_of_order(&table, &places) {
            None => Ok(HashedTable { table, places }),
            Some(index) => Err(HashedError::Place { index }),
        }
    }

    /// The number of texts.
    pub fn len(&self) -> usize
        ensures { result ≡ length self.now }
    {
        self.table.len()
    }

    /// Whether there are no texts.
    pub fn is_empty(&self) -> bool
        ensures { IsTrue result ↔ (self.now ≡ []) }
    {
        self.table.is_empty()
    }

    /// The text at an index, counted from 0, in constant time, or `None` past the end.
    pub fn get(&self, index: usize) -> Option<TinyAsciiStr<N>>
        ensures { result ≡ slice_get self.now index }
    {
        self.table.get(index)
    }

    /// The texts, in the order of the table.
    pub fn iter(&self) -> Texts<'a, N>
        ensures texts { result ≡ self.now }
        ensures bound { length result < 2 ^ 64 }
    {
        self.table.iter()
    }

    /// The index of a text, or `None` if the table doesn't have it. Each key takes one hash, one pilot and one record, and some
    /// keys one move. If there are no pilots, a key is searched for by halves.
    #[inline(always)]
    pub fn position(&self, key: &TinyAsciiStr<N>) -> Option<usize>
        ensures found { IfSome result (λ index. slice_get self.now index ≡ Some key.now) }
        ensures exact { IsSome result ↔ Contains self.now key.now }
        ensures position { result ≡ list.position (bytes_eq key.now) self.now }
        ensures distinct { AreDistinct self.now }
    {
        let count = self.table.records().len();
        let Some(slot) = self.places.slot(key.all_bytes(), count) else {
            return self.position_by_halves(key);
        };
        // a call at the end of each way, so that the usual one keeps no register
        if slot < count {
            position_at(&self.table, slot, key)
        } else {
            position_moved(&self.table, &self.places, slot, key)
        }
    }

    // The index of a text in a table without pilots. It isn't inlined, since few tables are.
    #[tactic(auto, using(crate::proofs::Lookups::halves))]
    #[cold]
    #[inline(never)]
    fn position_by_halves(&self, key: &TinyAsciiStr<N>) -> Option<usize>
        requires { IsRising self.now }
        ensures { result ≡ list.position (bytes_eq key.now) self.now }
    {
        let records = self.table.records();
        // where there is no record, an array of `N` bytes may have no size
        if records.is_empty() {
            return None;
        }
        search(records.as_flattened(), key).ok()
    }

    /// Whether the table has a text.
    pub fn contains(&self, key: &TinyAsciiStr<N>) -> bool
        ensures { IsTrue result ↔ Contains self.now key.now }
    {
        self.position(key).is_some()
    }

    /// The index of a text of any capacity, or `None` if the table doesn't have it. Both capacities must be below 2^63.
    pub fn find_text<const M: usize>(&self, key: &TinyAsciiStr<M>) -> Option<usize>
        requires texts { N < 2 ^ 63 }
        requires key { M < 2 ^ 63 }
        ensures found { IfSome result (λ index. slice_get self.now index ≡ Some key.now) }
        ensures exact { IsSome result ↔ Contains self.now key.now }
    {
        // Its contract says that no text is longer than `N` bytes.
        let _ = self.table.len();
        let key = key.try_resize()?;
        self.position(&key)
    }

    /// The texts by index, in the order of the hash.
    pub fn table(&self) -> &Table<'a, N>
        ensures { result.now ≡ self.now }
    {
        &self.table
    }
}

impl<'a, const N: usize> Default for HashedTable<'a, N> {
    ghost is_default = { λ table. table ≡ [] };

    fn default() -> Self
        ensures { result ≡ [] }
    {
        HashedTable {
            table: Table::default(),
            places: Places {
                start: 0,
                pilots: &[],
                moves: &[],
            },
        }
    }
}

// A place, if a text is there. It is compared in place, since a copy would be stored before it is loaded.
#[inline(always)]
fn position_at<const N: usize>(
    table: &Table<'_, N>,
    place: usize,
    text: &TinyAsciiStr<N>,
) -> Option<usize>
    ensures there { IfSome result (λ index. (index ≡ place) × (slice_get table.now index ≡ Some text.now)) }
    ensures elsewhere { IsNone result → (slice_get table.now place ≢ Some text.now) }
{
    let raw = table.records().get(place)?;
    padded::equals(raw, text.all_bytes()).then_some(place)
}

// The same of the place of a slot past the records. It isn't inlined, since few slots are.
#[cold]
#[inline(never)]
fn position_moved<const N: usize>(
    table: &Table<'_, N>,
    places: &Places<'_>,
    slot: usize,
    text: &TinyAsciiStr<N>,
) -> Option<usize>
    requires { length table.now ≤ slot }
    ensures there { IfSome result (λ index. (index ≡ place_of_slot (map word places.now.moves.now) (length table.now) slot)
        × (slice_get table.now index ≡ Some text.now)) }
    ensures elsewhere { IsNone result
        → (slice_get table.now (place_of_slot (map word places.now.moves.now) (length table.now) slot) ≢ Some text.now) }
{
    position_at(table, places.moved(slot, table.len()), text)
}

// The index of the first text that isn't at its place or, if there are no pilots, isn't above the one before it.
#[tactic(auto, using(crate::proofs::Placed::records_in_order))]
fn first_out_of_order<const N: usize>(table: &Table<'_, N>, places: &Places<'_>) -> Option<usize>
    requires positive { 0 < N }
    requires sized { N < 2 ^ 63 }
    ensures none { IsNone result → AreOrdered places.now.pilots.now
        (place_in places.now.start places.now.pilots.now (map word places.now.moves.now) N (length table.now)) table.now }
    ensures first { IfSome result (λ index. IsFirstOutOfOrder places.now.pilots.now
        (place_in places.now.start places.now.pilots.now (map word places.now.moves.now) N (length table.now)) table.now index) }
{
    if places.pilots.is_empty() {
        return match SortedTable::new(table.slice(0..table.len())) {
            Ok(_) => None,
            Err(fault) => Some(fault.index),
        };
    }
    places.first_misplaced(table.records())
}

/// The parts of the bytes of a hashed table: what places its records, and these.
#[derive(Clone, Copy)]
pub(crate) struct Parts<'a> {
    pub(crate) places: Places<'a>,
    pub(crate) records: &'a [u8],
}

impl<'a> Parts<'a> {
    /// The parts of bytes that have a header, all pilots and all moves. It is inlined, so that a loop over keys of the same
    /// bytes reads the header once.
    #[inline(always)]
    pub(crate) fn of(bytes: &'a [u8]) -> Result<Self, HashedError>
        ensures whole { IsOk result ↔ IsWhole bytes.now }
        ensures start { IfOk result (λ parts. parts.places.start ≡ start_of (seed_of bytes.now)) }
        ensures pilots { IfOk result (λ parts. parts.places.pilots.now ≡ pilots_of bytes.now) }
        ensures moves { IfOk result (λ parts. map word parts.places.moves.now ≡ moves_of bytes.now) }
        ensures records { IfOk result (λ parts. parts.records.now ≡ records_in bytes.now) }
        ensures fault { IfErr result (λ e. (n : ℕ) → RefusesHashed e bytes.now n) }
    {
        if bytes.len() < 16 {
            return Err(HashedError::Header { len: bytes.len() });
        }
        let version = short_number(&bytes[..4]);
        if version != VERSION {
            return Err(HashedError::Version { version });
        }
        let pilot_count = short_number(&bytes[4..8]) as usize;
        let move_count = short_number(&bytes[8..12]) as usize;
        let start = start_of(short_number(&bytes[12..16]));
        // a size above a 32-bit `usize` is `usize::MAX`, which is also above every length
        let size = move_count.saturating_mul(4).saturating_add(pilot_count);
        let rest = &bytes[16..];
        if rest.len() < size {
            return Err(HashedError::Index {
                size,
                len: rest.len(),
            });
        }
        let (index, records) = rest.split_at(size);
        let (pilots, moves) = index.split_at(pilot_count);
        let moves = moves.as_chunks().0;
        Ok(Parts {
            places: Places {
                start,
                pilots,
                moves,
            },
            records,
        })
    }
}
