//! Tables whose texts are strictly ascending, and the search in them.

ghost use Rattle.std.specs.Prelude.{[], ◌≡◌, ◌<◌, ◌≤◌, ◌-◌, ◌^◌, ◌↔◌, ℕ, List, IsOk, IsSome, IsTrue, IfOk, IfErr, IfSome, Some, Contains, drop, filter, length, map, nat_eq, slice_get, take};
ghost use Rattle.std.specs.List.{starts_with};
ghost use Rattle.std.specs.Result.{result_ok};
ghost use Rattle.tinystr_packed.specs.Reading.{sorted_of, sorted_table_of};
ghost use Rattle.tinystr_packed.specs.Rising.{IsRising, ArePackedRising, IsFirstFall, IsPlaceFor, IsPrefixRange, search_result};
ghost use Rattle.tinystr_packed.specs.Sorting.{RefusesSorted};

use crate::each::BinarySearchEach;
use crate::laws;
use crate::prefix::count_with_prefix;
use crate::search::{self, lower_bound};
use crate::table::{Table, Texts};
use std::marker::Model;
use std::ops::Range;
use tinystr::TinyAsciiStr;
use tinystr::ule::UleError;

/// A table whose texts are strictly ascending. A contract sees it as the list of its texts.
///
/// ```rust
/// let codes = SortedTable::new(Table::<3>::new(b"CHFEURJPYUSD").unwrap()).unwrap();
/// assert_eq!(rt; codes.binary_search(&tinystr!(3, "JPY")?), Ok(2));
/// assert_eq!(rt; codes.binary_search(&tinystr!(3, "GBP")?), Err(2));
/// ```
#[derive(Clone, Drop)]
pub struct SortedTable<'a, const N: usize> {
    table: Table<'a, N>,
}

impl<'a, const N: usize> Model for SortedTable<'a, N> {
    ghost use Rattle.std.specs.Prelude.{List, ℕ};
    ghost use Rattle.tinystr_packed.specs.Rising.{IsRising};

    ghost Value = { List (List ℕ) };

    ghost view = { λ s. s.table };

    ghost invariant = { λ s. IsRising s.table };
}

/// The text at `index` is the first that isn't above the one before it.
///
/// ```rust
/// let table = Table::<3>::new(b"CHFEUREUR").unwrap();
/// assert_eq!(rt; SortedTable::new(table).err(), Some(NotRising { index: 2 }));
/// ```
#[derive(Clone, Copy, Debug, PartialEq, Eq)]
pub struct NotRising {
    pub index: usize,
}

/// Why bytes aren't a sorted table.
///
/// ```rust
/// let fault = SortedTable::<3>::from_bytes(b"EURJP").err();
/// assert_eq!(rt; fault, Some(SortedError::Records(UleError::Length { len: 5 })));
/// ```
#[derive(Clone, Copy, Debug, PartialEq, Eq)]
pub enum SortedError {
    /// The bytes aren't packed records.
    Records(UleError),
    /// A text isn't above the one before it.
    Order(NotRising),
}

impl<'a, const N: usize> SortedTable<'a, N> {
    /// Checks that each text is above the one before it, and returns the table. The error has the index of the first that
    /// isn't.
    ///
    /// ```rust
    /// let table = Table::<3>::new(b"EURCHF").unwrap();
    /// assert_eq!(rt; SortedTable::new(table).err(), Some(NotRising { index: 1 }));
    /// ```
    #[tactic(auto, using(crate::proofs::Computed::sorted_tables))]
    pub fn new(table: Table<'a, N>) -> Result<Self, NotRising>
        ensures rising { IsOk result ↔ IsRising table.entry }
        ensures texts { IfOk result (λ sorted. sorted ≡ table.entry) }
        ensures first { IfErr result (λ e. IsFirstFall table.entry e.index) }
        ensures value { result_ok result ≡ sorted_of table.entry }
    {
        match table.first_not_above() {
            None => Ok(SortedTable { table }),
            Some(index) => Err(NotRising { index }),
        }
    }

    /// Reads a sorted table from bytes, which only this call checks: first that they are packed records, then their
    /// order. `N` must be above 0.
    ///
    /// ```rust
    /// let codes = SortedTable::<3>::from_bytes(b"CHFEURJPY").unwrap();
    /// assert_eq!(rt; codes.len(), 3);
    /// let fault = SortedTable::<3>::from_bytes(b"EURCHF").err();
    /// assert_eq!(rt; fault, Some(SortedError::Order(NotRising { index: 1 })));
    /// ```
    pub fn from_bytes(bytes: &'a [u8]) -> Result<Self, SortedError>
        requires { 0 < N }
        ensures accepted { IsOk result ↔ ((texts : List (List ℕ)) × ArePackedRising texts bytes.now N) }
        ensures texts { IfOk result (λ sorted. ArePackedRising sorted bytes.now N) }
        ensures fault { IfErr result (λ e. RefusesSorted e bytes.now N) }
        ensures value { result_ok result ≡ sorted_table_of N bytes.now }
    {
        let table = match Table::new(bytes) {
            Ok(table) => table,
            Err(fault) => return Err(SortedError::Records(fault)),
        };
        match SortedTable::new(table) {
            Ok(sorted) => Ok(sorted),
            Err(fault) => Err(SortedError::Order(fault)),
        }
    }

    /// The table itself.
    pub fn table(&self) -> &Table<'a, N>
        ensures table { result.now ≡ self.now }
        ensures rising { IsRising self.now }
    {
        &self.table
    }

    /// The number of texts.
    pub fn len(&self) -> usize
        ensures { result ≡ length self.now }
    {
        self.table.len()
    }

    /// Whether the table has no texts.
    pub fn is_empty(&self) -> bool
        ensures { IsTrue result ↔ (self.now ≡ []) }
    {
        self.table.is_empty()
    }

    /// The text at an index, counted from 0, in constant time, or `None` past the end.
    pub fn get(&self, index: usize) -> Option<TinyAsciiStr<N>>
        ensures { result ≡ slice_get self.now index }
    {
        self.table.get(index)
    }

    /// The first text, which is the least, if there is one.
    pub fn first(&self) -> Option<TinyAsciiStr<N>>
        ensures { result ≡ slice_get self.now 0 }
    {
        self.table.first()
    }

    /// The last text, which is the greatest, if there is one.
    pub fn last(&self) -> Option<TinyAsciiStr<N>>
        ensures { result ≡ slice_get self.now (length self.now - 1) }
    {
        self.table.last()
    }

    /// The texts in order.
    ///
    /// ```rust
    /// let codes = SortedTable::<3>::from_bytes(b"CHFEURJPY").unwrap();
    /// assert_eq!(rt; codes.iter().rev().nth(1), Some(tinystr!(3, "EUR")?));
    /// ```
    pub fn iter(&self) -> Texts<'a, N>
        ensures texts { result ≡ self.now }
        ensures bound { length result < 2 ^ 64 }
    {
        self.table.iter()
    }

    /// The index of a text, or as the error the index at which it belongs: all texts before that are below it, and all
    /// from that on are above it.
    pub fn binary_search(&self, key: &TinyAsciiStr<N>) -> Result<usize, usize>
        ensures found { IfOk result (λ index. slice_get self.now index ≡ Some key.now) }
        ensures place { IfErr result (λ place. IsPlaceFor key.now self.now place) }
        ensures exact { IsOk result ↔ Contains self.now key.now }
        ensures rising { IsRising self.now }
        ensures answer { result ≡ search_result self.now key.now }
    {
        search::binary_search(self.table.records(), key)
    }

    /// What `binary_search` returns for each of many keys, in their order.
    ///
    /// A key that repeats, or whose place is next to the last one, needs no search. Other keys are searched for eight at a
    /// time, so that each search waits for memory while the others do. Eight keys in order are searched for first in the
    /// records after the last place, and fewer than eight keys are searched for one by one.
    ///
    /// ```rust
    /// let codes = SortedTable::new(Table::<3>::new(b"CHFEURJPYUSD").unwrap()).unwrap();
    /// let keys = [tinystr!(3, "JPY")?, tinystr!(3, "GBP")?];
    /// let mut places = codes.binary_search_each(&keys);
    /// assert_eq!(rt; places.next(), Some(Ok(2)));
    /// assert_eq!(rt; places.next(), Some(Err(2)));
    /// assert_eq!(rt; places.next(), None);
    /// ```
    pub fn binary_search_each<'k>(&self, keys: &'k [TinyAsciiStr<N>]) -> BinarySearchEach<'a, 'k, N>
        ensures answers { result ≡ map (search_result self.now) keys.now }
        ensures rising { IsRising self.now }
    {
        BinarySearchEach::new(self.table.records(), keys)
    }

    /// The index of a text of any capacity, or `None` if the table doesn't have it. Both capacities must be below 2^63.
    ///
    /// ```rust
    /// let codes = SortedTable::<3>::from_bytes(b"CHFEURJPY").unwrap();
    /// assert_eq!(rt; codes.find_text(&tinystr!(8, "EUR")?), Some(1));
    /// assert_eq!(rt; codes.find_text(&tinystr!(8, "EURO")?), None);
    /// ```
    pub fn find_text<const M: usize>(&self, key: &TinyAsciiStr<M>) -> Option<usize>
        requires texts { N < 2 ^ 63 }
        requires key { M < 2 ^ 63 }
        ensures found { IfSome result (λ index. slice_get self.now index ≡ Some key.now) }
        ensures exact { IsSome result ↔ Contains self.now key.now }
    {
        laws::sorted_texts(self);
        let key = key.try_resize()?;
        self.binary_search(&key).ok()
    }

    /// Whether the table has a text.
    pub fn contains(&self, key: &TinyAsciiStr<N>) -> bool
        ensures { IsTrue result ↔ Contains self.now key.now }
    {
        self.binary_search(key).is_ok()
    }

    /// The table of the texts that begin with `beginning`.
    ///
    /// ```rust
    /// let codes = SortedTable::new(Table::<3>::new(b"CADCHFCZKEUR").unwrap()).unwrap();
    /// let found = codes.with_prefix(&tinystr!(3, "CH")?);
    /// assert_eq!(rt; found.len(), 1);
    /// assert_eq!(rt; found.first(), Some(tinystr!(3, "CHF")?));
    /// ```
    pub fn with_prefix(&self, beginning: &TinyAsciiStr<N>) -> SortedTable<'a, N>
        ensures { result ≡ filter (λ t. starts_with nat_eq t beginning.now) self.now }
    {
        self.slice(self.prefix_range(beginning))
    }

    // The table of the texts at a range of indices.
    pub(crate) fn slice(&self, range: Range<usize>) -> SortedTable<'a, N>
        requires start { range.start ≤ range.end }
        requires end { range.end ≤ length self.now }
        ensures { result ≡ take (range.end - range.start) (drop range.start self.now) }
    {
        SortedTable {
            table: self.table.slice(range),
        }
    }

    // The indices of the texts that begin with a text.
    pub(crate) fn prefix_range(&self, beginning: &TinyAsciiStr<N>) -> Range<usize>
        ensures { IsPrefixRange beginning.now self.now result.start result.end }
    {
        tinystr::laws::fits(beginning);
        let records = self.table.records();
        let start = lower_bound(records, beginning.all_bytes());
        let (_, rest) = records.split_at(start);
        let len = count_with_prefix(rest, beginning);
        start..start + len
    }
}

impl<'a, const N: usize> Default for SortedTable<'a, N> {
    ghost is_default = { λ table. table ≡ [] };

    fn default() -> Self
        ensures { result ≡ [] }
    {
        SortedTable {
            table: Table::default(),
        }
    }
}
