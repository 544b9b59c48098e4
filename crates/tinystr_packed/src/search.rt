//! One search among records. A contract says what the search returns if each record is above the one before it, and of any
//! other records that the place is inside them.

ghost use Rattle.std.specs.Prelude.{◌≡◌, ◌<◌, ◌≤◌, ◌↔◌, ◌-◌, ℕ, All, IfSome, IsTrue, length};
ghost use Rattle.std.specs.Cmp.Lexicographic.{slice_cmp};
ghost use Rattle.std.specs.Ordering.{nat_cmp, is_lt};
ghost use Rattle.std.specs.declared.cmp.Ordering.TheVariants.{Less};
ghost use Rattle.tinystr_words.specs.Text.{IsPaddedText, pad};
ghost use Rattle.tinystr_packed.specs.Private.{IsRecord, AreRisingRecords, AreDistinguished, BeginAlike, IsAnswer};
ghost use Rattle.tinystr_packed.specs.Rising.{order, text_at, IsRising, IsFirstNotBelow, IsFirstNotBelowWithin};

use crate::record::{Number, are_same, compare, is_below, number_at};
use std::cmp::Ordering;
use std::hint::select_unpredictable;
use std::ops::Range;
use tinystr::TinyAsciiStr;

// Speed: below this number, records of more than sixteen bytes are compared whole, since it takes longer to narrow the range
// first.
const FEWEST_NARROWED: usize = 32;

// Speed: after the last place, the next key is compared with at most this number of records, and at most a sixteenth of all,
// since a random key is seldom among them.
const NEXT: usize = 15;

// Speed: the fewest records of 9 to 16 bytes for which the records after the last place are tried. Fewer fit in a cache, and
// eight searches at a time are faster.
const MANY: usize = 65_536;

/// How records of more than sixteen bytes are compared with a key. Shorter ones are compared as one number.
#[derive(Clone, Copy)]
pub(crate) enum LongRecords {
    /// By sixteen of their bytes, until few are left.
    Narrowed,
    /// By all their bytes.
    Whole,
}

/// `binary_search`, or `binary_search_whole`.
#[inline(always)]
pub(crate) fn binary_search_as<const N: usize>(
    records: &[[u8; N]],
    key: &TinyAsciiStr<N>,
    long: LongRecords,
) -> Result<usize, usize>
    ensures { IsAnswer N key.now records.now result }
{
    match long {
        LongRecords::Narrowed => binary_search(records, key),
        LongRecords::Whole => binary_search_whole(records, key),
    }
}

/// The index of a key among records or, as the error, the index at which it belongs.
pub(crate) fn binary_search<const N: usize>(
    records: &[[u8; N]],
    key: &TinyAsciiStr<N>,
) -> Result<usize, usize>
    ensures { IsAnswer N key.now records.now result }
{
    let place = lower_bound(records, key.all_bytes());
    answer_at(records, place, key)
}

/// The same, where records of more than sixteen bytes are compared whole.
// Speed: keys that repeat are found in less time among 40 or more records of 24 to 64 bytes.
pub(crate) fn binary_search_whole<const N: usize>(
    records: &[[u8; N]],
    key: &TinyAsciiStr<N>,
) -> Result<usize, usize>
    ensures { IsAnswer N key.now records.now result }
{
    let place = lower_bound_whole(records, key.all_bytes());
    answer_at(records, place, key)
}

/// What a search for a key returns that ends at a place.
// The record is compared where it is: a copy would be stored first, and its loads would wait for that.
#[inline(always)]
pub(crate) fn answer_at<const N: usize>(
    records: &[[u8; N]],
    place: usize,
    key: &TinyAsciiStr<N>,
) -> Result<usize, usize>
    requires bound { place ≤ length records.now }
    requires place { All (λ raw. IsPaddedText raw N) records.now → AreRisingRecords N records.now →
        IsFirstNotBelow (pad key.now N) records.now place }
    ensures { IsAnswer N key.now records.now result }
{
    let bytes = key.all_bytes();
    let Some(raw) = records.get(place) else {
        return Err(place);
    };
    if are_same(raw, bytes) {
        Ok(place)
    } else {
        Err(place)
    }
}

/// The place of a key: the index of the first record that isn't below it, or the number of records.
// One number is all of a record of at most sixteen bytes. The eight bytes after those that all records share distinguish a longer
// one from most others, sixteen from most of the remaining ones, and all bytes from the last few.
#[inline(always)]
pub(crate) fn lower_bound<const N: usize>(records: &[[u8; N]], key: &[u8; N]) -> usize
    ensures bound { result ≤ length records.now }
    ensures place { AreRisingRecords N records.now → IsRecord N key.now → IsFirstNotBelow key.now records.now result }
{
    if N <= 16 {
        return lower_bound_short(records, key);
    }
    if records.len() < FEWEST_NARROWED {
        return lower_bound_by_halves(records, key);
    }
    lower_bound_long(records, key)
}

/// The same, where records of more than sixteen bytes are compared whole.
#[inline(always)]
pub(crate) fn lower_bound_whole<const N: usize>(records: &[[u8; N]], key: &[u8; N]) -> usize
    ensures bound { result ≤ length records.now }
    ensures place { AreRisingRecords N records.now → IsRecord N key.now → IsFirstNotBelow key.now records.now result }
{
    if N <= 16 {
        return lower_bound_short(records, key);
    }
    lower_bound_by_halves(records, key)
}

// The place among records of at most sixteen bytes.
#[inline(always)]
fn lower_bound_short<const N: usize>(records: &[[u8; N]], key: &[u8; N]) -> usize
    requires { N ≤ 16 }
    ensures bound { result ≤ length records.now }
    ensures place { AreRisingRecords N records.now → IsRecord N key.now → IsFirstNotBelow key.now records.now result }
{
    let all = 0..records.len();
    if N <= 8 {
        return narrow::<N, u64>(records, key, 0, all).start;
    }
    narrow::<N, u128>(records, key, 0, all).start
}

// The place among many records of more than sixteen bytes.
// Speed: it isn't inlined, so that a search among few records doesn't save the registers that only this one uses.
#[tactic(auto, using(crate::proofs::RecordOrder::long_records))]
#[inline(never)]
fn lower_bound_long<const N: usize>(records: &[[u8; N]], key: &[u8; N]) -> usize
    requires { 16 < N }
    ensures bound { result ≤ length records.now }
    ensures place { AreRisingRecords N records.now → IsRecord N key.now → IsFirstNotBelow key.now records.now result }
{
    let start = shared_len(records, key);
    let range = narrow::<N, u64>(records, key, start, 0..records.len());
    let range = narrow::<N, u128>(records, key, start, range);
    lower_bound_within(records, key, range)
}

/// The place of a key that is above all records before an index, if the place is near: that index or, among long records or
/// among many of more than eight bytes, one of a few after it.
// Speed: these records are compared one after another, since a processor loads neighbours ahead.
#[tactic(auto, using(crate::proofs::RisingTexts::below_from_rising))]
#[inline(always)]
pub(crate) fn lower_bound_near<const N: usize>(
    records: &[[u8; N]],
    key: &[u8; N],
    start: usize,
) -> Option<usize>
    requires rising { IsRising records.now }
    requires inside { start ≤ length records.now }
    requires below { (k : ℕ) → k < start → order (text_at records.now k) key.now ≡ Less }
    ensures { IfSome result (λ place. IsFirstNotBelow key.now records.now place) }
{
    let next = if N > 16 || N > 8 && records.len() >= MANY {
        NEXT.min(records.len() / 16)
    } else {
        0
    };
    if is_below_at(records, start.saturating_add(next), key) {
        return None;
    }
    let mut place = start;
    while is_below_at(records, place, key) {
        place += 1;
    }
    Some(place)
}

/// Whether there is a record at an index, and it is below a key.
#[inline(always)]
pub(crate) fn is_below_at<const N: usize>(records: &[[u8; N]], index: usize, key: &[u8; N]) -> bool
    ensures { IsTrue result ↔ ((index < length records.now) × (order (text_at records.now index) key.now ≡ Less)) }
{
    index < records.len() && is_below(&records[index][..], &key[..])
}

// Narrows a range that holds a key's place, by the numbers of its records from `start` on: to an empty range at the place or,
// past sixteen bytes, to a range whose middle has the key's number and may still differ from the key. For records that aren't in
// order the result is some part of the range.
// Speed: the order is tested without a branch, and both records that the next step may compare are loaded before this step's test
// is done.
#[inline(always)]
fn narrow<const N: usize, T: Number<N>>(
    records: &[[u8; N]],
    key: &[u8; N],
    start: usize,
    range: Range<usize>,
) -> Range<usize>
    requires start { start ≤ N - 8 }
    requires ordered { range.start ≤ range.end }
    requires inside { range.end ≤ length records.now }
    ensures ordered { result.start ≤ result.end }
    ensures inside { result.end ≤ length records.now }
    ensures within { AreDistinguished N (T.spelled start) key.now records.now
        → IsFirstNotBelowWithin key.now records.now range.start range.end
        → IsFirstNotBelowWithin key.now records.now result.start result.end }
    ensures place { N ≤ 16 → result.start ≡ result.end }
{
    if range.is_empty() {
        return range;
    }
    let wanted = T::at(key, start);
    let mut base = range.start;
    let mut size = range.end - base;
    let mut number = T::at(&records[base + size / 2], start);
    while size > 1 {
        let half = size / 2;
        size -= half;
        let next = size / 2;
        let low = T::at(&records[base + next], start);
        let high = T::at(&records[base + half + next], start);
        if N > 16 && number.is_same(wanted) {
            return base..base + half + size;
        }
        let is_below = number.is_below(wanted);
        base = select_unpredictable(is_below, base + half, base);
        number = select_unpredictable(is_below, high, low);
    }
    if N > 16 && number.is_same(wanted) {
        return base..base + 1;
    }
    let place = base + usize::from(number.is_below(wanted));
    place..place
}

// The place of a key within a range that holds the place, by whole records.
// Speed: the middle is first, since it is mostly the key where `narrow` ends.
#[tactic(auto, using(crate::proofs::RisingTexts::middles))]
#[inline(always)]
fn lower_bound_within<const N: usize>(
    records: &[[u8; N]],
    key: &[u8; N],
    range: Range<usize>,
) -> usize
    requires ordered { range.start ≤ range.end }
    requires inside { range.end ≤ length records.now }
    ensures bound { result ≤ length records.now }
    ensures place { IsRising records.now → IsFirstNotBelowWithin key.now records.now range.start range.end
        → IsFirstNotBelow key.now records.now result }
{
    let Range { start, end } = range;
    if start == end {
        return start;
    }
    let middle = start + (end - start) / 2;
    match compare(&records[middle][..], &key[..]) {
        Ordering::Less => middle + 1 + lower_bound_by_halves(&records[middle + 1..end], key),
        Ordering::Equal => middle,
        Ordering::Greater => start + lower_bound_by_halves(&records[start..middle], key),
    }
}

// The place of a key, by whole records and by halves.
#[inline(always)]
fn lower_bound_by_halves<const N: usize>(records: &[[u8; N]], key: &[u8; N]) -> usize
    ensures bound { result ≤ length records.now }
    ensures place { IsRising records.now → IsFirstNotBelow key.now records.now result }
{
    records.partition_point(
        |raw| -> bool
            ensures { result ≡ is_lt (slice_cmp nat_cmp raw.now key.entry.now) }
        { is_below(&raw[..], &key[..]) },
    )
}

/// How many of their first bytes the key and all records share, a multiple of eight or all but the last eight. It changes
/// only the speed: by a lower number the same place is found.
#[inline(always)]
pub(crate) fn shared_len<const N: usize>(records: &[[u8; N]], key: &[u8; N]) -> usize
    requires { 8 < N }
    ensures bound { result ≤ N - 8 }
    ensures alike { AreRisingRecords N records.now → IsRecord N key.now → BeginAlike result key.now records.now }
{
    let (Some(first), Some(last)) = (records.first(), records.last()) else {
        return 0;
    };
    let mut len = 0;
    while len < N - 8 {
        let number = number_at(key, len);
        if number_at(first, len) != number || number_at(last, len) != number {
            return len;
        }
        len += 8;
    }
    N - 8
}
