//! Texts packed as a hashed table in memory of the caller.

ghost use Rattle.std.specs.Prelude.{◌≡◌, ◌↔◌, ◌<◌, ◌≤◌, ◌+◌, ◌-◌, ◌*◌, ◌^◌, min, length, take, IsTrue, IfOk, IfErr, IfSome};
ghost use Rattle.std.specs.List.{IsDistinct};
ghost use Rattle.std.specs.Str.{bytes_eq};
ghost use Rattle.tinystr_packed.specs.Sorting.{AreSorted, AreSortedRows};
ghost use Rattle.tinystr_hashed.specs.Packing.{ArePackedHashed};
ghost use Rattle.tinystr_hashed.specs.PackingInto as Spec;
ghost use Rattle.tinystr_hashed.specs.PackingInto.{ArePackedInto, IsFirstRepeat, RefusesToPackInto};

use crate::building::{ATTEMPTS, Attempt, Plan, SORTED, Texts, builds, can_have_pilots};
use tinystr_packed::{SortedTable, Table};

/// Why texts aren't packed in memory of the caller.
///
/// ```rust
/// let twice = Table::<3>::new(b"EURGB\0EUR").unwrap();
/// let mut out = [0; 98];
/// let mut scratch = [0; 641];
/// let fault = pack_hashed_into(&twice, &mut out[..], &mut scratch[..]).err();
/// assert_eq!(rt; fault, Some(PackIntoError::Duplicate { index: 2 }));
/// ```
#[derive(Clone, Copy, Debug, PartialEq, Eq)]
pub enum PackIntoError {
    /// `out` has fewer bytes than `most_bytes` gives.
    Out,
    /// `scratch` has fewer bytes than `scratch_bytes` gives.
    Scratch,
    /// The text at `index` is the first that is equal to one before it.
    Duplicate { index: usize },
}

/// How many bytes `pack_hashed_into` may write for `count` texts of at most `size` bytes, or the greatest number if they are more.
pub fn most_bytes(count: usize, size: usize) -> usize
    ensures { result ≡ min (Spec.most_bytes count size) (2 ^ 64 - 1) }
{
    size.saturating_add(3)
        .saturating_mul(count)
        .saturating_add(80)
}

/// How many bytes of scratch `pack_hashed_into` takes for `count` texts of at most `size` bytes, or the greatest number if they
/// are more.
pub fn scratch_bytes(count: usize, size: usize) -> usize
    ensures { result ≡ min (Spec.scratch_bytes count size) (2 ^ 64 - 1) }
{
    size.saturating_add(40)
        .saturating_mul(count)
        .saturating_add(512)
}

/// Packs the texts of a table, no two of which may be equal, at the start of `out`, and returns how many bytes they take. They
/// are the bytes that `pack_hashed` makes. `out` must have `most_bytes`, and `scratch` must have `scratch_bytes`; both end with any
/// other bytes. `N` must be above 0, and below 2^63.
///
/// It fails only if there is too little room or a text occurs twice.
///
/// ```rust
/// let texts = Table::<3>::new(b"EURGB\0").unwrap();
/// let mut out = [0; 92];
/// let mut scratch = [0; 598];
/// let len = pack_hashed_into(&texts, &mut out[..], &mut scratch[..]).unwrap();
/// let table = HashedTable::<3>::from_bytes(&out[..len]).unwrap();
/// assert!(rt; table.contains(&tinystr!(3, "GB")?));
/// ```
pub fn pack_hashed_into<const N: usize>(
    texts: &Table<'_, N>,
    out: &mut [u8],
    scratch: &mut [u8],
) -> Result<usize, PackIntoError>
    requires some { 0 < N }
    requires sized { N < 2 ^ 63 }
    ensures packed { IfOk result (λ len. ArePackedInto len texts.now out.old out.new (length scratch.old) N) }
    ensures fault { IfErr result (λ e. RefusesToPackInto e texts.now out.old out.new (length scratch.old) N) }
{
    if out.len() < most_bytes(texts.len(), N) {
        return Err(PackIntoError::Out);
    }
    if scratch.len() < scratch_bytes(texts.len(), N) {
        return Err(PackIntoError::Scratch);
    }
    let (first, others) = ATTEMPTS.split_at(1);
    if let Some(len) = put_by_pilots(texts, first, out, scratch) {
        return Ok(len);
    }
    // A search fails if a text occurs twice. Else there is no need to sort.
    if !are_distinct(texts, scratch) {
        let index = first_repeat(texts, scratch);
        return Err(PackIntoError::Duplicate { index });
    }
    if let Some(len) = put_by_pilots(texts, others, out, scratch) {
        return Ok(len);
    }
    let len = SORTED.len() + texts.len() * N;
    let (table, _) = out.split_at_mut(len);
    put_in_order(texts, table, scratch);
    Ok(len)
}

// Puts a table at the start of `out`, with the pilots of the first attempt that finds some, and returns how many bytes it has.
fn put_by_pilots<const N: usize>(
    texts: &Table<'_, N>,
    attempts: &[Attempt],
    out: &mut [u8],
    scratch: &mut [u8],
) -> Option<usize>
    requires some { 0 < N }
    requires sized { N < 2 ^ 63 }
    ensures out { length out.new ≡ length out.old }
    ensures scratch { length scratch.new ≡ length scratch.old }
    ensures inside { IfSome result (λ len. len ≤ length out.old) }
    ensures packed { IfSome result (λ len. ArePackedHashed texts.now (take len out.new) N) }
{
    if !can_have_pilots(texts.len()) {
        return None;
    }
    for attempt in attempts {
        let plan = Plan::of(attempt, texts.len(), N);
        let len = plan.size();
        if len <= out.len() {
            let (table, _) = out.split_at_mut(len);
            if builds(&Texts::Packed(texts), &plan, table, scratch) {
                return Some(len);
            }
        }
    }
    None
}

// Puts a table without pilots.
fn put_in_order<const N: usize>(texts: &Table<'_, N>, out: &mut [u8], scratch: &mut [u8])
    requires some { 0 < N }
    requires sized { N < 2 ^ 63 }
    requires distinct { IsDistinct bytes_eq texts.now }
    requires out { length out.old ≡ 16 + length texts.now * N }
    requires scratch { length texts.now * N ≤ length scratch.old }
    ensures { ArePackedHashed texts.now out.new N }
{
    let (header, records) = out.split_at_mut(SORTED.len());
    header.copy_from_slice(&SORTED[..]);
    records.copy_from_slice(sorted_records(texts, scratch));
}

// The records of texts in order.
#[tactic(auto, using(crate::proofs::SortedTables::sorted_records))]
fn sorted_records<'a, const N: usize>(texts: &Table<'_, N>, scratch: &'a mut [u8]) -> &'a [u8]
    requires some { 0 < N }
    requires sized { N < 2 ^ 63 }
    requires scratch { length texts.now * N ≤ length scratch.old }
    ensures { AreSorted texts.now result.now N }
{
    sorted_rows(texts.records(), scratch)
}

fn sorted_rows<'a, const N: usize>(rows: &[[u8; N]], scratch: &'a mut [u8]) -> &'a [u8]
    requires some { 0 < N }
    requires scratch { length rows.now * N ≤ length scratch.old }
    ensures { AreSortedRows rows.now result.now }
{
    let (room, _) = scratch.as_chunks_mut::<N>();
    let (sorted, _) = room.split_at_mut(rows.len());
    sorted.copy_from_slice(rows);
    sorted.sort_unstable();
    sorted.as_flattened()
}

// Whether no text occurs twice.
fn are_distinct<const N: usize>(texts: &Table<'_, N>, scratch: &mut [u8]) -> bool
    requires some { 0 < N }
    requires sized { N < 2 ^ 63 }
    requires scratch { length texts.now * N ≤ length scratch.old }
    ensures distinct { IsTrue result ↔ IsDistinct bytes_eq texts.now }
    ensures scratch { length scratch.new ≡ length scratch.old }
{
    match Table::<N>::new(sorted_records(texts, scratch)) {
        Ok(sorted) => SortedTable::new(sorted).is_ok(),
        Err(_) => false,
    }
}

// The index of the first text that is equal to one before it.
#[tactic(auto, using(crate::proofs::Repeats::repeats))]
fn first_repeat<const N: usize>(texts: &Table<'_, N>, scratch: &mut [u8]) -> usize
    requires some { 0 < N }
    requires sized { N < 2 ^ 63 }
    requires scratch { length texts.now * N ≤ length scratch.old }
    requires repeat { ¬ IsDistinct bytes_eq texts.now }
    ensures { IsFirstRepeat texts.now result }
{
    // The texts before `low` differ, and those before `high` don't.
    let mut low = 0;
    let mut high = texts.len();
    while low + 1 < high {
        let middle = low + (high - low) / 2;
        if are_distinct(&texts.slice(0..middle), scratch) {
            low = middle;
        } else {
            high = middle;
        }
    }
    low
}
