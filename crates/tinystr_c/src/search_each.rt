//! Searches for many keys, eight at a time. Of packed records that are strictly ascending, each answer is that of a
//! search for the key alone. Of any other bytes it is a place inside them, which may differ from that of a search for
//! the key alone.

ghost use Rattle.std.specs.Prelude.{◌≡◌, ◌<◌, ◌≤◌, ◌+◌, ◌^◌, ℕ, length, slice_index_or, All, Ok};
ghost use Rattle.tinystr_words.specs.Text.{IsStrictText};
ghost use Rattle.tinystr_packed.specs.Rising.{text_at};
ghost use Rattle.tinystr_c.specs.Codes.{success, search_answer};
ghost use Rattle.tinystr_c.specs.Tables.{Searches, SearchesEach};

use crate::answer::{TinystrResult, failure, records_answer, search_answer, success};
use crate::numbers::NO_ROOM;
use tinystr::TinyAsciiStr;
use tinystr_packed::{Table, in_place};

/// The number of keys, whose answers are put at the start of `out`, or why there are none. The keys are checked before
/// the length of `out`.
pub fn sorted_search_each<const N: usize>(
    bytes: &[u8],
    keys: &[u8],
    out: &mut [TinystrResult],
) -> TinystrResult
    requires above { 0 < N }
    requires below { N ≤ 16 }
    ensures { SearchesEach result out.old out.new bytes.now keys.now N }
{
    let keys = match Table::<N>::new(keys) {
        Ok(keys) => keys,
        Err(fault) => return records_answer(fault),
    };
    let count = keys.len();
    if out.len() < count {
        return failure(NO_ROOM, count);
    }
    let (front, _) = out.split_at_mut(count);
    search_each(bytes, &keys, front);
    success(count)
}

// Puts the answer for each key, for eight keys at a time, and for one at a time where fewer remain.
fn search_each<const N: usize>(bytes: &[u8], keys: &Table<'_, N>, out: &mut [TinystrResult])
    requires above { 0 < N }
    requires below { N ≤ 16 }
    requires room { length keys.now ≡ length out.old }
    ensures room { length out.new ≡ length out.old }
    ensures each { (i : ℕ) → i < length keys.now → Searches (slice_index_or out.new i (success 0)) bytes.now (text_at keys.now i) N }
{
    let blocks = keys.len() / 8;
    let mut near = 0;
    for block in 0..blocks {
        search_eight(bytes, keys, block * 8, near, out);
        let last = out[block * 8 + 7];
        near = last.value.max(last.detail as usize);
    }
    for index in blocks * 8..keys.len() {
        out[index] = search_answer(in_place::search(bytes, &keys.text_at(index)));
    }
}

// Puts the answers for the eight keys from an index on.
fn search_eight<const N: usize>(
    bytes: &[u8],
    keys: &Table<'_, N>,
    start: usize,
    near: usize,
    out: &mut [TinystrResult],
)
    requires above { 0 < N }
    requires below { N ≤ 16 }
    requires keys { start + 8 ≤ length keys.now }
    requires strict { All (λ t. IsStrictText t N) keys.now }
    requires room { length keys.now ≡ length out.old }
    ensures room { length out.new ≡ length out.old }
    ensures before { (i : ℕ) → i < start → slice_index_or out.new i (success 0) ≡ slice_index_or out.old i (success 0) }
    ensures each { (i : ℕ) → i < 8 →
        Searches (slice_index_or out.new (start + i) (success 0)) bytes.now (text_at keys.now (start + i)) N }
{
    let eight = eight_from(keys, start);
    put_eight(&in_place::search_eight(bytes, &eight, near), start, out);
}

// The eight keys from an index on.
#[tactic(auto, using(tinystr_packed::proofs::EightSearches::answers_so_far))]
fn eight_from<const N: usize>(keys: &Table<'_, N>, start: usize) -> [TinyAsciiStr<N>; 8]
    requires keys { start + 8 ≤ length keys.now }
    requires fits { start + 8 < 2 ^ 64 }
    ensures { (i : ℕ) → i < 8 → text_at result i ≡ text_at keys.now (start + i) }
{
    let mut eight = [TinyAsciiStr::<N>::default(); 8];
    for lane in 0..8usize {
        eight[lane] = keys.text_at(start + lane);
    }
    eight
}

// Puts eight answers from an index on.
fn put_eight(found: &[Result<usize, usize>; 8], start: usize, out: &mut [TinystrResult])
    requires { start + 8 ≤ length out.old }
    ensures room { length out.new ≡ length out.old }
    ensures before { (i : ℕ) → i < start → slice_index_or out.new i (success 0) ≡ slice_index_or out.old i (success 0) }
    ensures each { (i : ℕ) → i < 8 →
        slice_index_or out.new (start + i) (success 0) ≡ search_answer (slice_index_or found.now i (Ok 0)) }
{
    for lane in 0..8usize {
        out[start + lane] = search_answer(found[lane]);
    }
}
