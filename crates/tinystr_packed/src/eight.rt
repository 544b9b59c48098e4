//! Eight searches at a time. A contract says what they return if each record is above the one before it, and of any other
//! records that each place is inside them.

ghost use Rattle.std.specs.Prelude.{◌≡◌, ◌<◌, ◌≤◌, ◌+◌, ◌-◌, ◌/◌, ℕ, All, IfSome, IsTrue, cond, length, nat_eq, nat_lt, slice_index};
ghost use Rattle.std.specs.declared.cmp.Ordering.TheVariants.{Less};
ghost use Rattle.tinystr_words.specs.Text.{IsPaddedText, IsStrictText, pad};
ghost use Rattle.tinystr_packed.specs.Private.{pair_at, AreRisingRecords, BeginAlike, paired, wanted, AreAnswers, IsPairOfText, ArePairsOfTexts, AreNumbered, AreAscending, AreWithin, IsPlaceWithin, ArePlacesWithin};
ghost use Rattle.tinystr_packed.specs.Rising.{order, text_at, IsFirstNotBelow};

use crate::record::{Pair, bit_below, is_below};
use crate::search::{
    LongRecords, answer_at, binary_search, binary_search_as, lower_bound, shared_len,
};
use std::ops::Range;
use tinystr::TinyAsciiStr;

// The number of records after the last place in which keys in order are searched for first. The next range is eight times as
// long.
const FIRST_WINDOW: usize = 15;

// The pairs of eight keys, as a structure of arrays.
#[derive(Clone, Copy)]
struct EightPairs {
    firsts: [u64; 8],
    nexts: [u64; 8],
}

impl EightPairs {
    // One of the pairs.
    #[inline(always)]
    fn pair(&self, lane: usize) -> Pair
        requires { lane < 8 }
        ensures number { paired result.first result.next ≡ wanted self.now.firsts self.now.nexts lane }
        ensures text { (n : ℕ) → ArePairsOfTexts n self.now.firsts self.now.nexts → IsPairOfText n result.first result.next }
    {
        Pair {
            first: self.firsts[lane],
            next: self.nexts[lane],
        }
    }
}

/// Back-off: the number of blocks of eight keys that are searched for one key at a time, before eight at a time are tried again.
#[derive(Clone, Copy)]
pub(crate) struct SingleBlocks {
    left: u8,
}

impl SingleBlocks {
    pub(crate) const NONE: SingleBlocks = SingleBlocks { left: 0 };
    // After a tie: a block of which one key was searched for by itself.
    const AFTER_A_TIE: SingleBlocks = SingleBlocks { left: 15 };
}

/// Fills `answers` with those for the first eight keys, and returns the remaining back-off. Keys in order are searched for first
/// after the index `near`.
// Speed: it isn't inlined, so that a caller's loop stays short.
#[inline(never)]
pub(crate) fn search_first_eight<const N: usize>(
    records: &[[u8; N]],
    keys: &[TinyAsciiStr<N>],
    near: usize,
    single_blocks: SingleBlocks,
    answers: &mut [Result<usize, usize>; 8],
) -> SingleBlocks
    requires { 8 ≤ length keys.now }
    ensures { AreAnswers N records.now keys.now answers.new 8 }
{
    if let Some(same) = answers_of_one(records, keys) {
        *answers = same;
        return single_blocks;
    }
    if N > 16 && single_blocks.left > 0 {
        *answers = answers_one_by_one(records, keys, LongRecords::Narrowed);
        return SingleBlocks {
            left: single_blocks.left - 1,
        };
    }
    let (places, was_tied) = lower_bound_each(records, keys, near);
    *answers = answers_at(records, keys, &places);
    if was_tied {
        SingleBlocks::AFTER_A_TIE
    } else {
        SingleBlocks::NONE
    }
}

/// The answers among records of at most sixteen bytes. Keys in order are searched for first after the index `near`.
#[inline(always)]
pub(crate) fn answers_of_short<const N: usize>(
    records: &[[u8; N]],
    keys: &[TinyAsciiStr<N>],
    near: usize,
) -> [Result<usize, usize>; 8]
    requires eight { 8 ≤ length keys.now }
    requires short { N ≤ 16 }
    ensures { AreAnswers N records.now keys.now result 8 }
{
    if let Some(same) = answers_of_one(records, keys) {
        return same;
    }
    let places = lower_bound_each_short(records, keys, near);
    answers_at(records, keys, &places)
}

// The answers of eight searches that end at these places.
#[tactic(auto, using(crate::proofs::EightSearches::answers_so_far))]
#[inline(always)]
fn answers_at<const N: usize>(
    records: &[[u8; N]],
    keys: &[TinyAsciiStr<N>],
    places: &[usize; 8],
) -> [Result<usize, usize>; 8]
    requires eight { 8 ≤ length keys.now }
    requires bound { (i : ℕ) → i < 8 → slice_index places.now i ≤ length records.now }
    requires places { All (λ raw. IsPaddedText raw N) records.now → AreRisingRecords N records.now →
        (i : ℕ) → i < 8 → IsFirstNotBelow (pad (text_at keys.now i) N) records.now (slice_index places.now i) }
    ensures { AreAnswers N records.now keys.now result 8 }
{
    let mut answers = [Err(0); 8];
    for lane in 0..8usize {
        answers[lane] = answer_at(records, places[lane], &keys[lane]);
    }
    answers
}

/// The answers for eight keys, each of a search of its own.
#[tactic(auto, using(crate::proofs::EightSearches::answers_so_far))]
#[inline(always)]
pub(crate) fn answers_one_by_one<const N: usize>(
    records: &[[u8; N]],
    keys: &[TinyAsciiStr<N>],
    long: LongRecords,
) -> [Result<usize, usize>; 8]
    requires { 8 ≤ length keys.now }
    ensures { AreAnswers N records.now keys.now result 8 }
{
    let mut answers = [Err(0); 8];
    for lane in 0..8usize {
        answers[lane] = binary_search_as(records, &keys[lane], long);
    }
    answers
}

// The answers if the first eight keys are one key, which is searched for once.
#[inline(always)]
fn answers_of_one<const N: usize>(
    records: &[[u8; N]],
    keys: &[TinyAsciiStr<N>],
) -> Option<[Result<usize, usize>; 8]>
    requires { 8 ≤ length keys.now }
    ensures { IfSome result (λ answers. AreAnswers N records.now keys.now answers 8) }
{
    for lane in 1..8usize {
        if keys[lane] != keys[0] {
            return None;
        }
    }
    Some([binary_search(records, &keys[0]); 8])
}

// 1 if the pair of the record at an index is below another, else 0.
#[tactic(auto, using(crate::proofs::EightSearches::elements))]
#[inline(always)]
fn bit_below_at<const N: usize>(
    records: &[[u8; N]],
    start: usize,
    index: usize,
    number: Pair,
) -> u64
    requires start { start ≤ N - 8 }
    requires inside { index < length records.now }
    requires texts { IsPairOfText N number.first number.next }
    ensures bound { result ≤ 1 }
    ensures bit { AreNumbered N start records.now →
        result ≡ cond (nat_lt (pair_at start (text_at records.now index)) (paired number.first number.next)) 1 0 }
{
    bit_below::<N>(Pair::at(&records[index], start), number)
}

// A number if a bit is 1, else 0.
// Speed: a mask instead of `if`, since LLVM emits a branch for `if`.
#[inline(always)]
fn number_if(number: usize, bit: u64) -> usize
    requires { bit ≤ 1 }
    ensures { result ≡ cond (nat_eq bit 1) number 0 }
{
    number & (bit as usize).wrapping_neg()
}

// One step of a search: which half of a range remains, by whether its middle is below a pair. The length of the half is rounded
// down. If the range has an even length, the half may begin with the middle, though that is below.
#[tactic(auto, using(crate::proofs::EightSearches::halves))]
#[inline(always)]
fn halved<const N: usize>(
    records: &[[u8; N]],
    start: usize,
    number: Pair,
    base: usize,
    size: usize,
) -> usize
    requires start { start ≤ N - 8 }
    requires texts { IsPairOfText N number.first number.next }
    requires some { 0 < size }
    requires within { IsPlaceWithin N start records.now (paired number.first number.next) base (base + size) }
    ensures { IsPlaceWithin N start records.now (paired number.first number.next) result (result + size / 2) }
{
    let half = size / 2;
    base + number_if(
        size - half,
        bit_below_at(records, start, base + half, number),
    )
}

// The pairs of eight keys.
#[tactic(auto, using(crate::proofs::EightSearches::numbers_so_far))]
#[inline(always)]
fn pairs_of<const N: usize>(keys: &[TinyAsciiStr<N>], start: usize) -> EightPairs
    requires eight { 8 ≤ length keys.now }
    requires start { start ≤ N - 8 }
    ensures texts { ArePairsOfTexts N result.firsts result.nexts }
    ensures numbers { (i : ℕ) → i < 8 → wanted result.firsts result.nexts i ≡ pair_at start (pad (text_at keys.now i) N) }
    ensures strict { (i : ℕ) → i < 8 → IsStrictText (text_at keys.now i) N }
{
    let mut firsts = [0u64; 8];
    let mut nexts = [0u64; 8];
    for lane in 0..8usize {
        let pair = Pair::at(keys[lane].all_bytes(), start);
        firsts[lane] = pair.first;
        nexts[lane] = pair.next;
    }
    EightPairs { firsts, nexts }
}

// Whether each of eight pairs but the last is at most the next.
#[inline(always)]
fn are_ascending<const N: usize>(pairs: &EightPairs) -> bool
    requires { ArePairsOfTexts N pairs.now.firsts pairs.now.nexts }
    ensures { IsTrue result → AreAscending (wanted pairs.now.firsts pairs.now.nexts) }
{
    let mut descents = 0u64;
    for lane in 0..7usize {
        descents += bit_below::<N>(pairs.pair(lane + 1), pairs.pair(lane));
    }
    descents == 0
}

// One step of each of eight searches.
#[inline(always)]
fn halved_each<const N: usize>(
    records: &[[u8; N]],
    start: usize,
    pairs: &EightPairs,
    places: &mut [usize; 8],
    size: usize,
)
    requires start { start ≤ N - 8 }
    requires texts { ArePairsOfTexts N pairs.now.firsts pairs.now.nexts }
    requires some { 0 < size }
    requires within { ArePlacesWithin N start records.now (wanted pairs.now.firsts pairs.now.nexts) places.old size }
    ensures { ArePlacesWithin N start records.now (wanted pairs.now.firsts pairs.now.nexts) places.new (size / 2) }
{
    for lane in 0..8usize {
        places[lane] = halved(records, start, pairs.pair(lane), places[lane], size);
    }
}

// The places of eight pairs within a range that holds them all.
// Speed: the range is halved by the same sizes for each key, so that each search waits for memory while the others do.
#[tactic(auto, using(crate::proofs::EightSearches::ArePlacesWithin_start))]
#[inline(always)]
fn places_within<const N: usize>(
    records: &[[u8; N]],
    start: usize,
    pairs: &EightPairs,
    range: Range<usize>,
) -> [usize; 8]
    requires start { start ≤ N - 8 }
    requires texts { ArePairsOfTexts N pairs.now.firsts pairs.now.nexts }
    requires within { AreWithin N start records.now (wanted pairs.now.firsts pairs.now.nexts) range.start range.end }
    ensures { ArePlacesWithin N start records.now (wanted pairs.now.firsts pairs.now.nexts) result 0 }
{
    let mut places = [range.start; 8];
    let mut size = range.end - range.start;
    while size > 0 {
        halved_each(records, start, pairs, &mut places, size);
        size /= 2;
    }
    places
}

// Whether eight places of ascending pairs are at most an index: the last one decides.
#[inline(always)]
fn are_at_most<const N: usize>(
    records: &[[u8; N]],
    start: usize,
    pairs: &EightPairs,
    index: usize,
) -> bool
    requires start { start ≤ N - 8 }
    requires texts { ArePairsOfTexts N pairs.now.firsts pairs.now.nexts }
    requires in_turn { AreAscending (wanted pairs.now.firsts pairs.now.nexts) }
    requires inside { index ≤ length records.now }
    ensures { IsTrue result → AreNumbered N start records.now → (i k : ℕ) → i < 8 → index ≤ k → k < length records.now
        → wanted pairs.now.firsts pairs.now.nexts i ≤ pair_at start (text_at records.now k) }
{
    index == records.len() || bit_below_at(records, start, index, pairs.pair(7)) == 0
}

// Whether they are at least an index: the first one decides.
#[inline(always)]
fn are_at_least<const N: usize>(
    records: &[[u8; N]],
    start: usize,
    pairs: &EightPairs,
    index: usize,
) -> bool
    requires start { start ≤ N - 8 }
    requires texts { ArePairsOfTexts N pairs.now.firsts pairs.now.nexts }
    requires in_turn { AreAscending (wanted pairs.now.firsts pairs.now.nexts) }
    requires inside { index ≤ length records.now }
    ensures { IsTrue result → AreNumbered N start records.now → (i k : ℕ) → i < 8 → k < index
        → pair_at start (text_at records.now k) < wanted pairs.now.firsts pairs.now.nexts i }
{
    index == 0 || bit_below_at(records, start, index - 1, pairs.pair(0)) == 1
}

// A range of records that holds eight places: if the pairs are ascending, the first window after an index, or one eight times as
// long, and so on, else all records.
// Speed: a window of less than a quarter of all records saves steps, and no other is tried.
#[inline(always)]
fn range_near<const N: usize>(
    records: &[[u8; N]],
    start: usize,
    pairs: &EightPairs,
    near: usize,
) -> Range<usize>
    requires start { start ≤ N - 8 }
    requires texts { ArePairsOfTexts N pairs.now.firsts pairs.now.nexts }
    ensures { AreWithin N start records.now (wanted pairs.now.firsts pairs.now.nexts) result.start result.end }
{
    let len = records.len();
    if !are_ascending::<N>(pairs) {
        return 0..len;
    }
    let near = near.min(len);
    if !are_at_least(records, start, pairs, near) {
        return 0..len;
    }
    let mut size = FIRST_WINDOW;
    while size < len / 4 {
        let end = near.saturating_add(size).min(len);
        if are_at_most(records, start, pairs, end) {
            return near..end;
        }
        size = size.saturating_mul(8);
    }
    0..len
}

// The places of eight keys among records, by their pairs from `start` on.
#[inline(always)]
fn places_by_numbers<const N: usize>(
    records: &[[u8; N]],
    keys: &[TinyAsciiStr<N>],
    start: usize,
    near: usize,
) -> [usize; 8]
    requires eight { 8 ≤ length keys.now }
    requires start { start ≤ N - 8 }
    ensures places { (i : ℕ) → i < 8 → IsPlaceWithin N start records.now (pair_at start (pad (text_at keys.now i) N)) (slice_index result i) (slice_index result i) }
    ensures strict { (i : ℕ) → i < 8 → IsStrictText (text_at keys.now i) N }
{
    let pairs = pairs_of(keys, start);
    let range = range_near(records, start, &pairs, near);
    places_within(records, start, &pairs, range)
}

// How many of their first bytes eight keys and all records share. It changes only the speed, as `shared_len` does.
#[inline(always)]
fn shared_len_of_each<const N: usize>(records: &[[u8; N]], keys: &[TinyAsciiStr<N>]) -> usize
    requires eight { 8 ≤ length keys.now }
    requires long { 8 < N }
    ensures bound { result ≤ N - 8 }
    ensures alike { AreRisingRecords N records.now → (i : ℕ) → i < 8 → BeginAlike result (pad (text_at keys.now i) N) records.now }
{
    let mut len = shared_len(records, keys[0].all_bytes());
    for lane in 1..8usize {
        if len == 0 {
            return 0;
        }
        len = len.min(shared_len(records, keys[lane].all_bytes()));
    }
    len
}

// The places of eight keys among records of at most sixteen bytes. Keys in order are searched for first after the index `near`.
#[inline(always)]
fn lower_bound_each_short<const N: usize>(
    records: &[[u8; N]],
    keys: &[TinyAsciiStr<N>],
    near: usize,
) -> [usize; 8]
    requires eight { 8 ≤ length keys.now }
    requires short { N ≤ 16 }
    ensures bound { (i : ℕ) → i < 8 → slice_index result i ≤ length records.now }
    ensures places { All (λ raw. IsPaddedText raw N) records.now → AreRisingRecords N records.now →
        (i : ℕ) → i < 8 → IsFirstNotBelow (pad (text_at keys.now i) N) records.now (slice_index result i) }
{
    places_by_numbers(records, keys, 0, near)
}

// The places of eight keys among records, and whether one of them was searched for by itself. Keys in order are searched for
// first after the index `near`.
#[inline(always)]
fn lower_bound_each<const N: usize>(
    records: &[[u8; N]],
    keys: &[TinyAsciiStr<N>],
    near: usize,
) -> ([usize; 8], bool)
    requires eight { 8 ≤ length keys.now }
    ensures bound { (i : ℕ) → i < 8 → slice_index result.0 i ≤ length records.now }
    ensures places { All (λ raw. IsPaddedText raw N) records.now → AreRisingRecords N records.now →
        (i : ℕ) → i < 8 → IsFirstNotBelow (pad (text_at keys.now i) N) records.now (slice_index result.0 i) }
{
    if N <= 16 {
        (lower_bound_each_short(records, keys, near), false)
    } else {
        lower_bound_each_long(records, keys, near)
    }
}

// Whether the record at an index has a key's pair, and is below the key.
#[inline(always)]
fn is_tied_below<const N: usize>(
    records: &[[u8; N]],
    start: usize,
    index: usize,
    key: &[u8; N],
) -> bool
    requires { start ≤ N - 8 }
    ensures { index < length records.now → pair_at start (text_at records.now index) ≡ pair_at start key.now →
        order (text_at records.now index) key.now ≡ Less → IsTrue result }
{
    if index >= records.len() {
        return false;
    }
    let raw = &records[index];
    let found = Pair::at(raw, start);
    let wanted = Pair::at(key, start);
    found.first == wanted.first && found.next == wanted.next && is_below(&raw[..], &key[..])
}

// The places among records of more than sixteen bytes. If the record at the place of a key's pair is below the key, the key is
// searched for by itself.
#[inline(always)]
fn lower_bound_each_long<const N: usize>(
    records: &[[u8; N]],
    keys: &[TinyAsciiStr<N>],
    near: usize,
) -> ([usize; 8], bool)
    requires eight { 8 ≤ length keys.now }
    requires long { 16 < N }
    ensures bound { (i : ℕ) → i < 8 → slice_index result.0 i ≤ length records.now }
    ensures places { All (λ raw. IsPaddedText raw N) records.now → AreRisingRecords N records.now →
        (i : ℕ) → i < 8 → IsFirstNotBelow (pad (text_at keys.now i) N) records.now (slice_index result.0 i) }
{
    let start = shared_len_of_each(records, keys);
    let mut places = places_by_numbers(records, keys, start, near);
    let mut alone = false;
    for lane in 0..8usize {
        let key = keys[lane].all_bytes();
        if is_tied_below(records, start, places[lane], key) {
            places[lane] = lower_bound(records, key);
            alone = true;
        }
    }
    (places, alone)
}
