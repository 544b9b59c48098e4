//! Searches for many keys.

ghost use Rattle.std.specs.Prelude.{◌≡◌, ◌+◌, ◌<◌, ◌≤◌, ◌-◌, All, IfNone, IfSome, List, ℕ, drop, length, map, Some};
ghost use Rattle.std.specs.Iterator.{YieldsFirst, item_count, UpTo, at_most};
ghost use Rattle.std.specs.Iterator.SizeHint.{IsWithinCount};
ghost use Rattle.tinystr_words.specs.Text.{IsPaddedText, text_of};
ghost use Rattle.tinystr_packed.specs.Rising.{text_at, IsRising, search_result};

use crate::eight::{SingleBlocks, search_first_eight};
use crate::search::{answer_at, binary_search, lower_bound_near};
use std::cmp::Ordering;
use std::iter::FusedIterator;
use std::marker::Model;
use tinystr::TinyAsciiStr;

/// What `SortedTable::binary_search` returns for each of many keys, in their order. A contract sees it as the list of the
/// remaining answers.
///
/// ```rust
/// let codes = SortedTable::new(Table::<3>::new(b"CHFEURJPYUSD").unwrap()).unwrap();
/// let keys = [tinystr!(3, "JPY")?, tinystr!(3, "GBP")?];
/// let found = codes.binary_search_each(&keys);
/// assert_eq!(rt; found.filter(|answer| answer.is_err()).count(), 1);
/// ```
#[derive(Drop)]
pub struct BinarySearchEach<'a, 'k, const N: usize> {
    records: &'a [[u8; N]],
    keys: &'k [TinyAsciiStr<N>],
    // how many answers were returned
    given: usize,
    // the answers for a block of eight keys, of which the last `ready` are the next ones to return
    answers: [Result<usize, usize>; 8],
    ready: usize,
    // the answer for the last key that has one, returned or ready
    last: Result<usize, usize>,
    single_blocks: SingleBlocks,
}

impl<'a, 'k, const N: usize> Model for BinarySearchEach<'a, 'k, N> {
    ghost use Rattle.std.specs.Prelude.{◌^◌, ◌+◌, ◌<◌, ◌≤◌, All, List, ℕ, drop, length, map};
    ghost use Rattle.std.specs.declared.result.Result.{Result};
    ghost use Rattle.tinystr_words.specs.Text.{IsPaddedText, text_of};
    ghost use Rattle.tinystr_packed.specs.Rising.{IsRising, search_result};
    ghost use Rattle.tinystr_packed.specs.Private.{AreReady, IsLast};

    ghost Value = { List (Result ℕ ℕ) };

    ghost view = { λ s. map (search_result (map text_of s.records.now)) (drop s.given s.keys.now) };

    ghost invariant = { λ s. (N < 2 ^ 63) × (s.given ≤ length s.keys.now) × (s.ready ≤ 8)
        × AreReady (map text_of s.records.now) s.keys.now s.answers s.given s.ready
        × IsLast (map text_of s.records.now) s.keys.now s.last (s.given + s.ready)
        × All (λ raw. IsPaddedText raw N) s.records.now × IsRising (map text_of s.records.now) };
}

impl<'a, 'k, const N: usize> BinarySearchEach<'a, 'k, N> {
    // The answers for all keys, by records whose texts are strictly ascending.
    pub(crate) fn new(records: &'a [[u8; N]], keys: &'k [TinyAsciiStr<N>]) -> Self
        requires padded { All (λ raw. IsPaddedText raw N) records.now }
        requires rising { IsRising (map text_of records.now) }
        ensures { result ≡ map (search_result (map text_of records.now)) keys.now }
    {
        BinarySearchEach {
            records,
            keys,
            given: 0,
            answers: [Err(0); 8],
            ready: 0,
            last: Err(0),
            single_blocks: SingleBlocks::NONE,
        }
    }
}

// The answer for the key at an index, if it follows from that for the key before it, or if fewer than eight keys are left.
#[inline(always)]
fn answer_alone<const N: usize>(
    records: &[[u8; N]],
    keys: &[TinyAsciiStr<N>],
    index: usize,
    last: Result<usize, usize>,
) -> Option<Result<usize, usize>>
    requires padded { All (λ raw. IsPaddedText raw N) records.now }
    requires rising { IsRising (map text_of records.now) }
    requires inside { index < length keys.now }
    requires last { 0 < index → last ≡ search_result (map text_of records.now) (text_at keys.now (index - 1)) }
    ensures answer { IfSome result (λ answer. answer ≡ search_result (map text_of records.now) (text_at keys.now index)) }
    ensures many { IfNone result (index + 8 ≤ length keys.now) }
{
    let key = &keys[index];
    if index > 0
        && let Some(answer) = answer_after(records, &keys[index - 1], last, key)
    {
        return Some(answer);
    }
    if keys.len() - index < 8 {
        return Some(binary_search(records, key));
    }
    None
}

// The answer for a key, if it follows from that for another key: the same for the same key, and for a key above it the place
// after that, or a few places more.
#[inline(always)]
fn answer_after<const N: usize>(
    records: &[[u8; N]],
    before: &TinyAsciiStr<N>,
    answer: Result<usize, usize>,
    key: &TinyAsciiStr<N>,
) -> Option<Result<usize, usize>>
    requires padded { All (λ raw. IsPaddedText raw N) records.now }
    requires rising { IsRising (map text_of records.now) }
    requires answer { answer ≡ search_result (map text_of records.now) before.now }
    ensures { IfSome result (λ answer. answer ≡ search_result (map text_of records.now) key.now) }
{
    match before.cmp(key) {
        Ordering::Less => {
            let start = match answer {
                Ok(index) => index + 1,
                Err(place) => place,
            };
            let place = lower_bound_near(records, key.all_bytes(), start)?;
            Some(answer_at(records, place, key))
        }
        Ordering::Equal => Some(answer),
        Ordering::Greater => None,
    }
}

impl<'a, 'k, const N: usize> Iterator for BinarySearchEach<'a, 'k, N> {
    type Item = Result<usize, usize>;

    ghost next_gives = { YieldsFirst (λ rest. rest) };

    ghost remaining = { item_count (λ rest. rest) };

    #[tactic(auto, using(crate::proofs::EightSearches::ready))]
    #[inline]
    fn next(&mut self) -> Option<Result<usize, usize>> {
        if self.given == self.keys.len() {
            return None;
        }
        if self.ready > 0 {
            let answer = self.answers[8 - self.ready];
            self.given += 1;
            self.ready -= 1;
            return Some(answer);
        }
        if let Some(answer) = answer_alone(self.records, self.keys, self.given, self.last) {
            self.given += 1;
            self.last = answer;
            return Some(answer);
        }
        let keys = &self.keys[self.given..];
        let (Ok(near) | Err(near)) = self.last;
        self.single_blocks = search_first_eight(
            self.records,
            keys,
            near,
            self.single_blocks,
            &mut self.answers,
        );
        self.given += 1;
        self.ready = 7;
        self.last = self.answers[7];
        Some(self.answers[0])
    }

    fn size_hint(&self) -> (usize, Option<usize>)
        ensures lower { IsWithinCount result.0 (at_most (length self.now)) }
        ensures upper { IfSome result.1 (UpTo (at_most (length self.now))) }
        ensures exact { result ≡ (length self.now, Some (length self.now)) }
    {
        let len = self.len();
        (len, Some(len))
    }
}

impl<'a, 'k, const N: usize> ExactSizeIterator for BinarySearchEach<'a, 'k, N> {
    fn len(&self) -> usize {
        self.keys.len() - self.given
    }
}

impl<'a, 'k, const N: usize> FusedIterator for BinarySearchEach<'a, 'k, N> {}
