//! Two records compared: by all their bytes, and by the numbers that some of their bytes spell.

ghost use Rattle.std.specs.Prelude.{◌≡◌, ◌<◌, ◌≤◌, ◌^◌, ◌+◌, ◌-◌, ◌↔◌, ℕ, IsTrue, List, cond, length, nat_eq, nat_lt};
ghost use Rattle.std.specs.Cmp.Lexicographic.{slice_cmp};
ghost use Rattle.std.specs.Ordering.{nat_cmp, is_lt};
ghost use Rattle.tinystr_words.specs.Text.{IsPaddedText};
ghost use Rattle.tinystr_packed.specs.Private as Spec;
ghost use Rattle.tinystr_packed.specs.Private.{paired, IsPairOfText};

use std::cmp::Ordering;
use tinystr_words::padded;

/// Whether a record is below another, which must be equally long.
// Speed: at most eight bytes are compared as one number, so that no branch is taken within a record.
#[tactic(auto, using(crate::proofs::RecordOrder::orders))]
#[inline(always)]
pub(crate) fn is_below(left: &[u8], right: &[u8]) -> bool
    requires { length left.now ≡ length right.now }
    ensures { result ≡ is_lt (slice_cmp nat_cmp left.now right.now) }
{
    if left.len() <= 8 {
        padded::number(left) < padded::number(right)
    } else {
        compare(left, right).is_lt()
    }
}

/// The order of two records, which must be equally long.
#[inline(always)]
pub(crate) fn compare(left: &[u8], right: &[u8]) -> Ordering
    requires { length left.now ≡ length right.now }
    ensures { result ≡ slice_cmp nat_cmp left.now right.now }
{
    padded::compare(left, right)
}

/// Whether two records are the same bytes.
// Speed: at most sixteen are compared as one number, without a branch.
#[inline(always)]
pub(crate) fn are_same<const N: usize>(left: &[u8; N], right: &[u8; N]) -> bool
    ensures { Spec.IsRecord N left.now → Spec.IsRecord N right.now → (IsTrue result ↔ (left.now ≡ right.now)) }
{
    if N <= 8 {
        return number_at(left, 0) == number_at(right, 0);
    }
    if N <= 16 {
        let left = <u128 as Number<N>>::at(left, 0);
        return left == <u128 as Number<N>>::at(right, 0);
    }
    compare(&left[..], &right[..]).is_eq()
}

/// The number of eight bytes of a record from `start` on, the first the most significant, or of all bytes of a record of at
/// most eight.
#[tactic(auto, using(crate::proofs::Numbers::numbers))]
#[inline(always)]
pub(crate) fn number_at<const N: usize>(raw: &[u8; N], start: usize) -> u64
    requires { start ≤ N - 8 }
    ensures { result ≡ Spec.number_at start raw.now }
{
    let bytes = &raw[..];
    if N <= 8 {
        padded::number(bytes)
    } else {
        padded::number(&bytes[start..start + 8])
    }
}

/// The number that one search compares: `u64` has eight bytes of a record, and `u128` sixteen.
pub(crate) trait Number<const N: usize>: Copy + Drop {
    ghost value: { Self → ℕ };

    ghost spelled: { ℕ → List ℕ → ℕ };

    /// The number of a record from `start` on.
    fn at(raw: &[u8; N], start: usize) -> Self
        requires { start ≤ N - 8 }
        ensures { value result ≡ spelled start raw.now };

    /// Whether it is below another.
    fn is_below(self, other: Self) -> bool
        ensures { result ≡ nat_lt (value self) (value other) };

    /// Whether both are the same number.
    fn is_same(self, other: Self) -> bool
        ensures { result ≡ nat_eq (value self) (value other) };
}

impl<const N: usize> Number<N> for u64 {
    ghost value = { λ number. number };

    ghost spelled = { Spec.number_at };

    #[inline(always)]
    fn at(raw: &[u8; N], start: usize) -> u64 {
        number_at(raw, start)
    }

    #[inline(always)]
    fn is_below(self, other: u64) -> bool {
        self < other
    }

    #[inline(always)]
    fn is_same(self, other: u64) -> bool {
        self == other
    }
}

impl<const N: usize> Number<N> for u128 {
    ghost value = { λ number. number };

    ghost spelled = { Spec.pair_at };

    #[inline(always)]
    fn at(raw: &[u8; N], start: usize) -> u128 {
        let Pair { first, next } = Pair::at(raw, start);
        u128::from(first) * (1 << 64) + u128::from(next)
    }

    #[inline(always)]
    fn is_below(self, other: u128) -> bool {
        self < other
    }

    #[inline(always)]
    fn is_same(self, other: u128) -> bool {
        self == other
    }
}

/// The number of sixteen bytes as two numbers: that of eight bytes, and that of the next eight, or of the record's last eight
/// if fewer follow. A padded text has a pair whose two numbers are below 2^63.
#[derive(Clone, Copy)]
pub(crate) struct Pair {
    pub(crate) first: u64,
    pub(crate) next: u64,
}

impl Pair {
    /// The pair of a record from `start` on.
    #[tactic(auto, unfolding(crate::specs::Private::pair_at))]
    #[inline(always)]
    pub(crate) fn at<const N: usize>(raw: &[u8; N], start: usize) -> Pair
        requires { start ≤ N - 8 }
        ensures text { IsPaddedText raw.now N → IsPairOfText N result.first result.next }
        ensures first { result.first ≡ Spec.number_at start raw.now }
        ensures number { paired result.first result.next ≡ Spec.pair_at start raw.now }
    {
        let next = (start + 8).min(N.saturating_sub(8));
        Pair {
            first: number_at(raw, start),
            next: number_at(raw, next),
        }
    }
}

/// 1 if the pair of one text is below that of another, else 0.
#[inline(always)]
pub(crate) fn bit_below<const N: usize>(pair: Pair, other: Pair) -> u64
    ensures bound { result ≤ 1 }
    ensures bit { IsPairOfText N pair.first pair.next → IsPairOfText N other.first other.next →
        result ≡ cond (nat_lt (paired pair.first pair.next) (paired other.first other.next)) 1 0 }
{
    if N <= 8 {
        borrow(pair.first, other.first, 0)
    } else {
        borrow(pair.first, other.first, borrow(pair.next, other.next, 0))
    }
}

// 1 if a number is below the sum of another and `more`, else 0.
// Speed: the highest bit of the difference, since LLVM emits a branch for a comparison.
#[inline(always)]
fn borrow(number: u64, other: u64, more: u64) -> u64
    ensures bound { result ≤ 1 }
    ensures bit { number < 2 ^ 63 → other < 2 ^ 63 → more ≤ 1 → result ≡ cond (nat_lt number (other + more)) 1 0 }
{
    number.wrapping_sub(other).wrapping_sub(more) >> 63
}
