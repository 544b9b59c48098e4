//! The kernels test and change all lanes of a word by a few sums over the whole word. Most formulas are those of
//! `int_ops.rs` in ICU4X's `tinystr` 0.8.5.

ghost use Rattle.std.specs.Prelude.{◌≡◌, ◌+◌, ◌-◌, ◌/◌, ◌^◌, ◌<◌, ◌≤◌, ◌==◌, bit_and, bit_or};
ghost use Rattle.std.specs.Int.Bits.{bit_xor};
ghost use Rattle.tinystr_words.specs.Words.{word, first_then, HasLowLanes, HoldsText};

use crate::word::Word;

/// A range of bytes below 0x80, as two constants. The high bits of a byte's sums with them show whether it is in the range.
#[derive(Clone, Copy)]
pub struct Range {
    /// 0x80 less the range's first byte: the sum has its high bit from that byte on.
    pub low: u8,
    /// 0x7f less the range's last byte: the sum has its high bit past that byte.
    pub high: u8,
    ghost no_carry: { (low ≤ 0x7f) × (high ≤ 0x7f) },
    ghost not_empty: { high < low },
}

/// `A` to `Z`.
pub const UPPER: Range = Range {
    low: 0x3f,
    high: 0x25,
};

/// `a` to `z`.
pub const LOWER: Range = Range {
    low: 0x1f,
    high: 0x05,
};

/// `0` to `9`.
pub const DIGIT: Range = Range {
    low: 0x50,
    high: 0x46,
};

/// A byte below 0x80 is NUL exactly if its sum with this has a clear high bit.
pub const NOT_NUL: u8 = 0x7f;

/// The high bit of each lane that isn't NUL.
#[inline(always)]
#[tactic(auto, using(crate::proofs::Words::Numbers::low_first_then))]
pub fn present<T: Word<LEN>, const LEN: usize>(text: T) -> T
    requires { HasLowLanes (T.number text) }
    ensures { T.number result ≡
        bit_and (T.number text + word (first_then LEN NOT_NUL NOT_NUL)) (word (first_then LEN 0x80 0x80)) }
{
    text.plus(T::splat(NOT_NUL)).and(T::splat(0x80))
}

/// The high bit of each lane whose lower bits aren't all clear.
#[inline(always)]
#[tactic(auto, using(crate::proofs::Words::Numbers::low_and, crate::proofs::Words::Numbers::low_first_then))]
pub fn marks<T: Word<LEN>, const LEN: usize>(bytes: T) -> T
    ensures { T.number result ≡ bit_and
        (bit_and (T.number bytes) (word (first_then LEN 0x7f 0x7f)) + word (first_then LEN NOT_NUL NOT_NUL))
        (word (first_then LEN 0x80 0x80)) }
{
    present(bytes.and(T::splat(0x7f)))
}

/// The high bits of the lanes, and a mark at each NUL that a character follows.
#[inline(always)]
pub fn unpadded<T: Word<LEN>, const LEN: usize>(bytes: T, marks: T) -> T
    ensures { T.number result ≡ bit_or
        (bit_and (T.number bytes) (word (first_then LEN 0x80 0x80)))
        (bit_and (T.number marks / 256) (256 ^ LEN - 1 - T.number marks)) }
{
    let late = marks.next_lanes().and(marks.not());
    bytes.and(T::splat(0x80)).or(late)
}

/// The high bit of each lane whose byte is outside its range.
#[inline(always)]
#[tactic(auto, using(crate::proofs::Words::Numbers::low_first_then))]
pub fn outside<T: Word<LEN>, const LEN: usize>(text: T, first: Range, others: Range) -> T
    requires { HasLowLanes (T.number text) }
    ensures { T.number result ≡ bit_or
        (256 ^ LEN - 1 - (T.number text + word (first_then LEN first.low others.low)))
        (T.number text + word (first_then LEN first.high others.high)) }
{
    let below = text.plus(T::first_then(first.low, others.low)).not();
    let above = text.plus(T::first_then(first.high, others.high));
    below.or(above)
}

/// The high bit of each lane whose byte is in its range. Past the range both sums have that bit, so their `xor`
/// doesn't, and this takes one step less than `outside`.
#[inline(always)]
#[tactic(auto, using(crate::proofs::Words::Numbers::low_first_then))]
pub fn inside<T: Word<LEN>, const LEN: usize>(text: T, first: Range, others: Range) -> T
    requires { HasLowLanes (T.number text) }
    ensures { T.number result ≡ bit_xor
        (T.number text + word (first_then LEN first.low others.low))
        (T.number text + word (first_then LEN first.high others.high)) }
{
    let not_below = text.plus(T::first_then(first.low, others.low));
    let above = text.plus(T::first_then(first.high, others.high));
    not_below.xor(above)
}

/// The case bit, 0x20, of each lane whose byte is in its range.
#[inline(always)]
pub fn case_bits<T: Word<LEN>, const LEN: usize>(text: T, first: Range, others: Range) -> T
    requires { HasLowLanes (T.number text) }
    ensures { T.number result ≡ bit_and
        (256 ^ LEN - 1 - bit_or
        (256 ^ LEN - 1 - (T.number text + word (first_then LEN first.low others.low)))
        (T.number text + word (first_then LEN first.high others.high)))
        (word (first_then LEN 0x80 0x80)) / 4 }
{
    outside(text, first, others).not().high_bits_as_case_bits()
}

/// The text with the case bit set in each lane: its letters in lowercase, and some of its other bytes changed.
#[inline(always)]
#[tactic(auto, using(crate::proofs::Words::Numbers::low_or, crate::proofs::Words::Numbers::low_first_then))]
pub fn with_case_bits<T: Word<LEN>, const LEN: usize>(text: T) -> T
    requires { HoldsText LEN (T.number text) }
    ensures bits { T.number result ≡ bit_or (T.number text) (word (first_then LEN 0x20 0x20)) }
    ensures low { HasLowLanes (T.number result) }
{
    text.or(T::splat(0x20))
}

/// Whether no character's lane is marked. A NUL's lane may be.
#[inline(always)]
pub fn no_character_marked<T: Word<LEN>, const LEN: usize>(marks: T, text: T) -> bool
    requires { HasLowLanes (T.number text) }
    ensures { result ≡ (bit_and (T.number marks)
        (bit_and (T.number text + word (first_then LEN NOT_NUL NOT_NUL)) (word (first_then LEN 0x80 0x80)))
        == word (first_then LEN 0 0)) }
{
    marks.and(present(text)).equals(T::splat(0))
}

/// Whether no lane is marked.
#[inline(always)]
pub fn no_lane_marked<T: Word<LEN>, const LEN: usize>(marks: T) -> bool
    ensures { result ≡
        (bit_and (T.number marks) (word (first_then LEN 0x80 0x80)) == word (first_then LEN 0 0)) }
{
    marks.and(T::splat(0x80)).equals(T::splat(0))
}
