//! The low bytes of 16-bit numbers in a word.

ghost use Rattle.std.specs.Prelude.{◌≡◌, ◌+◌, ◌*◌, ◌%◌, ◌^◌, ◌≤◌, length, map};
ghost use Rattle.tinystr_words.specs.Words.{word};

use crate::in_words::word_of;
use tinystr_words::word::Word;

/// The word whose first lanes are the lowest bytes of these numbers and whose others are NUL.
#[inline(always)]
pub fn load(src: &[u16]) -> u128
    requires { length src.now ≤ 16 }
    ensures { result ≡ word (map (λ u. u % 256) src.now) }
{
    let len = src.len();
    if len <= 8 {
        return u128::from(<u64 as Word<8>>::load(src));
    }
    let low = word_of_eight(&src[..8], len);
    let high = word_of_eight(&src[len - 8..], len);
    joined(low, high >> (8 * (16 - len)))
}

// The word of two halves.
#[inline(always)]
fn joined(low: u64, high: u64) -> u128
    ensures { result ≡ low + 2 ^ 64 * high }
{
    u128::from(low) | u128::from(high) << 64
}

// The low bytes of eight numbers. They are written at a place that is known only at run time, so that the compiler packs them
// in a vector.
#[inline(always)]
fn word_of_eight(units: &[u16], place: usize) -> u64
    requires { length units.now ≡ 8 }
    ensures { result ≡ word (map (λ u. u % 256) units.now) }
{
    let start = place % 8;
    let mut bytes = [0; 16];
    for at in 0..8 {
        bytes[start + at] = (units[at] % 256) as u8;
    }
    let made = &bytes[start..];
    word_of(made.first_chunk::<8>().unwrap())
}
