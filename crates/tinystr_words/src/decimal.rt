//! The decimal digits of a number: how many, and in a word.

ghost use Rattle.std.specs.Prelude.{◌≡◌, ◌+◌, ◌*◌, ◌/◌, ◌%◌, ◌^◌, ◌<◌, ◌≤◌, ◌↔◌, length, IsTrue};
ghost use Rattle.std.specs.Fmt.{decimal};
ghost use Rattle.tinystr_words.specs.Words.{word};

/// Whether the decimal text of `number` has at most `most` digits.
///
/// ```rust
/// assert!(rt; decimal_fits(999, 3));
/// assert!(rt; !decimal_fits(1000, 3));
/// ```
#[tactic(auto, using(crate::proofs::Decimals::decimal_lengths))]
#[inline(always)]
pub fn decimal_fits(number: u32, most: usize) -> bool
    ensures { IsTrue result ↔ (length (decimal number) ≤ most) }
{
    most >= 10 || (most > 0 && number < 10u32.pow(most as u32))
}

// The two digits of a number below 100 in two lanes, the tens lowest.
#[inline(always)]
fn two_digits(number: u32) -> u32
    requires { number < 100 }
    ensures { result ≡ (48 + number / 10) + 256 * (48 + number % 10) }
{
    number / 10 + 256 * (number % 10) + 0x3030
}

/// The shortest decimal text of a number, its first digit in the lowest lane. After at most four steps the number is
/// below 100.
#[tactic(auto, using(crate::proofs::Decimals::decimal_steps))]
#[inline(always)]
pub(crate) fn decimal_word(number: u32) -> u128
    ensures { result ≡ word (decimal number) }
{
    let mut last = 0u64;
    let mut rest = number;
    for i in 0..4u32 {
        if rest < 100 {
            break;
        }
        last = 65536 * last + u64::from(two_digits(rest % 100));
        rest /= 100;
    }
    if rest < 10 {
        256 * u128::from(last) + u128::from(rest + 0x30)
    } else {
        65536 * u128::from(last) + u128::from(two_digits(rest))
    }
}

// Four digits as two numbers below 100 in lanes of 16 bits, the first digits lowest.
#[inline(always)]
fn two_pairs(number: u32) -> u32
    requires { number < 10 ^ 4 }
    ensures { result ≡ number / 100 + 65536 * (number % 100) }
{
    number / 100 + 65536 * (number % 100)
}

// Eight digits as four such numbers.
#[inline(always)]
fn four_pairs(number: u32) -> u64
    requires { number < 10 ^ 8 }
    ensures { result ≡ number / 10 ^ 6 + 65536 * (number / 10 ^ 4 % 100 + 65536 * (number / 100 % 100 + 65536 * (number % 100))) }
{
    u64::from(two_pairs(number / 10000)) + (u64::from(two_pairs(number % 10000)) << 32)
}

/// The values of eight digits, leading zeros included, the first in the lowest lane. The caller adds 0x30 to each. All
/// pairs are divided in one step: below 100, `n / 10` is `n * 103 / 1024`, and no product leaves its lane.
#[tactic(auto, using(crate::proofs::Decimals::made))]
#[inline(always)]
pub(crate) fn eight_digits(number: u32) -> u64
    requires { number < 10 ^ 8 }
    ensures { result + 0x3030303030303030 ≡ word (decimal (10 ^ 8 + number)) / 256 }
{
    let pairs = four_pairs(number);
    let tens = ((pairs * 103) >> 10) & 0x000f_000f_000f_000f;
    tens + 256 * (pairs - 10 * tens)
}
