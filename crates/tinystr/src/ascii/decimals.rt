//! Decimal texts of numbers.

ghost use Rattle.std.specs.Prelude.{◌≡◌, ◌≤◌, length, IsOk, IfOk, IfErr, ◌↔◌};
ghost use Rattle.std.specs.Fmt.{decimal};
ghost use Rattle.tinystr_words.specs.Decimal.{last};

use crate::ascii::TinyAsciiStr;
use tinystr_words::padded;

impl<const N: usize> TinyAsciiStr<N> {
    /// The shortest decimal text of a number. If it has more than `N` digits, the error is its last `N`.
    ///
    /// ```rust
    /// assert_eq!(rt; TinyAsciiStr::new_unsigned_decimal(2026), Ok(tinystr!(4, "2026")?));
    /// assert_eq!(rt; TinyAsciiStr::new_unsigned_decimal(2006), Err(tinystr!(2, "06")?));
    /// ```
    #[inline]
    pub fn new_unsigned_decimal(number: u32) -> Result<Self, Self>
        ensures ok { IsOk result ↔ (length (decimal number) ≤ N) }
        ensures digits { IfOk result (λ t. t ≡ decimal number) }
        ensures last_digits { IfErr result (λ t. t ≡ last N (decimal number)) }
    {
        match padded::decimal(number) {
            Ok(bytes) => Ok(TinyAsciiStr { bytes }),
            Err(bytes) => Err(TinyAsciiStr { bytes }),
        }
    }
}
