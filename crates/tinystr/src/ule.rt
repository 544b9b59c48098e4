//! Packed records: padded texts of `N` bytes, one after another, which are checked once and then read in place. ULE is
//! zerovec's word for such a form: unaligned, little-endian.

ghost use Rattle.std.specs.Prelude.{◌≡◌, ◌≢◌, ◌<◌, ◌≤◌, ◌%◌, ◌↔◌, length, replicate, take, All, IsOk, IfErr, IsErrOf};
ghost use Rattle.tinystr_words.specs.Text.{IsPaddedText};
ghost use Rattle.tinystr_words.specs.Packed.{IsPacked};
ghost use Rattle.tinystr.specs.Records.{RefusesRecords};
ghost use Rattle.tinystr.specs.Private.{RefusesOneOf};

use crate::ascii::{TinyAsciiStr, are_padded};
use crate::error::ParseError;
use crate::unvalidated::UnvalidatedTinyAsciiStr;

// The number of records in a block: enough that the compiler tests several in one step, and few to search for a bad one.
const BLOCK: usize = 64;

/// Why bytes aren't packed records.
///
/// ```rust
/// assert_eq!(rt; TinyAsciiStr::<3>::validate_bytes(b"EURJP"), Err(UleError::Length { len: 5 }));
/// ```
#[derive(Clone, Copy, Debug, PartialEq, Eq)]
pub enum UleError {
    /// The number of bytes, `len`, isn't divisible by the size of a record.
    Length { len: usize },
    /// Record `index`, counted from 0, is the first that isn't a padded text, and has this fault.
    Parse { index: usize, fault: ParseError },
}

impl<const N: usize> TinyAsciiStr<N> {
    /// Checks that the bytes are packed records of `N` bytes, each a text and then NULs. `N` must be above 0.
    ///
    /// The error is `Length` if `N` doesn't divide the number of bytes. Else it is `Parse`: the index of the first
    /// record that isn't a padded text, counted from 0, and its fault, as `try_from_raw` gives it.
    ///
    /// ```rust
    /// assert!(rt; TinyAsciiStr::<3>::validate_bytes(b"EURGB\0").is_ok());
    /// let fault = ParseError::ContainsNull;
    /// assert_eq!(rt; TinyAsciiStr::<3>::validate_bytes(b"EURG\0B"), Err(UleError::Parse { index: 1, fault }));
    /// ```
    #[tactic(auto, using(crate::proofs::Errors::record_lists))]
    pub fn validate_bytes(bytes: &[u8]) -> Result<(), UleError>
        requires { 0 < N }
        ensures accepted { IsOk result ↔ IsPacked bytes.now N }
        ensures length { IsErrOf result (UleError.Length (length bytes.now))
            ↔ (length bytes.now % N ≢ 0) }
        ensures fault { IfErr result (λ e. RefusesRecords e bytes.now N) }
    {
        UnvalidatedTinyAsciiStr::<N>::validate_bytes(bytes)?;
        // where there is no record, an array of `N` bytes may have no size
        if bytes.is_empty() {
            return Ok(());
        }
        Self::validate_records(bytes.as_chunks::<N>().0)
    }

    // Whether all records are padded texts, and else the first that isn't and its fault.
    #[tactic(auto, using(crate::proofs::Errors::checked_records))]
    #[inline]
    fn validate_records(records: &[[u8; N]]) -> Result<(), UleError>
        ensures accepted { IsOk result ↔ All (λ raw. IsPaddedText raw N) records.now }
        ensures fault { IfErr result (λ e. RefusesOneOf e records.now N) }
    {
        let mut index = Self::skip_padded(records);
        let (_, rest) = records.split_at(index);
        for raw in rest {
            if let Err(fault) = Self::try_from_raw(*raw) {
                return Err(UleError::Parse { index, fault });
            }
            index += 1;
        }
        Ok(())
    }

    // The number of records in the blocks before the first block that has a record that isn't a padded text.
    #[inline]
    fn skip_padded(records: &[[u8; N]]) -> usize
        ensures inside { result ≤ length records.now }
        ensures padded { All (λ raw. IsPaddedText raw N) (take result records.now) }
    {
        let mut rest = records;
        let mut index = 0;
        while !rest.is_empty() {
            let (block, after) = rest.split_at(rest.len().min(BLOCK));
            if !are_padded(block) {
                break;
            }
            rest = after;
            index += block.len();
        }
        index
    }

    /// `N` bytes of 255, which no value has if `N` is above 0.
    ///
    /// ```rust
    /// let pattern = TinyAsciiStr::<3>::niche_bit_pattern();
    /// assert_eq!(rt; pattern, [255, 255, 255]);
    /// assert_eq!(rt; TinyAsciiStr::try_from_raw(pattern), Err(ParseError::NonAscii));
    /// ```
    #[inline]
    pub fn niche_bit_pattern() -> [u8; N]
        ensures { result ≡ replicate N 255 }
    {
        [255; N]
    }
}

impl<const N: usize> UnvalidatedTinyAsciiStr<N> {
    /// Checks that `N`, which must be above 0, divides the number of bytes. The error is `Length`.
    pub fn validate_bytes(bytes: &[u8]) -> Result<(), UleError>
        requires { 0 < N }
        ensures accepted { IsOk result ↔ (length bytes.now % N ≡ 0) }
        ensures fault { IfErr result (λ e. e ≡ UleError.Length (length bytes.now)) }
    {
        let len = bytes.len();
        if len % N != 0 {
            return Err(UleError::Length { len });
        }
        Ok(())
    }
}
