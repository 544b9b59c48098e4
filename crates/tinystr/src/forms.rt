//! Texts as JSON values and as `N` bytes, and back: the errors, and the form in bytes. `json` has the JSON form.

ghost use Rattle.std.specs.Prelude.{◌≡◌, ◌++◌, ◌≤◌, ◌↔◌, Some, None, option_map, length, take, drop, IsOk, IfOk, IfErr};
ghost use Rattle.tinystr_words.specs.Text.{pad, text_of, IsPaddedText};
ghost use Rattle.tinystr_words.specs.ByteForm.{byte_fault};
ghost use Rattle.tinystr.specs.Forms.{byte_fault_of};

mod json;

use crate::ascii::TinyAsciiStr;
use crate::unvalidated::UnvalidatedTinyAsciiStr;
use std::alloc::AllocError;

/// Why a JSON value gives no text.
///
/// ```rust
/// assert_eq!(rt; TinyStr8::from_json(&Value::Null), Err(JsonReadError::NotText));
/// ```
#[derive(Clone, Copy, Debug, PartialEq, Eq)]
pub enum JsonReadError {
    /// The value isn't a string.
    NotText,
    /// The string isn't a text of the wanted capacity.
    InvalidText,
}

/// Why bytes give no value.
///
/// ```rust
/// assert_eq!(rt; TinyStr4::read_bytes(b"G\0B\0").unwrap_err(), BytesReadError::Null);
/// assert_eq!(rt; TinyStr4::read_bytes(b"caf\xe9").unwrap_err(), BytesReadError::NonAscii);
/// ```
#[derive(Clone, Copy, Debug, PartialEq, Eq)]
pub enum BytesReadError {
    /// There are fewer than `expected` bytes.
    Length { expected: usize },
    /// A byte other than NUL follows a NUL.
    Null,
    /// A byte is above 127.
    NonAscii,
}

/// Why unvalidated bytes aren't written.
///
/// ```rust
/// let bytes = UnvalidatedTinyAsciiStr::from_utf8_unchecked(*b"\0GB");
/// assert!(rt; matches!(bytes.to_json(rt.alloc()), Err(FormWriteError::NotAscii)));
/// ```
#[derive(Clone, Copy, Debug, PartialEq, Eq)]
pub enum FormWriteError {
    /// The bytes aren't a text and then NULs.
    NotAscii,
    /// The allocation of the JSON string failed.
    Memory(AllocError),
}

impl<const N: usize> TinyAsciiStr<N> {
    /// All `N` bytes: the text and then NULs.
    ///
    /// ```rust
    /// assert_eq!(rt; tinystr!(4, "GB")?.to_bytes(), *b"GB\0\0");
    /// ```
    #[inline]
    pub fn to_bytes(&self) -> [u8; N]
        ensures bytes { result ≡ pad self.now N }
        ensures padded { IsPaddedText result N }
        ensures text { text_of result ≡ self.now }
    {
        *self.all_bytes()
    }

    /// Writes all `N` bytes to the front of `out`, which must have at least `N`, and leaves the others unchanged.
    ///
    /// ```rust
    /// let mut record = *b".........";
    /// tinystr!(4, "GB")?.write_bytes(&mut record[..]);
    /// assert_eq!(rt; record, *b"GB\0\0.....");
    /// tinystr!(3, "GBP")?.write_bytes(&mut record[4..]);
    /// assert_eq!(rt; record, *b"GB\0\0GBP..");
    /// ```
    #[tactic(auto, using(std::proofs::Common::take_at, tinystr_words::proofs::Reading::ByteForms::byte_reading))]
    #[inline]
    pub fn write_bytes(&self, out: &mut [u8])
        requires { N ≤ length out.old }
        ensures bytes { out.new ≡ pad self.now N ++ drop N out.old }
        ensures read_back { byte_fault N out.new ≡ None }
        ensures text { text_of (take N out.new) ≡ self.now }
        ensures rest { drop N out.new ≡ drop N out.old }
    {
        out[..N].copy_from_slice(self.all_bytes());
    }

    /// Reads the first `N` bytes, a text and then NULs, and gives the text and the rest of the input.
    ///
    /// The error is the fault of the first of `N` positions that has one: the input has ended (`Length`), a byte after a
    /// NUL isn't NUL (`Null`), or a byte is above 127 (`NonAscii`). A byte with both of the last two faults is
    /// `Null`.
    ///
    /// ```rust
    /// let (text, rest) = TinyAsciiStr::<4>::read_bytes(b"GB\0\0EUR").unwrap();
    /// assert_eq!(rt; text.as_str(), "GB");
    /// assert_eq!(rt; rest, b"EUR".as_slice());
    /// assert_eq!(rt; TinyAsciiStr::<4>::read_bytes(b"EUR").unwrap_err(), BytesReadError::Length { expected: 4 });
    /// ```
    #[tactic(auto, using(tinystr_words::proofs::Reading::ByteForms::byte_reading))]
    pub fn read_bytes(input: &[u8]) -> Result<(Self, &[u8]), BytesReadError>
        ensures accepted { IsOk result ↔ (byte_fault N input.now ≡ None) }
        ensures padded { IfOk result (λ _. IsPaddedText (take N input.now) N) }
        ensures text { IfOk result (λ read. read.0 ≡ text_of (take N input.now)) }
        ensures rest { IfOk result (λ read. read.1.now ≡ drop N input.now) }
        ensures fault { IfErr result (λ e. byte_fault N input.now ≡ Some (byte_fault_of e)) }
    {
        if let Some((raw, rest)) = input.split_first_chunk::<N>() {
            if let Ok(text) = Self::try_from_raw(*raw) {
                return Ok((text, rest));
            }
        }
        Err(find_byte_fault(input, N).unwrap())
    }
}

impl<const N: usize> UnvalidatedTinyAsciiStr<N> {
    /// The bytes if they are a text and then NULs, else the error `NotAscii`, so some values of `read_bytes` can't be
    /// written again. It is never `Memory`.
    ///
    /// ```rust
    /// assert!(rt; UnvalidatedTinyAsciiStr::from_utf8_unchecked(*b"GB\0").to_bytes().is_ok());
    /// assert!(rt; UnvalidatedTinyAsciiStr::from_utf8_unchecked(*b"\0GB").to_bytes().is_err());
    /// ```
    pub fn to_bytes(&self) -> Result<[u8; N], FormWriteError>
        ensures accepted { IsOk result ↔ IsPaddedText self.now N }
        ensures bytes { IfOk result (λ bytes. bytes ≡ self.now) }
        ensures fault { IfErr result (λ e. e ≡ FormWriteError.NotAscii) }
    {
        match self.try_into_tinystr() {
            Ok(text) => Ok(text.to_bytes()),
            Err(_) => Err(FormWriteError::NotAscii),
        }
    }

    /// Reads the first `N` bytes, whatever they are, and gives them and the rest of the input. The error is `Length` if
    /// there are fewer.
    ///
    /// ```rust
    /// let (bytes, rest) = UnvalidatedTinyAsciiStr::<2>::read_bytes(b"\0GB").unwrap();
    /// assert_eq!(rt; bytes.try_into_tinystr(), Err(ParseError::ContainsNull));
    /// assert_eq!(rt; rest, b"B".as_slice());
    /// ```
    pub fn read_bytes(input: &[u8]) -> Result<(Self, &[u8]), BytesReadError>
        ensures accepted { IsOk result ↔ (N ≤ length input.now) }
        ensures bytes { IfOk result (λ read. read.0 ≡ take N input.now) }
        ensures rest { IfOk result (λ read. read.1.now ≡ drop N input.now) }
        ensures fault { IfErr result (λ e. e ≡ BytesReadError.Length N) }
    {
        match input.split_first_chunk::<N>() {
            Some((raw, rest)) => Ok((Self::from_utf8_unchecked(*raw), rest)),
            None => Err(BytesReadError::Length { expected: N }),
        }
    }
}

// The fault at the first of `expected` positions that has one. Bytes are read in order, so the end of the input is a
// fault where it comes, and a byte above 127 after a NUL is `Null`. `ascii::readers::find_fault` gives the first fault
// of code units that were counted before, and has `NonAscii` before `ContainsNull`.
#[tactic(auto, using(tinystr_words::proofs::Reading::ByteForms::byte_pass))]
fn find_byte_fault(input: &[u8], expected: usize) -> Option<BytesReadError>
    ensures { option_map byte_fault_of result ≡ byte_fault expected input.now }
{
    let mut is_after_nul = false;
    for byte in &input[..expected.min(input.len())] {
        if is_after_nul && *byte != 0 {
            return Some(BytesReadError::Null);
        }
        if *byte > 127 {
            return Some(BytesReadError::NonAscii);
        }
        is_after_nul |= *byte == 0;
    }
    if input.len() < expected {
        return Some(BytesReadError::Length { expected });
    }
    None
}
