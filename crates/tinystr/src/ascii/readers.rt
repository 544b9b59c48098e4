//! The readers: strict, of padded bytes, lossy, and of bytes that are known to be padded.

ghost use Rattle.std.specs.Prelude.{◌≡◌, map, IsOk, IfOk, IfErr, ◌↔◌, All, IsTrue, option_map};
ghost use Rattle.tinystr_words.specs.Text.{text_of, IsTextByte, IsPaddedText, IsStrictText};
ghost use Rattle.tinystr_words.specs.Reading.{fault_in, lossy, first_fault};
ghost use Rattle.tinystr.specs.Error.{fault_of};
ghost use Rattle.tinystr.specs.Reading.{IsStrictRead, read_raw_of};

use crate::ascii::TinyAsciiStr;
use crate::error::ParseError;
use tinystr_words::int_ops::{Aligned8, Aligned16};
use tinystr_words::padded::{self, Width, resize_at_once, width_of};
use tinystr_words::{CodeUnit, are_characters};

impl<const N: usize> TinyAsciiStr<N> {
    /// Reads a string of at most `N` bytes, each from 1 to 127.
    ///
    /// The error is `TooLong` if there are more than `N` bytes. Else it is the fault of the first byte that is above
    /// 127 (`NonAscii`) or is a character after a NUL (`ContainsNull`). If the only fault is NULs at the end, it is
    /// `ContainsNull`.
    ///
    /// ```rust
    /// assert_eq!(rt; TinyAsciiStr::try_from_str("EUR"), Ok(tinystr!(3, "EUR")?));
    /// assert_eq!(rt; TinyAsciiStr::<3>::try_from_str("euros"), Err(ParseError::TooLong { max: 3, len: 5 }));
    /// assert_eq!(rt; TinyAsciiStr::<3>::try_from_str("€"), Err(ParseError::NonAscii));
    /// ```
    #[inline]
    pub fn try_from_str(s: &str) -> Result<Self, ParseError>
        ensures { IsStrictRead fault_of s.now N result }
    {
        Self::try_from_utf8(s.as_bytes())
    }

    /// Reads at most `N` bytes, each from 1 to 127. The errors are those of `try_from_str`.
    ///
    /// ```rust
    /// assert_eq!(rt; TinyAsciiStr::try_from_utf8(b"EUR"), Ok(tinystr!(3, "EUR")?));
    /// assert_eq!(rt; TinyAsciiStr::<3>::try_from_utf8(b"EU\0"), Err(ParseError::ContainsNull));
    /// ```
    #[tactic(auto, using(crate::proofs::Errors::strict_read))]
    #[inline]
    pub fn try_from_utf8(code_units: &[u8]) -> Result<Self, ParseError>
        ensures { IsStrictRead fault_of code_units.now N result }
    {
        read::<u8, N>(code_units)
    }

    /// Reads at most `N` 16-bit code units, each from 1 to 127. The errors are those of `try_from_str`, and `len`
    /// counts code units.
    ///
    /// ```rust
    /// assert_eq!(rt; TinyAsciiStr::try_from_utf16(&[0x45, 0x55, 0x52]), Ok(tinystr!(3, "EUR")?));
    /// assert_eq!(rt; TinyAsciiStr::<3>::try_from_utf16(&[0x20ac]), Err(ParseError::NonAscii));
    /// ```
    #[tactic(auto, using(crate::proofs::Errors::strict_read))]
    #[inline]
    pub fn try_from_utf16(code_units: &[u16]) -> Result<Self, ParseError>
        ensures { IsStrictRead fault_of code_units.now N result }
    {
        read::<u16, N>(code_units)
    }

    /// Reads all `N` bytes: a text and then NULs.
    ///
    /// The error is the fault of the first byte that is above 127 (`NonAscii`) or is a character after a NUL
    /// (`ContainsNull`). It is never `TooLong`.
    ///
    /// ```rust
    /// assert_eq!(rt; TinyAsciiStr::try_from_raw(*b"GB\0")?.as_str(), "GB");
    /// assert_eq!(rt; TinyAsciiStr::try_from_raw(*b"G\0B").unwrap_err(), ParseError::ContainsNull);
    /// ```
    #[tactic(auto, using(crate::proofs::Errors::padded_read))]
    #[inline]
    pub fn try_from_raw(raw: [u8; N]) -> Result<Self, ParseError>
        ensures accepted { IsOk result ↔ IsPaddedText raw.entry N }
        ensures text { IfOk result (λ t. t ≡ text_of raw.entry) }
        ensures fault { IfErr result (λ e. fault_of e ≡ fault_in N raw.entry) }
        ensures read { result ≡ read_raw_of N raw.entry }
    {
        read_padded(raw)
    }

    // The first code units, with the replacement for each that isn't a character.
    #[tactic(auto, using(tinystr_words::proofs::Pieces::CodeUnits::lossy_is_padded))]
    #[inline(always)]
    fn read_lossy<U: CodeUnit>(units: &[U], replacement: u8) -> Self
        requires { IsTextByte replacement }
        ensures { result ≡ lossy (map U.number units.now) replacement N }
    {
        TinyAsciiStr {
            bytes: padded::lossy(units, replacement),
        }
    }

    /// Reads the first `N` bytes, with `replacement` for each that is NUL or above 127. Later bytes are ignored.
    /// `replacement` must be from 1 to 127.
    ///
    /// ```rust
    /// assert_eq!(rt; TinyAsciiStr::<8>::from_utf8_lossy(b"caf\xe9", b'?').as_str(), "caf?");
    /// assert_eq!(rt; TinyAsciiStr::<2>::from_utf8_lossy(b"caf\xe9", b'?').as_str(), "ca");
    /// ```
    #[inline]
    pub fn from_utf8_lossy(code_units: &[u8], replacement: u8) -> Self
        requires { IsTextByte replacement }
        ensures { result ≡ lossy code_units.now replacement N }
    {
        Self::read_lossy::<u8>(code_units, replacement)
    }

    /// Reads the first `N` 16-bit code units, with `replacement` for each that is 0 or above 127. Later ones are
    /// ignored. `replacement` must be from 1 to 127.
    ///
    /// ```rust
    /// assert_eq!(rt; TinyAsciiStr::<8>::from_utf16_lossy(&[0x20ac, 0x35], b'?').as_str(), "?5");
    /// ```
    #[inline]
    pub fn from_utf16_lossy(code_units: &[u16], replacement: u8) -> Self
        requires { IsTextByte replacement }
        ensures { result ≡ lossy code_units.now replacement N }
    {
        Self::read_lossy::<u16>(code_units, replacement)
    }

    /// The text of an array, which must be a text and then NULs. Nothing is tested when it runs: the condition is
    /// proved at the call.
    ///
    /// ```rust
    /// assert_eq!(rt; TinyAsciiStr::from_utf8_unchecked(*b"GB\0").as_str(), "GB");
    /// ```
    #[inline]
    pub fn from_utf8_unchecked(code_units: [u8; N]) -> Self
        requires { IsPaddedText code_units N }
        ensures { result ≡ text_of code_units.entry }
    {
        TinyAsciiStr { bytes: code_units }
    }
}

// The text of the code units, or their fault. The value is made where its bytes are: an array in an `Option` or a
// `Result` of its own would be copied once more.
#[tactic(auto, using(crate::proofs::Splits::whole))]
#[inline(always)]
fn read<U: CodeUnit, const N: usize>(units: &[U]) -> Result<TinyAsciiStr<N>, ParseError>
    ensures accepted { IsOk result ↔ IsStrictText (map U.number units.now) N }
    ensures text { IfOk result (λ t. t ≡ map U.number units.now) }
    ensures fault { IfErr result (λ e. fault_of e ≡ fault_in N (map U.number units.now)) }
{
    if N > 16 && units.len() > 16 {
        return read_pieces(units);
    }
    if units.len() <= N {
        match width_of(N) {
            // up to 8 code units: one register
            Width::Four | Width::Eight => {
                if let Some(text) = Aligned8::try_from_text(units) {
                    return Ok(TinyAsciiStr {
                        bytes: resize_at_once(&text.to_bytes()),
                    });
                }
            }
            // up to 16, at larger capacities too: more are read by pieces
            Width::Sixteen | Width::Many => {
                if let Some(text) = Aligned16::try_from_text(units) {
                    return Ok(TinyAsciiStr {
                        bytes: resize_at_once(&text.to_bytes()),
                    });
                }
            }
        }
    }
    Err(fault::<U, N>(units))
}

// The text of bytes, or why they aren't padded. The value is made where its bytes are, as in `read`.
#[tactic(auto, using(crate::proofs::Splits::whole))]
#[inline(always)]
fn read_padded<const N: usize>(raw: [u8; N]) -> Result<TinyAsciiStr<N>, ParseError>
    ensures accepted { IsOk result ↔ IsPaddedText raw.entry N }
    ensures text { IfOk result (λ t. t ≡ text_of raw.entry) }
    ensures fault { IfErr result (λ e. fault_of e ≡ fault_in N raw.entry) }
{
    match width_of(N) {
        // 9 to 16 bytes: those of the word, since the array would be copied in pieces that fit no register
        Width::Sixteen => {
            if let Some(text) = Aligned16::try_from_padded(&raw[..]) {
                return Ok(TinyAsciiStr {
                    bytes: resize_at_once(&text.to_bytes()),
                });
            }
        }
        // the array as it was given, in one register, or in memory
        Width::Four | Width::Eight | Width::Many => {
            if padded::is_padded(&raw) {
                return Ok(TinyAsciiStr::from_padded(raw));
            }
        }
    }
    Err(fault::<u8, N>(&raw[..]))
}

/// Whether all records are padded texts. There is no early exit, so that the compiler tests several in one step.
#[inline(always)]
pub(crate) fn are_padded<const N: usize>(records: &[[u8; N]]) -> bool
    ensures { IsTrue result ↔ All (λ bytes. IsPaddedText bytes N) records.now }
{
    let mut are_padded = true;
    for bytes in records {
        are_padded &= padded::is_padded(bytes);
    }
    are_padded
}

// The text of the code units, read by pieces, or its fault. Each way returns its own error: a single return, at the end,
// made texts that fill their capacity slower.
#[tactic(auto, using(crate::proofs::Errors::scan_steps))]
#[inline(always)]
fn read_pieces<U: CodeUnit, const N: usize>(units: &[U]) -> Result<TinyAsciiStr<N>, ParseError>
    ensures accepted { IsOk result ↔ IsStrictText (map U.number units.now) N }
    ensures text { IfOk result (λ t. t ≡ map U.number units.now) }
    ensures fault { IfErr result (λ e. fault_of e ≡ fault_in N (map U.number units.now)) }
{
    if units.len() > N {
        return Err(fault::<U, N>(units));
    }
    if units.len() == N {
        if !are_characters(units) {
            return Err(fault::<U, N>(units));
        }
        return Ok(TinyAsciiStr::from_padded(padded::low_bytes(units)));
    }
    // no replacement is seen: bytes that aren't all characters are dropped
    let mut bytes = [0; N];
    if !padded::read_all(&mut bytes[..], units, 0) {
        return Err(fault::<U, N>(units));
    }
    Ok(TinyAsciiStr::from_padded(bytes))
}

// The fault at the first position whose code unit is above 127, or is a character after a NUL. A code unit above 127
// after a NUL is `NonAscii`: `forms::find_byte_fault` has the other order, that of the byte form.
#[tactic(auto, using(crate::proofs::Errors::scan_steps))]
fn find_fault<U: CodeUnit>(units: &[U]) -> Option<ParseError>
    ensures { option_map fault_of result ≡ first_fault (map U.number units.now) }
{
    let mut is_after_nul = false;
    for unit in units {
        let code = unit.code();
        if code > 127 {
            return Some(ParseError::NonAscii);
        }
        if code == 0 {
            is_after_nul = true;
        } else if is_after_nul {
            return Some(ParseError::ContainsNull);
        }
    }
    None
}

// Why the code units aren't a text of at most `N`.
#[tactic(auto, using(crate::proofs::Errors::scan_steps))]
#[inline(always)]
fn fault<U: CodeUnit, const N: usize>(units: &[U]) -> ParseError
    ensures { fault_of result ≡ fault_in N (map U.number units.now) }
{
    if units.len() > N {
        return ParseError::TooLong {
            max: N,
            len: units.len(),
        };
    }
    find_fault(units).unwrap_or(ParseError::ContainsNull)
}
