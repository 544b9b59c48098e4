//! The calls of `tinystr` on padded bytes of any length: a text and then NULs. Up to 16 bytes a call uses one word of
//! `int_ops`: the narrowest that holds them, as `width_of` returns it, except where a comment gives the reason for a wider
//! one. Past 16 bytes it uses the module below that is named for what it does.

ghost use Rattle.std.specs.Prelude.{◌≡◌, ◌≤◌, ◌++◌, ◌↔◌, length, take, IsTrue, IsOk, IfOk, IfErr};
ghost use Rattle.std.specs.Fmt.{decimal};
ghost use Rattle.std.specs.Str.{bytes_eq};
ghost use Rattle.tinystr_words.specs.Text.{IsPaddedText, text_of, pad};
ghost use Rattle.tinystr_words.specs.Decimal.{last};
ghost use Rattle.tinystr_words.specs.Questions.{ask_question, in_case};
ghost use Rattle.tinystr_words.specs.Private.{IsWidthOf};

mod code_units;
mod comparison;
mod concatenation;
mod copying;
mod first_lanes;
mod padding;
mod words;

use crate::decimal::decimal_fits;
use crate::int_ops::{Aligned4, Aligned8, Aligned16};
use crate::question::{Case, Question};
pub use code_units::{lossy, low_bytes, read_all};
pub use comparison::{compare, number};
use concatenation::{concat_in_memory, concat_in_vectors, concat_in_word, fit_vectors};
pub use copying::{resize, resize_at_once};
pub use first_lanes::{first_lanes_of_eight, first_lanes_of_sixteen};

/// The words that take padded bytes: the narrowest that holds them all, since it takes the fewest steps to load and to
/// test.
#[derive(Clone, Copy)]
pub enum Width {
    /// One of 32 bits.
    Four,
    /// One of 64 bits, the widest that a register holds.
    Eight,
    /// One of 128 bits, the widest integer.
    Sixteen,
    /// Several of 128 bits.
    Many,
}

/// The words that take `len` bytes. The number is known at compile time, so no test of it is left in the built code.
#[inline(always)]
pub fn width_of(len: usize) -> Width
    ensures { IsWidthOf result len }
{
    if len <= 4 {
        Width::Four
    } else if len <= 8 {
        Width::Eight
    } else if len <= 16 {
        Width::Sixteen
    } else {
        Width::Many
    }
}

/// Whether the bytes are a text and then NULs.
#[inline(always)]
pub fn is_padded<const N: usize>(bytes: &[u8; N]) -> bool
    ensures { IsTrue result ↔ IsPaddedText bytes.now N }
{
    match width_of(N) {
        Width::Four => Aligned4::try_from_padded(&bytes[..]).is_some(),
        Width::Eight => Aligned8::try_from_padded(&bytes[..]).is_some(),
        Width::Sixteen => Aligned16::try_from_padded(&bytes[..]).is_some(),
        Width::Many => padding::is_padded(&bytes[..]),
    }
}

/// The decimal text of `number` as padded bytes, or its last `N` digits if it has more.
#[inline(always)]
pub fn decimal<const N: usize>(number: u32) -> Result<[u8; N], [u8; N]>
    ensures ok { IsOk result ↔ (length (decimal number) ≤ N) }
    ensures digits { IfOk result (λ bytes. IsPaddedText bytes N × (text_of bytes ≡ decimal number)) }
    ensures last_digits { IfErr result (λ bytes. IsPaddedText bytes N × (text_of bytes ≡ last N (decimal number))) }
{
    let fits = decimal_fits(number, N);
    match width_of(N) {
        // 5 to 8 digits, made in one step
        Width::Eight => {
            let digits = resize_at_once(&Aligned8::from_number(number, N).to_bytes());
            if fits { Ok(digits) } else { Err(digits) }
        }
        // fewer or more digits, made two at a time
        _ if fits => Ok(resize_at_once(&Aligned16::from_decimal(number).to_bytes())),
        _ => Err(resize_at_once(&Aligned16::from_last_digits(number, N).to_bytes())),
    }
}

/// The length of the text.
#[inline(always)]
pub fn len<const N: usize>(bytes: &[u8; N]) -> usize
    requires { IsPaddedText bytes.now N }
    ensures { result ≡ length (text_of bytes.now) }
{
    match width_of(N) {
        Width::Four => Aligned4::from_ascii_bytes(bytes).len(),
        Width::Eight => Aligned8::from_ascii_bytes(bytes).len_by_top(),
        Width::Sixteen | Width::Many => words::len(bytes),
    }
}

/// Whether two texts are equal.
#[inline(always)]
pub fn equals<const N: usize>(left: &[u8; N], right: &[u8; N]) -> bool
    requires left { IsPaddedText left.now N }
    requires right { IsPaddedText right.now N }
    ensures { result ≡ bytes_eq (text_of left.now) (text_of right.now) }
{
    match width_of(N) {
        Width::Four => Aligned4::from_ascii_bytes(left).equals(&Aligned4::from_ascii_bytes(right)),
        Width::Eight => Aligned8::from_ascii_bytes(left).equals(&Aligned8::from_ascii_bytes(right)),
        // 9 to 15 bytes, which no vector loads
        Width::Sixteen if N < 16 => Aligned16::from_ascii_bytes(left).equals(
            &Aligned16::from_ascii_bytes(right),
        ),
        // vectors of sixteen bytes
        Width::Sixteen | Width::Many => comparison::equal(&left[..], &right[..]),
    }
}

/// The answer to a question about the text.
#[inline(always)]
pub fn ask<const N: usize>(bytes: &[u8; N], question: Question) -> bool
    requires { IsPaddedText bytes.now N }
    ensures { result ≡ ask_question question (text_of bytes.now) }
{
    match width_of(N) {
        Width::Four => Aligned4::from_ascii_bytes(bytes).ask(question),
        Width::Eight => Aligned8::from_ascii_bytes(bytes).ask(question),
        Width::Sixteen | Width::Many => words::ask(bytes, question),
    }
}

/// Changes the case of the text in place.
#[inline(always)]
#[tactic(auto, using(crate::proofs::Pieces::PaddedWords::in_case_take))]
pub fn put_in_case<const N: usize>(bytes: &mut [u8; N], case: Case)
    requires { IsPaddedText bytes.old N }
    ensures { bytes.new ≡ pad (in_case case (text_of bytes.old)) N }
{
    match width_of(N) {
        Width::Four => {
            let word = Aligned4::from_ascii_bytes(bytes).in_case(case);
            bytes.copy_from_slice(&word[..N]);
        }
        Width::Eight => {
            let word = Aligned8::from_ascii_bytes(bytes).in_case(case);
            bytes.copy_from_slice(&word[..N]);
        }
        Width::Sixteen | Width::Many => words::put_in_case(bytes, case),
    }
}

/// The first `Q` bytes of the two texts joined. The way is chosen at compile time, except that a first text which fills
/// the result is found at run time.
#[tactic(auto, using(crate::proofs::Parts::Splits::prefixes))]
#[inline(always)]
pub fn concat<const N: usize, const M: usize, const Q: usize>(
    first: &[u8; N],
    second: &[u8; M],
) -> [u8; Q]
    requires first { IsPaddedText first.now N }
    requires second { IsPaddedText second.now M }
    ensures padded { IsPaddedText result Q }
    ensures text { text_of result ≡ take Q (text_of first.now ++ text_of second.now) }
{
    let first_part = &first[..N.min(Q)];
    let second_part = &second[..M.min(Q)];
    match width_of(Q) {
        // short arrays to more than 8 bytes, as `concat::<8, 16>` of a text of at most 8
        Width::Sixteen | Width::Many if fit_vectors(first_part.len(), second_part.len()) => {
            concat_in_vectors(first_part, second_part)
        }
        // a first text that fills the result is copied as it is
        _ if Q > 0 && Q <= N && first[Q - 1] != 0 => resize_at_once(first),
        // to at most 8 bytes, as `concat::<4, 8>`
        Width::Four | Width::Eight => concat_in_word(first_part, second_part),
        // a long array, as `concat::<64, 128>`
        Width::Sixteen | Width::Many => concat_in_memory(*first, len(first), second),
    }
}
