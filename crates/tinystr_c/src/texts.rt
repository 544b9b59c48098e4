//! Texts of a capacity.

ghost use Rattle.std.specs.Prelude.{◌≡◌, ◌≤◌, length, IfOk};
ghost use Rattle.tinystr_words.specs.Text.{pad};
ghost use Rattle.tinystr_c.specs.Texts.{read_answer, read_bytes, ask_answer, case_answer, case_bytes, question_of, case_of, padded_read, yes_or_no, without_nuls};

use crate::answer::{TinystrResult, bad_argument, failure, fault_answer, success};
use crate::numbers::{
    ALPHABETIC, ALPHABETIC_LOWERCASE, ALPHABETIC_TITLECASE, ALPHABETIC_UPPERCASE, ALPHANUMERIC,
    LOWER, LOWERCASE, NUMERIC, TITLE, TITLECASE, TOO_LONG, UPPER, UPPERCASE,
};
use tinystr::TinyAsciiStr;
use tinystr_words::{Case, Question};

/// Reads a text, and writes it padded.
#[tactic(auto, using(crate::proofs::Putting::reading))]
#[inline]
pub fn read(input: &[u8], out: &mut [u8]) -> TinystrResult
    ensures answer { result ≡ read_answer input.now (length out.old) }
    ensures bytes { out.new ≡ read_bytes input.now out.old }
{
    let capacity = out.len();
    if capacity > 16 {
        return bad_argument(capacity);
    }
    if input.len() > capacity {
        return failure(TOO_LONG, input.len());
    }
    match TinyAsciiStr::<16>::try_from_utf8(input) {
        Ok(text) => {
            put(&text, out);
            success(input.len())
        }
        Err(fault) => fault_answer(fault, input),
    }
}

/// The answer to a question about a text.
#[inline]
pub fn ask(text: &[u8], question: u32) -> TinystrResult
    ensures { result ≡ ask_answer text.now question }
{
    match question_of(question) {
        Some(asked) => match read_padded(text) {
            Ok(read) => yes_or_no(read.ask(asked)),
            Err(refused) => refused,
        },
        None => bad_argument(question as usize),
    }
}

/// Changes the case of a text in place.
#[inline]
pub fn change_case(text: &mut [u8], case: u32) -> TinystrResult
    ensures answer { result ≡ case_answer text.old case }
    ensures bytes { text.new ≡ case_bytes text.old case }
{
    match case_of(case) {
        Some(wanted) => match read_padded(text) {
            Ok(read) => {
                put(&read.in_case(wanted), text);
                success(read.len())
            }
            Err(refused) => refused,
        },
        None => bad_argument(case as usize),
    }
}

/// Writes a text, and NULs up to the end of `out`: all `N` bytes in one step where they fit.
#[inline]
#[tactic(auto, using(crate::proofs::Putting::putting))]
pub fn put<const N: usize>(text: &TinyAsciiStr<N>, out: &mut [u8])
    requires { length text.now ≤ length out.old }
    ensures { out.new ≡ pad text.now (length out.old) }
{
    let bytes = text.all_bytes();
    let len = out.len();
    if len < N {
        out.copy_from_slice(&bytes[..len]);
        return;
    }
    let (front, back) = out.split_at_mut(N);
    front.copy_from_slice(bytes);
    back.fill(0);
}

// The text of at most 16 bytes, which may have NULs after it.
#[inline]
fn read_padded(text: &[u8]) -> Result<TinyAsciiStr<16>, TinystrResult>
    ensures read { result ≡ padded_read text.now }
    ensures fits { IfOk result (λ t. length t ≤ length text.now) }
{
    let text = without_nuls(text);
    match TinyAsciiStr::<16>::try_from_utf8(text) {
        Ok(read) => Ok(read),
        Err(fault) => Err(fault_answer(fault, text)),
    }
}

#[inline]
fn question_of(question: u32) -> Option<Question>
    ensures { result ≡ question_of question }
{
    match question {
        ALPHABETIC => Some(Question::Alphabetic),
        ALPHANUMERIC => Some(Question::Alphanumeric),
        NUMERIC => Some(Question::Numeric),
        LOWERCASE => Some(Question::Lowercase),
        TITLECASE => Some(Question::Titlecase),
        UPPERCASE => Some(Question::Uppercase),
        ALPHABETIC_LOWERCASE => Some(Question::AlphabeticLowercase),
        ALPHABETIC_TITLECASE => Some(Question::AlphabeticTitlecase),
        ALPHABETIC_UPPERCASE => Some(Question::AlphabeticUppercase),
        _ => None,
    }
}

#[inline]
fn case_of(case: u32) -> Option<Case>
    ensures { result ≡ case_of case }
{
    match case {
        LOWER => Some(Case::Lower),
        TITLE => Some(Case::Title),
        UPPER => Some(Case::Upper),
        _ => None,
    }
}

#[inline]
fn yes_or_no(yes: bool) -> TinystrResult
    ensures { result ≡ yes_or_no yes }
{
    success(usize::from(yes))
}

/// The bytes up to the last that isn't a NUL.
#[inline]
pub fn without_nuls(bytes: &[u8]) -> &[u8]
    ensures bytes { result.now ≡ without_nuls bytes.now }
    ensures fits { length result.now ≤ length bytes.now }
{
    let mut len = bytes.len();
    while len > 0 && bytes[len - 1] == 0 {
        len -= 1;
    }
    &bytes[..len]
}
