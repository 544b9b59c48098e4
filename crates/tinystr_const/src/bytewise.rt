//! A question asked of each byte, in loops of sixteen without a branch, of which rustc makes vectors. Words are faster in the kit's
//! build.

ghost use Rattle.std.specs.Prelude.{◌≡◌, ◌≤◌, ◌==◌, ◌||◌, length};
ghost use Rattle.std.specs.List.{list_all};
ghost use Rattle.tinystr_words.specs.Text.{IsPadded, IsPaddedText, text_of};
ghost use Rattle.tinystr_words.specs.Classes.{ask};
ghost use Rattle.tinystr_words.specs.Questions.{ask_question, later_class};

use tinystr_words::Question;
use tinystr_words::padded::{self, Width, width_of};

/// The answer to a question about the text.
#[inline(always)]
pub fn ask<const N: usize>(bytes: &[u8; N], question: Question) -> bool
    requires { IsPaddedText bytes.now N }
    ensures { result ≡ ask_question question (text_of bytes.now) }
{
    match width_of(N) {
        Width::Many if N % 8 == 0 => ask_bytes(&bytes[..], question),
        _ => padded::ask(bytes, question),
    }
}

// The same, by loops over sixteen bytes or more.
#[inline(always)]
fn ask_bytes(bytes: &[u8], question: Question) -> bool
    requires long { 16 ≤ length bytes.now }
    requires padded { IsPadded bytes.now }
    ensures { result ≡ ask_question question (text_of bytes.now) }
{
    // constants, so that no loop tests which question it is
    match question {
        Question::Alphabetic => ask_each(bytes, Question::Alphabetic),
        Question::Alphanumeric => ask_each(bytes, Question::Alphanumeric),
        Question::Numeric => ask_each(bytes, Question::Numeric),
        Question::Lowercase => ask_each(bytes, Question::Lowercase),
        Question::Titlecase => ask_apart(bytes, Question::Uppercase, Question::Lowercase),
        Question::Uppercase => ask_each(bytes, Question::Uppercase),
        Question::AlphabeticLowercase => ask_each(bytes, Question::AlphabeticLowercase),
        Question::AlphabeticTitlecase => ask_apart(
            bytes,
            Question::AlphabeticUppercase,
            Question::AlphabeticLowercase,
        ),
        Question::AlphabeticUppercase => ask_each(bytes, Question::AlphabeticUppercase),
    }
}

// Whether the first byte passes one question, and each other byte another.
#[inline(always)]
fn ask_apart(bytes: &[u8], first: Question, others: Question) -> bool
    requires long { 16 ≤ length bytes.now }
    requires padded { IsPadded bytes.now }
    ensures { result ≡ ask (later_class first) (later_class others) (text_of bytes.now) }
{
    let (front, back) = bytes.split_at(16);
    let mut after_first = [0; 16];
    after_first.copy_from_slice(front);
    after_first[0] = 0; // NUL passes
    let front_passes = passes(front[0], first) & all_pass(&after_first, others);
    front_passes && ask_each(back, others)
}

// Whether each byte passes the same question.
#[inline(always)]
#[tactic(auto, using(crate::proofs::Passing::padded_passes))]
fn ask_each(bytes: &[u8], question: Question) -> bool
    requires { IsPadded bytes.now }
    ensures { result ≡ ask (later_class question) (later_class question) (text_of bytes.now) }
{
    let mut rest = bytes;
    while rest.len() > 16 {
        let (front, back) = rest.split_at(16);
        if !all_pass(front, question) {
            return false;
        }
        rest = back;
    }
    all_pass(rest, question)
}

// Whether each byte is NUL, or passes.
#[inline(always)]
fn all_pass(bytes: &[u8], question: Question) -> bool
    ensures { result ≡ list_all (λ b. (b == 0) || later_class question b) bytes.now }
{
    let mut all = true;
    for byte in bytes {
        all &= passes(*byte, question);
    }
    all
}

// Whether a byte after the first is NUL, or in the question's class.
#[inline(always)]
fn passes(byte: u8, question: Question) -> bool
    ensures { result ≡ (byte == 0 || later_class question byte) }
{
    let is_nul = byte == 0;
    match question {
        Question::Alphabetic => is_nul | byte.is_ascii_alphabetic(),
        Question::Alphanumeric => is_nul | byte.is_ascii_alphanumeric(),
        Question::Numeric => is_nul | byte.is_ascii_digit(),
        Question::Lowercase | Question::Titlecase => !byte.is_ascii_uppercase(),
        Question::Uppercase => !byte.is_ascii_lowercase(),
        Question::AlphabeticLowercase | Question::AlphabeticTitlecase => {
            is_nul | byte.is_ascii_lowercase()
        }
        Question::AlphabeticUppercase => is_nul | byte.is_ascii_uppercase(),
    }
}
