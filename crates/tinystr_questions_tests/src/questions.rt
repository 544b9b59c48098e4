//! Questions and case changes, of values and of words: beside a plain loop over the characters, and of each text at each
//! capacity that holds it, where its length, its answers and its case changes are the same.

ghost use Rattle.std.specs.Prelude.{◌<◌, ◌^◌};

use crate::check;
use crate::table::{Row, edge_rows, table_rows};
use crate::words::are_right;
use std::process::Abort;
use std::test::Fail;
use tinystr::{ParseError, TinyAsciiStr};
use tinystr_words::int_ops::Aligned;
use tinystr_words::word::Word;

/// An answer to each question, in the order of `Row::answers`.
pub type Answers = [bool; 9];

/// The answers of a value or of a word.
macro_rules! each_question {
    ($text:expr) => {
        [
            $text.is_ascii_alphabetic(),
            $text.is_ascii_alphanumeric(),
            $text.is_ascii_numeric(),
            $text.is_ascii_lowercase(),
            $text.is_ascii_titlecase(),
            $text.is_ascii_uppercase(),
            $text.is_ascii_alphabetic_lowercase(),
            $text.is_ascii_alphabetic_titlecase(),
            $text.is_ascii_alphabetic_uppercase(),
        ]
    };
}

/// The answers of a value.
pub fn answers_of<const N: usize>(text: &TinyAsciiStr<N>) -> Answers {
    each_question!(text)
}

/// The answers of a word.
pub fn word_answers<T: Word<LEN>, const LEN: usize>(word: &Aligned<T, LEN>) -> Answers {
    each_question!(word)
}

fn letter(answer: bool) -> u8 {
    if answer { b'y' } else { b'n' }
}

/// Whether nine letters spell the answers, `y` for true.
pub fn are_spelled(answers: Answers, letters: &str) -> bool {
    answers.map(letter).as_slice() == letters.as_bytes()
}

// What each question says of a first byte, or of a later one.
fn byte_answers(byte: u8, is_first: bool) -> Answers {
    let is_letter = byte.is_ascii_alphabetic();
    let is_digit = byte.is_ascii_digit();
    let is_lower = byte.is_ascii_lowercase();
    let is_upper = byte.is_ascii_uppercase();
    [
        is_letter,
        is_letter || is_digit,
        is_digit,
        !is_upper,
        if is_first { !is_lower } else { !is_upper },
        !is_lower,
        is_lower,
        if is_first { is_upper } else { is_lower },
        is_upper,
    ]
}

fn plain_answers(text: &[u8]) -> Answers {
    let mut answers = [true; 9];
    for (i, byte) in text.iter().enumerate() {
        let passes = byte_answers(*byte, i == 0);
        for question in 0..9 {
            answers[question] &= passes[question];
        }
    }
    answers
}

// The text with its first byte and its later ones in uppercase or in lowercase, and then NULs.
fn plain_change(text: &[u8], raises_first: bool, raises_later: bool) -> [u8; 32] {
    let mut changed = [0; 32];
    for i in 0..text.len().min(32) {
        let raises = if i == 0 { raises_first } else { raises_later };
        changed[i] = if raises {
            text[i].to_ascii_uppercase()
        } else {
            text[i].to_ascii_lowercase()
        };
    }
    changed
}

// Whether the value is the text, and is answered and changed as by a plain loop.
fn is_plain<const N: usize>(text: TinyAsciiStr<N>, bytes: &[u8]) -> bool {
    text.as_utf8() == bytes
        && text.len() == bytes.len()
        && answers_of(&text) == plain_answers(bytes)
        && text.to_ascii_lowercase().resize::<32>().to_bytes() == plain_change(bytes, false, false)
        && text.to_ascii_titlecase().resize::<32>().to_bytes() == plain_change(bytes, true, false)
        && text.to_ascii_uppercase().resize::<32>().to_bytes() == plain_change(bytes, true, true)
}

// Whether the bytes are read at the capacity of the value given and at 32, and are answered there as by a plain loop.
fn are_plain<const N: usize>(bytes: &[u8], _like: TinyAsciiStr<N>) -> bool {
    match (
        TinyAsciiStr::<N>::try_from_utf8(bytes),
        TinyAsciiStr::<32>::try_from_utf8(bytes),
    ) {
        (Ok(text), Ok(wide)) => is_plain(text, bytes) && is_plain(wide, bytes),
        _ => false,
    }
}

// Each byte at each position of a text.
fn each_byte<const N: usize>(rt: &impl Abort, base: TinyAsciiStr<N>) {
    for at in 0..base.len() {
        for byte in 1..128u8 {
            let mut bytes = base.to_bytes();
            bytes[at] = byte;
            let text = &bytes[..base.len()];
            check(rt, are_plain(text, base), &(byte, at, base));
        }
    }
}

#[test]
fn each_byte_at_each_position_is_answered_as_by_a_plain_loop(rt: HostRuntime) -> Result<(), Fail> {
    each_byte(&rt, TinyAsciiStr::<8>::try_from_str("abcdefgh")?);
    each_byte(&rt, TinyAsciiStr::<16>::try_from_str("MacintoshOSX2019")?);
    each_byte(&rt, TinyAsciiStr::<17>::try_from_str("abcdefghijklmnopq")?);
    Ok(())
}

fn has_forms<const N: usize>(text: TinyAsciiStr<N>, row: &Row) -> bool {
    let is_shown = text.as_str() == row.text && text.len() == row.text.len();
    let is_lowered = text.to_ascii_lowercase().as_str() == row.lower;
    let is_titled = text.to_ascii_titlecase().as_str() == row.title;
    let is_raised = text.to_ascii_uppercase().as_str() == row.upper;
    let is_answered = are_spelled(answers_of(&text), row.answers);
    is_shown && is_lowered && is_titled && is_raised && is_answered
}

// The text, read again from code units of 16 bits.
fn read_wide<const N: usize>(text: TinyAsciiStr<N>) -> Result<TinyAsciiStr<N>, ParseError> {
    let front = text.resize::<40>();
    let units = front.to_bytes().map(u16::from);
    TinyAsciiStr::try_from_utf16(&units[..front.len()])
}

// What answers.
#[derive(Clone, Copy)]
enum Holder {
    Value,
    Words,
}

// Whether the row's text, read at the capacity, has its forms there, and read from code units of 16 bits.
fn is_right<const N: usize>(row: &Row, holder: Holder) -> bool
    requires { N < 2 ^ 62 }
{
    match (TinyAsciiStr::<N>::try_from_str(row.text), holder) {
        (Ok(text), Holder::Value) => {
            has_forms(text, row) && read_wide(text).is_ok_and(|wide| has_forms(wide, row))
        }
        (Ok(text), Holder::Words) => are_right(text, row),
        (Err(_), _) => false,
    }
}

// Checks each text that the capacity holds.
fn check_rows<const N: usize>(rt: &impl Abort, rows: &[Row], holder: Holder)
    requires { N < 2 ^ 62 }
{
    for row in rows {
        let is_right = row.text.len() > N || is_right::<N>(row, holder);
        check(rt, is_right, &(row.text, N));
    }
}

/// Checks the rows at each of the capacities.
macro_rules! check_each {
    ($rt:ident, $rows:ident, $holder:expr, $($capacity:literal)*) => {
        $(check_rows::<$capacity>(&$rt, $rows, $holder);)*
    };
}

#[test]
fn texts_answer_alike_at_every_capacity(rt: HostRuntime) -> Result<(), Fail> {
    let rows = table_rows(rt.alloc())?;
    let rows = rows.as_slice();
    assert!(rt; rows.len() == 33);
    check_each!(rt, rows, Holder::Value, 0 2 3 4 5 8 9 16 17 24 32 33);
    Ok(())
}

#[test]
fn texts_at_the_edges_of_words_answer_alike(rt: HostRuntime) -> Result<(), Fail> {
    let rows = edge_rows(rt.alloc())?;
    let rows = rows.as_slice();
    assert!(rt; rows.len() == 6);
    check_each!(rt, rows, Holder::Value, 4 17 32 33 40);
    Ok(())
}

// An array of each length that a text of at most sixteen characters has in the table, and of each word's length.
#[test]
fn texts_answer_alike_in_each_word_that_holds_them(rt: HostRuntime) -> Result<(), Fail> {
    let rows = table_rows(rt.alloc())?;
    let rows = rows.as_slice();
    assert!(rt; rows.len() == 33);
    check_each!(rt, rows, Holder::Words, 0 2 3 4 5 7 8 10 12 16);
    Ok(())
}
