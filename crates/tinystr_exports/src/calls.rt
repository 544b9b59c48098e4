//! Questions, case changes and comparisons of batches.

ghost use Rattle.std.specs.Prelude.{◌≤◌};

use crate::batch::{COUNT, read_texts, write_numbers, write_texts};
use crate::hashing::hash_of;
use crate::numbers::{
    ALPHABETIC, ALPHABETIC_LOWERCASE, ALPHABETIC_TITLECASE, ALPHABETIC_UPPERCASE, ALPHANUMERIC,
    COPY, EQUALITY, EQUALITY_OF_HASHES, IS_EMPTY, LAST_OF_STR, LEN, LOWER, LOWERCASE, NUMERIC,
    ORDER, TITLE, TITLECASE, UPPER, UPPERCASE,
};
use std::cmp::Ordering;
use tinystr::TinyAsciiStr;

/// Answers question number `question` for each text; false where there is no such question.
pub fn ask_batch<const N: usize>(
    question: usize,
    rounds: usize,
    texts: &[u8],
    answers: &mut [u8],
) -> bool
    requires { N ≤ 128 }
{
    match question {
        LEN => ask_each::<N, LEN>(rounds, texts, answers),
        IS_EMPTY => ask_each::<N, IS_EMPTY>(rounds, texts, answers),
        ALPHABETIC => ask_each::<N, ALPHABETIC>(rounds, texts, answers),
        ALPHANUMERIC => ask_each::<N, ALPHANUMERIC>(rounds, texts, answers),
        NUMERIC => ask_each::<N, NUMERIC>(rounds, texts, answers),
        LOWERCASE => ask_each::<N, LOWERCASE>(rounds, texts, answers),
        TITLECASE => ask_each::<N, TITLECASE>(rounds, texts, answers),
        UPPERCASE => ask_each::<N, UPPERCASE>(rounds, texts, answers),
        ALPHABETIC_LOWERCASE => ask_each::<N, ALPHABETIC_LOWERCASE>(rounds, texts, answers),
        ALPHABETIC_TITLECASE => ask_each::<N, ALPHABETIC_TITLECASE>(rounds, texts, answers),
        ALPHABETIC_UPPERCASE => ask_each::<N, ALPHABETIC_UPPERCASE>(rounds, texts, answers),
        LAST_OF_STR => ask_each::<N, LAST_OF_STR>(rounds, texts, answers),
        _ => return false,
    }
    true
}

fn ask_each<const N: usize, const QUESTION: usize>(rounds: usize, texts: &[u8], answers: &mut [u8])
    requires { N ≤ 128 }
{
    let texts = read_texts::<N>(texts);
    let list = &texts[..];
    let mut numbers = [0; COUNT];
    for _ in 0..rounds {
        for i in 0..COUNT {
            numbers[i] = ask::<N, QUESTION>(&list[i]);
        }
    }
    write_numbers(&numbers, answers);
}

#[inline(always)]
fn ask<const N: usize, const QUESTION: usize>(text: &TinyAsciiStr<N>) -> u8 {
    match QUESTION {
        LEN => (text.len() % 256) as u8,
        IS_EMPTY => u8::from(text.is_empty()),
        ALPHABETIC => u8::from(text.is_ascii_alphabetic()),
        ALPHANUMERIC => u8::from(text.is_ascii_alphanumeric()),
        NUMERIC => u8::from(text.is_ascii_numeric()),
        LOWERCASE => u8::from(text.is_ascii_lowercase()),
        TITLECASE => u8::from(text.is_ascii_titlecase()),
        UPPERCASE => u8::from(text.is_ascii_uppercase()),
        ALPHABETIC_LOWERCASE => u8::from(text.is_ascii_alphabetic_lowercase()),
        ALPHABETIC_TITLECASE => u8::from(text.is_ascii_alphabetic_titlecase()),
        ALPHABETIC_UPPERCASE => u8::from(text.is_ascii_alphabetic_uppercase()),
        _ => text.as_str().as_bytes().last().copied().unwrap_or(0),
    }
}

/// Changes each text to case number `case`, or copies it; false where there is no such case.
pub fn change_batch<const N: usize>(
    case: usize,
    rounds: usize,
    texts: &[u8],
    changed: &mut [u8],
) -> bool
    requires { N ≤ 128 }
{
    match case {
        LOWER => change_each::<N, LOWER>(rounds, texts, changed),
        TITLE => change_each::<N, TITLE>(rounds, texts, changed),
        UPPER => change_each::<N, UPPER>(rounds, texts, changed),
        COPY => change_each::<N, COPY>(rounds, texts, changed),
        _ => return false,
    }
    true
}

fn change_each<const N: usize, const CASE: usize>(rounds: usize, texts: &[u8], changed: &mut [u8])
    requires { N ≤ 128 }
{
    let texts = read_texts::<N>(texts);
    let mut made = [TinyAsciiStr::<N>::default(); COUNT];
    for _ in 0..rounds {
        for i in 0..COUNT {
            made[i] = change::<N, CASE>(texts[i]);
        }
    }
    write_texts(&made, changed);
}

#[inline(always)]
fn change<const N: usize, const CASE: usize>(text: TinyAsciiStr<N>) -> TinyAsciiStr<N> {
    match CASE {
        LOWER => text.to_ascii_lowercase(),
        TITLE => text.to_ascii_titlecase(),
        UPPER => text.to_ascii_uppercase(),
        _ => text,
    }
}

/// Compares each pair; false where there is no comparison of that number.
pub fn compare_batch<const N: usize>(
    relation: usize,
    rounds: usize,
    left: &[u8],
    right: &[u8],
    answers: &mut [u8],
) -> bool
    requires { N ≤ 128 }
{
    match relation {
        ORDER => compare_each::<N, ORDER>(rounds, left, right, answers),
        EQUALITY => compare_each::<N, EQUALITY>(rounds, left, right, answers),
        EQUALITY_OF_HASHES => compare_each::<N, EQUALITY_OF_HASHES>(rounds, left, right, answers),
        _ => return false,
    }
    true
}

fn compare_each<const N: usize, const RELATION: usize>(
    rounds: usize,
    left: &[u8],
    right: &[u8],
    answers: &mut [u8],
)
    requires { N ≤ 128 }
{
    let left = read_texts::<N>(left);
    let right = read_texts::<N>(right);
    let (left_list, right_list) = (&left[..], &right[..]);
    let mut numbers = [0; COUNT];
    for _ in 0..rounds {
        for i in 0..COUNT {
            numbers[i] = compare::<N, RELATION>(&left_list[i], &right_list[i]);
        }
    }
    write_numbers(&numbers, answers);
}

#[inline(always)]
fn compare<const N: usize, const RELATION: usize>(
    left: &TinyAsciiStr<N>,
    right: &TinyAsciiStr<N>,
) -> u8 {
    match RELATION {
        ORDER => match left.cmp(right) {
            Ordering::Less => 0,
            Ordering::Equal => 1,
            Ordering::Greater => 2,
        },
        EQUALITY => u8::from(left == right),
        _ => u8::from(hash_of(left) == hash_of(right)),
    }
}
