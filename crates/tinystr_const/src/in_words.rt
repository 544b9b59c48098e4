//! Padded bytes by words of eight.

ghost use Rattle.std.specs.Prelude.{◌≡◌, ◌+◌, ◌*◌, ◌/◌, ◌-◌, ◌%◌, ◌^◌, ◌<◌, ◌≤◌, ◌↔◌, bit_and, bit_or, length, IsTrue};
ghost use Rattle.tinystr_words.specs.Text.{IsPadded, IsPaddedText, text_of};
ghost use Rattle.tinystr_words.specs.Words.{word};

use tinystr_words::int_ops::{Aligned4, Aligned8};
use tinystr_words::padded::{Width, width_of};
use tinystr_words::word::Word;

/// The lower bits of eight bytes: a byte's sum with them leaves its high bit for what it carries, so none carries into the next.
const LOW_BITS: u64 = 0x7f7f_7f7f_7f7f_7f7f;

const HIGH_BITS: u64 = 0x8080_8080_8080_8080;

const ONES: u64 = 0x0101_0101_0101_0101;

/// Whether the bytes are a text and then NULs.
#[inline(always)]
pub fn is_padded<const N: usize>(bytes: &[u8; N]) -> bool
    ensures { IsTrue result ↔ IsPaddedText bytes.now N }
{
    match width_of(N) {
        Width::Four => Aligned4::try_from_padded(&bytes[..]).is_some(),
        Width::Eight | Width::Sixteen | Width::Many => are_padded(&bytes[..]),
    }
}

// The same, by words of eight.
#[inline(always)]
fn are_padded(bytes: &[u8]) -> bool
    ensures { IsTrue result ↔ IsPadded bytes.now }
{
    let mut rest = bytes;
    let mut faults = 0;
    // as if a character were before the first
    let mut before = 0x80;
    while let Some((eight, after)) = rest.split_first_chunk::<8>() {
        let word = word_of(eight);
        let characters = characters_of(word);
        faults |= faults_of(word, characters, before);
        before = characters >> 56;
        rest = after;
    }
    let word = <u64 as Word<8>>::load(rest);
    faults | faults_of(word, characters_of(word), before) == 0
}

// The high bit of each character.
#[inline(always)]
fn characters_of(word: u64) -> u64
    ensures { result ≡ bit_and (bit_and word LOW_BITS + LOW_BITS) HIGH_BITS }
{
    ((word & LOW_BITS) + LOW_BITS) & HIGH_BITS
}

// The high bit of each byte that is above 127, or a character after a NUL. `before` is the mark of the byte before the first.
#[inline(always)]
fn faults_of(word: u64, characters: u64, before: u64) -> u64
    requires { before < 256 }
    ensures { result ≡ bit_and (bit_or word (bit_and characters (2 ^ 64 - 1 - (characters * 256 % 2 ^ 64 + before)))) HIGH_BITS }
{
    (word | characters & !((characters << 8) + before)) & HIGH_BITS
}

/// The length of the text.
#[inline(always)]
pub fn len<const N: usize>(bytes: &[u8; N]) -> usize
    requires { IsPaddedText bytes.now N }
    ensures { result ≡ length (text_of bytes.now) }
{
    match width_of(N) {
        Width::Four => Aligned4::from_ascii_bytes(bytes).len(),
        Width::Eight => Aligned8::from_ascii_bytes(bytes).len_by_top(),
        Width::Sixteen => len_of_two(&bytes[..]),
        Width::Many => len_of_many(&bytes[..]),
    }
}

// That of at most two words.
#[inline(always)]
fn len_of_two(bytes: &[u8]) -> usize
    requires most { length bytes.now ≤ 16 }
    requires padded { IsPadded bytes.now }
    ensures { result ≡ length (text_of bytes.now) }
{
    let (front, back) = bytes.split_at(bytes.len().min(8));
    Aligned8::from_padded(front).len_by_top() + Aligned8::from_padded(back).len_by_top()
}

// That of parts, as long as a sum of ones fits in a byte.
#[inline(always)]
fn len_of_many(bytes: &[u8]) -> usize
    requires { IsPadded bytes.now }
    ensures { result ≡ length (text_of bytes.now) }
{
    let mut len = 0;
    let mut rest = bytes;
    while !rest.is_empty() {
        let (part, after) = rest.split_at(rest.len().min(240));
        len += len_of_part(part);
        rest = after;
    }
    len
}

// The sum of the ones of all words.
#[inline(always)]
fn len_of_part(bytes: &[u8]) -> usize
    requires most { length bytes.now < 256 }
    requires padded { IsPadded bytes.now }
    ensures { result ≡ length (text_of bytes.now) }
{
    let mut counts = 0;
    let mut rest = bytes;
    while let Some((eight, after)) = rest.split_first_chunk::<8>() {
        counts += ones_of(word_of(eight));
        rest = after;
    }
    counts += ones_of(<u64 as Word<8>>::load(rest));
    // all bytes of it, in the highest
    (counts.wrapping_mul(ONES) >> 56) as usize
}

// A one in the byte of each character.
#[inline(always)]
fn ones_of(text: u64) -> u64
    requires { text ≤ LOW_BITS }
    ensures { result ≡ bit_and (text + LOW_BITS) HIGH_BITS / 128 }
{
    ((text + LOW_BITS) & HIGH_BITS) >> 7
}

// Eight bytes, the first lowest.
#[inline(always)]
pub(crate) fn word_of(bytes: &[u8; 8]) -> u64
    ensures { result ≡ word bytes.now }
{
    u64::from_le_bytes(*bytes)
}
