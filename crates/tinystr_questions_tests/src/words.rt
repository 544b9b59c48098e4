//! The words in which texts answer questions: each text in each word that holds it, the ends of each width, and words on
//! their way from constants to answers, lane by lane.

ghost use Rattle.std.specs.Prelude.{◌≤◌, length};
ghost use Rattle.tinystr_words.specs.Text.{IsPadded};
ghost use Rattle.tinystr_words.specs.Words.{HasLowLanes};

use crate::check;
use crate::questions::{are_spelled, word_answers};
use crate::table::Row;
use tinystr::TinyAsciiStr;
use tinystr_words::int_ops::{Aligned, Aligned4, Aligned8, Aligned16};
use tinystr_words::kernel::{DIGIT, LOWER, UPPER, case_bits, outside, present};
use tinystr_words::word::Word;

fn is_padded<const LEN: usize>(bytes: [u8; LEN], text: &str) -> bool {
    match TinyAsciiStr::try_from_raw(bytes) {
        Ok(read) => read.as_str() == text,
        Err(_) => false,
    }
}

fn has_forms<T: Word<LEN>, const LEN: usize>(word: &Aligned<T, LEN>, row: &Row) -> bool {
    word.len() == row.text.len()
        && are_spelled(word_answers(word), row.answers)
        && is_padded(word.to_ascii_lowercase(), row.lower)
        && is_padded(word.to_ascii_titlecase(), row.title)
        && is_padded(word.to_ascii_uppercase(), row.upper)
}

/// Whether each word that holds an array of the text has the forms of its row.
pub fn are_right<const N: usize>(text: TinyAsciiStr<N>, row: &Row) -> bool {
    let array = text.all_bytes();
    (N > 4 || has_forms(&Aligned4::from_ascii_bytes(array), row))
        && (N > 8 || has_forms(&Aligned8::from_ascii_bytes(array), row))
        && (N > 16 || has_forms(&Aligned16::from_ascii_bytes(array), row))
}

// Whether the word has these answers and this length, and each case change gives the bytes.
fn stays<T: Word<LEN>, const LEN: usize>(
    word: &Aligned<T, LEN>,
    answers: &str,
    bytes: [u8; LEN],
    len: usize,
) -> bool {
    word.len() == len
        && are_spelled(word_answers(word), answers)
        && word.to_ascii_lowercase() == bytes
        && word.to_ascii_titlecase() == bytes
        && word.to_ascii_uppercase() == bytes
}

// The word of a text of at most four bytes.
fn word_of(text: &[u8]) -> u32
    requires fits { length text.now ≤ 4 }
    requires padded { IsPadded text.now }
    ensures { HasLowLanes result }
{
    u32::load(text)
}

// The bytes of a word with a byte added to its first lane, and another to each other lane.
fn with_added(text: u32, first: u8, others: u8) -> [u8; 4]
    requires text { HasLowLanes text }
    requires first { first ≤ 0x7f }
    requires others { others ≤ 0x7f }
{
    text.plus(u32::first_then(first, others)).to_le_bytes()
}

#[test]
fn the_array_of_no_bytes_is_the_empty_text(rt: HostRuntime) {
    let yes = "yyyyyyyyy";
    let stay = [
        stays(&Aligned4::from_ascii_bytes(b""), yes, [0; 4], 0),
        stays(&Aligned8::from_ascii_bytes(b""), yes, [0; 8], 0),
        stays(&Aligned16::from_ascii_bytes(b""), yes, [0; 16], 0),
    ];
    check(&rt, stay == [true; 3], &stay);
}

#[test]
fn words_full_of_the_highest_byte(rt: HostRuntime) {
    let answers = "nnnyyynnn";
    let (four, eight, sixteen) = ([0x7f; 4], [0x7f; 8], [0x7f; 16]);
    let stay = [
        stays(&Aligned4::from_ascii_bytes(&four), answers, four, 4),
        stays(&Aligned8::from_ascii_bytes(&eight), answers, eight, 8),
        stays(&Aligned16::from_ascii_bytes(&sixteen), answers, sixteen, 16),
    ];
    check(&rt, stay == [true; 3], &stay);
}

#[test]
fn arrays_at_their_own_length(rt: HostRuntime) {
    let en = Aligned4::from_ascii_bytes(b"en");
    let raised = [
        en.to_ascii_uppercase(),
        Aligned4::from_ascii_bytes(b"z{").to_ascii_uppercase(),
    ];
    assert!(rt; raised == [[0x45, 0x4e, 0, 0], [0x5a, 0x7b, 0, 0]]);
    assert!(rt; !Aligned4::from_ascii_bytes(b"3:").is_ascii_numeric());
    let calendar = Aligned8::from_ascii_bytes(b"calendar");
    assert!(rt; calendar.to_ascii_titlecase() == *b"Calendar");
    assert!(rt; [en.len(), calendar.len()] == [2, 8]);
}

#[test]
fn lanes_of_a_title(rt: HostRuntime) {
    let word = word_of(b"tEsT");
    let bits = case_bits(word, LOWER, UPPER);
    assert!(rt; word == 0x54734574);
    let lanes = [
        with_added(word, LOWER.low, UPPER.low),
        with_added(word, LOWER.high, UPPER.high),
        bits.to_le_bytes(),
        word.or(bits).to_le_bytes(),
        word.xor(bits).to_le_bytes(),
    ];
    let expected = [
        [0x93, 0x84, 0xb2, 0x93],
        [0x79, 0x6a, 0x98, 0x79],
        [0x20, 0x20, 0, 0x20],
        [0x74, 0x65, 0x73, 0x74],
        *b"Test",
    ];
    assert!(rt; lanes == expected);
    let title = Aligned4::from_ascii_bytes(b"tEsT").to_ascii_titlecase();
    assert!(rt; title == *b"Test");
}

#[test]
fn lanes_of_a_colon(rt: HostRuntime) {
    let word = word_of(b"3:");
    let marks = outside(word, DIGIT, DIGIT).and(u32::splat(0x80));
    assert!(rt; word == 0x3a33);
    let lanes = [
        with_added(word, DIGIT.low, DIGIT.low),
        with_added(word, DIGIT.high, DIGIT.high),
        marks.to_le_bytes(),
        present(word).to_le_bytes(),
        marks.and(present(word)).to_le_bytes(),
    ];
    let expected = [
        [0x83, 0x8a, 0x50, 0x50],
        [0x79, 0x80, 0x46, 0x46],
        [0, 0x80, 0x80, 0x80],
        [0x80, 0x80, 0, 0],
        [0, 0x80, 0, 0],
    ];
    assert!(rt; lanes == expected);
}

#[test]
fn lanes_of_a_brace(rt: HostRuntime) {
    let word = word_of(b"z{");
    let bits = case_bits(word, LOWER, LOWER);
    assert!(rt; word == 0x7b7a);
    let lanes = [
        with_added(word, LOWER.low, LOWER.low),
        with_added(word, LOWER.high, LOWER.high),
        bits.to_le_bytes(),
        word.xor(bits).to_le_bytes(),
    ];
    let expected = [
        [0x99, 0x9a, 0x1f, 0x1f],
        [0x7f, 0x80, 0x05, 0x05],
        [0x20, 0, 0, 0],
        [0x5a, 0x7b, 0, 0],
    ];
    assert!(rt; lanes == expected);
}

#[test]
fn leading_zeros_of_a_length(rt: HostRuntime) {
    let word = word_of(b"en");
    let are_right = [
        word == 0x00006e65,
        word.leading_zeros() == 17,
        Aligned4::from_ascii_bytes(b"en").len() == 2,
    ];
    check(&rt, are_right == [true; 3], &are_right);
}
