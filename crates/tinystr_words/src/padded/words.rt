//! Padded bytes of any length, by words of sixteen bytes.

ghost use Rattle.std.specs.Prelude.{◌≡◌, ◌<◌, length, MatchOption};
ghost use Rattle.tinystr_words.specs.Text.{IsPadded, text_of, pad};
ghost use Rattle.tinystr_words.specs.Questions.{ask_question, in_case};
ghost use Rattle.tinystr_words.specs.Private.{IsFirstWord};

use crate::int_ops::Aligned16;
use crate::question::{Case, Question};

// The first sixteen bytes as a word, and the bytes after them.
#[inline(always)]
fn split_word(bytes: &[u8]) -> Option<(Aligned16, &[u8])>
    requires { IsPadded bytes.now }
    ensures { MatchOption result (length bytes.now < 16) (λ parts. IsFirstWord bytes.now parts.0 parts.1.now) }
{
    let (word, rest) = bytes.split_first_chunk::<16>()?;
    Some((Aligned16::from_ascii_bytes(word), rest))
}

/// The length of the text in bytes: the sum over its words.
#[inline(always)]
#[tactic(auto, using(crate::proofs::Pieces::PaddedWords::len_step))]
pub(crate) fn len(bytes: &[u8]) -> usize
    requires { IsPadded bytes.now }
    ensures { result ≡ length (text_of bytes.now) }
{
    let mut rest = bytes;
    let mut sum = 0;
    while let Some((word, after)) = split_word(rest) {
        sum += word.len_by_nuls();
        rest = after;
    }
    sum + Aligned16::from_padded(rest).len_by_nuls()
}

/// Whether each word passes the question; the later words are tested as the rest of a text.
#[inline(always)]
pub(crate) fn ask(bytes: &[u8], question: Question) -> bool
    requires { IsPadded bytes.now }
    ensures { result ≡ ask_question question (text_of bytes.now) }
{
    let mut rest = bytes;
    let mut current = question;
    while let Some((word, after)) = split_word(rest) {
        if !word.ask(current) {
            return false;
        }
        rest = after;
        current = question.of_later_words();
    }
    Aligned16::from_padded(rest).ask(current)
}

/// Changes each word in place; the later words are changed as the rest of a text. The NULs after the text stay.
#[tactic(auto, using(crate::proofs::Texts::padded_front))]
#[inline(always)]
pub(crate) fn put_in_case(bytes: &mut [u8], case: Case)
    requires { IsPadded bytes.old }
    ensures { bytes.new ≡ pad (in_case case (text_of bytes.old)) (length bytes.old) }
{
    let mut start = 0;
    let mut applied = case;
    while bytes.len() - start >= 16 {
        let end = start + 16;
        let word = Aligned16::from_padded(&bytes[start..end]).in_case(applied);
        bytes[start..end].copy_from_slice(&word);
        start = end;
        applied = case.of_later_words();
    }
    let count = bytes.len() - start;
    let word = Aligned16::from_padded(&bytes[start..]).in_case(applied);
    bytes[start..].copy_from_slice(&word[..count]);
}
