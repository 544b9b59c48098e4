//! Language identifiers.

ghost use Rattle.std.specs.Prelude.{◌≡◌, ◌≤◌, ℕ, length, nat_le, if◌then◌else◌};
ghost use Rattle.subtags.specs.Grammar.{IsCanonical, subtags_of};
ghost use Rattle.tinystr_words.specs.Text.{pad};
ghost use Rattle.tinystr_c.specs.Codes.{NO_ROOM, success, failure};
ghost use Rattle.tinystr_c.specs.Langid.{langid_fault, langid_answer, langid_bytes, subtag_len, subtag_start, parts_of, AnswersParts};

use crate::answer::{TinystrParts, TinystrResult, failure, no_parts, success};
use crate::numbers::{INVALID_LANGUAGE, INVALID_SUBTAG, NO_ROOM, OK};
use crate::texts::put;
use subtags::subtag::{Subtag, SubtagKind};
use subtags::{LangId, LangIdError};

/// Reads a language identifier, and writes its canonical text.
#[inline]
pub fn langid(input: &[u8], out: &mut [u8]) -> TinystrResult
    ensures answer { result ≡ langid_answer input.now (length out.old) }
    ensures bytes { out.new ≡ langid_bytes input.now out.old }
{
    match LangId::try_from_utf8(input) {
        Ok(id) => write(&id, out),
        Err(refusal) => langid_fault(refusal),
    }
}

/// The same, with the places of the subtags, or of the first that can't follow those before it.
#[tactic(auto, using(crate::proofs::Identifiers::longest_parts))]
pub fn langid_parts(input: &[u8], out: &mut [u8]) -> TinystrParts
    ensures answer { AnswersParts result input.now (length out.old) }
    ensures bytes { out.new ≡ langid_bytes input.now out.old }
{
    match LangId::from_prefix(input) {
        Ok((id, rest)) => {
            if !rest.is_empty() {
                let place = input.len() - rest.len() + 1;
                return no_parts(failure(INVALID_SUBTAG, place), count_of(&id));
            }
            let written = write(&id, out);
            if written.code != OK {
                return no_parts(written, 0);
            }
            parts_of(&id)
        }
        Err(_) => no_parts(failure(INVALID_LANGUAGE, 0), 0),
    }
}

// Writes the canonical text, if it fits.
#[inline]
fn write(id: &LangId, out: &mut [u8]) -> TinystrResult
    ensures answer { result ≡ (if nat_le (length id.now) (length out.old) then success (length id.now) else failure NO_ROOM (length id.now)) }
    ensures bytes { out.new ≡ (if nat_le (length id.now) (length out.old) then pad id.now (length out.old) else out.old) }
{
    let text = id.to_text();
    let len = text.len();
    if len > out.len() {
        return failure(NO_ROOM, len);
    }
    put(&text, out);
    success(len)
}

// The places of the subtags in a canonical text.
fn parts_of(id: &LangId) -> TinystrParts
    ensures { result ≡ parts_of id.now }
{
    let language_len = id.language().as_str().len();
    let (script_start, script_len) = place_after(language_len, id.script());
    let before = language_len.max(script_start + script_len);
    let (region_start, region_len) = place_after(before, id.region());
    TinystrParts {
        value: id.as_str().len(),
        code: OK,
        detail: 0,
        subtag: 0,
        language_len,
        script_start,
        script_len,
        region_start,
        region_len,
    }
}

// Where a subtag begins after some bytes and a dash, and its length.
fn place_after<K: SubtagKind<N>, const N: usize>(
    before: usize,
    subtag: Option<Subtag<K, N>>,
) -> (usize, usize)
    requires { before ≤ 17 }
    ensures { result ≡ (subtag_start before subtag, subtag_len subtag) }
{
    match subtag {
        Some(text) => (before + 1, text.as_str().len()),
        None => (0, 0),
    }
}

// How many subtags an identifier has.
#[tactic(auto, using(crate::proofs::Identifiers::count_of_subtags))]
fn count_of(id: &LangId) -> usize
    requires { IsCanonical id.now }
    ensures { result ≡ length (subtags_of id.now) }
{
    1 + usize::from(id.script().is_some()) + usize::from(id.region().is_some())
}

// Why an input is rejected.
#[inline]
fn langid_fault(refusal: LangIdError) -> TinystrResult
    ensures { result ≡ langid_fault refusal }
{
    match refusal {
        LangIdError::InvalidLanguage => failure(INVALID_LANGUAGE, 0),
        LangIdError::InvalidSubtag => failure(INVALID_SUBTAG, 0),
    }
}
