//! What a user expects of a text, by contracts.

ghost use Rattle.std.specs.Prelude.{◌≡◌, ◌↔◌, ◌++◌, ◌∷◌, [], ◌≤◌, ◌<◌, ◌^◌, ℕ, List, length, IsTrue, IfOk, IfSome, IsSome, SomeIff, None, Some, Ok, slice_get, Contains, count_by, IsSorted, IsPermutation, string_bytes, ◌==◌, replicate, ◌-◌, decimal};
ghost use Rattle.std.specs.BTreeMap as tree;
ghost use Rattle.std.specs.HashMap as hash;
ghost use Rattle.std.specs.Cmp.Lexicographic.{slice_cmp};
ghost use Rattle.std.specs.List.{starts_with};
ghost use Rattle.std.specs.Ordering.{nat_cmp};
ghost use Rattle.std.specs.Str.{bytes_eq};
ghost use Rattle.std.specs.Prelude.{nat_eq};
ghost use Rattle.tinystr_words.specs.Classes.{is_upper};
ghost use Rattle.tinystr_words.specs.Text.{IsStrictText, IsText, pad};

use std::alloc::{AllocError, Global};
use std::collections::HashMap;
use tinystr::{TinyAsciiStr, TinyStr4, TinyStr8};

#[tactic(auto, using(std::proofs::lemmas::Str::Pattern::starts_text))]
pub fn has_prefix(text: &TinyStr8, prefix: &str) -> bool
    ensures { IsTrue result ↔ IsTrue (starts_with nat_eq text.now prefix.now) }
{
    text.as_str().starts_with(prefix)
}

pub fn has_prefix_bytes(text: &TinyStr8, prefix: &TinyStr4) -> bool
    ensures { result ≡ starts_with nat_eq text.now prefix.now }
{
    text.as_utf8().starts_with(prefix.as_utf8())
}

pub fn first_char(text: &TinyStr8) -> Option<char>
    ensures { result ≡ slice_get text.now 0 }
{
    text.as_utf8().first().map(|b| char::from(*b))
}

pub fn byte_at(text: &TinyStr8, index: usize) -> Option<u8>
    ensures { result ≡ slice_get text.now index }
{
    text.as_utf8().get(index).copied()
}

pub fn has_byte(text: &TinyStr8, byte: u8) -> bool
    ensures { IsTrue result ↔ Contains text.now byte }
{
    text.as_utf8().contains(&byte)
}

pub fn capitals(text: &TinyStr8) -> usize
    ensures { result ≡ count_by is_upper text.now }
{
    text.as_utf8()
        .iter()
        .filter(|b| b.is_ascii_uppercase())
        .count()
}

pub fn of_string(text: &String) -> Option<TinyStr8>
    ensures { SomeIff result (IsStrictText (string_bytes text.now) 8) (string_bytes text.now) }
{
    TinyStr8::try_from_str(text.as_str()).ok()
}

pub fn to_owned(text: &TinyStr8, alloc: Global) -> Result<String, AllocError>
    ensures { IfOk result (λ s. string_bytes s ≡ text.now) }
{
    text.to_string(alloc)
}

pub fn get(places: &HashMap<TinyStr4, u8>, code: &str) -> Option<u8>
    ensures code { IsStrictText code.now 4 → result ≡ hash.get bytes_eq places.now code.now }
    ensures no_code { ¬ IsStrictText code.now 4 → result ≡ None }
{
    places.get(&TinyStr4::try_from_str(code).ok()?).copied()
}

pub fn sort(codes: &mut Vec<TinyAsciiStr<3>>)
    ensures sorted { IsSorted (slice_cmp nat_cmp) codes.new.items }
    ensures same { IsPermutation codes.old.items codes.new.items }
{
    codes.sort_unstable();
}

pub fn to_number(text: &TinyStr8) -> u64 {
    u64::from_le_bytes(text.to_bytes())
}

pub fn dashes(text: &TinyStr8) -> usize
    ensures { result ≡ count_by (λ c. c == 0x2d) text.now }
{
    text.as_str().chars().filter(|c| *c == '-').count()
}

pub fn dashes_for(text: &TinyStr8) -> usize
    ensures { result ≡ count_by (λ c. c == 0x2d) text.now }
{
    text.as_utf8().iter().filter(|c| **c == b'-').count()
}

pub fn words(text: &TinyStr8, alloc: Global) -> Result<Vec<TinyStr8>, AllocError> {
    let mut words = Vec::new(alloc);
    for word in text.as_str().split(' ') {
        if let Ok(word) = TinyStr8::try_from_str(word) {
            words.push(word)?;
        }
    }
    Ok(words)
}

pub fn through_number(text: &TinyStr8) -> Option<TinyStr8>
    ensures { result ≡ Some text.now }
{
    let form = text.to_bytes();
    let number = u64::from_le_bytes(form);
    let back = number.to_le_bytes();
    TinyStr8::try_from_raw(back).ok()
}

pub fn try_resize<const N: usize, const M: usize>(text: TinyAsciiStr<N>) -> Option<TinyAsciiStr<M>>
    requires { M < 2 ^ 63 }
    ensures { SomeIff result (length text.entry ≤ M) text.entry }
{
    if text.len() > M {
        return None;
    }
    Some(text.resize::<M>())
}

pub fn of_char(letter: char) -> Option<TinyAsciiStr<1>>
    ensures { IfSome result (λ text. text ≡ letter ∷ []) }
{
    let byte = u8::try_from(letter).ok()?;
    TinyAsciiStr::try_from_utf8(&[byte]).ok()
}

pub fn halves(text: &TinyStr8) -> Option<(TinyStr8, TinyStr8)>
    ensures { IfSome result (λ r. text.now ≡ r.0 ++ 0x2d ∷ r.1) }
{
    let (front, back) = text.as_str().split_once('-')?;
    let front = TinyStr8::try_from_str(front).ok()?;
    let back = TinyStr8::try_from_str(back).ok()?;
    Some((front, back))
}

/// The text before the first dash and the text after it.
pub fn cut(text: &TinyStr8) -> Option<(TinyStr8, TinyStr8)>
    ensures parts { IfSome result (λ r. text.now ≡ r.0 ++ 0x2d ∷ r.1) }
    ensures exact { IsSome result ↔ Contains text.now 0x2d }
{
    match text.as_str().split_once('-') {
        None => None,
        Some((front, back)) => Some((
            TinyStr8::try_from_str(front).unwrap(),
            TinyStr8::try_from_str(back).unwrap(),
        )),
    }
}

pub fn right_aligned(text: &TinyStr8, alloc: Global) -> Result<String, AllocError>
    ensures { IfOk result (λ s.
        string_bytes s ≡ replicate (8 - length text.now) 0x20 ++ text.now) }
{
    let _ = text.as_utf8();
    format!(in alloc; "{text:>8}")
}

pub fn line(text: &TinyStr8, amount: u64, alloc: Global) -> Result<String, AllocError>
    ensures { IfOk result (λ s. string_bytes s ≡ text.now ++ 0x20 ∷ decimal amount) }
{
    format!(in alloc; "{text} {amount}")
}
