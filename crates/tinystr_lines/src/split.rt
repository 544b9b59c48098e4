//! Bytes split at a byte.

ghost use Rattle.std.specs.Prelude.{◌≡◌, ◌==◌, IfSome, is_some, length, position, take};
ghost use Rattle.std.specs.List.{before_first, after_first, list_any, position_or_len};

use std::simd::prelude::*;

/// The index of the first such byte among thirty-two, which are compared in one step, or 32 if there is none.
#[inline(always)]
pub fn place_in_lanes(lanes: &[u8; 32], byte: u8) -> usize
    ensures { result ≡ position_or_len (λ b. b == byte) lanes.now }
{
    let equal = u8x32::from_array(*lanes)
        .simd_eq(u8x32::splat(byte))
        .to_bitmask();
    if equal == 0 {
        return 32;
    }
    equal.trailing_zeros() as usize
}

// The index of the first such byte. The bytes are compared one by one.
fn find_by_one(text: &[u8], byte: u8) -> Option<usize>
    ensures { result ≡ position (λ b. b == byte) text.now }
{
    text.iter().position(|b| *b == byte)
}

// The index of the first such byte. Thirty-two bytes are compared in one step, while thirty-two remain.
#[inline(never)]
fn find(text: &[u8], byte: u8) -> Option<usize>
    ensures { result ≡ position (λ b. b == byte) text.now }
{
    let mut rest = text;
    let mut start = 0;
    while let Some((lanes, after)) = rest.split_first_chunk::<32>() {
        let at = place_in_lanes(lanes, byte);
        if at < 32 {
            return Some(start + at);
        }
        start += 32;
        rest = after;
    }
    let at = find_by_one(rest, byte)?;
    Some(start + at)
}

// The index of the first such byte of a text that `ahead` begins with. Thirty-two bytes of `ahead` are compared in one step,
// though the text may be shorter.
#[inline(always)]
fn find_ahead(text: &[u8], ahead: &[u8], byte: u8) -> Option<usize>
    requires { text.now ≡ take (length text.now) ahead.now }
    ensures { result ≡ position (λ b. b == byte) text.now }
{
    let Some(lanes) = ahead.first_chunk::<32>() else {
        return find(text, byte);
    };
    let at = place_in_lanes(lanes, byte);
    if text.len() <= at {
        return None;
    }
    if at < 32 {
        return Some(at);
    }
    find(text, byte)
}

/// The parts before and after the first such byte, if there is one, of a text that `ahead` begins with; the third
/// value begins with the part after it.
#[inline(always)]
#[tactic(auto, using(crate::proofs::Splits::split_steps))]
pub fn split_once<'a>(
    text: &'a [u8],
    ahead: &'a [u8],
    byte: u8,
) -> Option<(&'a [u8], &'a [u8], &'a [u8])>
    requires { text.now ≡ take (length text.now) ahead.now }
    ensures found { is_some result ≡ list_any (λ b. b == byte) text.now }
    ensures before { IfSome result (λ parts. parts.0.now ≡ before_first (λ b. b == byte) text.now) }
    ensures after { IfSome result (λ parts. parts.1.now ≡ after_first (λ b. b == byte) text.now) }
    ensures beginning { IfSome result
        (λ parts. parts.1.now ≡ take (length parts.1.now) parts.2.now) }
{
    let end = find_ahead(text, ahead, byte)?;
    Some((&text[..end], &text[end + 1..], &ahead[end + 1..]))
}

/// The parts before and after the first such byte, of a text that `ahead` begins with. If there is no such byte, they
/// are the whole text and the empty text.
#[inline(always)]
#[tactic(auto, using(crate::proofs::Splits::split_steps))]
pub fn split_at_first<'a>(text: &'a [u8], ahead: &'a [u8], byte: u8) -> (&'a [u8], &'a [u8])
    requires { text.now ≡ take (length text.now) ahead.now }
    ensures before { result.0.now ≡ before_first (λ b. b == byte) text.now }
    ensures after { result.1.now ≡ after_first (λ b. b == byte) text.now }
    ensures beginning { result.0.now ≡ take (length result.0.now) text.now }
{
    match find_ahead(text, ahead, byte) {
        Some(end) => (&text[..end], &text[end + 1..]),
        None => (text, &[]),
    }
}
