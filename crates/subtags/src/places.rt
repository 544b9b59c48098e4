//! The places of subtags in a canonical text.

ghost use Rattle.std.specs.Prelude.{◌≡◌, ◌≤◌, nat_lt, length};
ghost use Rattle.subtags.specs.Private.{language_end, region_start};

use tinystr::TinyAsciiStr;

/// Where the language ends: at the first dash among eight bytes, or after these, which may be past the text. The
/// minimum is there for speed: by it the compiler leaves out the tests that the places below are inside.
#[inline(always)]
pub(crate) fn language_end(text: &TinyAsciiStr<17>) -> usize
    ensures place { result ≡ language_end text.now }
    ensures fits { result ≤ 8 }
{
    text.resize::<8>().find(b'-').unwrap_or(8).min(8)
}

/// Whether the text has a byte at a place.
#[inline(always)]
pub(crate) fn has_byte_at(text: &TinyAsciiStr<17>, place: usize) -> bool
    ensures { result ≡ nat_lt place (length text.now) }
{
    text.get(place).is_some()
}

/// Where a region is if there is one. If four bytes or more follow the language's dash, they begin with a script.
#[inline(always)]
pub(crate) fn region_start(text: &TinyAsciiStr<17>) -> usize
    ensures place { result ≡ region_start text.now }
    ensures fits { result ≤ 14 }
{
    let start = language_end(text) + 1;
    if has_byte_at(text, start + 3) {
        start + 5
    } else {
        start
    }
}
