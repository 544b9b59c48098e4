//! Codes of a capacity.

ghost use Rattle.std.specs.Prelude.{◌<◌, ◌^◌};

use crate::random::{MIXED, Random, UPPERCASE, letters_of};
use std::alloc::{AllocError, Global};
use tinystr::TinyAsciiStr;

/// A code of `shared` bytes that others begin with too, and some of its own.
#[inline(always)]
fn make_code<const N: usize>(random: &mut Random, shared: usize) -> TinyAsciiStr<N>
    requires { N < 2 ^ 63 }
{
    let mut raw = [b'~'; 264];
    let common = letters_of(random.bits() % 8, UPPERCASE);
    let own = letters_of(random.bits(), MIXED);
    let more = letters_of(random.bits(), MIXED);
    let start = shared.min(240);
    raw[start..start + 8].copy_from_slice(&common);
    raw[start + 1..start + 9].copy_from_slice(&own);
    raw[start + 9..start + 17].copy_from_slice(&more);
    let len = N.min(264).min(start + 17 - random.below(3));
    TinyAsciiStr::try_from_utf8(&raw[..len]).unwrap_or_default()
}

/// A code of at most sixteen bytes of letters, digits and two signs, most of them as long as the capacity.
#[inline(always)]
pub fn short_code<const N: usize>(random: &mut Random) -> TinyAsciiStr<N>
    requires { N < 2 ^ 63 }
{
    let bits = random.bits();
    let mut raw = [0; 16];
    raw[..8].copy_from_slice(&letters_of(bits, MIXED));
    if N > 8 {
        raw[8..].copy_from_slice(&letters_of(random.bits(), MIXED));
    }
    let missing = if N > 4 && bits >> 62 == 0 {
        ((bits >> 56) % 4) as usize
    } else {
        0
    };
    let len = N.min(16 - missing);
    TinyAsciiStr::try_from_utf8(&raw[..len]).unwrap_or_default()
}

/// `count` codes.
#[inline(never)]
pub fn short_codes<const N: usize>(
    alloc: Global,
    random: &mut Random,
    count: usize,
) -> Result<Vec<TinyAsciiStr<N>>, AllocError>
    requires { N < 2 ^ 63 }
{
    let mut codes = Vec::new(alloc);
    for _ in 0..count {
        codes.push(short_code(random))?;
    }
    Ok(codes)
}

/// `count` codes of one length, alike in all but their last bytes.
#[inline(never)]
pub fn long_codes<const N: usize>(
    alloc: Global,
    random: &mut Random,
    count: usize,
) -> Result<Vec<TinyAsciiStr<N>>, AllocError>
    requires { N < 2 ^ 63 }
{
    let mut codes = Vec::new(alloc);
    for _ in 0..count {
        codes.push(make_code(random, N.saturating_sub(17)))?;
    }
    Ok(codes)
}
