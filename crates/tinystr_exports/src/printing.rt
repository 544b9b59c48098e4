//! Batches of values as they are printed.

ghost use Rattle.std.specs.Prelude.{◌≤◌};

use crate::batch::read_texts;
use crate::numbers::{DEBUG, DISPLAY, PADDED, UNVALIDATED_DEBUG};
use std::io::{self, Cursor, Write};
use tinystr::{TinyAsciiStr, UnvalidatedTinyAsciiStr};

/// Prints each value in form number `form`; false where there is no such form.
pub fn print_batch<const N: usize>(
    form: usize,
    rounds: usize,
    values: &[u8],
    printed: &mut [u8],
    ends: &mut [u64],
) -> bool
    requires { N ≤ 128 }
{
    match form {
        DISPLAY => print_each::<N, DISPLAY>(rounds, values, printed, ends),
        PADDED => print_each::<N, PADDED>(rounds, values, printed, ends),
        DEBUG => print_each::<N, DEBUG>(rounds, values, printed, ends),
        UNVALIDATED_DEBUG => print_each::<N, UNVALIDATED_DEBUG>(rounds, values, printed, ends),
        _ => return false,
    }
    true
}

// Stops at the end of the values, or when `printed` is full.
fn print_each<const N: usize, const FORM: usize>(
    rounds: usize,
    values: &[u8],
    printed: &mut [u8],
    ends: &mut [u64],
)
    requires { N ≤ 128 }
{
    for _ in 0..rounds {
        let mut rest = values;
        let mut out = Cursor::new(&mut *printed);
        for end in ends.iter_mut() {
            let Some((raw, more)) = rest.split_first_chunk::<N>() else {
                break;
            };
            if print::<N, FORM>(&mut out, *raw).is_err() {
                break;
            }
            *end = out.position();
            rest = more;
        }
    }
}

fn print<const N: usize, const FORM: usize>(
    out: &mut Cursor<&mut [u8]>,
    raw: [u8; N],
) -> io::Result<()> {
    let bytes = UnvalidatedTinyAsciiStr::from_utf8_unchecked(raw);
    let text = TinyAsciiStr::try_from_raw(raw).unwrap_or_default();
    match FORM {
        DISPLAY => write!(out, "{text}"),
        PADDED => write!(out, "{text:-^9.5}"),
        DEBUG => write!(out, "{text:?}"),
        _ => write!(out, "{bytes:?}"),
    }
}

/// Prints the texts one after another, until `printed` is full.
pub fn display_batch<const N: usize>(rounds: usize, texts: &[u8], printed: &mut [u8]) -> bool
    requires { N ≤ 128 }
{
    let texts = read_texts::<N>(texts);
    for _ in 0..rounds {
        let mut out = Cursor::new(&mut *printed);
        for text in &texts {
            if write!(out, "{text}").is_err() {
                break;
            }
        }
    }
    true
}
