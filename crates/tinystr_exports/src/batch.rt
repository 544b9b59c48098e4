//! Batches of texts and of lists, as they cross.

ghost use Rattle.std.specs.Prelude.{◌≤◌, ◌<◌, ◌+◌, length};

use tinystr::TinyAsciiStr;

/// The most values of one batch.
pub const COUNT: usize = 1024;

/// The texts of a batch, with the empty text where the bytes end, or aren't a text.
pub fn read_texts<const N: usize>(bytes: &[u8]) -> [TinyAsciiStr<N>; COUNT]
    requires { N ≤ 128 }
{
    let mut texts = [TinyAsciiStr::<N>::default(); COUNT];
    let mut rest = bytes;
    for i in 0..COUNT {
        let Some((raw, more)) = rest.split_first_chunk::<N>() else {
            break;
        };
        if let Ok(text) = TinyAsciiStr::try_from_raw(*raw) {
            texts[i] = text;
        }
        rest = more;
    }
    texts
}

/// The list that begins at start number `i`, and ends at the next; none where the units end before, or the next is lower.
#[inline(always)]
pub fn list_at<'a, U>(units: &'a [U], starts: &[u32], i: usize) -> Option<&'a [U]>
    requires { i + 1 < length starts.now }
{
    units.get(starts[i] as usize..starts[i + 1] as usize)
}

/// Writes the texts that fit in the bytes.
pub fn write_texts<const N: usize>(texts: &[TinyAsciiStr<N>; COUNT], bytes: &mut [u8])
    requires { N ≤ 128 }
{
    let mut start = 0;
    for text in texts {
        if bytes.len() - start < N {
            break;
        }
        bytes[start..start + N].copy_from_slice(text.all_bytes());
        start += N;
    }
}

/// Writes the numbers that fit in the bytes.
pub fn write_numbers(numbers: &[u8; COUNT], bytes: &mut [u8]) {
    let count = bytes.len().min(COUNT);
    bytes[..count].copy_from_slice(&numbers[..count]);
}
