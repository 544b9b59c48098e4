//! Bytes copied into arrays, also after a text. `put` and `append` copy the same bytes, and so do `resize` and
//! `resize_at_once`: the compiler makes different code of them.

ghost use Rattle.std.specs.Prelude.{◌≡◌, ◌++◌, length, take, drop};
ghost use Rattle.tinystr_words.specs.Text.{IsPadded, IsPaddedText, pad, text_of};

/// Copies the bytes that both have, eight at a time: where their number is known at compile time they go through
/// registers, and one copy of all would keep the value in memory.
#[tactic(auto, using(crate::proofs::Pieces::Copying::copied_more, crate::proofs::Pieces::Copying::copied_rest))]
#[inline(always)]
pub(crate) fn put(bytes: &mut [u8], src: &[u8])
    ensures { bytes.new ≡ take (length bytes.old) src.now ++ drop (length src.now) bytes.old }
{
    let len = bytes.len().min(src.len());
    let mut at = 0;
    while len - at >= 8 {
        bytes[at..at + 8].copy_from_slice(&src[at..at + 8]);
        at += 8;
    }
    bytes[at..len].copy_from_slice(&src[at..len]);
}

/// The first `M` bytes, padded with NULs if there are fewer, eight at a time: for bytes in memory. `resize_at_once`
/// copies those of a word.
#[inline(always)]
pub fn resize<const M: usize>(bytes: &[u8]) -> [u8; M]
    ensures bytes { result ≡ pad (take M bytes.now) M }
    ensures padded { IsPadded bytes.now → IsPaddedText result M }
    ensures text { IsPadded bytes.now → text_of result ≡ take M (text_of bytes.now) }
{
    let mut resized = [0; M];
    put(&mut resized[..], bytes);
    resized
}

/// The same of a padded text, by one copy: for bytes that a word has just returned, in pieces, along which the compiler
/// splits the copy. `resize` copies bytes in memory.
#[inline(always)]
pub fn resize_at_once<const M: usize>(padded: &[u8]) -> [u8; M]
    requires { IsPadded padded.now }
    ensures padded { IsPaddedText result M }
    ensures text { text_of result ≡ take M (text_of padded.now) }
{
    let mut bytes = [0; M];
    append(&mut bytes[..], 0, padded);
    bytes
}

/// Appends as much of a padded text as fits. Its place is known only at run time, so one copy of all bytes is faster
/// than `put`.
#[tactic(auto, using(crate::proofs::Pieces::Copying::appended_whole, crate::proofs::Pieces::Copying::appended_front))]
#[inline(always)]
pub(crate) fn append(bytes: &mut [u8], len: usize, padded: &[u8])
    requires padded { IsPadded bytes.old }
    requires at_end { len ≡ length (text_of bytes.old) }
    requires padded_text { IsPadded padded.now }
    ensures len { length bytes.new ≡ length bytes.old }
    ensures padded { IsPadded bytes.new }
    ensures text { text_of bytes.new ≡ take (length bytes.old) (text_of bytes.old ++ text_of padded.now) }
{
    let free = bytes.len() - len;
    if padded.len() <= free {
        bytes[len..len + padded.len()].copy_from_slice(padded);
    } else if free > 0 {
        bytes[len..].copy_from_slice(&padded[..free]);
    }
}
