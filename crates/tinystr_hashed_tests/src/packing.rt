//! Texts packed as hashed tables. The bytes come from another program, which is written from the definition of the format and of
//! the search.

ghost use Rattle.std.specs.Prelude.{◌<◌, ◌^◌};

use crate::tables::is_table;
use crate::{check, file};
use std::alloc::{AllocError, Global};
use std::test::Fail;
use tinystr::TinyAsciiStr;
use tinystr_hashed::{PackHashedError, pack_hashed};

// Fronts, each with its texts of at most three bytes. No text and one text have no pilots.
const SHORT: &[(&[u8], &[&str])] = &[
    (b"\x01\0\0\0\0\0\0\0\0\0\0\0\0\0\0\0", &[]),
    (b"\x01\0\0\0\0\0\0\0\0\0\0\0\0\0\0\0", &["EUR"]),
    (b"\x01\0\0\0\0\0\0\0\0\0\0\0\0\0\0\0", &[""]),
    (
        b"\x01\0\0\0\x02\0\0\0\0\0\0\0\x01\0\0\0\x01\x01",
        &["USD", "EUR"],
    ),
    (
        b"\x01\0\0\0\x03\0\0\0\0\0\0\0\x01\0\0\0\x01\x01\x02",
        &["USD", "JPY", "EUR", "GB"],
    ),
    (
        b"\x01\0\0\0\x04\0\0\0\0\0\0\0\x01\0\0\0\x02\x01\x01\x01",
        &["USD", "", "EUR", "JPY", "A"],
    ),
    (
        b"\x01\0\0\0\x04\0\0\0\0\0\0\0\x01\0\0\0\0\x01\x01\0",
        &["CAD", "TND", "CHF", "AUD", "BHD"],
    ),
    (
        b"\x01\0\0\0\x05\0\0\0\0\0\0\0\x01\0\0\0\0\x05\0\x0a\x0c",
        &[
            "CLF", "CAD", "CHF", "BHD", "KWD", "EUR", "AUD", "TND", "GBP",
        ],
    ),
];

// Tables of longer texts, and of shorter ones.
const OF_1: (&[u8], &[&str]) = (
    b"\x01\0\0\0\x03\0\0\0\0\0\0\0\x01\0\0\0\x04\x02\x03",
    &["c", "a", "", "b"],
);

const OF_8: (&[u8], &[&str]) = (
    b"\x01\0\0\0\x04\0\0\0\0\0\0\0\x01\0\0\0\x01\x02\x01\x02",
    &["abcdefgi", "", "bbcdefgh", "a", "abcdefgh"],
);

const OF_9: (&[u8], &[&str]) = (
    b"\x01\0\0\0\x04\0\0\0\0\0\0\0\x01\0\0\0\x01\0\x04\x01",
    &["", "bbcdefghi", "abcdefgh", "abcdefghi", "abcdefghj"],
);

const OF_16: (&[u8], &[&str]) = (
    b"\x01\0\0\0\x04\0\0\0\0\0\0\0\x01\0\0\0\x06\0\x01\x01",
    &[
        "abcdefghijklmnoq",
        "bbcdefghijklmnop",
        "abcdefgh",
        "abcdefghi",
        "abcdefghijklmnop",
    ],
);

const OF_17: (&[u8], &[&str]) = (
    b"\x01\0\0\0\x04\0\0\0\0\0\0\0\x01\0\0\0\x01\x02\0\x01",
    &[
        "bbcdefghijklmnopq",
        "abcdefghi",
        "abcdefghijklmnop",
        "abcdefghijklmnopq",
        "abcdefghijklmnopr",
    ],
);

const OF_32: (&[u8], &[&str]) = (
    b"\x01\0\0\0\x04\0\0\0\0\0\0\0\x01\0\0\0\x03\0\x19\x04",
    &[
        "abcdefghijklmnop",
        "abcdefghijklmnopr",
        "abcdefghijklmnopqrstuvwxyzABCDEG",
        "abcdefghijklmnopqrstuvwxyzABCDEF",
        "abcdefghijklmnopqrstuvwx",
    ],
);

const OF_33: (&[u8], &[&str]) = (
    b"\x01\0\0\0\x04\0\0\0\0\0\0\0\x01\0\0\0\x01\x03\x01\x0c",
    &[
        "abcdefghijklmnopqrstuvwxyzABCDEFG",
        "",
        "abcdefghijklmnopqrstuvwxyzABCDEFH",
        "abcdefghijklmnop",
        "abcdefghijklmnopqrstuvwxyzABCDEF",
    ],
);

#[test]
fn texts_are_packed_as_their_table(rt: HostRuntime) -> Result<(), Fail> {
    for literal in SHORT {
        check(&rt, is_packed::<3>(rt.alloc(), literal), &literal);
    }
    let are_right = [
        is_packed::<1>(rt.alloc(), &OF_1),
        is_packed::<8>(rt.alloc(), &OF_8),
        is_packed::<9>(rt.alloc(), &OF_9),
        is_packed::<16>(rt.alloc(), &OF_16),
        is_packed::<17>(rt.alloc(), &OF_17),
        is_packed::<32>(rt.alloc(), &OF_32),
        is_packed::<33>(rt.alloc(), &OF_33),
    ];
    check(&rt, are_right == [true; 7], &are_right);
    Ok(())
}

/// Whether the texts are packed as this table, in its order and in the opposite one, and each is found in it and no other.
fn is_packed<const N: usize>(alloc: Global, literal: &(&[u8], &[&str])) -> bool
    requires positive { 0 < N }
    requires sized { N < 2 ^ 62 }
{
    let (front, words) = *literal;
    let (Ok(file), Ok(mut texts)) = (file::<N>(alloc, front, words), texts::<N>(alloc, words))
    else {
        return false;
    };
    let is_packed = is_packed_as(alloc, &texts, &file);
    texts.reverse();
    is_packed
        && is_packed_as(alloc, &texts, &file)
        && matches!(is_table::<N>(alloc, literal), Ok(true))
}

fn is_packed_as<const N: usize>(alloc: Global, texts: &[TinyAsciiStr<N>], file: &[u8]) -> bool
    requires positive { 0 < N }
    requires sized { N < 2 ^ 62 }
{
    match pack_hashed(alloc, texts) {
        Ok(made) => made.as_slice() == file,
        Err(_) => false,
    }
}

/// Words as texts, each cut to `N` bytes.
fn texts<const N: usize>(alloc: Global, words: &[&str]) -> Result<Vec<TinyAsciiStr<N>>, AllocError>
    requires { N < 2 ^ 62 }
{
    let mut texts = Vec::new(alloc);
    for word in words {
        texts.push(TinyAsciiStr::from_utf8_lossy(word.as_bytes(), b'?'))?;
    }
    Ok(texts)
}

// Texts, one of which occurs twice or more.
const REPEATED: &[(&[&str], &str)] = &[
    (&["EUR", "EUR"], "EUR"),
    (&["", ""], ""),
    (&["EUR", "EUR", "EUR"], "EUR"),
    (&["USD", "GB", "EUR", "JPY", "USD"], "USD"),
    (&["EUR", "GB", "JPY", "GB", "USD"], "GB"),
    (&["ABC", "", "AB", "A", "B", "", "C"], ""),
    (&["a", "A", "AA", "AAA", "AA", "aa"], "AA"),
];

#[test]
fn a_text_that_occurs_twice_is_named(rt: HostRuntime) -> Result<(), Fail> {
    for (words, text) in REPEATED {
        check(&rt, is_rejected::<3>(rt.alloc(), words, text), &words);
    }
    let (long, other) = (
        "abcdefghijklmnopqrstuvwxyzABCDEFG",
        "abcdefghijklmnopqrstuvwxyzABCDEFH",
    );
    assert!(rt; is_rejected::<33>(rt.alloc(), &[long, other, long], long));
    Ok(())
}

/// Whether the words are rejected, since this one occurs twice.
fn is_rejected<const N: usize>(alloc: Global, words: &[&str], word: &str) -> bool
    requires positive { 0 < N }
    requires sized { N < 2 ^ 62 }
{
    let text = TinyAsciiStr::from_utf8_lossy(word.as_bytes(), b'?');
    match texts::<N>(alloc, words) {
        Ok(texts) => pack_hashed(alloc, &texts).err() == Some(PackHashedError::Duplicate { text }),
        Err(_) => false,
    }
}
