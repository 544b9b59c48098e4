//! Many texts packed as a hashed table. The digests are of the bytes of another program, which is written from the definition of
//! the format and of the search.

ghost use Rattle.std.specs.Prelude.{◌<◌, ◌^◌};

use crate::check;
use std::alloc::{AllocError, Global};
use std::test::Fail;
use tinystr::{TinyAsciiStr, tinystr};
use tinystr_hashed::{HashedTable, pack_hashed};

// A front, bytes, whether there is the empty text, and the digest of a table of the front with each other byte from 1 to 127 after it.
const A_BYTE_APART: &[(&str, &[u8], bool, u64)] = &[
    ("k-", b"my", true, 0xbc81_fc85_de70_fdba),
    ("", b"", false, 0x603d_2922_c3df_fff6),
    ("", b"\x1dy", true, 0x2829_b2e9_2f46_a25d),
];

#[test]
fn texts_that_differ_in_one_byte_are_packed(rt: HostRuntime) -> Result<(), Fail> {
    for (front, without, has_empty, digest) in A_BYTE_APART {
        let mut texts = texts_after(rt.alloc(), front, without)?;
        if *has_empty {
            texts.push(tinystr!(8, "")?)?;
        }
        check(&rt, is_packed_alike(rt.alloc(), &texts, *digest), &front);
    }
    Ok(())
}

// What is before a letter, the first of 26 letters, what is after it, and the digest of a table of these 26 texts.
const A_LETTER_APART: &[(&str, u8, &str, u64)] = &[
    ("B", b'A', ":2026-01-13#7", 0xd4dd_5716_9beb_a6c0),
    ("gate-", b'A', "-005JFK", 0x05ab_5a71_0642_beb1),
    ("h", b'a', "52911d0iv25y74", 0x2b71_5ddc_620e_b315),
    ("2026-", b'A', "-05|J", 0x21af_cadc_b3df_0e04),
];

#[test]
fn texts_that_differ_in_one_letter_are_packed(rt: HostRuntime) -> Result<(), Fail> {
    for (front, first, back, digest) in A_LETTER_APART {
        let front = TinyAsciiStr::<8>::from_utf8_lossy(front.as_bytes(), b'?');
        let back = TinyAsciiStr::<16>::from_utf8_lossy(back.as_bytes(), b'?');
        let mut texts = Vec::new(rt.alloc());
        for letter in *first..*first + 26 {
            let letter = TinyAsciiStr::<1>::from_utf8_lossy(&[letter], b'?');
            let text: TinyAsciiStr<16> = front.concat::<1, 9>(letter).concat(back);
            texts.push(text)?;
        }
        check(
            &rt,
            is_packed_alike::<16>(rt.alloc(), &texts, *digest),
            &back,
        );
    }
    Ok(())
}

/// A front with each byte from 1 to 127 after it but for these.
fn texts_after(
    alloc: Global,
    front: &str,
    without: &[u8],
) -> Result<Vec<TinyAsciiStr<8>>, AllocError> {
    let front = TinyAsciiStr::<7>::from_utf8_lossy(front.as_bytes(), b'?');
    let mut texts = Vec::new(alloc);
    for byte in 1..128 {
        if !without.contains(&byte) {
            texts.push(front.concat(TinyAsciiStr::<1>::from_utf8_lossy(&[byte], b'?')))?;
        }
    }
    Ok(texts)
}

/// Whether texts are packed as the table with this digest, which has each of them.
fn is_packed_alike<const N: usize>(alloc: Global, texts: &[TinyAsciiStr<N>], digest: u64) -> bool
    requires positive { 0 < N }
    requires sized { N < 2 ^ 62 }
{
    match pack_hashed(alloc, texts) {
        Ok(made) => digest_of(&made) == digest && has_all(&made, texts),
        Err(_) => false,
    }
}

fn has_all<const N: usize>(bytes: &[u8], texts: &[TinyAsciiStr<N>]) -> bool
    requires { 0 < N }
{
    match HashedTable::<N>::from_bytes(bytes) {
        Ok(table) => texts.iter().all(|text| table.contains(text)),
        Err(_) => false,
    }
}

/// FNV-1a.
fn digest_of(bytes: &[u8]) -> u64 {
    let mut digest: u64 = 0xcbf2_9ce4_8422_2325;
    for byte in bytes {
        digest = (digest ^ u64::from(*byte)).wrapping_mul(0x100_0000_01b3);
    }
    digest
}

// Numbers of texts, `key0` and so on, and the digests of their tables. For the first texts one search costs too much. So many as
// in the last row are parted by their top byte first.
const NUMBERED: &[(&str, u32, u64)] = &[
    ("ig", 200, 0x2692_f392_b23d_b0de),
    ("key", 170, 0xa65b_dc7b_853a_1e48),
    ("key", 300, 0x4ed6_ce31_c520_1a90),
    ("key", 1000, 0xc267_57d5_5984_0534),
    ("key", 70_000, 0x7cdf_4e50_d377_37a9),
];

#[test]
fn the_order_of_the_texts_does_not_matter(rt: HostRuntime) -> Result<(), Fail> {
    for (front, count, digest) in NUMBERED {
        let mut texts = numbered(rt.alloc(), front, *count)?;
        check(&rt, is_packed_alike(rt.alloc(), &texts, *digest), &count);
        texts.reverse();
        check(&rt, is_packed_alike(rt.alloc(), &texts, *digest), &count);
    }
    Ok(())
}

/// `key0`, `key1` and so on.
fn numbered(alloc: Global, front: &str, count: u32) -> Result<Vec<TinyAsciiStr<8>>, AllocError> {
    let key = TinyAsciiStr::<3>::from_utf8_lossy(front.as_bytes(), b'?');
    let mut texts = Vec::new(alloc);
    for number in 0..count {
        let (Ok(number) | Err(number)) = TinyAsciiStr::<5>::new_unsigned_decimal(number);
        texts.push(key.concat(number))?;
    }
    Ok(texts)
}
