//! Texts packed in memory of the caller: the bytes are those that `pack_hashed` makes, and have pilots.

ghost use Rattle.std.specs.Prelude.{◌<◌, ◌^◌};

use crate::check;
use std::alloc::{AllocError, Global};
use std::test::Fail;
use tinystr::TinyAsciiStr;
use tinystr_hashed::{most_bytes, pack_hashed, pack_hashed_into, scratch_bytes};
use tinystr_packed::{Table, pack};

#[test]
fn both_ways_of_packing_make_the_same_bytes(rt: HostRuntime) -> Result<(), Fail> {
    for count in [0, 1, 2] {
        check(&rt, are_alike::<1>(rt.alloc(), count), &count);
    }
    for count in [0, 1, 2, 20, 1000] {
        check(&rt, are_alike::<3>(rt.alloc(), count), &count);
    }
    for count in [0, 1, 2, 20, 1000, 70_000] {
        check(&rt, are_alike::<8>(rt.alloc(), count), &count);
        check(&rt, are_alike::<17>(rt.alloc(), count), &count);
    }
    Ok(())
}

// Whether the decimal texts of the numbers below `count` are packed alike, with pilots if there are two or more.
fn are_alike<const N: usize>(alloc: Global, count: u32) -> bool
    requires positive { 0 < N }
    requires sized { N < 2 ^ 62 }
{
    let Ok(texts) = decimals::<N>(alloc, count) else {
        return false;
    };
    match (pack_hashed(alloc, &texts), packed_into(alloc, &texts)) {
        (Ok(made), Ok(put)) => made == put && (count < 2 || made[4..8] != [0; 4]),
        _ => false,
    }
}

fn decimals<const N: usize>(alloc: Global, count: u32) -> Result<Vec<TinyAsciiStr<N>>, AllocError>
    requires { N < 2 ^ 62 }
{
    let mut texts = Vec::new(alloc);
    for number in 0..count {
        match TinyAsciiStr::new_unsigned_decimal(number) {
            Ok(text) | Err(text) => texts.push(text)?,
        }
    }
    Ok(texts)
}

// The table in memory of the caller, with nothing after it; none if the texts are refused.
fn packed_into<const N: usize>(
    alloc: Global,
    texts: &[TinyAsciiStr<N>],
) -> Result<Vec<u8>, AllocError>
    requires positive { 0 < N }
    requires sized { N < 2 ^ 62 }
{
    let records = pack(alloc, texts)?;
    let mut out = vec![in alloc; 7; most_bytes(texts.len(), N)]?;
    let mut scratch = vec![in alloc; 7; scratch_bytes(texts.len(), N)]?;
    let len = match Table::<N>::new(&records) {
        Ok(table) => pack_hashed_into(&table, &mut out[..], &mut scratch[..]).unwrap_or(0),
        Err(_) => 0,
    };
    out.truncate(len);
    Ok(out)
}
