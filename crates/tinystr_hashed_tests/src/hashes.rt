//! Two texts under many seeds, pilots and moves. The results come from another program, which is written from the
//! definition.

ghost use Rattle.std.specs.Prelude.{◌<◌};

use crate::{check, file};
use std::alloc::{AllocError, Global};
use std::test::Fail;
use tinystr_hashed::{HashedError, HashedTable};

#[test]
fn short_texts_are_placed_by_each_seed(rt: HostRuntime) -> Result<(), Fail> {
    let results = "1001100.00.0.00100100100100000001.00.101.11100.0100.00100.01.000";
    let are_right = [
        has_results::<1>(rt.alloc(), &["", "a"], results)?,
        has_results::<3>(rt.alloc(), &["", "a"], results)?,
        has_results::<16>(rt.alloc(), &["", "a"], results)?,
        has_results::<3>(
            rt.alloc(),
            &["EUR", "USD"],
            "1000010001000011000.01001000001001.10.00011000001000.0100.0000.1",
        )?,
        has_results::<7>(
            rt.alloc(),
            &["abcdefg", "abcdef~"],
            "100.001.01.0010.00101101100100000100..010000.1.1..01010.0100.011",
        )?,
        has_results::<8>(
            rt.alloc(),
            &["abcdefgh", "abcdefg~"],
            "1001.0100..0.0010.101100110001.001..10000010000..0..001.010.10.1",
        )?,
    ];
    check(&rt, are_right == [true; 6], &are_right);
    Ok(())
}

#[test]
fn texts_of_up_to_sixteen_bytes_are_placed_by_each_seed(rt: HostRuntime) -> Result<(), Fail> {
    let are_right = [
        has_results::<9>(
            rt.alloc(),
            &["abcdefghi", "abcdefgh~"],
            "1..0000111010011.01.0.00.100.000010..111101.100.0.0101100.101.10",
        )?,
        has_results::<15>(
            rt.alloc(),
            &["abcdefghijklmno", "abcdefghijklmn~"],
            "100000100100.01.000000000001101.00001...111.0.1100.0001.01011000",
        )?,
        has_results::<16>(
            rt.alloc(),
            &["abcdefghijklmnop", "abcdefghijklmno~"],
            "10010010110010.000111.01101.01100.0.00.101.01.00100.01.0110001..",
        )?,
    ];
    check(&rt, are_right == [true; 3], &are_right);
    Ok(())
}

#[test]
fn longer_texts_are_placed_by_each_seed(rt: HostRuntime) -> Result<(), Fail> {
    let are_right = [
        has_results::<17>(
            rt.alloc(),
            &["abcdefghijklmnopq", "abcdefghijklmnop~"],
            "100000.101001001.0.00000000100110100101.00.10.001.00.01000000.01",
        )?,
        has_results::<32>(
            rt.alloc(),
            &[
                "abcdefghijklmnopqrstuvwxyzABCDEF",
                "abcdefghijklmnopqrstuvwxyzABCDE~",
            ],
            "1010000.01100..000100..1..11.0..0..1..00.00011.0011.00100110..01",
        )?,
        has_results::<33>(
            rt.alloc(),
            &[
                "abcdefghijklmnopqrstuvwxyzABCDEFG",
                "abcdefghijklmnopqrstuvwxyzABCDEF~",
            ],
            "101001.0011..00.00.0111.1..00010110010010010.0.01.01.0001.001.0.",
        )?,
        has_results::<49>(
            rt.alloc(),
            &[
                "abcdefghijklmnopqrstuvwxyzABCDEFGHIJKLMNOPQRSTUVW",
                "abcdefghijklmnopqrstuvwxyzABCDEFGHIJKLMNOPQRSTUV~",
            ],
            "101100100100110101110.101001.0..0.00101000.00.01.000.01001101.00",
        )?,
    ];
    check(&rt, are_right == [true; 4], &are_right);
    Ok(())
}

/// Whether the front of each number gives its result: `.` where the texts are a table in this order, and else the index of
/// the first text that isn't at its place.
fn has_results<const N: usize>(
    alloc: Global,
    texts: &[&str],
    results: &str,
) -> Result<bool, AllocError>
    requires { 0 < N }
{
    for (number, result) in (0..64).zip(results.chars()) {
        if result_of::<N>(alloc, number, texts)? != result {
            return Ok(false);
        }
    }
    Ok(results.len() == 64)
}

fn result_of<const N: usize>(alloc: Global, number: u32, texts: &[&str]) -> Result<char, AllocError>
    requires { 0 < N }
{
    let front = front(alloc, number)?;
    let file = file::<N>(alloc, &front, texts)?;
    Ok(match HashedTable::<N>::from_bytes(&file) {
        Ok(_) => '.',
        Err(HashedError::Place { index: 0 }) => '0',
        Err(HashedError::Place { index: 1 }) => '1',
        Err(_) => '?',
    })
}

/// A header, three pilots and a move, all of which depend on a number.
fn front(alloc: Global, number: u32) -> Result<Vec<u8>, AllocError> {
    let mut front = b"\x01\0\0\0\x03\0\0\0\x01\0\0\0".to_vec(alloc)?;
    let seed = number.wrapping_mul(0x9e37_79b1).to_le_bytes();
    front.extend_from_slice(&seed)?;
    front.extend_from_slice(&seed[1..])?;
    front.extend_from_slice(&(number % 3).to_le_bytes())?;
    Ok(front)
}
