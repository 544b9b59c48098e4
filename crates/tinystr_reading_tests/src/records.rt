//! Packed records, and the bytes that no value has.

use crate::check;
use tinystr::ule::UleError;
use tinystr::{ParseError, TinyAsciiStr, UnvalidatedTinyAsciiStr};

#[test]
fn packed_records_are_accepted(rt: HostRuntime) {
    let answers = [
        TinyAsciiStr::<3>::validate_bytes(b"GB\0USD"),
        TinyAsciiStr::<3>::validate_bytes(b""),
        TinyAsciiStr::<1>::validate_bytes(&[0]),
        TinyAsciiStr::<1>::validate_bytes(&[0, 0, 0]),
        UnvalidatedTinyAsciiStr::<3>::validate_bytes(b"GB\0\0A\0"),
    ];
    check(&rt, answers == [Ok(()); 5], &answers);
}

#[test]
fn a_length_that_is_no_multiple_is_rejected_first(rt: HostRuntime) {
    let answers = [
        TinyAsciiStr::<3>::validate_bytes(b"GBPUSDx"),
        UnvalidatedTinyAsciiStr::<3>::validate_bytes(b"GBPUSDx"),
    ];
    check(
        &rt,
        answers == [Err(UleError::Length { len: 7 }); 2],
        &answers,
    );
    let answers = [
        TinyAsciiStr::<2>::validate_bytes(b"\x80ab"),
        TinyAsciiStr::<2>::validate_bytes(b"ab\x80"),
        TinyAsciiStr::<32>::validate_bytes(b"abc"),
    ];
    check(
        &rt,
        answers == [Err(UleError::Length { len: 3 }); 3],
        &answers,
    );
}

fn bad(index: usize, fault: ParseError) -> Result<(), UleError> {
    Err(UleError::Parse { index, fault })
}

#[test]
fn the_first_bad_record_is_named(rt: HostRuntime) {
    let answers = [
        TinyAsciiStr::<3>::validate_bytes(b"GB\0\0A\0"),
        TinyAsciiStr::<2>::validate_bytes(b"\0a"),
        TinyAsciiStr::<2>::validate_bytes(b"ab\0\x80\x80a"),
        TinyAsciiStr::<1>::validate_bytes(b"a\x80"),
        TinyAsciiStr::<1>::validate_bytes(b"\x80"),
    ];
    let expected = [
        bad(1, ParseError::ContainsNull),
        bad(0, ParseError::ContainsNull),
        bad(1, ParseError::NonAscii),
        bad(1, ParseError::NonAscii),
        bad(0, ParseError::NonAscii),
    ];
    check(&rt, answers == expected, &answers);
}

// Whether the pattern at the capacity of the value given is bytes 255, and is rejected.
fn is_no_value<const N: usize>(_like: TinyAsciiStr<N>) -> bool {
    let niche = TinyAsciiStr::<N>::niche_bit_pattern();
    niche == [255; N] && TinyAsciiStr::try_from_raw(niche) == Err(ParseError::NonAscii)
}

#[test]
fn the_niche_is_no_value(rt: HostRuntime) {
    let are_right = [
        TinyAsciiStr::<0>::niche_bit_pattern() == [],
        is_no_value(TinyAsciiStr::<1>::default()),
        is_no_value(TinyAsciiStr::<4>::default()),
        is_no_value(TinyAsciiStr::<17>::default()),
    ];
    check(&rt, are_right == [true; 4], &are_right);
}
