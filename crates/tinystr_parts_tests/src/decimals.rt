//! The decimal text of a number, whole or cut.

ghost use Rattle.std.specs.Prelude.{◌<◌, ◌^◌};

use crate::check;
use tinystr::TinyAsciiStr;

// Whether the decimal text at N is this one, whole or cut.
fn is_decimal<const N: usize>(number: u32, expected: Result<&str, &str>) -> bool
    requires { N < 2 ^ 63 }
{
    match (TinyAsciiStr::<N>::new_unsigned_decimal(number), expected) {
        (Ok(text), Ok(expected)) | (Err(text), Err(expected)) => text.as_str() == expected,
        _ => false,
    }
}

#[test]
fn a_decimal_text_is_written_whole(rt: HostRuntime) {
    let are_right = [
        is_decimal::<1>(0, Ok("0")),
        is_decimal::<1>(9, Ok("9")),
        is_decimal::<2>(10, Ok("10")),
        is_decimal::<4>(0, Ok("0")),
        is_decimal::<3>(456, Ok("456")),
        is_decimal::<10>(4294967295, Ok("4294967295")),
        is_decimal::<40>(7, Ok("7")),
    ];
    check(&rt, are_right == [true; 7], &are_right);
}

#[test]
fn the_last_digits_are_written_of_a_number_that_has_more(rt: HostRuntime) {
    let are_right = [
        is_decimal::<1>(10, Err("0")),
        is_decimal::<2>(456, Err("56")),
        is_decimal::<2>(100, Err("00")),
        is_decimal::<9>(1000000000, Err("000000000")),
        is_decimal::<9>(4294967295, Err("294967295")),
        is_decimal::<0>(7, Err("")),
        is_decimal::<0>(0, Err("")),
    ];
    check(&rt, are_right == [true; 7], &are_right);
}

#[test]
fn ten_digits_hold_each_number(rt: HostRuntime) {
    for (number, text) in [
        (0, "0"),
        (7, "7"),
        (9, "9"),
        (10, "10"),
        (1000000000, "1000000000"),
        (4294967295, "4294967295"),
    ] {
        check(&rt, is_decimal::<10>(number, Ok(text)), &number);
    }
}
