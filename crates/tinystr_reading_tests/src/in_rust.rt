//! What the Rust crate writes by `Deref`, `Borrow<str>` and constants, as CALLING says it is written here.

use crate::check;
use std::collections::BTreeMap;
use std::test::Fail;
use tinystr::{TinyAsciiStr, tinystr};

fn eur() -> TinyAsciiStr<3> {
    tinystr!(3, "EUR").unwrap()
}

#[test]
fn a_text_is_used_as_a_string(rt: HostRuntime) {
    let text = eur();
    let are_right = [
        text.as_str() == "EUR" && text.as_str() != "EU",
        text.as_str().chars().count() == 3,
        text.get(0) == Some(b'E') && text.get(3).is_none(),
        text.slice::<2>(1..3).as_str() == "UR",
        text.as_str().starts_with("EU") && !text.as_str().starts_with("U"),
    ];
    check(&rt, are_right == [true; 5], &are_right);
}

#[test]
fn a_map_is_searched_by_a_text(rt: HostRuntime) -> Result<(), Fail> {
    let mut places = BTreeMap::new(rt.alloc());
    places.insert(eur(), 2)?;
    assert!(rt; places.get(&tinystr!(3, "EUR").unwrap()) == Some(&2));
    assert!(rt; places.get(&tinystr!(3, "JPY").unwrap()).is_none());
    Ok(())
}

#[test]
fn a_text_is_held_at_another_capacity(rt: HostRuntime) {
    assert!(rt; eur().resize::<8>().as_str() == "EUR");
}

#[test]
fn a_char_is_a_text_and_back(rt: HostRuntime) {
    let mut buffer = [0; 4];
    let made = TinyAsciiStr::<4>::try_from_str('E'.encode_utf8(&mut buffer));
    assert!(rt; made.is_ok_and(|text| text.as_str() == "E"));
    assert!(rt; eur().as_str().chars().next() == Some('E'));
}

#[test]
fn a_number_is_a_text_and_back(rt: HostRuntime) {
    // the bytes of `EUR`, little-endian
    let number = 0x0052_5545u64;
    assert!(rt; u64::from_le_bytes(*eur().resize::<8>().all_bytes()) == number);
    let made = TinyAsciiStr::<8>::try_from_raw(number.to_le_bytes());
    assert!(rt; made.is_ok_and(|text| text.as_str() == "EUR"));
}
