//! Parts taken of a value, parts put together, and values at another capacity.

ghost use Rattle.std.specs.Prelude.{◌<◌, ◌≤◌, ◌^◌};
ghost use Rattle.tinystr_words.specs.Text.{IsTextByte};

use crate::check;
use std::ops::Range;
use std::test::Fail;
use tinystr::{TinyAsciiStr, TinyStr8, TinyStr16, tinystr};
use tinystr_words::split_at_byte;

// Whether a value is the text.
fn is_text<const N: usize>(value: TinyAsciiStr<N>, text: &str) -> bool {
    value.as_str() == text
}

// Whether a value is the text, where there is one.
fn is_some<const N: usize>(value: Option<TinyAsciiStr<N>>, text: Option<&str>) -> bool {
    match (value, text) {
        (Some(value), Some(text)) => value.as_str() == text,
        (None, None) => true,
        _ => false,
    }
}

#[test]
fn two_texts_are_joined_and_cut(rt: HostRuntime) -> Result<(), Fail> {
    let front = TinyAsciiStr::<6>::try_from_str("abc")?;
    let back = TinyAsciiStr::<6>::try_from_str("defg")?;
    let are_right = [
        is_text(front.concat::<6, 16>(back), "abcdefg"),
        is_text(front.concat::<6, 12>(back), "abcdefg"),
        is_text(front.concat::<6, 8>(back), "abcdefg"),
        is_text(front.concat::<6, 7>(back), "abcdefg"),
        is_text(front.concat::<6, 6>(back), "abcdef"),
        is_text(front.concat::<6, 2>(back), "ab"),
    ];
    check(&rt, are_right == [true; 6], &are_right);
    let empty = TinyAsciiStr::<0>::default();
    let ab = TinyAsciiStr::<2>::try_from_str("ab")?;
    assert!(rt; is_text(empty.concat::<2, 4>(ab), "ab"));
    Ok(())
}

#[test]
fn a_full_text_is_joined_whole_cut_or_not(rt: HostRuntime) -> Result<(), Fail> {
    let (full, longer) = ("MacintoshOSX2019", "MacintoshOSX2019x");
    let front = TinyStr16::try_from_str(full)?;
    let back = TinyAsciiStr::<1>::try_from_str("x")?;
    let are_right = [
        is_text(front.concat::<1, 17>(back), longer),
        is_text(front.concat::<1, 16>(back), full),
        is_text(front.concat::<1, 0>(back), ""),
        is_some(front.try_concat::<1, 17>(back), Some(longer)),
        is_some(front.try_concat::<1, 16>(back), None),
    ];
    check(&rt, are_right == [true; 5], &are_right);
    Ok(())
}

#[test]
fn a_text_is_cut_to_another_capacity_or_none(rt: HostRuntime) -> Result<(), Fail> {
    let text = TinyStr8::try_from_str("abcdefg")?;
    let are_right = [
        is_text(text.resize::<4>(), "abcd"),
        is_text(text.resize::<16>(), "abcdefg"),
        is_text(text.resize::<0>(), ""),
        is_text(TinyAsciiStr::<0>::default().resize::<4>(), ""),
        is_some(text.try_resize::<7>(), Some("abcdefg")),
        is_some(text.try_resize::<6>(), None),
    ];
    check(&rt, are_right == [true; 6], &are_right);
    Ok(())
}

// Whether the bytes of the text, held at N, at a range of indices are these at M.
fn is_cut<const N: usize, const M: usize>(text: &str, range: Range<usize>, part: &str) -> bool
    requires held { N < 2 ^ 63 }
    requires wanted { M < 2 ^ 63 }
    requires order { range.start ≤ range.end }
{
    match TinyAsciiStr::<N>::try_from_str(text) {
        Ok(value) => is_text(value.slice::<M>(range), part),
        Err(_) => false,
    }
}

#[test]
fn a_range_of_a_text_is_cut_and_may_go_past_it(rt: HostRuntime) {
    let are_right = [
        is_cut::<17, 4>("zh-Hant-TW", 3..7, "Hant"),
        is_cut::<8, 3>("New York", 4..8, "Yor"),
        is_cut::<8, 4>("New York", 7..11, "k"),
        is_cut::<8, 17>("New York", usize::MAX..usize::MAX, ""),
    ];
    check(&rt, are_right == [true; 4], &are_right);
}

#[test]
fn the_first_bytes_of_a_text(rt: HostRuntime) -> Result<(), Fail> {
    let city = TinyStr8::try_from_str("New York")?;
    assert!(rt; is_text(city.take(3), "New"));
    assert!(rt; is_text(city.take(usize::MAX), "New York"));
    Ok(())
}

#[test]
fn the_first_place_of_a_byte(rt: HostRuntime) -> Result<(), Fail> {
    let tag = TinyAsciiStr::<10>::try_from_str("zh-Hant-TW")?;
    assert!(rt; tag.find(b'-') == Some(2) && tag.find(b'W') == Some(9));
    assert!(rt; tag.find(b'_').is_none() && tag.find(0).is_none());
    Ok(())
}

// Whether the text, held at N, is split into these parts and no more.
fn is_split<const N: usize>(text: &str, parts: &[&str]) -> bool
    requires { N < 2 ^ 63 }
{
    let Ok(text) = TinyAsciiStr::<N>::try_from_str(text) else {
        return false;
    };
    let mut left = text.split(b'-');
    for part in parts {
        if !is_some(left.next(), Some(part)) {
            return false;
        }
    }
    left.next().is_none() && left.next().is_none()
}

#[test]
fn a_text_is_split_at_each_separator(rt: HostRuntime) {
    let are_right = [
        is_split::<10>("zh-Hant-TW", &["zh", "Hant", "TW"]),
        is_split::<8>("a--b-", &["a", "", "b", ""]),
        is_split::<0>("", &[""]),
    ];
    check(&rt, are_right == [true; 3], &are_right);
}

#[test]
fn a_text_is_split_at_the_first_separator(rt: HostRuntime) -> Result<(), Fail> {
    let tag = TinyAsciiStr::<10>::try_from_str("zh-Hant-TW")?;
    let parts = tag.split_once(b'-');
    assert!(rt;
        parts.is_some_and(|(front, back)| is_text(front, "zh") && is_text(back, "Hant-TW"))
    );
    assert!(rt; tag.split_once(b'_').is_none() && tag.split_once(0).is_none());
    Ok(())
}

#[test]
fn bytes_are_split_at_the_first_byte(rt: HostRuntime) {
    let parts = split_at_byte(b"EUR=1=\xff", b'=');
    assert!(rt; parts == Some((&b"EUR"[..], &b"1=\xff"[..])));
    assert!(rt; split_at_byte(b"EUR-1", b'=').is_none());
}

// Whether the texts are joined to this at Q, or aren't, where there is none.
fn is_joined<const Q: usize>(texts: &[TinyAsciiStr<4>], separator: u8, joined: Option<&str>) -> bool
    requires bound { Q < 2 ^ 63 }
    requires separator { IsTextByte separator }
{
    is_some(TinyAsciiStr::join::<Q>(texts, separator), joined)
}

#[test]
fn texts_are_joined_where_they_fit(rt: HostRuntime) -> Result<(), Fail> {
    let tag = [tinystr!(4, "zh")?, tinystr!(4, "Hant")?, tinystr!(4, "TW")?];
    let are_right = [
        is_joined::<10>(&tag, b'_', Some("zh_Hant_TW")),
        is_joined::<9>(&tag, b'_', None),
        is_joined::<4>(&tag[..1], b'_', Some("zh")),
        is_joined::<0>(&tag[..0], b'_', Some("")),
    ];
    check(&rt, are_right == [true; 4], &are_right);
    Ok(())
}
