//! Identifiers and subtags, read, rejected and shown; subtags of an identifier, and an identifier of subtags.

use crate::check;
use std::convert::{AsSlice, AsStr};
use std::str::FromStr;
use subtags::LangIdError::{InvalidLanguage, InvalidSubtag};
use subtags::{LangId, LangIdError, Language, Region, Script};

#[test]
fn accepted_inputs_give_their_canonical_text(rt: HostRuntime) {
    let rows = "en=en EN_latn-us=en-Latn-US es-419=es-419 ZH-hANT_TW=zh-Hant-TW abcde=abcde \
                abcdefgh-Latn-419=abcdefgh-Latn-419";
    for row in rows.split_whitespace() {
        check(&rt, is_read_as_its_text(row), &row);
    }
}

/// Whether the input before the `=` is read, its text follows the `=`, and this text is read back as the same.
fn is_read_as_its_text(row: &str) -> bool {
    let Some((input, text)) = row.split_once('=') else {
        return false;
    };
    let Ok(id) = LangId::try_from_utf8(input.as_bytes()) else {
        return false;
    };
    let is_read_back = LangId::try_from_utf8(text.as_bytes()) == Ok(id);
    is_read_back && id.to_text().as_str() == text
}

#[test]
fn a_first_subtag_that_is_no_language_is_named(rt: HostRuntime) {
    for input in "|a|abcd|abcdefghi|e1|-en|en.US|abcd-!!".split('|') {
        check(&rt, is_rejected(input, InvalidLanguage), &input);
    }
}

#[test]
fn a_language_is_followed_by_a_script_a_region_or_both(rt: HostRuntime) {
    let inputs = "en- en--US en-US-Latn en-1234 en-u1 en-Lat1 en-Latn-Latn en-Latn-US-";
    for input in inputs.split_whitespace() {
        check(&rt, is_rejected(input, InvalidSubtag), &input);
    }
}

fn is_rejected(input: &str, error: LangIdError) -> bool {
    LangId::try_from_utf8(input.as_bytes()) == Err(error)
}

#[test]
fn each_kind_reads_its_own(rt: HostRuntime) {
    for row in "EN=en abcd= a=".split_whitespace() {
        check(&rt, is_language_or_none(row), &row);
    }
    for row in "hANT=Hant Han1=".split_whitespace() {
        check(&rt, is_script_or_none(row), &row);
    }
    for row in "us=US 419=419 41= u1= u12=".split_whitespace() {
        check(&rt, is_region_or_none(row), &row);
    }
}

/// Whether the input before the `=` is read as the language after it, or as none if nothing follows.
fn is_language_or_none(row: &str) -> bool {
    let (input, text) = row.split_once('=').unwrap_or(("", row));
    match Language::try_from_utf8(input.as_bytes()) {
        Some(language) => language.to_text().as_str() == text,
        None => text.is_empty(),
    }
}

fn is_script_or_none(row: &str) -> bool {
    let (input, text) = row.split_once('=').unwrap_or(("", row));
    match Script::try_from_utf8(input.as_bytes()) {
        Some(script) => script.to_text().as_str() == text,
        None => text.is_empty(),
    }
}

fn is_region_or_none(row: &str) -> bool {
    let (input, text) = row.split_once('=').unwrap_or(("", row));
    match Region::try_from_utf8(input.as_bytes()) {
        Some(region) => region.to_text().as_str() == text,
        None => text.is_empty(),
    }
}

#[test]
fn values_are_parsed_and_tried_from_texts(rt: HostRuntime) {
    let are_right = [
        is_tried::<LangId>("EN_latn", Ok("en-Latn")),
        is_tried::<Language>("ZH", Ok("zh")),
        is_tried::<Script>("hANT", Ok("Hant")),
        is_tried::<Region>("tw", Ok("TW")),
        is_tried::<LangId>("en-Latn-", Err(InvalidSubtag)),
        is_tried::<Language>("abcd", Err(InvalidLanguage)),
        is_tried::<Script>("abc", Err(InvalidSubtag)),
        is_tried::<Region>("abc", Err(InvalidSubtag)),
    ];
    check(&rt, are_right == [true; 8], &are_right);
}

/// Whether std's traits answer the input by the value of this text, or by this error.
fn is_tried<
    'a,
    T: FromStr<Err = LangIdError>
        + TryFrom<&'a str, Error = LangIdError>
        + AsStr
        + AsSlice<u8>
        + Drop,
>(input: &'a str, expected: Result<&str, LangIdError>) -> bool {
    match (T::from_str(input), T::try_from(input), expected) {
        (Ok(parsed), Ok(tried), Ok(text)) => shows(&parsed, text) && shows(&tried, text),
        (Err(parsed), Err(tried), Err(error)) => parsed == error && tried == error,
        _ => false,
    }
}

fn shows<T: AsStr + AsSlice<u8>>(value: &T, text: &str) -> bool {
    value.as_str() == text && value.as_slice() == text.as_bytes()
}

#[test]
fn an_identifier_gives_its_subtags_and_is_made_of_them(rt: HostRuntime) {
    let rows = "en/en// es-419/es//419 en-Latn/en/Latn/ abcdefgh-Hant-TW/abcdefgh/Hant/TW";
    for row in rows.split_whitespace() {
        check(&rt, has_its_subtags(row), &row);
    }
}

/// Whether the first word, an identifier, has the next ones as language, script and region, and is made of them. An empty
/// word represents none.
fn has_its_subtags(row: &str) -> bool {
    let mut words = row.split('/');
    let Ok(id) = words.next().unwrap_or("").parse::<LangId>() else {
        return false;
    };
    let Ok(language) = words.next().unwrap_or("").parse::<Language>() else {
        return false;
    };
    let script = words.next().unwrap_or("").parse::<Script>().ok();
    let region = words.next().unwrap_or("").parse::<Region>().ok();
    id.language() == language
        && id.script() == script
        && id.region() == region
        && LangId::from_parts(language, script, region) == id
}

#[test]
fn a_parent_lacks_the_last_subtag(rt: HostRuntime) {
    for row in "zh-Hant-TW>zh-Hant>zh es-419>es en-Latn>en und".split_whitespace() {
        assert!(rt; has_parents(row), "{row}");
    }
}

/// Whether each word, an identifier, is the parent of the one before it, and the last has none.
fn has_parents(row: &str) -> bool {
    let mut words = row.split('>');
    let Ok(mut id) = words.next().unwrap_or("").parse::<LangId>() else {
        return false;
    };
    for word in words {
        let Some(parent) = id.parent() else {
            return false;
        };
        if parent.as_str() != word {
            return false;
        }
        id = parent;
    }
    id.parent().is_none()
}

#[test]
fn the_rest_of_a_prefix_is_a_text(rt: HostRuntime) {
    let rows = "DE_at-1996=de-AT=-1996 en_US.UTF-8=en=_US.UTF-8 zh-tw=zh-TW= fr-\u{e9}=fr=-\u{e9}";
    for row in rows.split_whitespace() {
        assert!(rt; has_prefix(row), "{row}");
    }
    assert!(rt; LangId::from_prefix_str("\u{e9}-fr") == Err(InvalidLanguage));
}

/// Whether the input before the first `=` begins with the identifier after it, and has the rest after that.
fn has_prefix(row: &str) -> bool {
    let Some((input, wanted)) = row.split_once('=') else {
        return false;
    };
    let Some((text, left)) = wanted.split_once('=') else {
        return false;
    };
    match LangId::from_prefix_str(input) {
        Ok((id, rest)) => id.as_str() == text && rest == left,
        Err(_) => false,
    }
}
