//! Values, compared, hashed and printed.

use crate::check;
use std::alloc::{AllocError, Global};
use std::cmp::Ordering;
use std::collections::HashSet;
use std::fmt::{Debug, Display};
use std::str::FromStr;
use std::string::String;
use std::test::Fail;
use subtags::{LangId, LangIdError, Language, Region, Script};

#[test]
fn values_compare_as_their_texts(rt: HostRuntime) {
    let are_right = [
        are_in_order::<LangId>("en en-Latn en-Latn-US en-US enx"),
        are_in_order::<Language>("de en enx"),
        are_in_order::<Script>("Cyrl Hans Latn"),
        are_in_order::<Region>("001 419 DE US"),
    ];
    check(&rt, are_right == [true; 4], &are_right);
}

/// Whether the words are values, each less than those after it.
fn are_in_order<T: FromStr<Err = LangIdError> + Ord + Drop>(words: &str) -> bool {
    for (i, first) in words.split_whitespace().enumerate() {
        for (j, second) in words.split_whitespace().enumerate() {
            let (Ok(first), Ok(second)) = (first.parse::<T>(), second.parse::<T>()) else {
                return false;
            };
            if !compare_as(&first, &second, i.cmp(&j)) {
                return false;
            }
        }
    }
    true
}

fn compare_as<T: Ord>(a: &T, b: &T, order: Ordering) -> bool {
    let are_ordered = (a.cmp(b), a.partial_cmp(b)) == (order, Some(order));
    let found = [a < b, a > b, a == b];
    are_ordered && found == [order.is_lt(), order.is_gt(), order.is_eq()]
}

#[test]
fn spellings_of_one_identifier_are_equal_and_found(rt: HostRuntime) -> Result<(), Fail> {
    let id: LangId = "EN_latn-us".parse()?;
    let other: LangId = "en-Latn_US".parse()?;
    let shorter: LangId = "en-US".parse()?;
    assert!(rt; id == other && id != shorter && id < shorter);
    let mut values = HashSet::new(rt.alloc());
    assert!(rt; values.insert(id)? && !values.insert(other)? && values.insert(shorter)?);
    Ok(())
}

#[test]
fn values_are_printed_as_texts(rt: HostRuntime) {
    let forms = "zh-Hant-TW|\"zh-Hant-TW\"|zh-Hant-TW|zh-Hant-TW|z";
    let are_right = [
        has_forms::<LangId>(rt.alloc(), "ZH_hant-tw", forms),
        has_forms::<Language>(rt.alloc(), "ZH", "zh|\"zh\"|--zh---|zh   |z"),
        has_forms::<Script>(rt.alloc(), "hant", "Hant|\"Hant\"|-Hant--|Hant |H"),
        has_forms::<Region>(rt.alloc(), "tw", "TW|\"TW\"|--TW---|TW   |T"),
    ];
    check(&rt, are_right == [true; 4], &are_right);
}

/// Whether the value of the spelling has these forms.
fn has_forms<T: FromStr<Err = LangIdError> + Display + Debug + Drop>(
    alloc: Global,
    spelling: &str,
    forms: &str,
) -> bool {
    match spelling.parse::<T>() {
        Ok(value) => is_printed(forms_of(alloc, &value), forms),
        Err(_) => false,
    }
}

/// The value as it is printed, in quotes, within a width from both sides and from the left, and cut to one character.
fn forms_of<T: Display + Debug>(alloc: Global, value: &T) -> Result<String, AllocError> {
    format!(in alloc; "{value}|{value:?}|{value:-^7}|{value:<5}|{value:.1}")
}

fn is_printed(printed: Result<String, AllocError>, text: &str) -> bool {
    match printed {
        Ok(printed) => printed.as_str() == text,
        Err(_) => false,
    }
}

// An error takes no width and no precision.
#[test]
fn errors_are_printed_and_debugged(rt: HostRuntime) {
    let (language, subtag) = (LangIdError::InvalidLanguage, LangIdError::InvalidSubtag);
    let shown = format!(in rt.alloc(); "{language}, {subtag:>20}, {language:?}, {subtag:?}");
    let text = "invalid language, invalid subtag, InvalidLanguage, InvalidSubtag";
    assert!(rt; is_printed(shown, text));
}
