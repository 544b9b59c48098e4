//! Equality, order and hash of values, and the laws, on the texts of the table.

use crate::check;
use crate::table::table_rows;
use std::alloc::{AllocError, Global};
use std::cmp::Ordering;
use std::collections::HashSet;
use std::test::Fail;
use tinystr::laws::{niche_refused, text_order, unvalidated_back};
use tinystr::{ParseError, TinyAsciiStr, TinyStr4, UnvalidatedTinyAsciiStr};

type Text = TinyAsciiStr<17>;

// The 33 texts of the table.
fn texts(alloc: Global) -> Result<Vec<Text>, AllocError> {
    let mut texts = Vec::new(alloc);
    for row in table_rows(alloc)? {
        if let Ok(text) = Text::try_from_str(row.text) {
            texts.push(text)?;
        }
    }
    Ok(texts)
}

// Whether the values and their padded bytes compare so.
fn compare_as<const N: usize>(order: Ordering, a: TinyAsciiStr<N>, b: TinyAsciiStr<N>) -> bool {
    text_order(&a, &b) == (order.is_eq(), order)
        && a.partial_cmp(&b) == Some(order)
        && (a < b) == order.is_lt()
        && a.to_unvalidated().cmp(&b.to_unvalidated()) == order
}

fn are_ordered(order: Ordering, first: &str, second: &str) -> bool {
    match (
        TinyStr4::try_from_str(first),
        TinyStr4::try_from_str(second),
    ) {
        (Ok(a), Ok(b)) => compare_as(order, a, b),
        _ => false,
    }
}

#[test]
fn texts_are_ordered_byte_by_byte(rt: HostRuntime) {
    let texts = ["", "a", "a\x01", "ab", "b"];
    for (i, first) in texts.iter().enumerate() {
        for (j, second) in texts.iter().enumerate() {
            check(&rt, are_ordered(i.cmp(&j), first, second), &(first, second));
        }
    }
}

#[test]
fn a_hash_set_holds_each_text_once(rt: HostRuntime) -> Result<(), Fail> {
    let [en, capital] = [TinyStr4::try_from_str("en")?, TinyStr4::try_from_str("En")?];
    let mut set = HashSet::new(rt.alloc());
    for text in [en, capital, en] {
        set.insert(text)?;
    }
    assert!(rt; set.len() == 2 && set.contains(&en) && set.contains(&capital));
    Ok(())
}

// The same text, cut from a longer capacity, is found in the set.
#[test]
fn values_are_ordered_and_found_as_their_texts(rt: HostRuntime) -> Result<(), Fail> {
    let texts = texts(rt.alloc())?;
    check(&rt, texts.len() == 33, &texts.len());
    let mut set = HashSet::new(rt.alloc());
    for a in texts.iter() {
        for b in texts.iter() {
            let order = a.as_str().cmp(b.as_str());
            check(&rt, compare_as(order, *a, *b), &(a, b));
        }
        check(&rt, set.insert(*a)?, &a);
        check(&rt, set.contains(&a.resize::<33>().resize()), &a);
    }
    Ok(())
}

// Each change keeps the length, and done twice is done once; lowercase after uppercase is lowercase. A text is in a case
// exactly if the change leaves it alone, and of letters in that case exactly if it also consists of letters.
fn keeps_case_laws(text: Text) -> bool {
    let lower = text.to_ascii_lowercase();
    let title = text.to_ascii_titlecase();
    let upper = text.to_ascii_uppercase();
    let is_letters = text.is_ascii_alphabetic();
    let again = [
        lower.to_ascii_lowercase(),
        title.to_ascii_titlecase(),
        upper.to_ascii_uppercase(),
        upper.to_ascii_lowercase(),
    ];
    let is_in_case = [
        text.is_ascii_lowercase(),
        text.is_ascii_titlecase(),
        text.is_ascii_uppercase(),
    ];
    let is_letters_in_case = [
        text.is_ascii_alphabetic_lowercase(),
        text.is_ascii_alphabetic_titlecase(),
        text.is_ascii_alphabetic_uppercase(),
    ];
    [lower.len(), title.len(), upper.len()] == [text.len(); 3]
        && again == [lower, title, upper, lower]
        && is_in_case == [lower == text, title == text, upper == text]
        && is_letters_in_case == is_in_case.map(|is_in_case| is_in_case && is_letters)
}

// Whether case changes of the front, which is the text cut at M, are those of the text cut there.
fn commute<const M: usize>(text: Text, front: TinyAsciiStr<M>) -> bool {
    text.to_ascii_lowercase().resize::<M>() == front.to_ascii_lowercase()
        && text.to_ascii_titlecase().resize::<M>() == front.to_ascii_titlecase()
        && text.to_ascii_uppercase().resize::<M>() == front.to_ascii_uppercase()
}

#[test]
fn case_changes_keep_their_laws_and_commute_with_cutting(rt: HostRuntime) -> Result<(), Fail> {
    let texts = texts(rt.alloc())?;
    check(&rt, texts.len() == 33, &texts.len());
    for text in texts {
        let is_right = keeps_case_laws(text)
            && commute(text, text.resize::<0>())
            && commute(text, text.resize::<1>())
            && commute(text, text.resize::<8>())
            && commute(text, text.resize::<16>())
            && commute(text, text.resize::<33>());
        check(&rt, is_right, &text);
    }
    Ok(())
}

fn join_alike(a: Text, b: Text, c: Text) -> bool {
    let none: TinyAsciiStr<0> = a.concat::<17, 0>(b).concat(c);
    let four: TinyAsciiStr<4> = a.concat::<17, 4>(b).concat(c);
    let nine: TinyAsciiStr<9> = a.concat::<17, 16>(b).concat(c);
    let all: TinyAsciiStr<51> = a.concat::<17, 34>(b).concat(c);
    let are_same = [
        none == a.concat(b.concat::<17, 0>(c)),
        four == a.concat(b.concat::<17, 8>(c)),
        nine == a.concat(b.concat::<17, 9>(c)),
        all == a.concat(b.concat::<17, 51>(c)),
    ];
    are_same == [true; 4] && all.len() == a.len() + b.len() + c.len()
}

#[test]
fn three_texts_join_and_cut_alike_in_either_order(rt: HostRuntime) -> Result<(), Fail> {
    let texts = texts(rt.alloc())?;
    check(&rt, texts.len() == 33, &texts.len());
    for (a, c) in texts.iter().zip(texts.iter().rev()) {
        for b in texts.iter() {
            check(&rt, join_alike(*a, *b, *c), &(a, b, c));
        }
    }
    Ok(())
}

// Whether the text is read from its byte form, and these bytes after it are returned as the remainder.
fn is_read_before(text: Text, after: &[u8]) -> bool {
    let mut input = [0; 32];
    let Some(len) = after.len().checked_add(17) else {
        return false;
    };
    if len > 32 {
        return false;
    }
    input[..17].copy_from_slice(&text.to_bytes());
    input[17..len].copy_from_slice(after);
    match Text::read_bytes(&input[..len]) {
        Ok((read, rest)) => read == text && rest == after,
        Err(_) => false,
    }
}

#[test]
fn texts_come_back_from_each_form(rt: HostRuntime) -> Result<(), Fail> {
    let texts = texts(rt.alloc())?;
    check(&rt, texts.len() == 33, &texts.len());
    for text in texts {
        let json = text.to_json(rt.alloc())?;
        let bytes = UnvalidatedTinyAsciiStr::from_utf8_unchecked(text.to_bytes());
        let is_back = Text::from_json(&json) == Ok(text)
            && unvalidated_back(text) == Ok(text)
            && bytes.try_into_tinystr() == Ok(text)
            && text.to_unvalidated() == bytes
            && is_read_before(text, b"")
            && is_read_before(text, b"\0\xff\0a");
        check(&rt, is_back, &text);
    }
    assert!(rt; niche_refused::<17>() == Err(ParseError::NonAscii));
    Ok(())
}
