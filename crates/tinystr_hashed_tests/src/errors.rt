//! Why bytes aren't a hashed table, and why texts aren't packed as one: each error is different from the others, and
//! printed by its name.

use crate::check;
use std::alloc::{AllocError, Global};
use std::fmt::Debug;
use std::test::Fail;
use tinystr::ule::UleError;
use tinystr::{ParseError, TinyAsciiStr};
use tinystr_hashed::{HashedError, HashedMapError, HashedTextMapError, PackHashedError};

// No two are the same, and most differ from another in one part alone.
const FAULTS: &[HashedError] = &[
    HashedError::Header { len: 0 },
    HashedError::Header { len: 1 },
    HashedError::Version { version: 0 },
    HashedError::Version { version: 2 },
    HashedError::Index { size: 6, len: 3 },
    HashedError::Index { size: 6, len: 4 },
    HashedError::Index { size: 7, len: 3 },
    HashedError::Records(UleError::Length { len: 7 }),
    HashedError::Records(UleError::Length { len: 8 }),
    HashedError::Records(UleError::Parse {
        index: 1,
        fault: ParseError::NonAscii,
    }),
    HashedError::Place { index: 0 },
    HashedError::Place { index: 1 },
];

#[test]
fn faults_of_a_table_are_different(rt: HostRuntime) {
    assert!(rt; are_different(FAULTS));
}

/// Whether each is equal to itself alone.
fn are_different<T: PartialEq>(faults: &[T]) -> bool {
    for (i, fault) in faults.iter().enumerate() {
        for (j, other) in faults.iter().enumerate() {
            if (fault == other) != (i == j) || (fault != other) != (i != j) {
                return false;
            }
        }
    }
    true
}

// Faults, each with its text.
const PRINTED: &[(HashedError, &str)] = &[
    (HashedError::Header { len: 15 }, "Header { len: 15 }"),
    (
        HashedError::Version { version: 2 },
        "Version { version: 2 }",
    ),
    (
        HashedError::Index { size: 6, len: 3 },
        "Index { size: 6, len: 3 }",
    ),
    (
        HashedError::Records(UleError::Length { len: 7 }),
        "Records(Length { len: 7 })",
    ),
    (HashedError::Place { index: 1 }, "Place { index: 1 }"),
];

#[test]
fn faults_of_a_table_are_printed_by_their_names(rt: HostRuntime) -> Result<(), Fail> {
    for (fault, text) in PRINTED {
        check(&rt, is_printed(rt.alloc(), fault, text)?, &text);
    }
    Ok(())
}

fn is_printed<T: Debug>(alloc: Global, fault: &T, text: &str) -> Result<bool, AllocError> {
    let printed = format!(in alloc; "{fault:?}")?;
    Ok(printed.as_str() == text)
}

const MAP_FAULTS: &[HashedMapError] = &[
    HashedMapError::Keys(HashedError::Header { len: 0 }),
    HashedMapError::Keys(HashedError::Place { index: 0 }),
    HashedMapError::Keys(HashedError::Place { index: 1 }),
    HashedMapError::Values { keys: 2, len: 3 },
    HashedMapError::Values { keys: 2, len: 2 },
    HashedMapError::Values { keys: 3, len: 3 },
];

#[test]
fn faults_of_a_map_are_different_and_printed(rt: HostRuntime) -> Result<(), Fail> {
    assert!(rt; are_different(MAP_FAULTS));
    let keys = HashedMapError::Keys(HashedError::Place { index: 1 });
    let values = HashedMapError::Values { keys: 2, len: 3 };
    let are_right = [
        is_printed(rt.alloc(), &keys, "Keys(Place { index: 1 })")?,
        is_printed(rt.alloc(), &values, "Values { keys: 2, len: 3 }")?,
    ];
    check(&rt, are_right == [true; 2], &are_right);
    Ok(())
}

const TEXT_MAP_FAULTS: &[HashedTextMapError] = &[
    HashedTextMapError::Keys(HashedError::Place { index: 0 }),
    HashedTextMapError::Keys(HashedError::Place { index: 1 }),
    HashedTextMapError::Values(UleError::Length { len: 7 }),
    HashedTextMapError::Values(UleError::Length { len: 8 }),
    HashedTextMapError::Count { keys: 2, values: 3 },
    HashedTextMapError::Count { keys: 2, values: 2 },
    HashedTextMapError::Count { keys: 3, values: 3 },
];

// Faults, each with its text.
const PRINTED_OF_TEXTS: &[(HashedTextMapError, &str)] = &[
    (
        HashedTextMapError::Keys(HashedError::Place { index: 1 }),
        "Keys(Place { index: 1 })",
    ),
    (
        HashedTextMapError::Values(UleError::Length { len: 7 }),
        "Values(Length { len: 7 })",
    ),
    (
        HashedTextMapError::Count { keys: 2, values: 3 },
        "Count { keys: 2, values: 3 }",
    ),
];

#[test]
fn faults_of_a_map_of_texts_are_different_and_printed(rt: HostRuntime) -> Result<(), Fail> {
    assert!(rt; are_different(TEXT_MAP_FAULTS));
    for (fault, text) in PRINTED_OF_TEXTS {
        check(&rt, is_printed(rt.alloc(), fault, text)?, &text);
    }
    Ok(())
}

#[test]
fn faults_of_packing_are_different_and_printed(rt: HostRuntime) -> Result<(), Fail> {
    let text = TinyAsciiStr::<3>::from_utf8_unchecked(*b"EUR");
    let duplicate = PackHashedError::Duplicate { text };
    let other = PackHashedError::Duplicate {
        text: TinyAsciiStr::from_utf8_unchecked(*b"EU\0"),
    };
    let faults = [duplicate, other, PackHashedError::Memory];
    let are_right = [
        are_different(&faults),
        is_printed(rt.alloc(), &duplicate, "Duplicate { text: \"EUR\" }")?,
    ];
    check(&rt, are_right == [true; 2], &are_right);
    let [.., memory] = faults;
    assert!(rt; is_printed(rt.alloc(), &memory, "Memory")?);
    Ok(())
}
