//! Bytes that aren't a hashed table, and why. The results come from another program, which is written from the definition.

use crate::{check, file};
use std::alloc::{AllocError, Global};
use std::test::Fail;
use tinystr::ParseError::{ContainsNull, NonAscii};
use tinystr::ule::UleError::{Length, Parse};
use tinystr_hashed::HashedError::{Header, Index, Place, Records, Version};
use tinystr_hashed::{HashedError, HashedTable};

// A table of five texts: 16 bytes of the header, three pilots from index 16 on, a move from index 19 on, and the records from index
// 23 on.
const FILE: &[u8; 38] = b"\x01\0\0\0\x03\0\0\0\x01\0\0\0\xce\x2c\x23\x0f\xe0\x7c\xc6\x02\0\0\0\
    EUR\0\0\0USDA\0\0JPY";

// How many bytes of the file are read, and the fault of these.
const LENGTHS: &[(usize, Option<HashedError>)] = &[
    (0, Some(Header { len: 0 })),
    (1, Some(Header { len: 1 })),
    (15, Some(Header { len: 15 })),
    (16, Some(Index { size: 7, len: 0 })),
    (19, Some(Index { size: 7, len: 3 })),
    (22, Some(Index { size: 7, len: 6 })),
    (23, None),
    (24, Some(Records(Length { len: 1 }))),
    (25, Some(Records(Length { len: 2 }))),
    (26, None),
    (27, Some(Records(Length { len: 4 }))),
    (29, Some(Place { index: 1 })),
    (32, Some(Place { index: 1 })),
    (35, Some(Place { index: 1 })),
    (37, Some(Records(Length { len: 14 }))),
    (38, None),
];

#[test]
fn the_first_bytes_of_a_table_have_their_fault(rt: HostRuntime) {
    for (len, fault) in LENGTHS {
        check(&rt, has_fault(*len, &[], *fault), &len);
    }
}

/// Whether the first bytes of the file have a fault, or none, where bytes are set to others.
fn has_fault(len: usize, changes: &[(usize, u8)], fault: Option<HashedError>) -> bool {
    let mut file = *FILE;
    for (index, other) in changes {
        match file.get_mut(*index) {
            Some(byte) => *byte = *other,
            None => return false,
        }
    }
    let bytes = &file[..];
    match bytes.get(..len) {
        Some(bytes) => HashedTable::<3>::from_bytes(bytes).err() == fault,
        None => false,
    }
}

// Other versions and numbers of pilots and of moves. The sizes have all pilots and moves up to the end of the bytes, and more.
const HEADERS: &[(usize, &[(usize, u8)], Option<HashedError>)] = &[
    (38, &[(0, 0)], Some(Version { version: 0 })),
    (38, &[(0, 2)], Some(Version { version: 2 })),
    (38, &[(0, 0), (1, 1)], Some(Version { version: 256 })),
    (38, &[(1, 1)], Some(Version { version: 257 })),
    (38, &[(2, 1)], Some(Version { version: 65537 })),
    (
        38,
        &[(3, 128)],
        Some(Version {
            version: 2147483649,
        }),
    ),
    (38, &[(4, 0)], Some(Place { index: 2 })),
    (38, &[(4, 1)], Some(Records(Length { len: 17 }))),
    (38, &[(4, 2)], Some(Records(Length { len: 16 }))),
    (38, &[(4, 4)], Some(Records(Length { len: 14 }))),
    (38, &[(4, 6)], Some(Place { index: 1 })),
    (38, &[(4, 18)], None),
    (38, &[(4, 19)], Some(Index { size: 23, len: 22 })),
    (38, &[(4, 255)], Some(Index { size: 259, len: 22 })),
    (38, &[(5, 1)], Some(Index { size: 263, len: 22 })),
    (
        38,
        &[(6, 1)],
        Some(Index {
            size: 65543,
            len: 22,
        }),
    ),
    (
        38,
        &[(7, 1)],
        Some(Index {
            size: 16777223,
            len: 22,
        }),
    ),
    (
        38,
        &[(4, 255), (5, 255), (6, 255), (7, 255)],
        Some(Index {
            size: 4294967299,
            len: 22,
        }),
    ),
    (38, &[(8, 0)], Some(Records(Length { len: 19 }))),
    (38, &[(8, 2)], Some(Records(Length { len: 11 }))),
    (38, &[(8, 3)], Some(Records(Length { len: 7 }))),
    (38, &[(8, 4)], Some(Place { index: 0 })),
    (38, &[(8, 5)], Some(Index { size: 23, len: 22 })),
    (
        38,
        &[(8, 255)],
        Some(Index {
            size: 1023,
            len: 22,
        }),
    ),
    (
        38,
        &[(9, 1)],
        Some(Index {
            size: 1031,
            len: 22,
        }),
    ),
    (
        38,
        &[(10, 1)],
        Some(Index {
            size: 262151,
            len: 22,
        }),
    ),
    (
        38,
        &[(11, 1)],
        Some(Index {
            size: 67108871,
            len: 22,
        }),
    ),
    (
        38,
        &[(8, 255), (9, 255), (10, 255), (11, 255)],
        Some(Index {
            size: 17179869183,
            len: 22,
        }),
    ),
    (
        38,
        &[
            (4, 255),
            (5, 255),
            (6, 255),
            (7, 255),
            (8, 255),
            (9, 255),
            (10, 255),
            (11, 255),
        ],
        Some(Index {
            size: 21474836475,
            len: 22,
        }),
    ),
    (23, &[(4, 1)], Some(Records(Length { len: 2 }))),
    (23, &[(8, 2)], Some(Index { size: 11, len: 7 })),
    (23, &[(4, 7), (8, 0)], None),
    (23, &[(4, 8), (8, 0)], Some(Index { size: 8, len: 7 })),
    (16, &[(4, 0), (8, 0)], None),
    (26, &[(4, 0), (8, 0)], Some(Records(Length { len: 10 }))),
];

#[test]
fn another_header_has_its_fault(rt: HostRuntime) {
    for (len, changes, fault) in HEADERS {
        check(&rt, has_fault(*len, changes, *fault), &(len, changes));
    }
}

// The index of each byte after the numbers, another byte, and the fault. A few of them make other tables.
const BYTES: &[(usize, u8, Option<HashedError>)] = &[
    (12, 0xcf, Some(Place { index: 0 })),
    (13, 0x2d, Some(Place { index: 0 })),
    (14, 0x22, Some(Place { index: 0 })),
    (15, 0x0e, Some(Place { index: 0 })),
    (16, 0xe1, Some(Place { index: 2 })),
    (17, 0x7d, Some(Place { index: 0 })),
    (18, 0xc7, Some(Place { index: 1 })),
    (19, 0x03, Some(Place { index: 2 })),
    (20, 0x01, Some(Place { index: 2 })),
    (21, 0x01, Some(Place { index: 2 })),
    (22, 0x01, Some(Place { index: 2 })),
    (23, 0x46, Some(Place { index: 0 })),
    (24, 0x56, Some(Place { index: 0 })),
    (25, 0x53, Some(Place { index: 0 })),
    (26, 0x01, Some(Place { index: 1 })),
    (
        27,
        0x01,
        Some(Records(Parse {
            index: 1,
            fault: ContainsNull,
        })),
    ),
    (
        28,
        0x01,
        Some(Records(Parse {
            index: 1,
            fault: ContainsNull,
        })),
    ),
    (29, 0x56, None),
    (30, 0x54, None),
    (31, 0x45, None),
    (32, 0x42, Some(Place { index: 3 })),
    (33, 0x01, Some(Place { index: 3 })),
    (
        34,
        0x01,
        Some(Records(Parse {
            index: 3,
            fault: ContainsNull,
        })),
    ),
    (35, 0x4b, Some(Place { index: 4 })),
    (36, 0x51, Some(Place { index: 4 })),
    (37, 0x5a, Some(Place { index: 4 })),
    (
        23,
        0xc5,
        Some(Records(Parse {
            index: 0,
            fault: NonAscii,
        })),
    ),
    (
        24,
        0x00,
        Some(Records(Parse {
            index: 0,
            fault: ContainsNull,
        })),
    ),
    (
        28,
        0x80,
        Some(Records(Parse {
            index: 1,
            fault: NonAscii,
        })),
    ),
    (
        30,
        0xff,
        Some(Records(Parse {
            index: 2,
            fault: NonAscii,
        })),
    ),
    (
        37,
        0xd9,
        Some(Records(Parse {
            index: 4,
            fault: NonAscii,
        })),
    ),
];

#[test]
fn another_byte_has_its_fault(rt: HostRuntime) {
    for (index, byte, fault) in BYTES {
        check(
            &rt,
            has_fault(38, &[(*index, *byte)], *fault),
            &(index, byte),
        );
    }
}

// Where there are two faults or more, the first of the header, the version, the numbers of pilots and of moves, the length of the
// records, a record, and its place.
const FIRST_FAULTS: &[(usize, &[(usize, u8)], Option<HashedError>)] = &[
    (15, &[(0, 2)], Some(Header { len: 15 })),
    (16, &[(0, 2)], Some(Version { version: 2 })),
    (38, &[(0, 2), (7, 1)], Some(Version { version: 2 })),
    (38, &[(0, 2), (12, 207)], Some(Version { version: 2 })),
    (
        37,
        &[(7, 1), (12, 0)],
        Some(Index {
            size: 16777223,
            len: 21,
        }),
    ),
    (
        38,
        &[(7, 1), (23, 128)],
        Some(Index {
            size: 16777223,
            len: 22,
        }),
    ),
    (
        38,
        &[(11, 1), (23, 128)],
        Some(Index {
            size: 67108871,
            len: 22,
        }),
    ),
    (37, &[(12, 0)], Some(Records(Length { len: 14 }))),
    (37, &[(23, 128)], Some(Records(Length { len: 14 }))),
    (
        38,
        &[(12, 0), (37, 128)],
        Some(Records(Parse {
            index: 4,
            fault: NonAscii,
        })),
    ),
    (
        38,
        &[(23, 68), (37, 128)],
        Some(Records(Parse {
            index: 4,
            fault: NonAscii,
        })),
    ),
    (
        38,
        &[(29, 128), (34, 1)],
        Some(Records(Parse {
            index: 2,
            fault: NonAscii,
        })),
    ),
    (38, &[(23, 68), (36, 81)], Some(Place { index: 4 })),
    (38, &[(29, 84), (36, 81)], Some(Place { index: 2 })),
];

#[test]
fn the_first_fault_is_named(rt: HostRuntime) {
    for (len, changes, fault) in FIRST_FAULTS {
        check(&rt, has_fault(*len, changes, *fault), &(len, changes));
    }
}

// The texts of the file in other orders, and one of them in place of another, with the first index at which none is found.
const ORDERS: &[(&[&str], usize)] = &[
    (&["", "EUR", "USD", "A", "JPY"], 0),
    (&["JPY", "", "USD", "A", "EUR"], 0),
    (&["EUR", "USD", "", "A", "JPY"], 1),
    (&["EUR", "JPY", "USD", "A", ""], 1),
    (&["EUR", "", "A", "USD", "JPY"], 2),
    (&["EUR", "", "JPY", "A", "USD"], 2),
    (&["EUR", "", "USD", "JPY", "A"], 3),
    (&["JPY", "A", "USD", "", "EUR"], 0),
    (&["USD", "", "USD", "A", "JPY"], 0),
    (&["EUR", "EUR", "USD", "A", "JPY"], 1),
    (&["EUR", "", "", "A", "JPY"], 2),
    (&["EUR", "", "USD", "USD", "JPY"], 3),
    (&["EUR", "", "USD", "A", "EUR"], 4),
    (&["EUR", "", "USD", "A", "A"], 4),
];

#[test]
fn the_first_text_that_is_not_at_its_place_is_named(rt: HostRuntime) -> Result<(), Fail> {
    for (texts, index) in ORDERS {
        check(&rt, is_misplaced_at(rt.alloc(), texts, *index)?, &texts);
    }
    Ok(())
}

// Texts without pilots, with the first index at which the text isn't above the one before it.
const FALLING: &[(&[&str], usize)] = &[
    (&["", ""], 1),
    (&["EUR", "CHF"], 1),
    (&["A", "AB", "AA"], 2),
    (&["A", "B", "B"], 2),
    (&["AB", "A"], 1),
    (&["", "A", "B", "C", "B"], 4),
    (&["JPY", "USD", "EUR", "CHF"], 2),
];

#[test]
fn without_pilots_the_first_text_that_is_not_above_the_one_before_it_is_named(
    rt: HostRuntime,
) -> Result<(), Fail> {
    for (texts, index) in FALLING {
        let file = file::<3>(rt.alloc(), b"\x01\0\0\0\0\0\0\0\0\0\0\0\0\0\0\0", texts)?;
        let fault = HashedTable::<3>::from_bytes(&file).err();
        check(&rt, fault == Some(Place { index: *index }), &texts);
    }
    Ok(())
}

/// Whether these texts, in this order in the file, are rejected because of the one at an index.
fn is_misplaced_at(alloc: Global, texts: &[&str], index: usize) -> Result<bool, AllocError> {
    let (front, _) = FILE.split_at(23);
    let file = file::<3>(alloc, front, texts)?;
    Ok(HashedTable::<3>::from_bytes(&file).err() == Some(Place { index }))
}
