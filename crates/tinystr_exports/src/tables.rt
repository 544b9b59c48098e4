//! Searches of tables, of hashed tables and of maps. The programs in Rust of diff/ read this file too.

use crate::libraries::{
    HashedError, HashedMap, HashedMapError, HashedTable, HashedTextMap, HashedTextMapError,
    MapError, NotRising, PackedMap, ParseError, SortedError, SortedTable, TextMap, TextMapError,
    TinyAsciiStr, UleError, position, search, with_prefix,
};
use crate::numbers::{
    FIND_TEXT, GET, GET_EACH, GET_TEXT, HASHED_FIND_TEXT, HASHED_GET, HASHED_GET_TEXT, POSITION,
    POSITION_IN_PLACE, PREFIX, PREFIX_IN_PLACE, SEARCH, SEARCH_EACH, SEARCH_IN_PLACE,
};

/// The highest capacity of a table here.
const MOST: usize = 128;

/// The capacity of a key that isn't the table's.
const OTHER: usize = 8;

// Writes a number for each key, while there is room.
macro_rules! answer_each {
    ($answers:ident, $keys:expr, $key:ident => $number:expr) => {
        for (answer, $key) in $answers.iter_mut().zip($keys) {
            *answer = $number;
        }
    };
}

/// Answers call number `call` for each key: of records, of a hashed table, or of either and values of 4 bytes or texts of 8.
/// Where the bytes are refused, the first answer is a number for the error. False where there is no such call, or the
/// capacity is none of a table.
pub fn search_each<const N: usize>(
    call: usize,
    bytes: &[u8],
    values: &[u8],
    keys: &[TinyAsciiStr<N>],
    answers: &mut [u64],
) -> bool {
    if N == 0 || N > MOST {
        return false;
    }
    let fault = match call {
        SEARCH | SEARCH_EACH | FIND_TEXT | PREFIX => in_sorted(call, bytes, keys, answers),
        GET | GET_EACH => in_map(call, bytes, values, keys, answers),
        GET_TEXT => in_text_map(bytes, values, keys, answers),
        POSITION | HASHED_FIND_TEXT => in_hashed(call, bytes, keys, answers),
        HASHED_GET => in_hashed_map(bytes, values, keys, answers),
        HASHED_GET_TEXT => in_hashed_text_map(bytes, values, keys, answers),
        SEARCH_IN_PLACE | PREFIX_IN_PLACE | POSITION_IN_PLACE => {
            in_place(call, bytes, keys, answers)
        }
        _ => return false,
    };
    if fault > 0 {
        if let Some(first) = answers.first_mut() {
            *first = fault;
        }
    }
    true
}

// Each of these returns 0, or a number for an error.

fn in_sorted<const N: usize>(
    call: usize,
    bytes: &[u8],
    keys: &[TinyAsciiStr<N>],
    answers: &mut [u64],
) -> u64 {
    if N == 0 || N > MOST {
        return 0;
    }
    let sorted = match SortedTable::<N>::from_bytes(bytes) {
        Ok(sorted) => sorted,
        Err(fault) => return of_sorted(fault),
    };
    match call {
        SEARCH => answer_each!(answers, keys, key => of_search(sorted.binary_search(key))),
        FIND_TEXT => {
            answer_each!(answers, keys, key => of_place(sorted.find_text(&key.resize::<OTHER>())))
        }
        PREFIX => answer_each!(answers, keys, key => sorted.with_prefix(key).len() as u64),
        _ => answer_each!(answers, sorted.binary_search_each(keys), found => of_search(found)),
    }
    0
}

fn in_map<const N: usize>(
    call: usize,
    bytes: &[u8],
    values: &[u8],
    keys: &[TinyAsciiStr<N>],
    answers: &mut [u64],
) -> u64 {
    if N == 0 || N > MOST {
        return 0;
    }
    let map = match PackedMap::<N, 4>::new(bytes, values) {
        Ok(map) => map,
        Err(MapError::Keys(fault)) => return of_records(fault),
        Err(MapError::Order(fault)) => return of_order(fault),
        Err(MapError::Values { keys, len }) => return of_count(keys, len),
    };
    match call {
        GET => answer_each!(answers, keys, key => of_value(map.get(key))),
        _ => answer_each!(answers, map.get_each(keys), value => of_value(value)),
    }
    0
}

fn in_text_map<const N: usize>(
    bytes: &[u8],
    values: &[u8],
    keys: &[TinyAsciiStr<N>],
    answers: &mut [u64],
) -> u64 {
    if N == 0 || N > MOST {
        return 0;
    }
    let map = match TextMap::<N, OTHER>::new(bytes, values) {
        Ok(map) => map,
        Err(TextMapError::Keys(fault)) => return of_sorted(fault),
        Err(TextMapError::Values(fault)) => return of_records(fault),
        Err(TextMapError::Count { keys, values }) => return of_count(keys, values),
    };
    answer_each!(answers, keys, key => of_text(map.get(key)));
    0
}

fn in_hashed<const N: usize>(
    call: usize,
    bytes: &[u8],
    keys: &[TinyAsciiStr<N>],
    answers: &mut [u64],
) -> u64 {
    if N == 0 || N > MOST {
        return 0;
    }
    let hashed = match HashedTable::<N>::from_bytes(bytes) {
        Ok(hashed) => hashed,
        Err(fault) => return of_hashed(fault),
    };
    match call {
        POSITION => answer_each!(answers, keys, key => of_place(hashed.position(key))),
        _ => answer_each!(answers, keys, key => of_place(hashed.find_text(&key.resize::<OTHER>()))),
    }
    0
}

fn in_hashed_map<const N: usize>(
    bytes: &[u8],
    values: &[u8],
    keys: &[TinyAsciiStr<N>],
    answers: &mut [u64],
) -> u64 {
    if N == 0 || N > MOST {
        return 0;
    }
    let map = match HashedMap::<N, 4>::new(bytes, values) {
        Ok(map) => map,
        Err(HashedMapError::Keys(fault)) => return of_hashed(fault),
        Err(HashedMapError::Values { keys, len }) => return of_count(keys, len),
    };
    answer_each!(answers, keys, key => of_value(map.get(key)));
    0
}

fn in_hashed_text_map<const N: usize>(
    bytes: &[u8],
    values: &[u8],
    keys: &[TinyAsciiStr<N>],
    answers: &mut [u64],
) -> u64 {
    if N == 0 || N > MOST {
        return 0;
    }
    let map = match HashedTextMap::<N, OTHER>::new(bytes, values) {
        Ok(map) => map,
        Err(HashedTextMapError::Keys(fault)) => return of_hashed(fault),
        Err(HashedTextMapError::Values(fault)) => return of_records(fault),
        Err(HashedTextMapError::Count { keys, values }) => return of_count(keys, values),
    };
    answer_each!(answers, keys, key => of_text(map.get(key)));
    0
}

// Any bytes, which aren't checked.
fn in_place<const N: usize>(
    call: usize,
    bytes: &[u8],
    keys: &[TinyAsciiStr<N>],
    answers: &mut [u64],
) -> u64 {
    if N == 0 || N > MOST {
        return 0;
    }
    match call {
        SEARCH_IN_PLACE => answer_each!(answers, keys, key => of_search(search(bytes, key))),
        POSITION_IN_PLACE => answer_each!(answers, keys, key => of_place(position(bytes, key))),
        _ => answer_each!(answers, keys, key => of_range(with_prefix(bytes, key))),
    }
    0
}

// The numbers of results, and of errors with an index or a length.

fn of_search(found: Result<usize, usize>) -> u64 {
    match found {
        Ok(index) => numbered(index, 1),
        Err(place) => numbered(place, 0),
    }
}

fn of_place(found: Option<usize>) -> u64 {
    match found {
        Some(index) => numbered(index, 1),
        None => 0,
    }
}

fn of_range(found: (usize, usize)) -> u64 {
    numbered(found.0.wrapping_mul(1 << 20).wrapping_add(found.1), 0)
}

fn of_value(found: Option<&[u8; 4]>) -> u64 {
    match found {
        Some(value) => u64::from(u32::from_le_bytes(*value)),
        None => u64::MAX,
    }
}

fn of_text(found: Option<TinyAsciiStr<OTHER>>) -> u64 {
    match found {
        Some(text) => u64::from_le_bytes(*text.all_bytes()),
        None => u64::MAX,
    }
}

fn numbered(number: usize, kind: u64) -> u64 {
    (number as u64).wrapping_mul(16).wrapping_add(kind)
}

fn of_records(fault: UleError) -> u64 {
    match fault {
        UleError::Length { len } => numbered(len, 1),
        UleError::Parse { index, fault } => match fault {
            ParseError::ContainsNull => numbered(index, 2),
            ParseError::NonAscii => numbered(index, 3),
            _ => numbered(index, 4),
        },
    }
}

fn of_order(fault: NotRising) -> u64 {
    numbered(fault.index, 5)
}

fn of_sorted(fault: SortedError) -> u64 {
    match fault {
        SortedError::Records(fault) => of_records(fault),
        SortedError::Order(fault) => of_order(fault),
    }
}

fn of_hashed(fault: HashedError) -> u64 {
    match fault {
        HashedError::Header { len } => numbered(len, 6),
        HashedError::Version { version } => numbered(version as usize, 7),
        HashedError::Index { size, len } => {
            numbered(size.wrapping_mul(1 << 20).wrapping_add(len), 8)
        }
        HashedError::Records(fault) => of_records(fault),
        HashedError::Place { index } => numbered(index, 9),
    }
}

fn of_count(keys: usize, values: usize) -> u64 {
    numbered(keys.wrapping_mul(1 << 20).wrapping_add(values), 10)
}
