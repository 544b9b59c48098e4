//! The calls of `tinystr`, searches of tables, and the reader of `subtags`, for programs in other languages: each export answers one call
//! for a batch of values, at a capacity and for a call that are given by number, and returns whether it knows both. Texts
//! are passed as arrays of capacity bytes each, one after another. The exports serve to compare and to measure, so each
//! answers its batch in a given number of rounds.
#![tactic(auto)]

mod batch;
mod batches;
mod calls;
mod capacities;
mod cuts;
mod hashing;
mod lang_ids;
mod libraries;
mod numbers;
mod printing;
mod readers;
mod records;
mod tables;

use batches::Batches;
use capacities::At;
use cuts::{concat_batch, resize_batch};
use lang_ids::lang_id_batch;
use printing::display_batch;
use readers::read_bytes_batch;
use records::{records_found, search_batch};

/// A question, the length or the last byte of each text, as a number.
#[unsafe(no_mangle)]
pub extern "C" fn tinystr_exports_ask(
    capacity: usize,
    question: usize,
    rounds: usize,
    texts: &[u8],
    answers: &mut [u8],
) -> bool {
    let batches: &dyn Batches = crate::at_capacity!(capacity, else return false);
    batches.ask(question, rounds, texts, answers)
}

/// Each text in another case, or a copy of it.
#[unsafe(no_mangle)]
pub extern "C" fn tinystr_exports_change(
    capacity: usize,
    case: usize,
    rounds: usize,
    texts: &[u8],
    changed: &mut [u8],
) -> bool {
    let batches: &dyn Batches = crate::at_capacity!(capacity, else return false);
    batches.change(case, rounds, texts, changed)
}

/// The order or the equality of each pair of texts, or the equality of their hashes, as a number.
#[unsafe(no_mangle)]
pub extern "C" fn tinystr_exports_compare(
    capacity: usize,
    relation: usize,
    rounds: usize,
    left: &[u8],
    right: &[u8],
    answers: &mut [u8],
) -> bool {
    let batches: &dyn Batches = crate::at_capacity!(capacity, else return false);
    batches.compare(relation, rounds, left, right, answers)
}

/// Each list of bytes as a reader reads it: list i is from `starts[i]` to `starts[i + 1]`. A fault is written as a number.
#[unsafe(no_mangle)]
pub extern "C" fn tinystr_exports_read8(
    capacity: usize,
    reader: usize,
    rounds: usize,
    units: &[u8],
    starts: &[u32],
    texts: &mut [u8],
    faults: &mut [u32],
) -> bool {
    let batches: &dyn Batches = crate::at_capacity!(capacity, else return false);
    batches.read8(reader, rounds, units, starts, texts, faults)
}

/// The same of code units of 16 bits.
#[unsafe(no_mangle)]
pub extern "C" fn tinystr_exports_read16(
    capacity: usize,
    reader: usize,
    rounds: usize,
    units: &[u16],
    starts: &[u32],
    texts: &mut [u8],
    faults: &mut [u32],
) -> bool {
    let batches: &dyn Batches = crate::at_capacity!(capacity, else return false);
    batches.read16(reader, rounds, units, starts, texts, faults)
}

/// Each text, read from the start of the remaining bytes, up to the first fault.
#[unsafe(no_mangle)]
pub extern "C" fn tinystr_exports_read_bytes(
    capacity: usize,
    rounds: usize,
    bytes: &[u8],
    texts: &mut [u8],
) -> bool {
    crate::at_few_capacities!(capacity, read_bytes_batch, rounds, bytes, texts)
}

/// The decimal text of each number, and 1 where it is cut.
#[unsafe(no_mangle)]
pub extern "C" fn tinystr_exports_decimal(
    capacity: usize,
    rounds: usize,
    numbers: &[u32],
    texts: &mut [u8],
    cuts: &mut [u8],
) -> bool {
    let batches: &dyn Batches = crate::at_capacity!(capacity, else return false);
    batches.decimal(rounds, numbers, texts, cuts)
}

/// Each text at another capacity.
#[unsafe(no_mangle)]
pub extern "C" fn tinystr_exports_resize(
    capacity: usize,
    to: usize,
    rounds: usize,
    texts: &[u8],
    resized: &mut [u8],
) -> bool {
    crate::at_few_capacities!(capacity, resize_batch, to, rounds, texts, resized)
}

/// Each text and then the other one, concatenated at another capacity.
#[unsafe(no_mangle)]
pub extern "C" fn tinystr_exports_concat(
    capacity: usize,
    to: usize,
    rounds: usize,
    first: &[u8],
    second: &[u8],
    joined: &mut [u8],
) -> bool {
    crate::at_few_capacities!(capacity, concat_batch, to, rounds, first, second, joined)
}

/// Each value as it is printed in one form, one after another, and where each ends.
#[unsafe(no_mangle)]
pub extern "C" fn tinystr_exports_print(
    capacity: usize,
    form: usize,
    rounds: usize,
    values: &[u8],
    printed: &mut [u8],
    ends: &mut [u64],
) -> bool {
    let batches: &dyn Batches = crate::at_capacity!(capacity, else return false);
    batches.print(form, rounds, values, printed, ends)
}

/// Each text as it is printed, one after another.
#[unsafe(no_mangle)]
pub extern "C" fn tinystr_exports_display(
    capacity: usize,
    rounds: usize,
    texts: &[u8],
    printed: &mut [u8],
) -> bool {
    crate::at_few_capacities!(capacity, display_batch, rounds, texts, printed)
}

/// What is found of packed records: whether they are packed, or else the first bad one and its fault, as a number.
#[unsafe(no_mangle)]
pub extern "C" fn tinystr_exports_records(
    capacity: usize,
    bytes: &[u8],
    found: &mut [u32],
) -> bool {
    crate::at_few_capacities!(capacity, records_found, bytes, found)
}

/// Call number `call` for each key, in a table, a hashed table or a map: a number for each. Where the bytes are refused, the
/// first is a number for the error.
#[unsafe(no_mangle)]
pub extern "C" fn tinystr_exports_search(
    capacity: usize,
    call: usize,
    bytes: &[u8],
    values: &[u8],
    keys: &[u8],
    answers: &mut [u64],
) -> bool {
    crate::at_few_capacities!(capacity, search_batch, call, bytes, values, keys, answers)
}

/// Each list of bytes as a language identifier: its canonical text at capacity 17, or a number for its error.
#[unsafe(no_mangle)]
pub extern "C" fn tinystr_exports_lang_ids(
    rounds: usize,
    units: &[u8],
    starts: &[u32],
    texts: &mut [u8],
    faults: &mut [u8],
) -> bool {
    lang_id_batch(rounds, units, starts, texts, faults)
}
