//! The calls of `tinystr`, `subtags`, `tinystr_packed` and `tinystr_hashed` for C, which `c/include/tinystr.h` declares. They
//! allocate nothing and keep nothing between calls. No export has a `requires`: each returns a result for any bytes and
//! numbers.
#![tactic(auto)]

mod answer;
mod hashed;
mod langid;
mod messages;
mod numbers;
mod packed;
mod packing;
mod search_each;
mod texts;

ghost use Rattle.std.specs.Prelude.{◌≡◌, length};
ghost use Rattle.tinystr_c.specs.Codes.{bad_argument, no_range, VERSION};
ghost use Rattle.tinystr_c.specs.Hashed.{ChecksHashed, ChecksHashedMap, SearchesHashed, SearchesHashedEach};
ghost use Rattle.tinystr_c.specs.Langid.{langid_answer, langid_bytes, AnswersParts};
ghost use Rattle.tinystr_c.specs.Messages.{message_answer, message_bytes};
ghost use Rattle.tinystr_c.specs.Packing.{PacksHashed, PacksSorted};
ghost use Rattle.tinystr_c.specs.Tables.{IsCapacity, IsValueSize, ChecksTable, ChecksSorted, ChecksMap, Searches, SearchesEach, FindsPrefix};
ghost use Rattle.tinystr_c.specs.Texts.{without_nuls, read_answer, read_bytes, ask_answer, case_answer, case_bytes};

pub use answer::{TinystrParts, TinystrRange, TinystrResult};
use answer::{bad_argument, no_range};
use hashed::{hashed_check, hashed_map_check, hashed_search, hashed_search_each};
use packed::{map_check, sorted_check, sorted_prefix, sorted_search, table_check};
use packing::{hashed_pack, sorted_pack};
use search_each::sorted_search_each;
use texts::without_nuls;

// Calls a function at one of the capacities of records, or returns another value.
macro_rules! at_capacity {
    ($capacity:expr, $call:ident, $other:expr, $($argument:expr),*) => {
        match $capacity {
            2 => $call::<2>($($argument),*),
            3 => $call::<3>($($argument),*),
            4 => $call::<4>($($argument),*),
            8 => $call::<8>($($argument),*),
            16 => $call::<16>($($argument),*),
            _ => $other,
        }
    };
}

/// The version of the library: 10,000 times the first number, 100 times the second, and the third.
#[unsafe(no_mangle)]
pub extern "C" fn tinystr_version() -> u32
    ensures { result ≡ VERSION }
{
    // An imported `VERSION` would be the clause's too, in place of that of specs/Codes.antt.
    numbers::VERSION
}

/// Writes the text of a code, with NULs up to the end of `out`. An error leaves `out` as it was.
#[unsafe(no_mangle)]
pub extern "C" fn tinystr_message(code: u32, out: &mut [u8]) -> TinystrResult
    ensures answer { result ≡ message_answer code (length out.old) }
    ensures bytes { out.new ≡ message_bytes code out.old }
{
    messages::write_message(code, out)
}

/// Reads a language identifier, and writes its canonical text with NULs up to the end of `out`. An error leaves `out` as it
/// was.
#[unsafe(no_mangle)]
pub extern "C" fn tinystr_langid(input: &[u8], out: &mut [u8]) -> TinystrResult
    ensures answer { result ≡ langid_answer input.now (length out.old) }
    ensures bytes { out.new ≡ langid_bytes input.now out.old }
{
    langid::langid(input, out)
}

/// The same, with the places of the subtags, or of the subtag that isn't accepted.
#[unsafe(no_mangle)]
pub extern "C" fn tinystr_langid_parts(input: &[u8], out: &mut [u8]) -> TinystrParts
    ensures answer { AnswersParts result input.now (length out.old) }
    ensures bytes { out.new ≡ langid_bytes input.now out.old }
{
    langid::langid_parts(input, out)
}

/// Reads a text that isn't longer than `out`, and writes it with NULs up to the end of `out`. An error leaves `out`
/// as it was.
#[unsafe(no_mangle)]
pub extern "C" fn tinystr_read(input: &[u8], out: &mut [u8]) -> TinystrResult
    ensures answer { result ≡ read_answer input.now (length out.old) }
    ensures bytes { out.new ≡ read_bytes input.now out.old }
{
    texts::read(input, out)
}

/// The answer to a question about a text, which may have NULs after it.
#[unsafe(no_mangle)]
pub extern "C" fn tinystr_ask(text: &[u8], question: u32) -> TinystrResult
    ensures { result ≡ ask_answer text.now question }
{
    texts::ask(text, question)
}

/// Changes the case of a text, which may have NULs after it, in place. An error leaves it as it was.
#[unsafe(no_mangle)]
pub extern "C" fn tinystr_change_case(text: &mut [u8], case: u32) -> TinystrResult
    ensures answer { result ≡ case_answer text.old case }
    ensures bytes { text.new ≡ case_bytes text.old case }
{
    texts::change_case(text, case)
}

/// Whether bytes are packed records of `capacity` bytes.
#[unsafe(no_mangle)]
pub extern "C" fn tinystr_table_check(bytes: &[u8], capacity: usize) -> TinystrResult
    ensures capacity { ¬ IsCapacity capacity → result ≡ bad_argument capacity }
    ensures checked { IsCapacity capacity → ChecksTable result bytes.now capacity }
{
    at_capacity!(capacity, table_check, bad_argument(capacity), bytes)
}

/// Whether bytes are packed records of `capacity` bytes, and strictly ascending: each text is above the one before it.
#[unsafe(no_mangle)]
pub extern "C" fn tinystr_sorted_check(bytes: &[u8], capacity: usize) -> TinystrResult
    ensures capacity { ¬ IsCapacity capacity → result ≡ bad_argument capacity }
    ensures checked { IsCapacity capacity → ChecksSorted result bytes.now capacity }
{
    at_capacity!(capacity, sorted_check, bad_argument(capacity), bytes)
}

/// Puts packed records in order in place. `scratch` must have as many bytes, and ends with any. An error but DUPLICATE leaves
/// the records as they were.
#[unsafe(no_mangle)]
pub extern "C" fn tinystr_sorted_pack(
    bytes: &mut [u8],
    capacity: usize,
    scratch: &mut [u8],
) -> TinystrResult
    ensures capacity { ¬ IsCapacity capacity → (result ≡ bad_argument capacity) × (bytes.new ≡ bytes.old) }
    ensures packed { IsCapacity capacity → PacksSorted result bytes.old bytes.new (length scratch.old) capacity }
{
    at_capacity!(
        capacity,
        sorted_pack,
        bad_argument(capacity),
        bytes,
        scratch
    )
}

/// The index of a text, which may have NULs after it, among packed records that are strictly ascending, or the index at
/// which it belongs. The records aren't checked again: of any other bytes it is a place inside them.
#[unsafe(no_mangle)]
pub extern "C" fn tinystr_sorted_search(bytes: &[u8], capacity: usize, key: &[u8]) -> TinystrResult
    ensures capacity { ¬ IsCapacity capacity → result ≡ bad_argument capacity }
    ensures searched { IsCapacity capacity → Searches result bytes.now (without_nuls key.now) capacity }
{
    at_capacity!(
        capacity,
        sorted_search,
        bad_argument(capacity),
        bytes,
        without_nuls(key)
    )
}

/// Puts an answer for each of some keys, which are packed records too, at the start of `out`. Of packed records that
/// are strictly ascending it is that of `tinystr_sorted_search`. The records aren't checked again: of any other bytes
/// it is a place inside them, which may differ from what `tinystr_sorted_search` returns. Any code but OK leaves `out`
/// as it was, and OK leaves what is after the answers.
#[unsafe(no_mangle)]
pub extern "C" fn tinystr_sorted_search_each(
    bytes: &[u8],
    capacity: usize,
    keys: &[u8],
    out: &mut [TinystrResult],
) -> TinystrResult
    ensures capacity { ¬ IsCapacity capacity → (result ≡ bad_argument capacity) × (out.new ≡ out.old) }
    ensures searched { IsCapacity capacity → SearchesEach result out.old out.new bytes.now keys.now capacity }
{
    at_capacity!(
        capacity,
        sorted_search_each,
        bad_argument(capacity),
        bytes,
        keys,
        out
    )
}

/// The range of the texts with a prefix, which may have NULs after it, among packed records that are strictly ascending. The
/// records aren't checked again: of any other bytes it is a range inside them.
#[unsafe(no_mangle)]
pub extern "C" fn tinystr_sorted_prefix(
    bytes: &[u8],
    capacity: usize,
    beginning: &[u8],
) -> TinystrRange
    ensures capacity { ¬ IsCapacity capacity → result ≡ no_range (bad_argument capacity) }
    ensures found { IsCapacity capacity → FindsPrefix result bytes.now (without_nuls beginning.now) capacity }
{
    at_capacity!(
        capacity,
        sorted_prefix,
        no_range(bad_argument(capacity)),
        bytes,
        without_nuls(beginning)
    )
}

/// Whether bytes are the packed keys of a map, which are strictly ascending, and its values of `value_size` bytes.
#[unsafe(no_mangle)]
pub extern "C" fn tinystr_map_check(
    keys: &[u8],
    capacity: usize,
    values: &[u8],
    value_size: usize,
) -> TinystrResult
    ensures capacity { ¬ IsCapacity capacity → result ≡ bad_argument capacity }
    ensures value_size { IsCapacity capacity → ¬ IsValueSize value_size → result ≡ bad_argument value_size }
    ensures checked { IsCapacity capacity → IsValueSize value_size →
        ChecksMap result keys.now values.now capacity value_size }
{
    at_capacity!(
        capacity,
        map_check,
        bad_argument(capacity),
        keys,
        values,
        value_size
    )
}

/// Whether bytes are a hashed table of texts of at most `capacity` bytes.
#[unsafe(no_mangle)]
pub extern "C" fn tinystr_hashed_check(bytes: &[u8], capacity: usize) -> TinystrResult
    ensures capacity { ¬ IsCapacity capacity → result ≡ bad_argument capacity }
    ensures checked { IsCapacity capacity → ChecksHashed result bytes.now capacity }
{
    at_capacity!(capacity, hashed_check, bad_argument(capacity), bytes)
}

/// Packs the texts of packed records, no two of which may be equal, as a hashed table at the start of `out`. The value is how
/// many bytes it has. `out` and `scratch` must have room, and end with any other bytes. An error but DUPLICATE leaves `out` as it
/// was.
#[unsafe(no_mangle)]
pub extern "C" fn tinystr_hashed_pack(
    bytes: &[u8],
    capacity: usize,
    out: &mut [u8],
    scratch: &mut [u8],
) -> TinystrResult
    ensures capacity { ¬ IsCapacity capacity → (result ≡ bad_argument capacity) × (out.new ≡ out.old) }
    ensures packed { IsCapacity capacity → PacksHashed result bytes.now out.old out.new (length scratch.old) capacity }
{
    at_capacity!(
        capacity,
        hashed_pack,
        bad_argument(capacity),
        bytes,
        out,
        scratch
    )
}

/// The index of a text, which may have NULs after it, in a hashed table, or that the table doesn't have it. The bytes aren't
/// checked again: of any others an index is inside their records.
#[unsafe(no_mangle)]
pub extern "C" fn tinystr_hashed_search(bytes: &[u8], capacity: usize, key: &[u8]) -> TinystrResult
    ensures capacity { ¬ IsCapacity capacity → result ≡ bad_argument capacity }
    ensures searched { IsCapacity capacity → SearchesHashed result bytes.now (without_nuls key.now) capacity }
{
    at_capacity!(
        capacity,
        hashed_search,
        bad_argument(capacity),
        bytes,
        without_nuls(key)
    )
}

/// Puts an answer for each of some keys, which are packed records, at the start of `out`. Of a hashed table it is that of
/// `tinystr_hashed_search`. The table isn't checked again: of any other bytes it is an index inside their records, or that the
/// key isn't there, which may differ from what `tinystr_hashed_search` returns. Any code but OK leaves `out` as it was, and OK
/// leaves what is after the answers.
#[unsafe(no_mangle)]
pub extern "C" fn tinystr_hashed_search_each(
    bytes: &[u8],
    capacity: usize,
    keys: &[u8],
    out: &mut [TinystrResult],
) -> TinystrResult
    ensures capacity { ¬ IsCapacity capacity → (result ≡ bad_argument capacity) × (out.new ≡ out.old) }
    ensures searched { IsCapacity capacity → SearchesHashedEach result out.old out.new bytes.now keys.now capacity }
{
    at_capacity!(
        capacity,
        hashed_search_each,
        bad_argument(capacity),
        bytes,
        keys,
        out
    )
}

/// Whether bytes are the keys of a map, which are a hashed table, and its values of `value_size` bytes.
#[unsafe(no_mangle)]
pub extern "C" fn tinystr_hashed_map_check(
    keys: &[u8],
    capacity: usize,
    values: &[u8],
    value_size: usize,
) -> TinystrResult
    ensures capacity { ¬ IsCapacity capacity → result ≡ bad_argument capacity }
    ensures value_size { IsCapacity capacity → ¬ IsValueSize value_size → result ≡ bad_argument value_size }
    ensures checked { IsCapacity capacity → IsValueSize value_size →
        ChecksHashedMap result keys.now values.now capacity value_size }
{
    at_capacity!(
        capacity,
        hashed_map_check,
        bad_argument(capacity),
        keys,
        values,
        value_size
    )
}
