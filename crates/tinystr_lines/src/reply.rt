//! The reply to a line.

ghost use Rattle.std.specs.Prelude.{◌≡◌, ◌<◌, ◌≤◌, ◌^◌, [], ◌++◌, codes, length, take, true, is_some, IfSome, OnOk, Some};
ghost use Rattle.std.specs.Option.{option_map_or};
ghost use Rattle.std.specs.Fmt.{decimal};
ghost use Rattle.tinystr.specs.Error.{fault_of};
ghost use Rattle.tinystr_words.specs.Reading.{lossy};
ghost use Rattle.tinystr_words.specs.Reading.Fault.{too_long};
ghost use Rattle.tinystr_lines.specs.Reply.{capacity_of, replacement, fault_text, truth_text, bad_index_text, answer_of, call_reply, records_reply, locale_reply, fields_reply, reply};

use crate::command::{Command, TextCall};
use crate::split::{split_at_first, split_once};
use std::alloc::AllocError;
use std::io::Write;
use subtags::LangId;
use tinystr::ule::UleError;
use tinystr::{ParseError, TinyAsciiStr};

// What the lossy reader puts for a code unit that isn't a character.
const REPLACEMENT: u8 = b'?';

// Calls a function at the capacity that a field spells, or returns another value.
macro_rules! at_capacity {
    ($field:expr, $call:ident, $other:expr, $($argument:expr),*) => {
        match $field {
            b"0" => $call::<0>($($argument),*),
            b"1" => $call::<1>($($argument),*),
            b"2" => $call::<2>($($argument),*),
            b"3" => $call::<3>($($argument),*),
            b"4" => $call::<4>($($argument),*),
            b"5" => $call::<5>($($argument),*),
            b"8" => $call::<8>($($argument),*),
            b"9" => $call::<9>($($argument),*),
            b"16" => $call::<16>($($argument),*),
            b"17" => $call::<17>($($argument),*),
            b"32" => $call::<32>($($argument),*),
            _ => $other,
        }
    };
}

// Appends the first bytes of an array. All of it is copied and cut, since a copy of a known length is faster.
fn push_beginning<const N: usize>(
    out: &mut Vec<u8>,
    bytes: &[u8; N],
    len: usize,
) -> Result<(), AllocError>
    requires { len ≤ N }
    ensures { OnOk result (out.new.items ≡ out.old.items ++ take len bytes.now) }
{
    let end = out.len() + len;
    out.extend_from_slice(bytes)?;
    out.truncate(end);
    Ok(())
}

fn push_text<const N: usize>(out: &mut Vec<u8>, text: TinyAsciiStr<N>) -> Result<(), AllocError>
    ensures { OnOk result (out.new.items ≡ out.old.items ++ text.entry) }
{
    push_beginning(out, text.all_bytes(), text.len())
}

/// Appends the digits of a number. Those of a number below 2^32 are made without `write!`, since that is faster.
#[inline(never)]
pub fn push_large_number(out: &mut Vec<u8>, number: usize) -> Result<(), AllocError>
    ensures { OnOk result (out.new.items ≡ out.old.items ++ decimal number) }
{
    if let Ok(small) = u32::try_from(number)
        && let Ok(digits) = TinyAsciiStr::<10>::new_unsigned_decimal(small)
    {
        return push_text(out, digits);
    }
    write!(out, "{number}").or(Err(AllocError))
}

// Speed: most numbers are below a hundred, and their digits are appended in one step.
#[tactic(auto, using(std::proofs::lemmas::Fmt::decimal_digit, std::proofs::lemmas::Fmt::decimal_step))]
fn push_number(out: &mut Vec<u8>, number: usize) -> Result<(), AllocError>
    ensures { OnOk result (out.new.items ≡ out.old.items ++ decimal number) }
{
    if number < 10 {
        return out.extend_from_slice(&[b'0' + number as u8]);
    }
    if number < 100 {
        return out.extend_from_slice(&[b'0' + (number / 10) as u8, b'0' + (number % 10) as u8]);
    }
    push_large_number(out, number)
}

fn push_truth(out: &mut Vec<u8>, truth: bool) -> Result<(), AllocError>
    ensures { OnOk result (out.new.items ≡ out.old.items ++ truth_text truth) }
{
    let (padded, len) = if truth { (b"true ", 4) } else { (b"false", 5) };
    push_beginning(out, padded, len)
}

fn push_too_long(out: &mut Vec<u8>, max: usize, len: usize) -> Result<(), AllocError>
    ensures { OnOk result (out.new.items ≡ out.old.items ++ fault_text (too_long max len)) }
{
    out.extend_from_slice(b"too long ")?;
    push_number(out, len)?;
    out.extend_from_slice(b" > ")?;
    push_number(out, max)
}

fn push_fault(out: &mut Vec<u8>, fault: ParseError) -> Result<(), AllocError>
    ensures { OnOk result (out.new.items ≡ out.old.items ++ fault_text (fault_of fault)) }
{
    match fault {
        ParseError::TooLong { max, len } => push_too_long(out, max, len),
        ParseError::ContainsNull => out.extend_from_slice(b"contains null"),
        ParseError::NonAscii => out.extend_from_slice(b"non ascii"),
    }
}

// Appends what a call on a text returns.
fn push_answer<const N: usize>(
    out: &mut Vec<u8>,
    call: TextCall,
    text: TinyAsciiStr<N>,
) -> Result<(), AllocError>
    ensures { OnOk result (out.new.items ≡ out.old.items ++ answer_of call text.entry) }
{
    match call {
        TextCall::Text => push_text(out, text),
        TextCall::Len => push_number(out, text.len()),
        TextCall::Ask(question) => push_truth(out, text.ask(question)),
        TextCall::Change(case) => push_text(out, text.in_case(case)),
    }
}

// Appends what a call returns of the text that the code units are, or their fault.
#[tactic(auto, using(crate::proofs::Replies::strict_texts), unfolding(crate::specs::Reply::call_reply))]
fn push_call_reply_at_const<const N: usize>(
    out: &mut Vec<u8>,
    call: TextCall,
    units: &[u8],
) -> Result<(), AllocError>
    // No array is of 2^63 bytes or more.
    requires { N < 2 ^ 63 }
    ensures { OnOk result (out.new.items ≡ out.old.items ++ call_reply N call units.now) }
{
    match TinyAsciiStr::<N>::try_from_utf8(units) {
        Ok(text) => push_answer(out, call, text),
        Err(fault) => push_fault(out, fault),
    }
}

// Does the same at a run-time capacity. A text that isn't too long gets the same reply at each capacity that holds it, so code
// for two of them suffices, and is faster than a choice among all.
#[tactic(auto, using(crate::proofs::Replies::call_replies))]
fn push_call_reply_at_run_time(
    out: &mut Vec<u8>,
    capacity: usize,
    call: TextCall,
    units: &[u8],
) -> Result<(), AllocError>
    requires { capacity ≤ 32 }
    ensures { OnOk result (out.new.items ≡ out.old.items ++ call_reply capacity call units.now) }
{
    let len = units.len();
    if capacity < len {
        return push_too_long(out, capacity, len);
    }
    if len <= 8 {
        return push_call_reply_at_const::<8>(out, call, units);
    }
    push_call_reply_at_const::<32>(out, call, units)
}

// Appends the text that the lossy reader makes at a capacity.
fn push_lossy_reply(out: &mut Vec<u8>, capacity: usize, units: &[u8]) -> Result<(), AllocError>
    requires { capacity ≤ 32 }
    ensures { OnOk result
        (out.new.items ≡ out.old.items ++ lossy units.now replacement capacity) }
{
    let read = &units[..capacity.min(units.len())];
    push_text(out, TinyAsciiStr::<32>::from_utf8_lossy(read, REPLACEMENT))
}

fn push_count(out: &mut Vec<u8>, count: usize) -> Result<(), AllocError>
    ensures { OnOk result (out.new.items ≡ out.old.items ++ (codes "ok " ++ decimal count)) }
{
    out.extend_from_slice(b"ok ")?;
    push_number(out, count)
}

fn push_bad_length(out: &mut Vec<u8>, len: usize) -> Result<(), AllocError>
    ensures { OnOk result (out.new.items ≡ out.old.items ++ (codes "bad length " ++ decimal len)) }
{
    out.extend_from_slice(b"bad length ")?;
    push_number(out, len)
}

fn push_bad_index(out: &mut Vec<u8>, index: usize) -> Result<(), AllocError>
    ensures { OnOk result (out.new.items ≡ out.old.items ++ bad_index_text index) }
{
    out.extend_from_slice(b"bad record ")?;
    push_number(out, index)?;
    out.extend_from_slice(b" ")
}

fn push_bad_record(out: &mut Vec<u8>, index: usize, fault: ParseError) -> Result<(), AllocError>
    ensures { OnOk result
        (out.new.items ≡ out.old.items ++ (bad_index_text index ++ fault_text (fault_of fault))) }
{
    push_bad_index(out, index)?;
    push_fault(out, fault)
}

// Appends whether the bytes are packed records of `N` bytes.
#[tactic(auto, using(crate::proofs::Replies::records_replies), unfolding(crate::specs::Reply::records_reply))]
fn push_records_reply_at_const<const N: usize>(
    out: &mut Vec<u8>,
    bytes: &[u8],
) -> Result<(), AllocError>
    requires { N < 2 ^ 63 }
    ensures { OnOk result (out.new.items ≡ out.old.items ++ records_reply N bytes.now) }
{
    if N == 0 {
        return out.extend_from_slice(b"bad capacity");
    }
    match TinyAsciiStr::<N>::validate_bytes(bytes) {
        Ok(()) => push_count(out, bytes.len() / N),
        Err(UleError::Length { len }) => push_bad_length(out, len),
        Err(UleError::Parse { index, fault }) => push_bad_record(out, index, fault),
    }
}

// Appends the canonical text of a language identifier, or its refusal.
#[tactic(auto, unfolding(crate::specs::Reply::locale_reply))]
fn push_locale_reply(out: &mut Vec<u8>, units: &[u8]) -> Result<(), AllocError>
    ensures { OnOk result (out.new.items ≡ out.old.items ++ locale_reply units.now) }
{
    match LangId::try_from_utf8(units) {
        Ok(id) => push_text(out, id.to_text()),
        Err(error) => write!(out, "{error}").or(Err(AllocError)),
    }
}

// Appends whether the bytes are packed records, at the capacity that a field spells.
#[tactic(auto, unfolding(crate::specs::Reply::capacity_of))]
fn push_records_reply_at_run_time(
    out: &mut Vec<u8>,
    capacity_field: &[u8],
    bytes: &[u8],
) -> Result<(), AllocError>
    requires { is_some (capacity_of capacity_field.now) ≡ true }
    ensures { OnOk result (out.new.items ≡ out.old.items
        ++ option_map_or (λ n. records_reply n bytes.now) (capacity_of capacity_field.now) []) }
{
    at_capacity!(
        capacity_field,
        push_records_reply_at_const,
        push_records_reply_at_const::<0>(out, bytes),
        out,
        bytes
    )
}

// A capacity that is known when the program is built.
fn known_capacity<const N: usize>() -> Option<usize>
    ensures { result ≡ Some N }
{
    Some(N)
}

// The capacity that a field spells.
#[tactic(auto, unfolding(crate::specs::Reply::capacity_of))]
fn parse_capacity(field: &[u8]) -> Option<usize>
    ensures value { result ≡ capacity_of field.now }
    ensures bound { IfSome result (λ n. n ≤ 32) }
{
    at_capacity!(field, known_capacity, None,)
}

// Appends the reply to the fields of a line.
#[tactic(auto, unfolding(crate::specs::Reply::fields_reply))]
fn push_fields_reply(
    out: &mut Vec<u8>,
    capacity_field: &[u8],
    field: &[u8],
    units: &[u8],
) -> Result<(), AllocError>
    ensures { OnOk result
        (out.new.items ≡ out.old.items ++ fields_reply capacity_field.now field.now units.now) }
{
    let Some(capacity) = parse_capacity(capacity_field) else {
        return out.extend_from_slice(b"bad capacity");
    };
    match Command::parse(field) {
        Some(Command::OnText(call)) => push_call_reply_at_run_time(out, capacity, call, units),
        Some(Command::Lossy) => push_lossy_reply(out, capacity, units),
        Some(Command::Records) => push_records_reply_at_run_time(out, capacity_field, units),
        Some(Command::Locale) => push_locale_reply(out, units),
        None => out.extend_from_slice(b"bad command"),
    }
}

/// Appends the reply to a line that `ahead` begins with. Neither the line nor the reply has its line feed.
#[tactic(auto, unfolding(crate::specs::Reply::reply))]
pub fn push_line_reply(out: &mut Vec<u8>, line: &[u8], ahead: &[u8]) -> Result<(), AllocError>
    requires { line.now ≡ take (length line.now) ahead.now }
    ensures { OnOk result (out.new.items ≡ out.old.items ++ reply line.now) }
{
    let Some((capacity, rest, ahead)) = split_once(line, ahead, b' ') else {
        return out.extend_from_slice(b"bad line");
    };
    let (field, units) = split_at_first(rest, ahead, b' ');
    push_fields_reply(out, capacity, field, units)
}
