//! Inputs of the line program, of all commands and capacities, answered by its engine.

use crate::cells::Cells;
use crate::digest::Digest;
use crate::random::{LOWERCASE, MIXED, Random, UPPERCASE, push_word};
use std::alloc::{AllocError, Global};
use tinystr_lines::engine::{RunError, run as answer};

const COUNT: usize = 250_000;

// How many of the lines differ: more than a processor learns.
const DIFFERENT: u32 = 8_192;

const CAPACITIES: [&[u8]; 11] = [
    b"0", b"1", b"2", b"3", b"4", b"5", b"8", b"9", b"16", b"17", b"32",
];

const COMMANDS: [&[u8]; 17] = [
    b"text",
    b"len",
    b"alphabetic",
    b"alphanumeric",
    b"numeric",
    b"lowercase",
    b"titlecase",
    b"uppercase",
    b"alphabetic_lowercase",
    b"alphabetic_titlecase",
    b"alphabetic_uppercase",
    b"lower",
    b"title",
    b"upper",
    b"lossy",
    b"records",
    b"locale",
];

const LOCALES: [&[u8]; 12] = [
    b"en-US",
    b"de",
    b"zh_hant_tw",
    b"EN_us",
    b"fr-CA",
    b"es-419",
    b"en-US-posix",
    b"e",
    b"sr-Latn",
    b"ja-JP",
    b"pt_BR",
    b"hsb-DE",
];

// Lines that are none.
const BAD: [&[u8]; 8] = [
    b"",
    b"8",
    b"tEsT",
    b"7 len a",
    b"8 length a",
    b" len a",
    b"8  a",
    b"16 TEXT abc",
];

/// Has the engine answer one input.
pub fn run(alloc: Global, random: &mut Random, digest: &mut Digest) -> Result<(), RunError> {
    let input = make_input(alloc, random)?;
    let mut output = Vec::new(alloc);
    answer(alloc, &mut input.as_slice(), &mut output)?;
    digest.add_bytes(output.as_slice());
    Ok(())
}

#[inline(never)]
fn make_input(alloc: Global, random: &mut Random) -> Result<Vec<u8>, AllocError> {
    let mut lines = Cells::new(alloc);
    for _ in 0..DIFFERENT {
        push_line(lines.bytes(), random)?;
        lines.bytes().push(b'\n')?;
        lines.end()?;
    }
    let mut input = Vec::new(alloc);
    for _ in 0..COUNT {
        input.extend_from_slice(lines.get(random.below(DIFFERENT)))?;
    }
    Ok(input)
}

fn push_line(line: &mut Vec<u8>, random: &mut Random) -> Result<(), AllocError> {
    let kind = random.below(100);
    if kind < 4 {
        return line.extend_from_slice(random.one_of(&BAD));
    }
    line.extend_from_slice(random.one_of(&CAPACITIES))?;
    line.push(b' ')?;
    if kind < 12 {
        line.extend_from_slice(b"locale ")?;
        return line.extend_from_slice(random.one_of(&LOCALES));
    }
    line.extend_from_slice(random.one_of(&COMMANDS))?;
    line.push(b' ')?;
    push_text(line, random, kind)
}

fn push_text(line: &mut Vec<u8>, random: &mut Random, kind: usize) -> Result<(), AllocError> {
    let letters = match kind % 3 {
        0 => LOWERCASE,
        1 => UPPERCASE,
        _ => MIXED,
    };
    let len = random.below(9);
    push_word(line, random, letters, len)?;
    if kind < 40 {
        push_word(line, random, letters, 8)?;
    }
    if kind < 20 {
        push_word(line, random, letters, len)?;
    }
    if kind >= 96 {
        line.push(0xe9)?;
    }
    Ok(())
}
