//! A list of language identifiers, as a log of `Accept-Language` has them: read, counted, taken apart, sorted, printed.

use crate::cells::Cells;
use crate::digest::Digest;
use crate::random::{LOWERCASE, Random, push_word};
use std::alloc::{AllocError, Global};
use std::collections::{BTreeMap, HashMap};
use subtags::{LangId, Language};

const COUNT: usize = 100_000;

// What most lines are.
const COMMON: [&[u8]; 40] = [
    b"en-US",
    b"en-US",
    b"en-US",
    b"en-US",
    b"en-US",
    b"en-US",
    b"en-US",
    b"en-US",
    b"en",
    b"en",
    b"en-GB",
    b"en-GB",
    b"de",
    b"de",
    b"de-DE",
    b"de-AT",
    b"fr",
    b"fr-FR",
    b"fr-CA",
    b"es",
    b"es-ES",
    b"es-419",
    b"es-MX",
    b"pt-BR",
    b"pt-PT",
    b"zh-CN",
    b"zh-TW",
    b"zh-Hant-TW",
    b"zh-Hans-CN",
    b"ja",
    b"ja-JP",
    b"ko-KR",
    b"ru-RU",
    b"it",
    b"nl",
    b"pl",
    b"tr",
    b"sv",
    b"ar-EG",
    b"sr-Latn-RS",
];

const LANGUAGES: [&[u8]; 24] = [
    b"af", b"az", b"bg", b"bn", b"ca", b"cs", b"cy", b"da", b"el", b"fa", b"fil", b"ga", b"gsw",
    b"he", b"hi", b"hsb", b"kk", b"lv", b"mn", b"pa", b"sr", b"uz", b"vi", b"yue",
];

const SCRIPTS: [&[u8]; 12] = [
    b"Arab", b"Beng", b"Cyrl", b"Deva", b"Guru", b"Hans", b"Hant", b"Hebr", b"Latn", b"Mong",
    b"Taml", b"Thai",
];

const REGIONS: [&[u8]; 24] = [
    b"001", b"150", b"419", b"AU", b"BD", b"CA", b"CH", b"CN", b"CZ", b"DK", b"FI", b"GB", b"IL",
    b"IN", b"IR", b"KZ", b"MN", b"MX", b"NO", b"PK", b"RS", b"TW", b"UZ", b"ZA",
];

// What follows an identifier that isn't one.
const TAILS: [&[u8]; 8] = [
    b"-u-co-phonebk",
    b"-posix",
    b"-x-private",
    b"-1996",
    b";q=0.8",
    b"-",
    b"-valencia",
    b" ",
];

/// Reads a list, counts each identifier and each subtag, and prints all in their order.
pub fn run(alloc: Global, random: &mut Random, digest: &mut Digest) -> Result<(), AllocError> {
    let list = make_list(alloc, random)?;
    let mut ids = read(alloc, &list, digest)?;
    let counts = count(alloc, &ids)?;
    take_apart(alloc, &ids, digest)?;
    ids.sort_unstable();
    print(alloc, &ids, &counts, digest)
}

#[inline(never)]
fn make_list(alloc: Global, random: &mut Random) -> Result<Cells, AllocError> {
    let mut list = Cells::new(alloc);
    for _ in 0..COUNT {
        push_line(list.bytes(), random)?;
        list.end()?;
    }
    Ok(list)
}

fn push_line(line: &mut Vec<u8>, random: &mut Random) -> Result<(), AllocError> {
    let kind = random.below(100);
    if kind < 70 {
        return line.extend_from_slice(random.one_of(&COMMON));
    }
    if kind < 82 {
        return push_rare(line, random, b"-");
    }
    if kind < 91 {
        let start = line.len();
        push_rare(line, random, b"_")?;
        swap_case(line, start, random.bits());
        return Ok(());
    }
    if kind < 97 {
        push_rare(line, random, b"-")?;
        return line.extend_from_slice(random.one_of(&TAILS));
    }
    let len = random.below(9);
    push_word(line, random, LOWERCASE, len)
}

fn push_rare(line: &mut Vec<u8>, random: &mut Random, separator: &[u8]) -> Result<(), AllocError> {
    line.extend_from_slice(random.one_of(&LANGUAGES))?;
    let parts = random.below(4);
    if parts % 2 == 1 {
        line.extend_from_slice(separator)?;
        line.extend_from_slice(random.one_of(&SCRIPTS))?;
    }
    if parts >= 2 {
        line.extend_from_slice(separator)?;
        line.extend_from_slice(random.one_of(&REGIONS))?;
    }
    Ok(())
}

// Some letters, from a place on, in the other case.
fn swap_case(line: &mut Vec<u8>, start: usize, bits: u64) {
    let mut rest = bits;
    for byte in line.as_mut_slice().iter_mut().skip(start) {
        if byte.is_ascii_alphabetic() && rest % 2 == 1 {
            *byte ^= 0x20;
        }
        rest /= 2;
    }
}

#[inline(never)]
fn read(alloc: Global, list: &Cells, digest: &mut Digest) -> Result<Vec<LangId>, AllocError> {
    let mut ids = Vec::new(alloc);
    for index in 0..list.len() {
        match LangId::try_from_utf8(list.get(index)) {
            Ok(id) => ids.push(id)?,
            Err(error) => digest.add(error as u64),
        }
    }
    Ok(ids)
}

#[inline(never)]
fn count(alloc: Global, ids: &[LangId]) -> Result<HashMap<LangId, u32>, AllocError> {
    let mut counts = HashMap::new(alloc);
    for id in ids {
        let count = counts.entry(*id)?.or_insert(0u32);
        *count = count.saturating_add(1);
    }
    Ok(counts)
}

#[inline(never)]
fn take_apart(alloc: Global, ids: &[LangId], digest: &mut Digest) -> Result<(), AllocError> {
    let mut languages: BTreeMap<Language, u32> = BTreeMap::new(alloc);
    for id in ids {
        let count = languages.entry(id.language())?.or_insert(0u32);
        *count = count.saturating_add(1);
        if let Some(script) = id.script() {
            digest.add(u64::from(u32::from_le_bytes(*script.to_text().all_bytes())));
        }
        if let Some(region) = id.region() {
            let [a, b, c] = *region.to_text().all_bytes();
            digest.add(u64::from(u32::from_le_bytes([a, b, c, 0])));
        }
    }
    for (language, count) in &languages {
        digest.add_bytes(language.as_str().as_bytes());
        digest.add(u64::from(*count));
    }
    Ok(())
}

#[inline(never)]
fn print(
    alloc: Global,
    ids: &[LangId],
    counts: &HashMap<LangId, u32>,
    digest: &mut Digest,
) -> Result<(), AllocError> {
    let mut report = String::new(alloc);
    for id in ids {
        write!(report, "{id}\n")?;
    }
    digest.add_bytes(report.as_bytes());
    let mut before = None;
    for id in ids {
        if before != Some(*id) {
            digest.add(u64::from(counts.get(id).copied().unwrap_or(0)));
        }
        before = Some(*id);
    }
    Ok(())
}
