//! Lists in one text: split at a byte, their fields changed, and joined again.

use crate::digest::Digest;
use crate::random::{LOWERCASE, Random, UPPERCASE};
use std::alloc::{AllocError, Global};
use tinystr::TinyAsciiStr;

const COUNT: usize = 100_000;

/// Splits and joins lists of at most six fields, and makes keys of two fields each.
pub fn run(alloc: Global, random: &mut Random, digest: &mut Digest) -> Result<(), AllocError> {
    let mut lists = Vec::new(alloc);
    for _ in 0..COUNT {
        lists.push(make_list(random))?;
    }
    let mut fields = Vec::new(alloc);
    for list in &lists {
        fields.clear();
        for part in list.split(b';') {
            fields.push(part.resize::<8>().to_ascii_titlecase())?;
        }
        add(digest, TinyAsciiStr::join::<48>(&fields, b','));
        add_keys(&fields, digest);
    }
    Ok(())
}

// Fields of no to seven letters, all of which fit into 48 bytes.
#[inline(never)]
fn make_list(random: &mut Random) -> TinyAsciiStr<48> {
    let mut raw = [0; 56];
    let mut len = 0usize;
    for field in 0..1 + random.below(6) {
        let bits = random.bits();
        let letters = if bits >> 63 == 1 {
            UPPERCASE
        } else {
            LOWERCASE
        };
        let from = (bits % 56) as usize;
        let start = len.min(40);
        raw[start..start + 8].copy_from_slice(&letters[from..from + 8]);
        let end = start + ((bits >> 56) % 8) as usize;
        raw[end] = b';';
        len = end + 1;
    }
    TinyAsciiStr::try_from_utf8(&raw[..len.saturating_sub(1).min(48)]).unwrap_or_default()
}

#[inline(always)]
fn add<const N: usize>(digest: &mut Digest, text: Option<TinyAsciiStr<N>>) {
    match text {
        Some(text) => digest.add_bytes(text.all_bytes()),
        None => digest.add(1),
    }
}

// Of each field and the next a key, and where both are short enough a shorter one.
#[inline(never)]
fn add_keys(fields: &[TinyAsciiStr<8>], digest: &mut Digest) {
    for pair in fields.windows(2) {
        if let [first, second] = pair {
            let key: TinyAsciiStr<16> = first.concat(*second);
            digest.add_bytes(key.all_bytes());
            add(digest, first.try_concat::<8, 12>(*second));
        }
    }
}
