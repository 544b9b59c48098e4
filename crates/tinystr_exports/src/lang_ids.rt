//! Batches of language identifiers read. The programs in Rust of diff/ read this file too.

use crate::batch::{COUNT, list_at, write_numbers, write_texts};
use crate::libraries::{LangId, LangIdError, TinyAsciiStr};

/// Writes the canonical text of each identifier, and 0, or else a number for its error.
pub fn lang_id_batch(
    rounds: usize,
    units: &[u8],
    starts: &[u32],
    texts: &mut [u8],
    faults: &mut [u8],
) -> bool {
    let mut made = [TinyAsciiStr::<17>::default(); COUNT];
    let mut codes = [0; COUNT];
    let count = starts.len().saturating_sub(1).min(COUNT);
    for _ in 0..rounds {
        for i in 0..count {
            let Some(list) = list_at(units, starts, i) else {
                break;
            };
            match LangId::try_from_utf8(list) {
                Ok(id) => {
                    made[i] = id.to_text();
                    codes[i] = 0;
                }
                Err(LangIdError::InvalidLanguage) => codes[i] = 1,
                Err(LangIdError::InvalidSubtag) => codes[i] = 2,
            }
        }
    }
    write_texts(&made, texts);
    write_numbers(&codes, faults);
    true
}
