//! The canonical text of an input.

ghost use Rattle.std.specs.Prelude.{◌≡◌, ◌≤◌, length, take};
ghost use Rattle.std.specs.List.{position_or_len};
ghost use Rattle.subtags.specs.Grammar.{IsLangId, canonical_text, is_separator};
ghost use Rattle.subtags.specs.Private.{example};

use tinystr::{ShortInput, TinyAsciiStr};

/// The canonical text of an identifier, whose language has `end` letters: its tail is in the case of the example.
#[tactic(auto, using(crate::proofs::TailLemmas::parts_of_id, crate::proofs::CaseLemmas::texts_by_row))]
#[inline(always)]
pub(crate) fn text_in_case(input: &ShortInput<'_>, end: usize) -> TinyAsciiStr<17>
    requires accepted { IsLangId input.now }
    requires language { end ≡ position_or_len is_separator input.now }
    ensures { result ≡ canonical_text input.now }
{
    let row = &example(input.len() - end)[8 - end..];
    input.in_case_of(row.first_chunk::<16>().unwrap(), b'_', b'-')
}

// The example of each length after a language of eight letters, filled up with zeros.
static EXAMPLES: [[u8; 24]; 10] = [
    NONE, NONE, NONE, AA, DDD, AAAA, NONE, NONE, AAAA_AA, AAAA_DDD,
];

const NONE: [u8; 24] = *b"aaaaaaaa\0\0\0\0\0\0\0\0\0\0\0\0\0\0\0\0";

const AA: [u8; 24] = *b"aaaaaaaa-AA\0\0\0\0\0\0\0\0\0\0\0\0\0";

const DDD: [u8; 24] = *b"aaaaaaaa-000\0\0\0\0\0\0\0\0\0\0\0\0";

const AAAA: [u8; 24] = *b"aaaaaaaa-Aaaa\0\0\0\0\0\0\0\0\0\0\0";

const AAAA_AA: [u8; 24] = *b"aaaaaaaa-Aaaa-AA\0\0\0\0\0\0\0\0";

const AAAA_DDD: [u8; 24] = *b"aaaaaaaa-Aaaa-000\0\0\0\0\0\0\0";

#[inline(always)]
fn example(len: usize) -> &'static [u8; 24]
    requires { len ≤ 9 }
    ensures { take (length (example 8 len)) result.now ≡ example 8 len }
{
    &EXAMPLES[len]
}
