//! Languages.

ghost use Rattle.std.specs.Prelude.{◌≡◌, ◌<◌};
ghost use Rattle.tinystr.specs.Case.{lowercase};
ghost use Rattle.subtags.specs.Grammar.{is_language, is_language_length};
ghost use Rattle.subtags.specs.declared.error.LangIdError.TheVariants.{InvalidLanguage};

use crate::error::LangIdError;
use crate::subtag::{Subtag, SubtagKind};
use tinystr::{TinyAsciiStr, TinyStr8};

/// A language: 2, 3 or 5 to 8 letters, kept in lowercase.
///
/// ```rust
/// assert_eq!(rt; "EN".parse::<Language>()?.as_str(), "en");
/// assert_eq!(rt; "e".parse::<Language>(), Err(LangIdError::InvalidLanguage));
/// ```
pub type Language = Subtag<LanguageKind, 8>;

/// The kind of a language.
///
/// ```rust
/// let language: Subtag<LanguageKind, 8> = "EN".parse()?;
/// assert_eq!(rt; language.as_str(), "en");
/// ```
pub struct LanguageKind;

impl SubtagKind<8> for LanguageKind {
    ghost is_well_formed = { is_language };

    ghost in_case = { lowercase };

    ghost refusal = { InvalidLanguage };

    #[inline]
    #[tactic(auto, using(crate::proofs::HeadLemmas::language_read))]
    fn read(code_units: &[u8]) -> Option<TinyAsciiStr<8>> {
        let (text, len) = TinyStr8::read_letters(code_units);
        if !is_language_length(len) {
            return None;
        }
        (len == code_units.len()).then_some(text)
    }

    fn refusal() -> LangIdError {
        LangIdError::InvalidLanguage
    }
}

// A bit for each number of letters that a language may have.
const LENGTHS: u64 = 0b1_1110_1100;

/// Whether a language may have `len` letters.
#[tactic(auto, using(crate::proofs::PlaceLemmas::length_bits))]
#[inline(always)]
pub(crate) fn is_language_length(len: usize) -> bool
    requires { len < 64 }
    ensures { result ≡ is_language_length len }
{
    (LENGTHS >> len) % 2 == 1
}
