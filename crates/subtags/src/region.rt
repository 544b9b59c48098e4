//! Regions.

ghost use Rattle.tinystr.specs.Case.{uppercase};
ghost use Rattle.subtags.specs.Grammar.{is_region};
ghost use Rattle.subtags.specs.declared.error.LangIdError.TheVariants.{InvalidSubtag};

use crate::error::LangIdError;
use crate::subtag::{Subtag, SubtagKind};
use tinystr::TinyAsciiStr;

/// A region: 2 letters or 3 digits, kept in uppercase.
///
/// ```rust
/// assert_eq!(rt; "gb".parse::<Region>()?.as_str(), "GB");
/// assert_eq!(rt; "419".parse::<Region>()?.as_str(), "419");
/// ```
pub type Region = Subtag<RegionKind, 3>;

/// The kind of a region.
///
/// ```rust
/// let region: Subtag<RegionKind, 3> = "gb".parse()?;
/// assert_eq!(rt; region.as_str(), "GB");
/// ```
pub struct RegionKind;

impl SubtagKind<3> for RegionKind {
    ghost is_well_formed = { is_region };

    ghost in_case = { uppercase };

    ghost refusal = { InvalidSubtag };

    #[inline]
    #[tactic(auto, using(crate::proofs::FoldLemmas::subtag_steps))]
    fn read(code_units: &[u8]) -> Option<TinyAsciiStr<3>> {
        let Ok(text) = TinyAsciiStr::<3>::try_from_utf8(code_units) else {
            return None;
        };
        let is_well_formed = match code_units.len() {
            2 => text.is_ascii_alphabetic(),
            3 => text.is_ascii_numeric(),
            _ => false,
        };
        if !is_well_formed {
            return None;
        }
        Some(text.to_ascii_uppercase())
    }

    fn refusal() -> LangIdError {
        LangIdError::InvalidSubtag
    }
}
