//! Scripts.

ghost use Rattle.tinystr.specs.Case.{titlecase};
ghost use Rattle.subtags.specs.Grammar.{is_script};
ghost use Rattle.subtags.specs.declared.error.LangIdError.TheVariants.{InvalidSubtag};

use crate::error::LangIdError;
use crate::subtag::{Subtag, SubtagKind};
use tinystr::TinyAsciiStr;

/// A script: 4 letters, kept in titlecase.
///
/// ```rust
/// assert_eq!(rt; "lATN".parse::<Script>()?.as_str(), "Latn");
/// ```
pub type Script = Subtag<ScriptKind, 4>;

/// The kind of a script.
///
/// ```rust
/// let script: Subtag<ScriptKind, 4> = "latn".parse()?;
/// assert_eq!(rt; script.as_str(), "Latn");
/// ```
pub struct ScriptKind;

impl SubtagKind<4> for ScriptKind {
    ghost is_well_formed = { is_script };

    ghost in_case = { titlecase };

    ghost refusal = { InvalidSubtag };

    #[inline]
    #[tactic(auto, using(crate::proofs::FoldLemmas::subtag_steps))]
    fn read(code_units: &[u8]) -> Option<TinyAsciiStr<4>> {
        if code_units.len() != 4 {
            return None;
        }
        let Ok(text) = TinyAsciiStr::try_from_utf8(code_units) else {
            return None;
        };
        text.is_ascii_alphabetic()
            .then_some(text.to_ascii_titlecase())
    }

    fn refusal() -> LangIdError {
        LangIdError::InvalidSubtag
    }
}
