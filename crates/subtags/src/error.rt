//! The error of the readers.

use std::error::Error;
use std::fmt;

/// Why an input isn't a language identifier, or isn't the language, script or region that was parsed.
///
/// ```rust
/// let error = "en-Latin".parse::<LangId>().unwrap_err();
/// assert_eq!(rt; error, LangIdError::InvalidSubtag);
/// let printed = format!(in rt.alloc(); "{error}")?;
/// assert_eq!(rt; printed.as_str(), "invalid subtag");
/// ```
#[derive(Clone, Copy, Debug, PartialEq, Eq)]
pub enum LangIdError {
    /// The first subtag isn't a language; or a `Language` was parsed, and the input isn't one.
    InvalidLanguage,
    /// The first subtag is a language, and the rest isn't accepted; or a script or a region was parsed, and the input
    /// isn't one.
    InvalidSubtag,
}

impl fmt::Display for LangIdError {
    ghost use Rattle.std.specs.Prelude.{Some};
    ghost use Rattle.subtags.specs.Answers.{message_of};

    ghost output = { λ error. Some (message_of error) };

    fn fmt<W: fmt::Write>(&self, f: &mut fmt::Formatter<W>) -> fmt::Result {
        f.write_str(match self {
            LangIdError::InvalidLanguage => "invalid language",
            LangIdError::InvalidSubtag => "invalid subtag",
        })
    }
}

impl Error for LangIdError {}
