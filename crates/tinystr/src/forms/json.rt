//! Texts as JSON values, and back.

ghost use Rattle.std.specs.Prelude.{◌≡◌, ◌↔◌, IsOk, IfOk, IfErr, IsSomeAnd};
ghost use Rattle.serde_json.specs.View.{view};
ghost use Rattle.serde_json.specs.Find.{as_str};
ghost use Rattle.tinystr_words.specs.Text.{pad, text_of, IsStrictText, IsPaddedText};
ghost use Rattle.tinystr.specs.Forms.{json_form, RefusesJson, RefusesWrite};

use crate::ascii::TinyAsciiStr;
use crate::forms::{FormWriteError, JsonReadError};
use crate::unvalidated::UnvalidatedTinyAsciiStr;
use serde_json::Value;
use std::alloc::{AllocError, Global};

impl<const N: usize> TinyAsciiStr<N> {
    /// The JSON string of the text, a copy that it allocates from `alloc`. It fails only if that allocation fails.
    ///
    /// ```rust
    /// let value = tinystr!(3, "EUR")?.to_json(rt.alloc())?;
    /// assert_eq!(rt; value.as_str(), Some("EUR"));
    /// ```
    #[tactic(auto, using(serde_json::specs::declared::value::Value::the_lemmas))]
    #[inline]
    pub fn to_json(&self, alloc: Global) -> Result<Value, AllocError>
        ensures { IfOk result (λ value. view value ≡ json_form self.now) }
    {
        Ok(Value::String(String::from_str(alloc, self.as_str())?))
    }

    /// The text of a JSON string. The error is `NotText` if the value isn't a string, and `InvalidText` if the string
    /// has more than `N` bytes, a NUL or a byte above 127.
    ///
    /// ```rust
    /// let value = Value::String(String::from_str(rt.alloc(), "EUR")?);
    /// assert_eq!(rt; TinyAsciiStr::from_json(&value), Ok(tinystr!(3, "EUR")?));
    /// assert_eq!(rt; TinyAsciiStr::<2>::from_json(&value), Err(JsonReadError::InvalidText));
    /// assert_eq!(rt; TinyAsciiStr::<2>::from_json(&Value::Null), Err(JsonReadError::NotText));
    /// ```
    pub fn from_json(value: &Value) -> Result<Self, JsonReadError>
        ensures accepted { IsOk result
            ↔ IsSomeAnd (as_str (view value.now)) (λ t. IsStrictText t N) }
        ensures text { IfOk result (λ t. view value.now ≡ json_form t) }
        ensures fault { IfErr result (λ e. RefusesJson e (view value.now) N) }
    {
        let text = value.as_str().ok_or(JsonReadError::NotText)?;
        Self::try_from_str(text).or(Err(JsonReadError::InvalidText))
    }
}

impl<const N: usize> UnvalidatedTinyAsciiStr<N> {
    /// The JSON string of the text if the bytes are a text and then NULs, else the error `NotAscii`. The bytes are
    /// tested before a copy is allocated from `alloc`. If that allocation fails, the error is `Memory`.
    pub fn to_json(&self, alloc: Global) -> Result<Value, FormWriteError>
        ensures padded { IfOk result (λ _. IsPaddedText self.now N) }
        ensures value { IfOk result (λ value. view value ≡ json_form (text_of self.now)) }
        ensures fault { IfErr result (λ e. RefusesWrite e self.now N) }
    {
        let text = self.try_into_tinystr().or(Err(FormWriteError::NotAscii))?;
        text.to_json(alloc).map_err(FormWriteError::Memory)
    }

    /// The text of a JSON string, padded with NULs. The errors are those of `TinyAsciiStr::from_json`.
    #[inline]
    pub fn from_json(value: &Value) -> Result<Self, JsonReadError>
        ensures accepted { IsOk result
            ↔ IsSomeAnd (as_str (view value.now)) (λ t. IsStrictText t N) }
        ensures bytes { IfOk result
            (λ bytes. IsSomeAnd (as_str (view value.now)) (λ t. bytes ≡ pad t N)) }
        ensures fault { IfErr result (λ e. RefusesJson e (view value.now) N) }
    {
        Ok(TinyAsciiStr::from_json(value)?.to_unvalidated())
    }
}
