//! Language identifiers.

ghost use Rattle.std.specs.Prelude.{◌≡◌, ◌<◌, ◌+◌, ◌≤◌, ℕ, length, None, ◌∷◌, Some, IsOk, IfOk, IfErr, IfSome, IsTrue, ◌↔◌};
ghost use Rattle.std.specs.Fmt.{debug_str, styled_text};
ghost use Rattle.std.specs.Result.{result_ok};
ghost use Rattle.tinystr.specs.Case.{lowercase, titlecase, uppercase};
ghost use Rattle.subtags.specs.Grammar.{dash, fold_text, subtags_of, is_language, is_script, is_region, IsLangId, IsCanonical, canonical_text, canonical_of};
ghost use Rattle.subtags.specs.Subtags.{first, IsCanonicalSubtag, language_of, script_of, region_of, join_subtags, parent_of};
ghost use Rattle.subtags.specs.Answers.{refusal_of, IsLangIdRead, is_subtag_end, IsIdPrefix, IsLongestId};
ghost use Rattle.subtags.specs.declared.error.LangIdError.TheVariants.{InvalidLanguage};

use crate::classes::{Classes, is_alphabetic};
use crate::error::LangIdError;
use crate::language::{Language, is_language_length};
use crate::places::{has_byte_at, language_end, region_start};
use crate::region::Region;
use crate::script::Script;
use crate::subtag::{Subtag, SubtagKind};
use crate::texts::text_in_case;
use std::convert::{AsSlice, AsStr};
use std::fmt;
use std::marker::Model;
use std::str::FromStr;
use tinystr::{ShortInput, TinyAsciiStr, tinystr};

/// The most bytes of an identifier, as `mmmmmmmm-Latn-419` has them.
const MOST: usize = 17;

/// A language identifier of at most 17 bytes, kept as its canonical text, as `zh-Hant-TW`, and compared by it.
///
/// ```rust
/// let id = LangId::try_from_utf8(b"ZH_hant-tw")?;
/// assert_eq!(rt; id.as_str(), "zh-Hant-TW");
/// assert_eq!(rt; id.language().as_str(), "zh");
/// assert_eq!(rt; id.region(), Some("TW".parse()?));
/// ```
#[derive(Clone, Copy, PartialEq, Eq, PartialOrd, Ord, Hash)]
pub struct LangId {
    text: TinyAsciiStr<17>,
}

impl Model for LangId {
    ghost use Rattle.std.specs.Prelude.{List, ℕ};
    ghost use Rattle.subtags.specs.Grammar.{IsCanonical};

    ghost Value = { List ℕ };

    ghost view = { λ id. id.text };

    ghost invariant = { λ id. IsCanonical id.text };

    ghost inverse = { λ t. record { text = t } };
}

impl LangId {
    /// Reads a language, then a script, a region, both or neither, in any case, with `-` or `_` before each later subtag.
    ///
    /// The error is `InvalidLanguage` if the first subtag isn't a language, else `InvalidSubtag`.
    ///
    /// ```rust
    /// assert_eq!(rt; LangId::try_from_utf8(b"EN_us")?.as_str(), "en-US");
    /// assert_eq!(rt; LangId::try_from_utf8(b"e"), Err(LangIdError::InvalidLanguage));
    /// assert_eq!(rt; LangId::try_from_utf8(b"en-US-posix"), Err(LangIdError::InvalidSubtag));
    /// ```
    pub fn try_from_utf8(code_units: &[u8]) -> Result<Self, LangIdError>
        ensures accepted { IsOk result ↔ IsLangId code_units.now }
        ensures text { IfOk result (λ id. id ≡ canonical_text code_units.now) }
        ensures fold { IfOk result (λ id. fold_text id ≡ fold_text code_units.now) }
        ensures refusal { IfErr result (λ e. e ≡ refusal_of code_units.now) }
        ensures value { result_ok result ≡ canonical_of code_units.now }
    {
        Self::read(code_units)
    }

    // The same, inlined into both readers, which would otherwise share a call.
    #[tactic(auto, using(crate::proofs::IdentifierLemmas::reading, crate::proofs::CaseLemmas::text_of_letters))]
    #[inline(always)]
    fn read(code_units: &[u8]) -> Result<Self, LangIdError>
        ensures accepted { IsOk result ↔ IsLangId code_units.now }
        ensures text { IfOk result (λ id. id ≡ canonical_text code_units.now) }
        ensures fold { IfOk result (λ id. fold_text id ≡ fold_text code_units.now) }
        ensures refusal { IfErr result (λ e. e ≡ refusal_of code_units.now) }
        ensures value { result_ok result ≡ canonical_of code_units.now }
    {
        let Some(input) = ShortInput::new(code_units) else {
            return Err(refusal_of_more(code_units));
        };
        if is_alphabetic(&input) {
            if !is_language_length(input.len()) {
                return Err(LangIdError::InvalidLanguage);
            }
            return Ok(LangId {
                text: input.in_lowercase(b'_', b'-'),
            });
        }
        let classes = Classes::of(input);
        let Some(end) = classes.language_len() else {
            return Err(refusal(&classes));
        };
        Ok(LangId {
            text: text_in_case(classes.input(), end),
        })
    }

    /// Reads the longest prefix of whole subtags that is an identifier, and gives it and the rest of the input. The rest is
    /// empty, or a separator and any bytes.
    ///
    /// The error is `InvalidLanguage`, and means that the first subtag isn't a language.
    ///
    /// ```rust
    /// let (id, rest) = LangId::from_prefix(b"DE_at-1996")?;
    /// assert_eq!(rt; id.as_str(), "de-AT");
    /// assert_eq!(rt; rest, b"-1996".as_slice());
    /// assert_eq!(rt; LangId::from_prefix(b"x-klingon"), Err(LangIdError::InvalidLanguage));
    /// ```
    #[tactic(auto, using(crate::proofs::IdentifierLemmas::prefixes))]
    pub fn from_prefix(code_units: &[u8]) -> Result<(Self, &[u8]), LangIdError>
        ensures accepted { IsOk result ↔ IsTrue (is_language (first (subtags_of (fold_text code_units.now)))) }
        ensures read { IfOk result (λ read. IsLongestId code_units.now read.0 read.1.now) }
        ensures refusal { IfErr result (λ e. e ≡ InvalidLanguage) }
        ensures none { IfErr result (λ _. (n : ℕ) → ¬ IsIdPrefix code_units.now n) }
    {
        let mut end = code_units.len().min(MOST);
        while end > 0 {
            if is_subtag_end(code_units, end) {
                match Self::read(&code_units[..end]) {
                    Ok(id) => return Ok((id, &code_units[end..])),
                    Err(LangIdError::InvalidLanguage) => return Err(LangIdError::InvalidLanguage),
                    Err(LangIdError::InvalidSubtag) => {}
                }
            }
            end -= 1;
        }
        Err(LangIdError::InvalidLanguage)
    }

    /// The same of a `str`.
    ///
    /// ```rust
    /// let (id, rest) = LangId::from_prefix_str("de-u-co-phonebk")?;
    /// assert_eq!(rt; id.as_str(), "de");
    /// assert_eq!(rt; rest, "-u-co-phonebk");
    /// ```
    #[tactic(auto, using(crate::proofs::IdentifierLemmas::rest_is_text))]
    pub fn from_prefix_str(s: &str) -> Result<(Self, &str), LangIdError>
        ensures accepted { IsOk result ↔ IsTrue (is_language (first (subtags_of (fold_text s.now)))) }
        ensures read { IfOk result (λ read. IsLongestId s.now read.0 read.1.now) }
        ensures refusal { IfErr result (λ e. e ≡ InvalidLanguage) }
        ensures none { IfErr result (λ _. (n : ℕ) → ¬ IsIdPrefix s.now n) }
    {
        match Self::from_prefix(s.as_bytes()) {
            Ok((id, rest)) => Ok((id, s.split_at(s.len() - rest.len()).1)),
            Err(error) => Err(error),
        }
    }

    /// Makes the identifier of these subtags, which its other calls give back.
    ///
    /// ```rust
    /// let id = LangId::from_parts("ZH".parse()?, Some("hant".parse()?), Some("tw".parse()?));
    /// assert_eq!(rt; id.as_str(), "zh-Hant-TW");
    /// assert_eq!(rt; LangId::from_parts("es".parse()?, None, Some("419".parse()?)).as_str(), "es-419");
    /// ```
    #[tactic(auto, using(crate::proofs::CanonLemmas::subtags_of_join_subtags))]
    pub fn from_parts(language: Language, script: Option<Script>, region: Option<Region>) -> Self
        ensures text { result ≡ join_subtags language script region }
        ensures language { language_of result ≡ language }
        ensures script { script_of result ≡ script }
        ensures region { region_of result ≡ region }
    {
        LangId {
            text: join_subtags(language, script, region),
        }
    }

    /// The identifier without its last subtag, or `None` if that is its language.
    ///
    /// ```rust
    /// let parent = LangId::try_from_utf8(b"zh-Hant-TW")?.parent().unwrap();
    /// assert_eq!(rt; parent.as_str(), "zh-Hant");
    /// assert_eq!(rt; parent.parent().unwrap().parent(), None);
    /// ```
    pub fn parent(&self) -> Option<Self>
        ensures { result ≡ parent_of self.now }
    {
        match (self.script(), self.region()) {
            (None, None) => None,
            (Some(_), None) => Some(Self::from(self.language())),
            (script, Some(_)) => Some(Self::from_parts(self.language(), script, None)),
        }
    }

    /// The canonical text, which is read back as this identifier.
    #[inline]
    pub fn to_text(&self) -> TinyAsciiStr<17>
        ensures text { result ≡ self.now }
        ensures canonical { IsCanonical self.now }
    {
        self.text
    }

    /// Borrows the canonical text.
    #[inline]
    pub fn as_str(&self) -> &str
        ensures text { result.now ≡ self.now }
        ensures canonical { IsCanonical self.now }
    {
        self.text.as_str()
    }

    /// The language, which each identifier has.
    #[tactic(auto, using(crate::proofs::PlaceLemmas::subtags_in_place))]
    #[inline]
    pub fn language(&self) -> Language
        ensures { result ≡ language_of self.now }
    {
        let end = language_end(&self.text);
        Language::from_canonical(self.text.slice(0..end))
    }

    /// The script, if the identifier has one.
    ///
    /// ```rust
    /// assert_eq!(rt; LangId::try_from_utf8(b"zh-hant")?.script(), Some("Hant".parse()?));
    /// assert_eq!(rt; LangId::try_from_utf8(b"zh-tw")?.script(), None);
    /// ```
    #[tactic(auto, using(crate::proofs::PlaceLemmas::subtags_in_place))]
    #[inline]
    pub fn script(&self) -> Option<Script>
        ensures { result ≡ script_of self.now }
    {
        let start = language_end(&self.text) + 1;
        if !has_byte_at(&self.text, start + 3) {
            return None;
        }
        Some(Script::from_canonical(self.text.slice(start..start + 4)))
    }

    /// The region, if the identifier has one.
    #[tactic(auto, using(crate::proofs::PlaceLemmas::subtags_in_place))]
    #[inline]
    pub fn region(&self) -> Option<Region>
        ensures { result ≡ region_of self.now }
    {
        let start = region_start(&self.text);
        if !has_byte_at(&self.text, start) {
            return None;
        }
        Some(Region::from_canonical(self.text.slice(start..start + 3)))
    }
}

impl FromStr for LangId {
    type Err = LangIdError;

    ghost from_str_gives = { IsLangIdRead };

    #[inline]
    fn from_str(s: &str) -> Result<Self, LangIdError> {
        Self::try_from_utf8(s.as_bytes())
    }
}

impl<'a> TryFrom<&'a str> for LangId {
    type Error = LangIdError;

    ghost try_from_gives = { λ s r. IsLangIdRead s.now r };

    #[inline]
    fn try_from(s: &'a str) -> Result<Self, LangIdError> {
        Self::from_str(s)
    }
}

impl From<Language> for LangId {
    ghost from_gives = { λ language id. id ≡ language };

    #[inline]
    fn from(language: Language) -> Self {
        Self::from_parts(language, None, None)
    }
}

impl AsStr for LangId {
    ghost text = { λ t. t };

    #[inline]
    fn as_str(&self) -> &str {
        LangId::as_str(self)
    }
}

impl AsSlice<u8> for LangId {
    ghost items = { λ t. t };

    #[inline]
    fn as_slice(&self) -> &[u8] {
        self.text.as_utf8()
    }
}

impl fmt::Display for LangId {
    ghost output = { λ id. Some id };

    ghost styled_output = { λ id s. Some (styled_text s id) };

    fn fmt<W: fmt::Write>(&self, f: &mut fmt::Formatter<W>) -> fmt::Result {
        fmt::Display::fmt(&self.text, f)
    }
}

impl fmt::Debug for LangId {
    ghost debug_output = { debug_str };

    fn fmt<W: fmt::Write>(&self, f: &mut fmt::Formatter<W>) -> fmt::Result {
        fmt::Debug::fmt(&self.text, f)
    }
}

// Whether a subtag ends at this place: the input ends there, or a separator is there.
#[inline]
fn is_subtag_end(code_units: &[u8], end: usize) -> bool
    requires { end ≤ length code_units.now }
    ensures { result ≡ is_subtag_end code_units.now end }
{
    match code_units.get(end) {
        Some(byte) => *byte == b'-' || *byte == b'_',
        None => true,
    }
}

// The error for at most 17 bytes that aren't an identifier, by the first subtag.
#[tactic(auto, using(crate::proofs::HeadLemmas::first_subtag_bits))]
#[inline(always)]
fn refusal(classes: &Classes<'_>) -> LangIdError
    ensures { result ≡ refusal_of classes.now }
{
    let end = classes.first_end();
    if is_language_length(end) && classes.are_letters(end) {
        LangIdError::InvalidSubtag
    } else {
        LangIdError::InvalidLanguage
    }
}

// The error for more.
#[cold]
#[inline(never)]
#[tactic(auto, using(crate::proofs::IdentifierLemmas::refused_more))]
fn refusal_of_more(units: &[u8]) -> LangIdError
    requires { 17 < length units.now }
    ensures error { result ≡ refusal_of units.now }
    ensures refused { canonical_of units.now ≡ None }
{
    let front = ShortInput::new(&units[..MOST]).unwrap();
    refusal(&Classes::of(front))
}

// The subtags, joined by dashes; and that they are canonical, each by its invariant. The language and one later subtag fit
// into sixteen bytes.
#[inline]
fn join_subtags(
    language: Language,
    script: Option<Script>,
    region: Option<Region>,
) -> TinyAsciiStr<17>
    ensures text { result ≡ join_subtags language script region }
    ensures language { IsCanonicalSubtag is_language lowercase language }
    ensures script { IfSome script (IsCanonicalSubtag is_script titlecase) }
    ensures region { IfSome region (IsCanonicalSubtag is_region uppercase) }
{
    let language = language.to_text();
    match (script, region) {
        (None, None) => language.resize(),
        (Some(script), None) => language.concat::<5, 16>(after_dash(script)).resize(),
        (None, Some(region)) => language.concat::<4, 16>(after_dash(region)).resize(),
        (Some(script), Some(region)) => join_three(language, script, region),
    }
}

// The same of all three, which fit into sixteen bytes unless the language has 8 letters.
#[tactic(auto, using(crate::proofs::CanonLemmas::take_take_append))]
#[inline]
fn join_three(language: TinyAsciiStr<8>, script: Script, region: Region) -> TinyAsciiStr<17>
    ensures { result ≡ join_subtags language (Some script) (Some region) }
{
    let script: TinyAsciiStr<5> = after_dash(script);
    let tail = script.concat::<4, 9>(after_dash(region));
    if language.len() < 8 {
        return language.concat::<9, 16>(tail).resize();
    }
    language.concat(tail)
}

// A dash and the subtag.
#[inline]
fn after_dash<K: SubtagKind<M>, const M: usize, const N: usize>(
    subtag: Subtag<K, M>,
) -> TinyAsciiStr<N>
    requires { 1 + M ≤ N }
    ensures { result ≡ dash ∷ subtag }
{
    let dash = tinystr!(1, "-").unwrap();
    dash.concat(subtag.to_text())
}
