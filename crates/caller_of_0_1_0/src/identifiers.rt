//! Locales, by language identifiers, and sorted sets of what can be read of a list of texts.

ghost use Rattle.std.specs.Prelude.{◌≡◌, ◌↔◌, None, Some, SomeIff, IsTrue, IfOk, codes};
ghost use Rattle.std.specs.BTreeMap.{get};
ghost use Rattle.std.specs.BTreeSet.{IsFromIterResult};
ghost use Rattle.std.specs.Cmp.Lexicographic.{slice_cmp};
ghost use Rattle.std.specs.List.{filter_map, join_by};
ghost use Rattle.std.specs.Ordering.{nat_cmp};
ghost use Rattle.std.specs.String.{string_bytes};
ghost use Rattle.subtags.specs.Grammar.{IsLangId, canonical_of, canonical_text, fold_text};
ghost use Rattle.subtags.specs.Subtags.{language_of, script_of, region_of};
ghost use Rattle.tinystr_words.specs.Reading.{strict_of};

use std::alloc::{AllocError, Global};
use std::collections::{BTreeMap, BTreeSet};
use std::convert::AsStr;
use subtags::{LangId, Region, laws};
use tinystr::TinyStr8;

/// A number for each locale, as that of its first page.
pub type Pages = BTreeMap<LangId, u32>;

/// The page of a tag's locale, whatever the tag's case and separators; None if it isn't a tag.
pub fn page_of(pages: &Pages, tag: &[u8]) -> Option<u32>
    ensures tag { IsLangId tag.now →
        result ≡ get (slice_cmp nat_cmp) pages.now (canonical_text tag.now) }
    ensures no_tag { ¬ IsLangId tag.now → result ≡ None }
{
    let id = LangId::try_from_utf8(tag).ok()?;
    pages.get(&id).copied()
}

/// Whether two tags name one locale, whatever their case and separators.
pub fn is_same_locale(tag: &[u8], other: &[u8]) -> bool
    ensures { IsTrue result
        ↔ (IsLangId tag.now × IsLangId other.now × (fold_text tag.now ≡ fold_text other.now)) }
{
    laws::fold_tells_apart();
    match (LangId::try_from_utf8(tag), LangId::try_from_utf8(other)) {
        (Ok(id), Ok(other)) => id == other,
        _ => false,
    }
}

/// The identifier of a tag, whatever type holds its text; None if it isn't a tag.
pub fn read_id<T: AsStr>(tag: &T) -> Option<LangId>
    ensures { SomeIff result (IsLangId (T.text tag.now)) (canonical_text (T.text tag.now)) }
{
    LangId::try_from_utf8(tag.as_str().as_bytes()).ok()
}

/// The identifier in another region, with its language and its script.
pub fn in_region(id: &LangId, region: Region) -> LangId
    ensures language { language_of result ≡ language_of id.now }
    ensures script { script_of result ≡ script_of id.now }
    ensures region { region_of result ≡ Some region }
{
    LangId::from_parts(id.language(), id.script(), Some(region))
}

/// The tags of identifiers, with a comma and a space between them.
pub fn tag_list(ids: &[LangId], alloc: Global) -> Result<String, AllocError>
    ensures { IfOk result (λ text. string_bytes text ≡ join_by (λ id. id) (codes ", ") ids.now) }
{
    ids.join(alloc, ", ")
}

/// The identifiers of tags in any spelling, in order and each once. What isn't a tag is left out. Only memory can stop
/// it.
pub fn ids_of(alloc: Global, tags: &[&str]) -> Result<BTreeSet<LangId>, AllocError>
    ensures { IfOk result (IsFromIterResult (slice_cmp nat_cmp)
        (filter_map (λ tag. canonical_of tag.now) tags.now)) }
{
    tags.iter()
        .filter_map(|tag| tag.parse().ok())
        .collect(alloc)
}

/// The keys of at most eight characters, in order and each once. What isn't a key is left out. Only memory can stop it.
pub fn keys_of(alloc: Global, texts: &[&str]) -> Result<BTreeSet<TinyStr8>, AllocError>
    ensures { IfOk result (IsFromIterResult (slice_cmp nat_cmp)
        (filter_map (λ text. strict_of 8 text.now) texts.now)) }
{
    texts
        .iter()
        .filter_map(|text| text.parse().ok())
        .collect(alloc)
}
