//! Laws of language identifiers. A function with an empty body has the law as its contract.

ghost use Rattle.std.specs.Prelude.{◌≡◌, ◌≤◌, ℕ, List, Ok, Some, length, map, IsTrue, ◌↔◌};
ghost use Rattle.std.specs.List.{slice_split};
ghost use Rattle.std.specs.Ordering.{nat_cmp};
ghost use Rattle.std.specs.Cmp.Lexicographic.{slice_cmp};
ghost use Rattle.std.specs.declared.cmp.Ordering.TheVariants.{Less};
ghost use Rattle.tinystr.specs.Order.{IsBefore};
ghost use Rattle.subtags.specs.Grammar.{is_separator, fold_text, subtags_of, IsLangId, IsCanonical, canonical_text};
ghost use Rattle.subtags.specs.Subtags.{language_of, script_of, region_of, join_subtags};

use crate::error::LangIdError;
use crate::lang_id::LangId;
use crate::subtag::{Subtag, SubtagKind};
use std::cmp::Ordering;

/// Folding an input and then splitting it at dashes gives the same as splitting it at separators and then folding each
/// subtag.
#[tactic(auto, using(crate::proofs::ForCallers::split_before_fold))]
pub fn split_before_fold()
    ensures { (u : List ℕ) → subtags_of (fold_text u) ≡ map fold_text (slice_split is_separator u) }
{}

/// The canonical text of an identifier is accepted, is its own canonical text, and folds as the input does.
#[tactic(auto, using(crate::proofs::ForCallers::canonical_once))]
pub fn canonical_once()
    ensures canonical { (u : List ℕ) → IsLangId u → IsCanonical (canonical_text u) }
    ensures fold { (u : List ℕ) → fold_text (canonical_text u) ≡ fold_text u }
{}

/// A canonical text is as long as its input, and a canonical identifier has 2 to 17 bytes.
#[tactic(auto, using(crate::proofs::ForCallers::canonical_len))]
pub fn canonical_len()
    ensures same { (u : List ℕ) → length (canonical_text u) ≡ length u }
    ensures least { (t : List ℕ) → IsCanonical t → 2 ≤ length t }
    ensures most { (t : List ℕ) → IsCanonical t → length t ≤ 17 }
{}

/// Two inputs have the same canonical text exactly if their folds are equal.
#[tactic(auto, using(crate::proofs::ForCallers::fold_tells_apart))]
pub fn fold_tells_apart()
    ensures { (u v : List ℕ) → (canonical_text u ≡ canonical_text v) ↔ (fold_text u ≡ fold_text v) }
{}

/// A canonical text is its language, its script and its region, joined by dashes.
#[tactic(auto, using(crate::proofs::ForCallers::joined_subtags))]
pub fn joined_subtags()
    ensures { (t : List ℕ) → IsCanonical t → t ≡ join_subtags (language_of t) (script_of t) (region_of t) }
{}

/// Reading the text of an identifier gives the identifier back.
pub fn read_back(id: &LangId) -> Result<LangId, LangIdError>
    ensures { result ≡ Ok id.now }
{
    LangId::try_from_utf8(id.to_text().as_utf8())
}

/// Identifiers are equal exactly if their texts are, and are ordered as their texts: by `cmp`, `partial_cmp` and `<`.
pub fn identifier_order(id: &LangId, other: &LangId) -> (bool, Ordering, Option<Ordering>, bool)
    ensures equal { IsTrue result.0 ↔ (id.now ≡ other.now) }
    ensures order { result.1 ≡ slice_cmp nat_cmp id.now other.now }
    ensures before { (result.1 ≡ Less) ↔ IsBefore id.now other.now }
    ensures partial { result.2 ≡ Some result.1 }
    ensures less { IsTrue result.3 ↔ IsBefore id.now other.now }
{
    tinystr_words::laws::order_compared();
    (
        id == other,
        id.cmp(other),
        id.partial_cmp(other),
        id < other,
    )
}

/// Languages, scripts and regions are equal exactly if their texts are, and are ordered as their texts.
pub fn subtag_order<K: SubtagKind<N>, const N: usize>(
    subtag: &Subtag<K, N>,
    other: &Subtag<K, N>,
) -> (bool, Ordering, Option<Ordering>, bool)
    ensures equal { IsTrue result.0 ↔ (subtag.now ≡ other.now) }
    ensures order { result.1 ≡ slice_cmp nat_cmp subtag.now other.now }
    ensures before { (result.1 ≡ Less) ↔ IsBefore subtag.now other.now }
    ensures partial { result.2 ≡ Some result.1 }
    ensures less { IsTrue result.3 ↔ IsBefore subtag.now other.now }
{
    tinystr_words::laws::order_compared();
    (
        subtag == other,
        subtag.cmp(other),
        subtag.partial_cmp(other),
        subtag < other,
    )
}
