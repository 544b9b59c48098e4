//! Laws of hashed bytes, each a function whose contract is the law.

ghost use Rattle.std.specs.Prelude.{◌≡◌, ◌<◌, ◌*◌, ◌↔◌, ℕ, List, All, IsTrue, None, length};
ghost use Rattle.std.specs.Map.{keys_of, values_of};
ghost use Rattle.tinystr_words.specs.Text.{IsStrictText};
ghost use Rattle.tinystr_packed.specs.Map.{get};
ghost use Rattle.tinystr_hashed.specs.Hashing.{AreDistinct};
ghost use Rattle.tinystr_hashed.specs.Reading.{IsHashed, is_hashed};
ghost use Rattle.tinystr_hashed.specs.Map.{AreHashed};
ghost use Rattle.tinystr_hashed.specs.TextMap.{AreHashedTexts};

use crate::map::HashedMap;
use crate::table::HashedTable;
use crate::text_map::HashedTextMap;
use tinystr::TinyAsciiStr;

/// The bytes of a hashed table determine its list of texts.
#[tactic(auto, using(crate::proofs::ForCallers::hashed_once))]
pub fn hashed_once()
    ensures { (n : ℕ) (texts others : List (List ℕ)) (bytes : List ℕ) → 0 < n →
        IsHashed texts bytes n → IsHashed others bytes n → texts ≡ others }
{}

/// The bytes of hashed keys and values determine their map.
pub fn hashed_map_once()
    ensures { (entries others : List (List ℕ × List ℕ)) (keys values : List ℕ) (n m : ℕ) → 0 < n →
        AreHashed entries keys values n m → AreHashed others keys values n m → entries ≡ others }
{}

/// The bytes of hashed keys and texts determine their map of texts.
pub fn hashed_text_map_once()
    ensures { (entries others : List (List ℕ × List ℕ)) (keys values : List ℕ) (n m : ℕ) → 0 < n → 0 < m →
        AreHashedTexts entries keys values n m → AreHashedTexts others keys values n m → entries ≡ others }
{}

/// The Boolean test of bytes is true exactly if they are a hashed table.
pub fn test_decides()
    ensures { (bytes : List ℕ) (n : ℕ) → 0 < n →
        IsTrue (is_hashed n bytes) ↔ ((texts : List (List ℕ)) × IsHashed texts bytes n) }
{}

/// The texts of a hashed table fit in `N` bytes, and no two are equal. Any key serves: the look-up of one says the second.
pub fn hashed_texts<const N: usize>(hashed: &HashedTable<'_, N>, key: &TinyAsciiStr<N>)
    ensures strict { All (λ t. IsStrictText t N) hashed.now }
    ensures distinct { AreDistinct hashed.now }
{
    let _ = hashed.table().len();
    let _ = hashed.position(key);
}
