//! Laws of packed bytes, each a function whose contract is the law.

ghost use Rattle.std.specs.Prelude.{◌≡◌, ◌<◌, ◌*◌, ◌↔◌, ℕ, List, All, Contains, Err, IsOk, IsTrue, None, Ok, Some, length, position, slice_get};
ghost use Rattle.std.specs.List.{flat_map};
ghost use Rattle.std.specs.Map.{keys_of, values_of};
ghost use Rattle.std.specs.Result.{result_ok};
ghost use Rattle.std.specs.Str.{bytes_eq};
ghost use Rattle.tinystr_words.specs.Text.{IsStrictText, pad};
ghost use Rattle.tinystr_packed.specs.Map.{ArePacked, get};
ghost use Rattle.tinystr_packed.specs.Reading.{are_packed};
ghost use Rattle.tinystr_packed.specs.Rising.{IsPlaceFor, IsRising, is_rising, search_result};
ghost use Rattle.tinystr_packed.specs.TextMap.{ArePackedTexts};

use crate::map::PackedMap;
use crate::sorted::SortedTable;
use crate::text_map::TextMap;

/// Packed bytes determine their list of texts.
#[tactic(auto, using(crate::proofs::ForCallers::texts_once))]
pub fn texts_once()
    ensures { (n : ℕ) (ts ss : List (List ℕ)) → 0 < n →
        All (λ t. IsStrictText t n) ts → All (λ t. IsStrictText t n) ss →
        flat_map (λ t. pad t n) ts ≡ flat_map (λ t. pad t n) ss → ts ≡ ss }
{}

/// The bytes of keys and values determine their map.
#[tactic(auto, using(crate::proofs::ForCallers::map_once))]
pub fn map_once()
    ensures { (entries others : List (List ℕ × List ℕ)) (keys values : List ℕ) (n m : ℕ) → 0 < n →
        ArePacked entries keys values n m → ArePacked others keys values n m → entries ≡ others }
{}

/// The bytes of keys and texts determine their map of texts.
#[tactic(auto, using(crate::proofs::ForCallers::text_map_once))]
pub fn text_map_once()
    ensures { (entries others : List (List ℕ × List ℕ)) (keys values : List ℕ) (n m : ℕ) → 0 < n → 0 < m →
        ArePackedTexts entries keys values n m → ArePackedTexts others keys values n m → entries ≡ others }
{}

/// A packed map has `n` bytes for each key, and `m` for each value.
#[tactic(auto, using(crate::proofs::ForCallers::map_len))]
pub fn map_len()
    ensures keys { (entries : List (List ℕ × List ℕ)) (keys values : List ℕ) (n m : ℕ) →
        ArePacked entries keys values n m → length keys ≡ length entries * n }
    ensures values { (entries : List (List ℕ × List ℕ)) (keys values : List ℕ) (n m : ℕ) →
        ArePacked entries keys values n m → length values ≡ length entries * m }
{}

/// A search finds a text exactly if the list has it, and returns the index that `position` returns. Among texts that are
/// strictly ascending this is the text's only index; if the list doesn't have the text, the error is the place where it
/// belongs.
#[tactic(auto, using(crate::proofs::ForCallers::search_found))]
pub fn search_found()
    ensures position { (texts : List (List ℕ)) (t : List ℕ) → result_ok (search_result texts t) ≡ position (bytes_eq t) texts }
    ensures exact { (texts : List (List ℕ)) (t : List ℕ) → IsOk (search_result texts t) ↔ Contains texts t }
    ensures found { (texts : List (List ℕ)) (t : List ℕ) (i : ℕ) → search_result texts t ≡ Ok i → slice_get texts i ≡ Some t }
    ensures index { (texts : List (List ℕ)) (t : List ℕ) (i : ℕ) → IsRising texts → slice_get texts i ≡ Some t → search_result texts t ≡ Ok i }
    ensures place { (texts : List (List ℕ)) (t : List ℕ) (i : ℕ) → IsRising texts → search_result texts t ≡ Err i → IsPlaceFor t texts i }
{}

/// There are `n` bytes for each key, and `m` for each text.
pub fn text_map_len()
    ensures keys { (entries : List (List ℕ × List ℕ)) (keys values : List ℕ) (n m : ℕ) →
        ArePackedTexts entries keys values n m → length keys ≡ length entries * n }
    ensures values { (entries : List (List ℕ × List ℕ)) (keys values : List ℕ) (n m : ℕ) →
        ArePackedTexts entries keys values n m → length values ≡ length entries * m }
{}

/// Each Boolean test is true exactly if the proposition of its name holds.
#[tactic(auto, using(crate::proofs::ForCallers::tests_decide))]
pub fn tests_decide()
    ensures rising { (texts : List (List ℕ)) → IsTrue (is_rising texts) ↔ IsRising texts }
    ensures map { (keys values : List ℕ) (n m : ℕ) → 0 < n → 0 < m →
        IsTrue (are_packed n m keys values)
        ↔ ((entries : List (List ℕ × List ℕ)) × ArePacked entries keys values n m) }
{}

/// The texts of a sorted table fit in `N` bytes and are strictly ascending.
#[inline]
pub fn sorted_texts<const N: usize>(sorted: &SortedTable<'_, N>)
    ensures strict { All (λ t. IsStrictText t N) sorted.now }
    ensures rising { IsRising sorted.now }
{
    let _ = sorted.table().len();
}

/// The keys of a map fit in `N` bytes and are strictly ascending, and a text that doesn't fit has no value.
pub fn map_keys<const N: usize, const M: usize>(map: &PackedMap<'_, N, M>)
    ensures strict { All (λ t. IsStrictText t N) (keys_of map.now) }
    ensures rising { IsRising (keys_of map.now) }
    ensures absent { (key : List ℕ) → ¬ IsStrictText key N → get map.now key ≡ None }
{
    sorted_texts(map.keys());
}

/// The keys of a map of texts fit in `N` bytes and are strictly ascending, a text that doesn't fit has no value, and the map's
/// texts fit in `M` bytes.
pub fn text_map_texts<const N: usize, const M: usize>(map: &TextMap<'_, N, M>)
    ensures strict { All (λ t. IsStrictText t N) (keys_of map.now) }
    ensures rising { IsRising (keys_of map.now) }
    ensures absent { (key : List ℕ) → ¬ IsStrictText key N → get map.now key ≡ None }
    ensures texts { All (λ t. IsStrictText t M) (values_of map.now) }
{
    let keys = map.keys();
    sorted_texts(keys);
    let _ = map.values().len();
}
