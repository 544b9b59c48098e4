//! Facts of the definitions alone. Each function computes nothing, and its contract is its law.

ghost use Rattle.std.specs.Prelude.{IsTrue, ◌≡◌, ◌≢◌, ◌==◌, ◌<◌, ◌≤◌, ◌^◌, ◌/◌, ◌↔◌, ◌⊎◌, ℕ, List, ◌++◌, length, take, ◌+◌, ◌-◌, ◌*◌, Bool, [], ◌&&◌, ◌∷◌, All, Contains, slice_index, slice_index_or, position, map, replicate, drop, Some, None, false, IsSome, slice_get};
ghost use Rattle.std.specs.Cmp.Lexicographic.{slice_cmp};
ghost use Rattle.std.specs.Char.{is_ascii_alphabetic, is_ascii_alphanumeric, is_ascii_digit, is_ascii_lowercase, is_ascii_uppercase, to_ascii_lowercase, to_ascii_uppercase};
ghost use Rattle.std.specs.Fmt.{char_count, decimal, padded, spec_fill, styled_text, take_chars};
ghost use Rattle.std.specs.Int.{IsInRange};
ghost use Rattle.std.specs.List.{AllPairs, after_first, before_first, flat_map, join_with_byte, list_all, list_any, slice_split};
ghost use Rattle.std.specs.Ordering.{nat_cmp};
ghost use Rattle.std.specs.Str.{bytes_eq, str_to_ascii_lowercase, str_to_ascii_uppercase};
ghost use Rattle.std.specs.declared.cmp.Ordering.TheVariants.{Less, Equal};
ghost use Rattle.tinystr_words.specs.ByteForm.{byte_fault};
ghost use Rattle.tinystr_words.specs.Case.{lower, raise, lowercase, titlecase, uppercase};
ghost use Rattle.tinystr_words.specs.Classes.{ask, is_alphabetic, is_alphanumeric, is_digit, is_lower, is_upper, is_not_lower, is_not_upper};
ghost use Rattle.tinystr_words.specs.Decimal.{IsDecimalOf, number_of};
ghost use Rattle.tinystr_words.specs.Order.{IsBefore};
ghost use Rattle.tinystr_words.specs.Packed.{IsPacked, is_packed, record_at};
ghost use Rattle.tinystr_words.specs.Reading.{fault_in, strict_of};
ghost use Rattle.tinystr_words.specs.Reading.Fault.{non_ascii};
ghost use Rattle.tinystr_words.specs.Text.{IsStrictText, pad, IsText, IsTextByte, IsPaddedText, text_of, is_text_byte, is_strict_text, is_padded_text};
ghost use Rattle.tinystr_words.specs.Words.{word, lane};

/// Of two lists, one comes before the other or they are equal, and padded texts are ordered as their texts.
#[tactic(auto, using(crate::proofs::ForCallers::order_total))]
pub fn order_total()
    ensures one { (t s : List ℕ) → (t ≡ s) ⊎ (IsBefore t s ⊎ IsBefore s t) }
    ensures alone { (t s : List ℕ) → (t ≡ s → ¬ IsBefore t s) × (IsBefore t s → ¬ IsBefore s t) }
    ensures padded { (t s : List ℕ) (n : ℕ) → IsStrictText t n → IsStrictText s n →
        IsBefore (pad t n) (pad s n) ↔ IsBefore t s }
{}

/// The order is that of std's comparison of lists.
#[tactic(auto, using(crate::proofs::ForCallers::order_compared))]
pub fn order_compared()
    ensures less { (t s : List ℕ) → (slice_cmp nat_cmp t s ≡ Less) ↔ IsBefore t s }
    ensures equal { (t s : List ℕ) → (slice_cmp nat_cmp t s ≡ Equal) ↔ (t ≡ s) }
{}

/// Truncating before or after a case change gives the same text.
#[tactic(auto, using(crate::proofs::ForCallers::case_cut))]
pub fn case_cut()
    ensures lower { (m : ℕ) (t : List ℕ) → lowercase (take m t) ≡ take m (lowercase t) }
    ensures title { (m : ℕ) (t : List ℕ) → titlecase (take m t) ≡ take m (titlecase t) }
    ensures upper { (m : ℕ) (t : List ℕ) → uppercase (take m t) ≡ take m (uppercase t) }
{}

/// A case change keeps whether a text consists of letters, of digits, or of both.
#[tactic(auto, using(crate::proofs::ForCallers::case_keeps))]
pub fn case_keeps()
    ensures lower_alphabetic { (t : List ℕ) → ask is_alphabetic is_alphabetic (lowercase t) ≡ ask is_alphabetic is_alphabetic t }
    ensures lower_alphanumeric { (t : List ℕ) → ask is_alphanumeric is_alphanumeric (lowercase t) ≡ ask is_alphanumeric is_alphanumeric t }
    ensures lower_digit { (t : List ℕ) → ask is_digit is_digit (lowercase t) ≡ ask is_digit is_digit t }
    ensures title_alphabetic { (t : List ℕ) → ask is_alphabetic is_alphabetic (titlecase t) ≡ ask is_alphabetic is_alphabetic t }
    ensures title_alphanumeric { (t : List ℕ) → ask is_alphanumeric is_alphanumeric (titlecase t) ≡ ask is_alphanumeric is_alphanumeric t }
    ensures title_digit { (t : List ℕ) → ask is_digit is_digit (titlecase t) ≡ ask is_digit is_digit t }
    ensures upper_alphabetic { (t : List ℕ) → ask is_alphabetic is_alphabetic (uppercase t) ≡ ask is_alphabetic is_alphabetic t }
    ensures upper_alphanumeric { (t : List ℕ) → ask is_alphanumeric is_alphanumeric (uppercase t) ≡ ask is_alphanumeric is_alphanumeric t }
    ensures upper_digit { (t : List ℕ) → ask is_digit is_digit (uppercase t) ≡ ask is_digit is_digit t }
{}

/// Exactly letters, brought to a case, are letters in that case.
#[tactic(auto, using(crate::proofs::ForCallers::case_letters))]
pub fn case_letters()
    ensures lower { (t : List ℕ) → ask is_lower is_lower (lowercase t) ≡ ask is_alphabetic is_alphabetic t }
    ensures title { (t : List ℕ) → ask is_upper is_lower (titlecase t) ≡ ask is_alphabetic is_alphabetic t }
    ensures upper { (t : List ℕ) → ask is_upper is_upper (uppercase t) ≡ ask is_alphabetic is_alphabetic t }
{}

/// A text that fits also fits in each case.
#[tactic(auto, using(crate::proofs::ForCallers::case_fits, crate::proofs::ForCallers::case_twice))]
pub fn case_fits()
    ensures lower { (t : List ℕ) (n : ℕ) → IsStrictText t n → IsStrictText (lowercase t) n }
    ensures title { (t : List ℕ) (n : ℕ) → IsStrictText t n → IsStrictText (titlecase t) n }
    ensures upper { (t : List ℕ) (n : ℕ) → IsStrictText t n → IsStrictText (uppercase t) n }
{}

/// A case change keeps the length, repeating it changes nothing, and lowercase after uppercase is lowercase.
#[tactic(auto, using(crate::proofs::ForCallers::case_twice, crate::proofs::ForCallers::case_last))]
pub fn case_twice()
    ensures lower { (t : List ℕ) → (length (lowercase t) ≡ length t) × (lowercase (lowercase t) ≡ lowercase t) }
    ensures title { (t : List ℕ) → (length (titlecase t) ≡ length t) × (titlecase (titlecase t) ≡ titlecase t) }
    ensures upper { (t : List ℕ) → (length (uppercase t) ≡ length t) × (uppercase (uppercase t) ≡ uppercase t) }
    ensures lower_upper { (t : List ℕ) → lowercase (uppercase t) ≡ lowercase t }
{}

/// Of two case changes, the second alone decides.
#[tactic(auto, using(crate::proofs::ForCallers::case_last))]
pub fn case_last()
    ensures lower_lower { (t : List ℕ) → lowercase (lowercase t) ≡ lowercase t }
    ensures lower_title { (t : List ℕ) → lowercase (titlecase t) ≡ lowercase t }
    ensures lower_upper { (t : List ℕ) → lowercase (uppercase t) ≡ lowercase t }
    ensures title_lower { (t : List ℕ) → titlecase (lowercase t) ≡ titlecase t }
    ensures title_title { (t : List ℕ) → titlecase (titlecase t) ≡ titlecase t }
    ensures title_upper { (t : List ℕ) → titlecase (uppercase t) ≡ titlecase t }
    ensures upper_lower { (t : List ℕ) → uppercase (lowercase t) ≡ uppercase t }
    ensures upper_title { (t : List ℕ) → uppercase (titlecase t) ≡ uppercase t }
    ensures upper_upper { (t : List ℕ) → uppercase (uppercase t) ≡ uppercase t }
{}

/// A case change leaves a text unchanged exactly if the text is in that case.
#[tactic(auto, using(crate::proofs::ForCallers::case_fixed))]
pub fn case_fixed()
    ensures lower { (t : List ℕ) → (lowercase t ≡ t) ↔ IsTrue (ask is_not_upper is_not_upper t) }
    ensures title { (t : List ℕ) → (titlecase t ≡ t) ↔ IsTrue (ask is_not_lower is_not_upper t) }
    ensures upper { (t : List ℕ) → (uppercase t ≡ t) ↔ IsTrue (ask is_not_lower is_not_lower t) }
{}

/// A text consists of letters in a case exactly if it consists of letters and is in that case.
#[tactic(auto, using(crate::proofs::ForCallers::class_joined))]
pub fn class_joined()
    ensures lower { (t : List ℕ) → ask is_lower is_lower t
        ≡ (ask is_alphabetic is_alphabetic t && ask is_not_upper is_not_upper t) }
    ensures title { (t : List ℕ) → ask is_upper is_lower t
        ≡ (ask is_alphabetic is_alphabetic t && ask is_not_lower is_not_upper t) }
    ensures upper { (t : List ℕ) → ask is_upper is_upper t
        ≡ (ask is_alphabetic is_alphabetic t && ask is_not_lower is_not_lower t) }
{}

/// Truncating before or after joining gives the same prefix.
#[tactic(auto, using(crate::proofs::ForCallers::join_cut))]
pub fn join_cut()
    ensures { (a b c : List ℕ) (p q r : ℕ) → q ≤ p → q ≤ r →
        take q (take p (a ++ b) ++ c) ≡ take q (a ++ take r (b ++ c)) }
{}

/// Two texts that fit together are joined whole.
#[tactic(auto, using(crate::proofs::ForCallers::join_fits))]
pub fn join_fits()
    ensures { (a b : List ℕ) (q : ℕ) → length a + length b ≤ q → take q (a ++ b) ≡ a ++ b }
{}

/// A number of 32 bits has at most ten digits.
#[tactic(auto, using(crate::proofs::ForCallers::digits_ten))]
pub fn digits_ten()
    ensures { (n : ℕ) → n ≤ 4294967295 → length (decimal n) ≤ 10 }
{}

/// Below 2^64, `decimal n` is the unique shortest decimal form of `n`.
#[tactic(auto, using(crate::proofs::ForCallers::digits_shortest))]
pub fn digits_shortest()
    ensures is { (n : ℕ) → n < 2 ^ 64 → IsDecimalOf n (decimal n) }
    ensures only { (n : ℕ) (ds : List ℕ) → n < 2 ^ 64 → IsDecimalOf n ds → ds ≡ decimal n }
{}

/// The decimal text of a number below 10^k fits in k bytes, and its digits spell the number.
#[tactic(auto, using(crate::proofs::ForCallers::decimal_back))]
pub fn decimal_back()
    ensures strict { (n k : ℕ) → n < 2 ^ 64 → 0 < k → n < 10 ^ k → IsStrictText (decimal n) k }
    ensures value { (n : ℕ) → n < 2 ^ 64 → number_of (decimal n) ≡ n }
{}

/// If no lane is above 0x7f, no lane of a sum carries into the next.
#[tactic(auto, using(crate::proofs::ForCallers::lane_sum))]
pub fn lane_sum()
    ensures { (a c : List ℕ) → length a ≡ length c → All (λ b. b ≤ 0x7f) a → All (λ b. b ≤ 0x7f) c →
        (word a + word c < 256 ^ length a)
        × ((i : ℕ) → i < length a → lane (word a + word c) i ≡ slice_index a i + slice_index c i) }
{}

/// A padded text of length k is a word below 256 ^ k, and below no lower power of 256.
#[tactic(auto, using(crate::proofs::ForCallers::word_length))]
pub fn word_length()
    ensures { (w : ℕ) (t : List ℕ) → IsText t → length t ≤ w →
        (word (pad t w) < 256 ^ length t) × ((k : ℕ) → word (pad t w) < 256 ^ k → length t ≤ k) }
{}

/// The high bits of two sums show which lanes are in their ranges.
#[tactic(auto, using(crate::proofs::ForCallers::lane_class))]
pub fn lane_class()
    ensures { (a low high : List ℕ) → length low ≡ length a → length high ≡ length a →
        All (λ b. b ≤ 0x7f) a →
        ((i : ℕ) → i < length a → (1 ≤ slice_index low i) × (slice_index low i ≤ slice_index high i) × (slice_index high i ≤ 0x7f)) →
        let p = map (λ b. 0x80 - b) low in
        let q = map (λ b. 0x7f - b) high in
        (i : ℕ) → i < length a →
        (IsInRange (slice_index low i) (slice_index high i) (slice_index a i))
        ↔ ((0x80 ≤ lane (word a + word p) i) × (lane (word a + word q) i < 0x80)) }
{}

/// The questions and case changes of a text follow from those of its first sixteen bytes and of the others.
#[tactic(auto, using(crate::proofs::ForCallers::word_join))]
pub fn word_join()
    ensures asked { (first others : ℕ → Bool) (a b : List ℕ) → (length a ≡ 16) ⊎ (b ≡ []) →
        ask first others (a ++ b) ≡ (ask first others a && ask others others b) }
    ensures lower { (a b : List ℕ) → lowercase (a ++ b) ≡ lowercase a ++ lowercase b }
    ensures upper { (a b : List ℕ) → uppercase (a ++ b) ≡ uppercase a ++ uppercase b }
    ensures title { (a b : List ℕ) → (length a ≡ 16) ⊎ (b ≡ []) → titlecase (a ++ b) ≡ titlecase a ++ lowercase b }
{}

/// A text that fits has a padded form, and no other text has the same one.
#[tactic(auto, using(crate::proofs::ForCallers::pad_once))]
pub fn pad_once()
    ensures padded { (t : List ℕ) (n : ℕ) → IsStrictText t n → IsPaddedText (pad t n) n }
    ensures once { (t s : List ℕ) (n : ℕ) → IsStrictText t n → IsStrictText s n →
        pad t n ≡ pad s n → t ≡ s }
{}

/// Each Boolean test is true exactly if the proposition of its name holds.
#[tactic(auto, using(crate::proofs::ForCallers::tests_decide))]
pub fn tests_decide()
    ensures byte { (b : ℕ) → IsTrue (is_text_byte b) ↔ IsTextByte b }
    ensures strict { (t : List ℕ) (n : ℕ) → IsTrue (is_strict_text t n) ↔ IsStrictText t n }
    ensures padded { (bytes : List ℕ) (n : ℕ) → IsTrue (is_padded_text bytes n) ↔ IsPaddedText bytes n }
    ensures packed { (bytes : List ℕ) (n : ℕ) → 0 < n → IsTrue (is_packed bytes n) ↔ IsPacked bytes n }
{}

/// A strict reader accepts exactly the texts that fit, and gives them unchanged.
#[tactic(auto, using(crate::proofs::ForCallers::strict_read))]
pub fn strict_read()
    ensures taken { (t : List ℕ) (n : ℕ) → IsStrictText t n → strict_of n t ≡ Some t }
    ensures refused { (t : List ℕ) (n : ℕ) → ¬ IsStrictText t n → strict_of n t ≡ None }
{}

/// Each prefix and suffix of a text that fits also fits, and so do the parts before and after its first byte of a
/// kind.
#[tactic(auto, using(crate::proofs::ForCallers::strict_parts))]
pub fn strict_parts()
    ensures front { (k : ℕ) (t : List ℕ) (n : ℕ) → IsStrictText t n → IsStrictText (take k t) n }
    ensures back { (k : ℕ) (t : List ℕ) (n : ℕ) → IsStrictText t n → IsStrictText (drop k t) n }
    ensures before { (p : ℕ → Bool) (t : List ℕ) (n : ℕ) → IsStrictText t n → IsStrictText (before_first p t) n }
    ensures behind { (p : ℕ → Bool) (t : List ℕ) (n : ℕ) → IsStrictText t n → IsStrictText (after_first p t) n }
{}

/// A list of letters, of digits, of both, or of letters in a case is a text.
#[tactic(auto, using(crate::proofs::ForCallers::class_texts))]
pub fn class_texts()
    ensures alphanumeric { (t : List ℕ) → IsTrue (ask is_alphanumeric is_alphanumeric t) → IsText t }
    ensures alphabetic { (t : List ℕ) → IsTrue (ask is_alphabetic is_alphabetic t) → IsText t }
    ensures digit { (t : List ℕ) → IsTrue (ask is_digit is_digit t) → IsText t }
    ensures lower { (t : List ℕ) → IsTrue (ask is_lower is_lower t) → IsText t }
    ensures title { (t : List ℕ) → IsTrue (ask is_upper is_lower t) → IsText t }
    ensures upper { (t : List ℕ) → IsTrue (ask is_upper is_upper t) → IsText t }
{}

/// A list of at most `n` letters, digits, or both, or of letters in one case, is a text that fits.
#[tactic(auto, using(crate::proofs::ForCallers::class_fits))]
pub fn class_fits()
    ensures alphanumeric { (t : List ℕ) (n : ℕ) → IsTrue (list_all is_alphanumeric t) → length t ≤ n → IsStrictText t n }
    ensures alphabetic { (t : List ℕ) (n : ℕ) → IsTrue (list_all is_alphabetic t) → length t ≤ n → IsStrictText t n }
    ensures digit { (t : List ℕ) (n : ℕ) → IsTrue (list_all is_digit t) → length t ≤ n → IsStrictText t n }
    ensures lower { (t : List ℕ) (n : ℕ) → IsTrue (list_all is_lower t) → length t ≤ n → IsStrictText t n }
    ensures upper { (t : List ℕ) (n : ℕ) → IsTrue (list_all is_upper t) → length t ≤ n → IsStrictText t n }
{}

/// A byte that isn't of a class is no byte of a list of that class.
#[tactic(auto, using(crate::proofs::ForCallers::class_without))]
pub fn class_without()
    ensures differs { (p : ℕ → Bool) (c : ℕ) (t : List ℕ) → IsTrue (list_all p t) → p c ≡ false → All (λ b. b ≢ c) t }
    ensures absent { (p : ℕ → Bool) (c : ℕ) (t : List ℕ) → IsTrue (list_all p t) → p c ≡ false → ¬ Contains t c }
    ensures missed { (p : ℕ → Bool) (c : ℕ) (t : List ℕ) → IsTrue (list_all p t) → p c ≡ false → position (λ b. b == c) t ≡ None }
{}

/// A text that is one of a list fits if each of the list does.
#[tactic(auto, using(crate::proofs::ForCallers::listed_texts))]
pub fn listed_texts()
    ensures { (t : List ℕ) (ts : List (List ℕ)) (n : ℕ) → IsTrue (list_all (λ s. is_strict_text s n) ts) →
        IsTrue (list_any (bytes_eq t) ts) → IsStrictText t n }
{}

/// A padded text is read back as its text, whatever follows it, and what follows it is the rest.
#[tactic(auto, using(crate::proofs::ForCallers::bytes_back))]
pub fn bytes_back()
    ensures clean { (t rest : List ℕ) (n : ℕ) → IsStrictText t n →
        byte_fault n (pad t n ++ rest) ≡ None }
    ensures first { (t rest : List ℕ) (n : ℕ) → IsStrictText t n →
        take n (pad t n ++ rest) ≡ pad t n }
    ensures text { (t rest : List ℕ) (n : ℕ) → IsStrictText t n →
        text_of (take n (pad t n ++ rest)) ≡ t }
    ensures rest { (t rest : List ℕ) (n : ℕ) → IsStrictText t n →
        drop n (pad t n ++ rest) ≡ rest }
    ensures strict { (t : List ℕ) (n : ℕ) → IsText t → length t ≤ n → IsStrictText t n }
    ensures alone { (bytes : List ℕ) (n : ℕ) → IsPaddedText bytes n → byte_fault n bytes ≡ None }
    ensures front { (input : List ℕ) (n : ℕ) → n ≤ length input → IsPaddedText (take n input) n →
        byte_fault n input ≡ None }
{}

/// Texts without the separator come back if they are joined by it and then split, and a text comes back if it is split
/// and then joined. Each part of a text that fits also fits.
#[tactic(auto, using(crate::proofs::ForCallers::split_joined))]
pub fn split_joined()
    ensures back { (c : ℕ) (ts : List (List ℕ)) → 0 < length ts → All (λ t. All (λ b. b ≢ c) t) ts →
        slice_split (λ b. b == c) (join_with_byte c ts) ≡ ts }
    ensures joined { (c : ℕ) (t : List ℕ) → join_with_byte c (slice_split (λ b. b == c) t) ≡ t }
    ensures strict { (p : ℕ → Bool) (t : List ℕ) (n : ℕ) → IsStrictText t n →
        All (λ part. IsStrictText part n) (slice_split p t) }
{}

/// The index of the first byte of a kind gives the parts before and after that byte. If no byte is of the kind, the
/// text is a single part.
#[tactic(auto, using(crate::proofs::ForCallers::split_found))]
pub fn split_found()
    ensures inside { (p : ℕ → Bool) (t : List ℕ) (at : ℕ) → position p t ≡ Some at → at < length t }
    ensures before { (p : ℕ → Bool) (t : List ℕ) (at : ℕ) → position p t ≡ Some at →
        before_first p t ≡ take at t }
    ensures behind { (p : ℕ → Bool) (t : List ℕ) (at : ℕ) → position p t ≡ Some at →
        after_first p t ≡ drop (at + 1) t }
    ensures parts { (p : ℕ → Bool) (t : List ℕ) (at : ℕ) → position p t ≡ Some at →
        slice_split p t ≡ take at t ∷ slice_split p (drop (at + 1) t) }
    ensures whole { (p : ℕ → Bool) (t : List ℕ) → position p t ≡ None → before_first p t ≡ t }
    ensures one { (p : ℕ → Bool) (t : List ℕ) → position p t ≡ None → slice_split p t ≡ t ∷ [] }
{}

/// `position` finds a text exactly if the list has it, and the index is one at which the list has it. If no two texts
/// of the list are equal, it is the only one.
#[tactic(auto, using(crate::proofs::ForCallers::text_position))]
pub fn text_position()
    ensures at { (t : List ℕ) (ts : List (List ℕ)) (i : ℕ) → position (bytes_eq t) ts ≡ Some i → slice_get ts i ≡ Some t }
    ensures exact { (t : List ℕ) (ts : List (List ℕ)) → IsSome (position (bytes_eq t) ts) ↔ Contains ts t }
    ensures missing { (t : List ℕ) (ts : List (List ℕ)) → (position (bytes_eq t) ts ≡ None) ↔ ¬ Contains ts t }
    ensures distinct { (t : List ℕ) (ts : List (List ℕ)) (i : ℕ) → AllPairs (λ a b. a ≢ b) ts → slice_get ts i ≡ Some t → position (bytes_eq t) ts ≡ Some i }
{}

/// `position` finds a byte exactly if the bytes have it.
#[tactic(auto, using(crate::proofs::ForCallers::byte_position))]
pub fn byte_position()
    ensures exact { (c : ℕ) (t : List ℕ) → IsSome (position (λ b. b == c) t) ↔ Contains t c }
    ensures missing { (c : ℕ) (t : List ℕ) → (position (λ b. b == c) t ≡ None) ↔ ¬ Contains t c }
{}

/// Bytes that have a byte are the bytes before the first such byte, which don't have it, this byte, and the bytes after
/// it. These two parts are the only ones of which this is true.
#[tactic(auto, using(crate::proofs::ForCallers::byte_split))]
pub fn byte_split()
    ensures whole { (c : ℕ) (t : List ℕ) → Contains t c → t ≡ before_first (λ b. b == c) t ++ c ∷ after_first (λ b. b == c) t }
    ensures absent { (c : ℕ) (t : List ℕ) → ¬ Contains (before_first (λ b. b == c) t) c }
    ensures joined { (c : ℕ) (before after : List ℕ) → Contains (before ++ c ∷ after) c }
    ensures before { (c : ℕ) (before after : List ℕ) → ¬ Contains before c → before_first (λ b. b == c) (before ++ c ∷ after) ≡ before }
    ensures after { (c : ℕ) (before after : List ℕ) → ¬ Contains before c → after_first (λ b. b == c) (before ++ c ∷ after) ≡ after }
{}

/// Texts joined by a byte are in a class if each of them and the byte is, and lowercase and uppercase change each of
/// them and the byte.
#[tactic(auto, using(crate::proofs::ForCallers::joined_texts))]
pub fn joined_texts()
    ensures text { (c : ℕ) (ts : List (List ℕ)) → IsTextByte c → All IsText ts → IsText (join_with_byte c ts) }
    ensures asked { (p : ℕ → Bool) (c : ℕ) (ts : List (List ℕ)) → IsTrue (p c) → All (λ t. IsTrue (ask p p t)) ts →
        IsTrue (ask p p (join_with_byte c ts)) }
    ensures lower { (c : ℕ) (ts : List (List ℕ)) →
        lowercase (join_with_byte c ts) ≡ join_with_byte (lower c) (map lowercase ts) }
    ensures upper { (c : ℕ) (ts : List (List ℕ)) →
        uppercase (join_with_byte c ts) ≡ join_with_byte (raise c) (map uppercase ts) }
{}

/// Bytes of 255 are rejected as `NonAscii`.
#[tactic(auto, using(crate::proofs::ForCallers::niche_fault))]
pub fn niche_fault()
    ensures refused { (n : ℕ) → 0 < n → ¬ IsPaddedText (replicate n 255) n }
    ensures fault { (n : ℕ) → 0 < n → fault_in n (replicate n 255) ≡ non_ascii }
{}

/// Each record of packed records is a padded text.
#[tactic(auto, using(crate::proofs::ForCallers::packed_records))]
pub fn packed_records()
    ensures { (bytes : List ℕ) (n i : ℕ) → IsPacked bytes n → i * n < length bytes →
        IsPaddedText (record_at n bytes i) n }
{}

/// Padded texts, one after another, are packed records, one for each text, and each record holds its text.
#[tactic(auto, using(crate::proofs::ForCallers::texts_packed))]
pub fn texts_packed()
    ensures packed { (n : ℕ) (ts : List (List ℕ)) → All (λ t. IsStrictText t n) ts →
        IsPacked (flat_map (λ t. pad t n) ts) n }
    ensures len { (n : ℕ) (ts : List (List ℕ)) → All (λ t. IsStrictText t n) ts →
        length (flat_map (λ t. pad t n) ts) ≡ length ts * n }
    ensures text { (n : ℕ) (ts : List (List ℕ)) (i : ℕ) → All (λ t. IsStrictText t n) ts → i < length ts →
        text_of (record_at n (flat_map (λ t. pad t n) ts) i) ≡ slice_index_or ts i [] }
{}

/// The classes and the case changes are those of std's calls on a `u8`, a `char` and a `str`, and a question of one class
/// tests each byte.
#[tactic(auto, using(crate::proofs::ForCallers::same_as_std))]
pub fn same_as_std()
    ensures upper { (b : ℕ) → is_upper b ≡ is_ascii_uppercase b }
    ensures lower { (b : ℕ) → is_lower b ≡ is_ascii_lowercase b }
    ensures digit { (b : ℕ) → is_digit b ≡ is_ascii_digit b }
    ensures letter { (b : ℕ) → is_alphabetic b ≡ is_ascii_alphabetic b }
    ensures letter_or_digit { (b : ℕ) → is_alphanumeric b ≡ is_ascii_alphanumeric b }
    ensures lowered { (b : ℕ) → lower b ≡ to_ascii_lowercase b }
    ensures raised { (b : ℕ) → raise b ≡ to_ascii_uppercase b }
    ensures lowercase { (t : List ℕ) → lowercase t ≡ str_to_ascii_lowercase t }
    ensures uppercase { (t : List ℕ) → uppercase t ≡ str_to_ascii_uppercase t }
    ensures each { (p : ℕ → Bool) (t : List ℕ) → ask p p t ≡ list_all p t }
{}

/// The characters of a text are its bytes. If a style doesn't truncate the text and its fill is ASCII, the text is
/// filled up to the width: after it if no side is named and for `<`, on both sides for `^`, with the lesser half
/// before it, and before it for `>`. For these `align` is 0, 1, 2 and 3.
#[tactic(auto, using(crate::proofs::ForCallers::print_width))]
pub fn print_width()
    ensures chars { (t : List ℕ) → IsText t → char_count t ≡ length t }
    ensures cut { (n : ℕ) (t : List ℕ) → IsText t → take_chars n t ≡ take n t }
    ensures styled { (s : _) (t : List ℕ) → IsText t → length t ≤ 2 ^ 64 - 1 → styled_text s t ≡ padded s t }
    ensures no_side { (s : _) (t : List ℕ) →
        IsText t → spec_fill s < 128 → s.align ≡ 0 → length t ≤ s.precision →
        padded s t ≡ t ++ replicate (s.width - length t) s.fill }
    ensures left { (s : _) (t : List ℕ) →
        IsText t → spec_fill s < 128 → s.align ≡ 1 → length t ≤ s.precision →
        padded s t ≡ t ++ replicate (s.width - length t) s.fill }
    ensures center { (s : _) (t : List ℕ) →
        IsText t → spec_fill s < 128 → s.align ≡ 2 → length t ≤ s.precision →
        let short = s.width - length t in
        padded s t ≡ replicate (short / 2) s.fill ++ (t ++ replicate (short - short / 2) s.fill) }
    ensures right { (s : _) (t : List ℕ) →
        IsText t → spec_fill s < 128 → s.align ≡ 3 → length t ≤ s.precision →
        padded s t ≡ replicate (s.width - length t) s.fill ++ t }
    ensures width { (s : _) (t : List ℕ) →
        IsText t → spec_fill s < 128 → length t ≤ s.precision → length t ≤ s.width →
        length (padded s t) ≡ s.width }
{}
