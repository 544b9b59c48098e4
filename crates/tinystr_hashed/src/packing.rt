//! Texts packed as a hashed table.

ghost use Rattle.std.specs.Prelude.{◌≡◌, ◌≢◌, ◌↔◌, ◌<◌, ◌≤◌, ◌+◌, ◌^◌, ℕ, length, IsTrue, IfOk, IfErr, IfSome, IsNone, MatchOption, All, Contains, count_by};
ghost use Rattle.std.specs.List.{IsDistinct};
ghost use Rattle.std.specs.Str.{bytes_eq};
ghost use Rattle.tinystr_packed.specs.Rising.{text_at};
ghost use Rattle.tinystr_hashed.specs.Packing.{ArePackedHashed, RefusesToPack};

use crate::building::{ATTEMPTS, Attempt, Plan, SORTED, Texts, builds, can_have_pilots};
use std::alloc::{AllocError, Global};
use tinystr::TinyAsciiStr;
use tinystr_packed::pack_sorted;

/// Why texts aren't packed as a hashed table.
///
/// ```rust
/// let fault = pack_hashed(rt.alloc(), &[tinystr!(3, "EUR")?, tinystr!(3, "EUR")?]).err();
/// let text = tinystr!(3, "EUR")?;
/// assert_eq!(rt; fault, Some(PackHashedError::Duplicate { text }));
/// ```
#[derive(Clone, Copy, Debug, PartialEq, Eq)]
pub enum PackHashedError<const N: usize> {
    /// A text occurs twice. If several do, any of them is named.
    Duplicate { text: TinyAsciiStr<N> },
    /// An allocation failed.
    Memory,
}

impl<const N: usize> From<AllocError> for PackHashedError<N> {
    ghost use Rattle.tinystr_hashed.specs.declared.packing.PackHashedError.TheVariants.{Memory};

    ghost from_gives = { λ _ e. e ≡ Memory };

    fn from(_error: AllocError) -> Self {
        PackHashedError::Memory
    }
}

/// Packs texts, no two of which may be equal, as `HashedTable` takes them. `N` must be above 0.
///
/// It fails only if a text occurs twice or an allocation fails. At most twelve times, pilots are searched for that give each
/// text a place of its own. If there are none, as of a single text or of texts that are chosen for it, or if there are 2^31
/// texts or more, the table has no pilots, and its texts are strictly ascending. The time is linear in the number of texts, but
/// for a sort after the first search that fails. The bytes depend only on the set of texts.
///
/// ```rust
/// let bytes = pack_hashed(rt.alloc(), &[tinystr!(3, "EUR")?, tinystr!(3, "GB")?])?;
/// let table = HashedTable::<3>::from_bytes(bytes.as_slice()).unwrap();
/// assert!(rt; table.contains(&tinystr!(3, "GB")?));
/// ```
pub fn pack_hashed<const N: usize>(
    alloc: Global,
    texts: &[TinyAsciiStr<N>],
) -> Result<Vec<u8>, PackHashedError<N>>
    requires { 0 < N }
    ensures packed { IfOk result (λ made. ArePackedHashed texts.now made.items N) }
    ensures fault { IfErr result (λ e. RefusesToPack e texts.now) }
{
    let (first, others) = ATTEMPTS.split_at(1);
    if let Some(bytes) = pack_by_pilots(alloc, texts, first)? {
        return Ok(bytes);
    }
    // A search fails if a text occurs twice. Else there is no need to sort.
    if let Some(text) = repeated(alloc, texts)? {
        return Err(PackHashedError::Duplicate { text });
    }
    if let Some(bytes) = pack_by_pilots(alloc, texts, others)? {
        return Ok(bytes);
    }
    Ok(pack_in_order(alloc, texts)?)
}

// A text that occurs twice.
fn repeated<const N: usize>(
    alloc: Global,
    texts: &[TinyAsciiStr<N>],
) -> Result<Option<TinyAsciiStr<N>>, AllocError>
    ensures { IfOk result (λ found. MatchOption found (IsDistinct bytes_eq texts.now) (λ text. 2 ≤ count_by (bytes_eq text) texts.now)) }
{
    let mut sorted = Vec::new(alloc);
    sorted.extend_from_slice(texts)?;
    sorted.sort_unstable();
    Ok(first_repeated(sorted.as_slice()))
}

// The first text that is equal to the one before it.
fn first_repeated<const N: usize>(texts: &[TinyAsciiStr<N>]) -> Option<TinyAsciiStr<N>>
    ensures none { IsNone result → (k : ℕ) → k + 1 < length texts.now → text_at texts.now k ≢ text_at texts.now (k + 1) }
    ensures twice { IfSome result (λ text. 2 ≤ count_by (bytes_eq text) texts.now) }
{
    let (first, rest) = texts.split_first()?;
    let mut before = first;
    for text in rest {
        if text == before {
            return Some(*text);
        }
        before = text;
    }
    None
}

// The bytes of a table without pilots.
#[tactic(auto, using(crate::proofs::SortedTables::sorted_packs))]
fn pack_in_order<const N: usize>(
    alloc: Global,
    texts: &[TinyAsciiStr<N>],
) -> Result<Vec<u8>, AllocError>
    requires some { 0 < N }
    requires distinct { IsDistinct bytes_eq texts.now }
    ensures { IfOk result (λ made. ArePackedHashed texts.now made.items N) }
{
    let records = pack_sorted(alloc, texts)?;
    let len = records.len().saturating_add(SORTED.len());
    let mut bytes = Vec::with_capacity(alloc, len)?;
    bytes.extend_from_slice(&SORTED[..])?;
    bytes.extend_from_slice(records.as_slice())?;
    Ok(bytes)
}

// The bytes of a table with the pilots of the first attempt that finds some.
fn pack_by_pilots<const N: usize>(
    alloc: Global,
    texts: &[TinyAsciiStr<N>],
    attempts: &[Attempt],
) -> Result<Option<Vec<u8>>, AllocError>
    requires { 0 < N }
    ensures { IfOk result (λ packed. IfSome packed (λ made. ArePackedHashed texts.now made.items N)) }
{
    if !can_have_pilots(texts.len()) {
        return Ok(None);
    }
    for attempt in attempts {
        let plan = Plan::of(attempt, texts.len(), N);
        let mut bytes = vec![in alloc; 0; plan.size()]?;
        let mut scratch = vec![in alloc; 0; plan.scratch_size()]?;
        if builds(
            &Texts::Given(texts),
            &plan,
            bytes.as_mut_slice(),
            scratch.as_mut_slice(),
        ) {
            return Ok(Some(bytes));
        }
    }
    Ok(None)
}
