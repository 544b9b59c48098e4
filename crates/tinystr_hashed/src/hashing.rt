//! Where a record is in a hashed table: its hash has a pilot, both give its slot, and this gives its place.

ghost use Rattle.std.specs.Prelude.{◌≡◌, ◌≤◌, ◌<◌, ◌+◌, ◌*◌, ◌%◌, ◌^◌, ◌↔◌, ◌-◌, length, map, slice_index_or, IsNone, IsSome, IfSome};
ghost use Rattle.tinystr_words.specs.Words.{word};
ghost use Rattle.tinystr_hashed.specs.Hashing as Spec;

use tinystr_words::word::Word;

// Odd numbers whose bits look random.
const SEED_MULTIPLIER: u64 = 0x2545_f491_4f6c_dd1d;

const HASH_MASK: u64 = 0x9e37_79b9_7f4a_7c15;

const SLOT_MULTIPLIER: u64 = 0xe703_7ed1_a0b4_28db;

/// What places the records of a hashed table that has pilots.
#[derive(Clone, Copy)]
pub(crate) struct Places<'a> {
    /// What hashes begin with.
    pub(crate) start: u64,
    pub(crate) pilots: &'a [u8],
    pub(crate) moves: &'a [[u8; 4]],
}

impl<'a> Places<'a> {
    /// The place of a record among `count` records, or `None` if there are no pilots.
    #[inline(always)]
    pub(crate) fn place<const N: usize>(&self, raw: &[u8; N], count: usize) -> Option<usize>
        requires { count < 2 ^ 63 }
        ensures exact { IsSome result ↔ (0 < length self.now.pilots.now) }
        ensures place { IfSome result (λ place. place
            ≡ Spec.place_of self.now.start self.now.pilots.now (map word self.now.moves.now) count raw.now) }
    {
        self.place_of_hash(hash_of(self.start, raw), count)
    }

    /// The same of the record's hash.
    #[inline(always)]
    pub(crate) fn place_of_hash(&self, hash: u64, count: usize) -> Option<usize>
        requires { count < 2 ^ 63 }
        ensures exact { IsSome result ↔ (0 < length self.now.pilots.now) }
        ensures place { IfSome result (λ place. place
            ≡ Spec.place_of_hash self.now.pilots.now (map word self.now.moves.now) count hash) }
    {
        let slot = self.slot_of_hash(hash, count)?;
        Some(if slot < count {
            slot
        } else {
            self.moved(slot, count)
        })
    }

    /// The slot of a record among `count` records and the moves, or `None` if there are no pilots.
    #[inline(always)]
    pub(crate) fn slot<const N: usize>(&self, raw: &[u8; N], count: usize) -> Option<usize>
        requires { count < 2 ^ 63 }
        ensures exact { IsSome result ↔ (0 < length self.now.pilots.now) }
        ensures slot { IfSome result (λ slot. Spec.place_of_slot (map word self.now.moves.now) count slot
            ≡ Spec.place_of self.now.start self.now.pilots.now (map word self.now.moves.now) count raw.now) }
    {
        self.slot_of_hash(hash_of(self.start, raw), count)
    }

    // The same of the record's hash.
    #[tactic(auto, using(crate::proofs::Hashes::slots))]
    #[inline(always)]
    fn slot_of_hash(&self, hash: u64, count: usize) -> Option<usize>
        requires { count < 2 ^ 63 }
        ensures exact { IsSome result ↔ (0 < length self.now.pilots.now) }
        ensures slot { IfSome result (λ slot. Spec.place_of_slot (map word self.now.moves.now) count slot
            ≡ Spec.place_of_hash self.now.pilots.now (map word self.now.moves.now) count hash) }
    {
        let group = scaled(hash, self.pilots.len());
        let pilot = self.pilots.get(group)?;
        Some(slot_of(hash, *pilot, count + self.moves.len()))
    }

    /// The place of a slot past the records. It isn't inlined, since few slots are.
    #[cold]
    #[inline(never)]
    pub(crate) fn moved(&self, slot: usize, count: usize) -> usize
        requires { count ≤ slot }
        ensures { result ≡ slice_index_or (map word self.now.moves.now) (slot - count) count }
    {
        match self.moves.get(slot - count) {
            Some(place) => short_number(&place[..]) as usize,
            None => count,
        }
    }

    /// The index of the first record that isn't at its place. There must be pilots.
    pub(crate) fn first_misplaced<const N: usize>(&self, records: &[[u8; N]]) -> Option<usize>
        requires pilots { 0 < length self.now.pilots.now }
        requires fits { length records.now < 2 ^ 63 }
        ensures none { IsNone result → Spec.ArePlaced
            (Spec.place_of self.now.start self.now.pilots.now (map word self.now.moves.now) (length records.now)) records.now }
        ensures first { IfSome result (λ index. Spec.IsFirstMisplaced
            (Spec.place_of self.now.start self.now.pilots.now (map word self.now.moves.now) (length records.now)) records.now index) }
    {
        for (index, raw) in records.iter().enumerate() {
            if self.place(raw, records.len()) != Some(index) {
                return Some(index);
            }
        }
        None
    }
}

/// What hashes begin with, by the seed.
#[inline(always)]
pub(crate) fn start_of(seed: u32) -> u64
    ensures { result ≡ Spec.start_of seed }
{
    u64::from(seed).wrapping_mul(SEED_MULTIPLIER)
}

/// The hash of a record.
#[tactic(auto, using(crate::proofs::Hashes::hashes))]
#[inline(always)]
pub(crate) fn hash_of<const N: usize>(start: u64, raw: &[u8; N]) -> u64
    ensures { result ≡ Spec.hash_of start raw.now }
{
    let bytes = &raw[..];
    let (pieces, rest) = bytes.as_chunks::<16>();
    let mut hash = start;
    for piece in pieces {
        hash = hash_on(hash, &piece[..]);
    }
    if rest.is_empty() {
        hash
    } else {
        hash_on(hash, rest)
    }
}

// The hash after at most sixteen more bytes.
#[tactic(auto, using(crate::proofs::Hashes::pieces))]
#[inline(always)]
fn hash_on(hash: u64, piece: &[u8]) -> u64
    requires { length piece.now ≤ 16 }
    ensures { result ≡ Spec.hash_on hash piece.now }
{
    let (low, high) = piece.split_at(piece.len().min(8));
    folded(hash ^ number(low), hash ^ (HASH_MASK ^ number(high)))
}

// The little-endian number of at most eight bytes.
#[inline(always)]
fn number(bytes: &[u8]) -> u64
    requires { length bytes.now ≤ 8 }
    ensures { result ≡ word bytes.now }
{
    Word::<8>::load(bytes)
}

/// The little-endian number of at most four bytes.
#[inline(always)]
pub(crate) fn short_number(bytes: &[u8]) -> u32
    requires { length bytes.now ≤ 4 }
    ensures { result ≡ word bytes.now }
{
    Word::<4>::load(bytes)
}

// Both halves of a product, as one number.
#[inline(always)]
fn folded(a: u64, b: u64) -> u64
    ensures { result ≡ Spec.folded a b }
{
    let product = u128::from(a) * u128::from(b);
    (product % (1 << 64)) as u64 ^ (product >> 64) as u64
}

/// A hash scaled to a number of pilots or of slots, below that number if it isn't 0.
#[inline(always)]
pub(crate) fn scaled(hash: u64, count: usize) -> usize
    ensures { result ≡ Spec.scaled hash count }
{
    ((u128::from(hash) * count as u128) >> 64) as usize
}

/// The slot of a hash among `slots` slots, by its pilot.
#[tactic(auto, using(crate::proofs::Hashes::factors))]
#[inline(always)]
pub(crate) fn slot_of(hash: u64, pilot: u8, slots: usize) -> usize
    ensures { result ≡ Spec.slot_of hash pilot slots }
{
    slot_by(slot_factor(hash), pilot, slots)
}

/// The factor of a hash, which its slots are made of.
#[inline(always)]
pub(crate) fn slot_factor(hash: u64) -> u64
    ensures { result ≡ hash * 0xe703_7ed1_a0b4_28db % 2 ^ 64 }
{
    hash.wrapping_mul(SLOT_MULTIPLIER)
}

/// The slot of a hash, by the factor of the hash.
#[inline(always)]
pub(crate) fn slot_by(factor: u64, pilot: u8, slots: usize) -> usize
    ensures { result ≡ Spec.scaled (factor * pilot % 2 ^ 64) slots }
{
    scaled(factor.wrapping_mul(u64::from(pilot)), slots)
}
