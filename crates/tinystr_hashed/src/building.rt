//! Tables with pilots, built in memory of the caller. They are checked in the end, so the search for pilots needs no proof.

ghost use Rattle.std.specs.Prelude.{◌≡◌, ◌↔◌, ◌<◌, ◌≤◌, ◌^◌, length, replicate, IsTrue, All, Contains};
ghost use Rattle.std.specs.List.{IsDistinct};
ghost use Rattle.std.specs.Str.{bytes_eq};
ghost use Rattle.tinystr_packed.specs.Rising.{text_at};
ghost use Rattle.tinystr_hashed.specs.Packing.{ArePackedHashed};
ghost use Rattle.tinystr_hashed.specs.Private.{texts_in};

use crate::hashing::{hash_of, start_of};
use crate::placing::{cut, cut_numbers, find_index, search_size, set};
use crate::table::{HashedTable, Parts, VERSION};
use tinystr::TinyAsciiStr;
use tinystr_packed::Table;

/// Texts to pack.
#[derive(Clone, Copy)]
pub(crate) enum Texts<'a, 'b, const N: usize> {
    Given(&'a [TinyAsciiStr<N>]),
    Packed(&'a Table<'b, N>),
}

impl<'a, 'b, const N: usize> Texts<'a, 'b, N> {
    #[inline(always)]
    fn len(&self) -> usize
        ensures { result ≡ length (texts_in self.now) }
    {
        match self {
            Texts::Given(texts) => texts.len(),
            Texts::Packed(table) => table.len(),
        }
    }

    // The text at an index.
    #[inline(always)]
    fn text(&self, index: usize) -> TinyAsciiStr<N>
        requires { index < length (texts_in self.now) }
        ensures { result ≡ text_at (texts_in self.now) index }
    {
        match self {
            Texts::Given(texts) => *texts.get(index).unwrap(),
            Texts::Packed(table) => table.text_at(index),
        }
    }
}

/// How pilots are searched for.
pub(crate) struct Attempt {
    seed: u32,
    // How many texts there are for sixteen pilots.
    texts_for_16_pilots: usize,
    // How many texts there are for a move.
    texts_for_move: usize,
}

/// What is tried, in this order: more pilots and moves make the search easier and the table longer.
pub(crate) const ATTEMPTS: &[Attempt] = &[
    Attempt {
        seed: 1,
        texts_for_16_pilots: 36,
        texts_for_move: 64,
    },
    Attempt {
        seed: 2,
        texts_for_16_pilots: 36,
        texts_for_move: 64,
    },
    Attempt {
        seed: 3,
        texts_for_16_pilots: 36,
        texts_for_move: 64,
    },
    Attempt {
        seed: 4,
        texts_for_16_pilots: 32,
        texts_for_move: 32,
    },
    Attempt {
        seed: 5,
        texts_for_16_pilots: 32,
        texts_for_move: 32,
    },
    Attempt {
        seed: 6,
        texts_for_16_pilots: 32,
        texts_for_move: 32,
    },
    Attempt {
        seed: 7,
        texts_for_16_pilots: 24,
        texts_for_move: 16,
    },
    Attempt {
        seed: 8,
        texts_for_16_pilots: 24,
        texts_for_move: 16,
    },
    Attempt {
        seed: 9,
        texts_for_16_pilots: 16,
        texts_for_move: 16,
    },
    Attempt {
        seed: 10,
        texts_for_16_pilots: 16,
        texts_for_move: 16,
    },
    Attempt {
        seed: 11,
        texts_for_16_pilots: 8,
        texts_for_move: 16,
    },
    Attempt {
        seed: 12,
        texts_for_16_pilots: 8,
        texts_for_move: 16,
    },
];

// From so many texts on, the records of a table are in order.
const TOO_MANY: usize = 1 << 31;

/// The header of a table without pilots.
pub(crate) const SORTED: &[u8; 16] = b"\x01\0\0\0\0\0\0\0\0\0\0\0\0\0\0\0";

/// Whether so many texts are packed with pilots, if a search finds some.
pub(crate) fn can_have_pilots(count: usize) -> bool {
    2 <= count && count < TOO_MANY
}

/// The sizes of a table with pilots, and its seed.
#[derive(Clone, Copy)]
pub(crate) struct Plan {
    seed: u32,
    count: usize,
    record_size: usize,
    pilots: usize,
    moves: usize,
}

impl Plan {
    /// The plan of an attempt for `count` records of `record_size` bytes.
    pub(crate) fn of(attempt: &Attempt, count: usize, record_size: usize) -> Self {
        let moves = count / attempt.texts_for_move.max(1);
        let pilots = count
            .saturating_mul(16)
            .div_ceil(attempt.texts_for_16_pilots.max(1));
        let records_size = count.saturating_mul(record_size);
        Plan {
            seed: attempt.seed,
            count,
            record_size,
            pilots: aligned(pilots.saturating_add(1), moves, records_size),
            moves,
        }
    }

    /// How many bytes the table has.
    pub(crate) fn size(&self) -> usize {
        self.count
            .saturating_mul(self.record_size)
            .saturating_add(self.index_end())
    }

    // Where its records begin.
    fn index_end(&self) -> usize {
        self.moves
            .saturating_mul(4)
            .saturating_add(self.pilots)
            .saturating_add(16)
    }

    /// How many bytes of scratch it takes to build the table.
    pub(crate) fn scratch_size(&self) -> usize {
        let search = search_size(self.count, self.pilots, self.moves);
        self.count.saturating_mul(8).saturating_add(search)
    }
}

// The least number of pilots from one on by which the records of a table begin at a multiple of 64 bytes from its first, of
// sixteen bytes if there are few, or at any byte if there are fewer.
fn aligned(pilots: usize, moves: usize, records_size: usize) -> usize {
    let multiple = match records_size {
        0..256 => 1,
        256..4096 => 16,
        _ => 64,
    };
    let start = moves.wrapping_mul(4).wrapping_add(pilots).wrapping_add(16);
    pilots.wrapping_add(start.wrapping_neg() % multiple)
}

/// Builds a table by a plan, and returns whether there are pilots for it. Else `out` has any bytes.
pub(crate) fn builds<const N: usize>(
    texts: &Texts<'_, '_, N>,
    plan: &Plan,
    out: &mut [u8],
    scratch: &mut [u8],
) -> bool
    requires some { 0 < N }
    requires sized { N < 2 ^ 63 }
    ensures len { length out.new ≡ length out.old }
    ensures packed { IsTrue result → ArePackedHashed (texts_in texts.now) out.new N }
{
    texts.len() <= scratch.len()
        && put_table(texts, plan, out, scratch)
        && is_table_of(out, texts, scratch)
}

// Puts a header, the pilots, the moves, and each text at its place, and returns whether there are pilots.
fn put_table<const N: usize>(
    texts: &Texts<'_, '_, N>,
    plan: &Plan,
    out: &mut [u8],
    scratch: &mut [u8],
) -> bool
    requires some { 0 < N }
    requires sized { N < 2 ^ 63 }
    ensures out { length out.new ≡ length out.old }
    ensures scratch { length scratch.new ≡ length scratch.old }
{
    let (hashes, scratch) = cut_numbers::<8>(scratch, plan.count);
    put_hashes(texts, plan.seed, hashes);
    let (front, records) = cut(out, plan.index_end());
    if !put_index(plan, hashes, front, scratch) {
        return false;
    }
    put_records(records.as_chunks_mut().0, texts, hashes, front);
    true
}

// Puts a header, the pilots and the moves, and returns whether there are pilots.
fn put_index(plan: &Plan, hashes: &[[u8; 8]], out: &mut [u8], scratch: &mut [u8]) -> bool {
    let (header, index) = cut_numbers::<4>(out, 4);
    set(header, 0, VERSION.to_le_bytes());
    set(header, 1, number_of(plan.pilots).to_le_bytes());
    set(header, 2, number_of(plan.moves).to_le_bytes());
    set(header, 3, plan.seed.to_le_bytes());
    let (pilots, moves) = cut(index, plan.pilots);
    find_index(hashes, pilots, moves.as_chunks_mut().0, scratch)
}

// Puts the hashes of texts.
fn put_hashes<const N: usize>(texts: &Texts<'_, '_, N>, seed: u32, hashes: &mut [[u8; 8]])
    requires { N < 2 ^ 63 }
{
    let start = start_of(seed);
    for index in 0..texts.len() {
        let hash = hash_of(start, texts.text(index).all_bytes());
        set(hashes, index, hash.to_le_bytes());
    }
}

// A length for the header. No table has one that doesn't fit.
fn number_of(len: usize) -> u32 {
    u32::try_from(len).unwrap_or(u32::MAX)
}

// Puts each text at the place of its hash.
#[tactic(auto, using(crate::proofs::Placed::products))]
fn put_records<const N: usize>(
    records: &mut [[u8; N]],
    texts: &Texts<'_, '_, N>,
    hashes: &[[u8; 8]],
    front: &[u8],
)
    requires { 0 < N }
{
    let Ok(parts) = Parts::of(front) else {
        return;
    };
    let count = records.len();
    for index in 0..texts.len() {
        if let Some(hash) = hashes.get(index)
            && let Some(place) = parts.places.place_of_hash(u64::from_le_bytes(*hash), count)
        {
            set(records, place, *texts.text(index).all_bytes());
        }
    }
}

// Whether bytes are a hashed table of these texts, no two of which are equal: it has as many texts, and each is found at an index
// of its own. There must be a byte of scratch for each record.
fn is_table_of<const N: usize>(bytes: &[u8], texts: &Texts<'_, '_, N>, scratch: &mut [u8]) -> bool
    requires some { 0 < N }
    requires sized { N < 2 ^ 63 }
    requires marks { length (texts_in texts.now) ≤ length scratch.old }
    ensures { IsTrue result ↔ ArePackedHashed (texts_in texts.now) bytes.now N }
{
    let Ok(table) = HashedTable::<N>::from_bytes(bytes) else {
        return false;
    };
    if table.len() != texts.len() {
        return false;
    }
    let (marks, _) = scratch.split_at_mut(table.len());
    marks.fill(0);
    has_each_once(&table, texts, marks)
}

// Whether a table has each of these texts, and no two of them are equal. There must be a 0 for each text of the table.
fn has_each_once<const N: usize>(
    table: &HashedTable<'_, N>,
    texts: &Texts<'_, '_, N>,
    marks: &mut [u8],
) -> bool
    requires sized { N < 2 ^ 63 }
    requires unmarked { marks.old ≡ replicate (length table.now) 0 }
    ensures { IsTrue result ↔ (All (λ t. Contains table.now t) (texts_in texts.now) × IsDistinct bytes_eq (texts_in texts.now)) }
{
    for index in 0..texts.len() {
        let Some(place) = table.position(&texts.text(index)) else {
            return false;
        };
        if marks[place] != 0 {
            return false;
        }
        marks[place] = 1;
    }
    true
}
