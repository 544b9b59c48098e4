//! The calls that are answered at each capacity.

use crate::calls::{ask_batch, change_batch, compare_batch};
use crate::capacities::At;
use crate::printing::print_batch;
use crate::readers::{decimal_batch, read8_batch, read16_batch};

/// A batch of each call; false where the number of the call isn't known, or the capacity is above `MOST`.
pub trait Batches {
    fn ask(&self, question: usize, rounds: usize, texts: &[u8], answers: &mut [u8]) -> bool;

    fn change(&self, case: usize, rounds: usize, texts: &[u8], changed: &mut [u8]) -> bool;

    fn compare(
        &self,
        relation: usize,
        rounds: usize,
        left: &[u8],
        right: &[u8],
        answers: &mut [u8],
    ) -> bool;

    fn read8(
        &self,
        reader: usize,
        rounds: usize,
        units: &[u8],
        starts: &[u32],
        texts: &mut [u8],
        faults: &mut [u32],
    ) -> bool;

    fn read16(
        &self,
        reader: usize,
        rounds: usize,
        units: &[u16],
        starts: &[u32],
        texts: &mut [u8],
        faults: &mut [u32],
    ) -> bool;

    fn decimal(&self, rounds: usize, numbers: &[u32], texts: &mut [u8], cuts: &mut [u8]) -> bool;

    fn print(
        &self,
        form: usize,
        rounds: usize,
        values: &[u8],
        printed: &mut [u8],
        ends: &mut [u64],
    ) -> bool;
}

/// The highest capacity of a batch.
const MOST: usize = 128;

impl<const N: usize> Batches for At<N> {
    fn ask(&self, question: usize, rounds: usize, texts: &[u8], answers: &mut [u8]) -> bool {
        N <= MOST && ask_batch::<N>(question, rounds, texts, answers)
    }

    fn change(&self, case: usize, rounds: usize, texts: &[u8], changed: &mut [u8]) -> bool {
        N <= MOST && change_batch::<N>(case, rounds, texts, changed)
    }

    fn compare(
        &self,
        relation: usize,
        rounds: usize,
        left: &[u8],
        right: &[u8],
        answers: &mut [u8],
    ) -> bool {
        N <= MOST && compare_batch::<N>(relation, rounds, left, right, answers)
    }

    fn read8(
        &self,
        reader: usize,
        rounds: usize,
        units: &[u8],
        starts: &[u32],
        texts: &mut [u8],
        faults: &mut [u32],
    ) -> bool {
        N <= MOST && read8_batch::<N>(reader, rounds, units, starts, texts, faults)
    }

    fn read16(
        &self,
        reader: usize,
        rounds: usize,
        units: &[u16],
        starts: &[u32],
        texts: &mut [u8],
        faults: &mut [u32],
    ) -> bool {
        N <= MOST && read16_batch::<N>(reader, rounds, units, starts, texts, faults)
    }

    fn decimal(&self, rounds: usize, numbers: &[u32], texts: &mut [u8], cuts: &mut [u8]) -> bool {
        N <= MOST && decimal_batch::<N>(rounds, numbers, texts, cuts)
    }

    fn print(
        &self,
        form: usize,
        rounds: usize,
        values: &[u8],
        printed: &mut [u8],
        ends: &mut [u64],
    ) -> bool {
        N <= MOST && print_batch::<N>(form, rounds, values, printed, ends)
    }
}
