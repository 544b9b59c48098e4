//! The keys in each order, and the bytes of their texts. bench/drivers/many_keys.rs has this module too.

pub const KEYS: u32 = 100_000;

// The number of equal keys in a run.
const RUN: u32 = 1_000;

/// The order of keys.
#[derive(Clone, Copy)]
pub enum Order {
    Present,
    Absent,
    Ascending,
    Uneven,
    Each,
    Descending,
    Runs,
    Zipf,
}

pub const ORDERS: [(&str, Order); 8] = [
    ("random, there", Order::Present),
    ("random, not there", Order::Absent),
    ("ascending", Order::Ascending),
    ("ascending, random gaps", Order::Uneven),
    ("each record in order", Order::Each),
    ("descending", Order::Descending),
    ("in runs of 1,000", Order::Runs),
    ("by Zipf", Order::Zipf),
];

/// The numbers of the keys for a table of `count` records.
#[derive(Clone, Copy)]
pub struct Numbers {
    order: Order,
    count: u32,
    turn: u32,
    state: u64,
    run: u64,
}

impl Numbers {
    pub fn new(order: Order, count: u32) -> Self {
        Numbers {
            order,
            count,
            turn: 0,
            state: 88_172_645_463_325_252,
            run: 0,
        }
    }

    pub fn next(&mut self) -> u64 {
        self.state = next(self.state);
        if self.turn % RUN == 0 {
            self.run = self.state;
        }
        let number = self.number();
        self.turn = self.turn.wrapping_add(1);
        number
    }

    // The number of a key. The high bits of `state` choose a random record.
    fn number(&self) -> u64 {
        let (state, count) = (self.state, u64::from(self.count).max(1));
        let numbers = count.wrapping_mul(2);
        let ascending = u64::from(self.turn).wrapping_mul(numbers) / u64::from(KEYS);
        match self.order {
            Order::Present => ((state >> 20) % count).wrapping_mul(2),
            Order::Absent => ((state >> 20) % count).wrapping_mul(2).wrapping_add(1),
            Order::Ascending => ascending,
            Order::Uneven => {
                ascending.wrapping_add((state >> 20) % (numbers / u64::from(KEYS)).max(1))
            }
            Order::Each => (u64::from(self.turn) % count).wrapping_mul(2),
            Order::Descending => numbers.wrapping_sub(1).wrapping_sub(ascending),
            Order::Runs => (self.run >> 20) % numbers,
            Order::Zipf => (rank(state, count).wrapping_mul(611_953) % count).wrapping_mul(2),
        }
    }
}

fn next(state: u64) -> u64 {
    let state = state ^ (state << 13);
    let state = state ^ (state >> 7);
    state ^ (state << 17)
}

// Of one to `count` ranks, those from a power of two to the next are as likely as those to the one before.
fn rank(state: u64, count: u64) -> u64 {
    let powers = 64u32.saturating_sub(count.leading_zeros()).max(1);
    let first = 1u64 << (state % u64::from(powers) % 64);
    first.wrapping_add((state >> 20) % first)
}

/// The text of a number below twice `count`: its first eight bytes ascend with the number, and spread over all such bytes. The
/// others are random letters.
pub fn bytes_of<const N: usize>(number: u64, count: u32) -> [u8; N] {
    let width = if N < 8 { N } else { 8 };
    let digits = if N < 8 { 126 } else { 26 };
    let first = if N < 8 { 1 } else { b'a' };
    let all = if N < 8 { 2_000_376 } else { 208_827_064_576u64 };
    let mut raw = [0u8; N];
    let mut rest = number.wrapping_mul(all / u64::from(count).max(1) / 2);
    for back in 0..width {
        raw[width - 1 - back] = ((rest % digits) as u8).wrapping_add(first);
        rest /= digits;
    }
    let mut state = number.wrapping_add(1);
    for at in 8..N {
        state = next(state);
        raw[at] = ((state >> 20) % 26) as u8 + b'a';
    }
    raw
}
