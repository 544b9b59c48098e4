//! Texts by number, and the orders of keys.

ghost use Rattle.std.specs.Prelude.{◌<◌, ◌^◌};

use std::alloc::{AllocError, Global};
use tinystr::TinyAsciiStr;
use tinystr_packed::pack;

/// How many keys there are: 64 times eight.
pub const KEYS: u32 = 512;

/// `count` records, in groups of `alike` that begin with the same sixteen bytes. At most 2,048 records have texts of 3 bytes.
#[derive(Clone, Copy)]
pub struct Shape {
    pub count: u32,
    pub alike: u32,
}

impl Shape {
    /// The records, packed in ascending order.
    pub fn records<const N: usize>(self, alloc: Global) -> Result<Vec<u8>, AllocError>
        requires { N < 2 ^ 63 }
    {
        let texts = self.texts::<N>(alloc)?;
        pack(alloc, texts.as_slice())
    }

    /// The texts of the records.
    pub fn texts<const N: usize>(self, alloc: Global) -> Result<Vec<TinyAsciiStr<N>>, AllocError> {
        let mut texts = Vec::new(alloc);
        for index in 0..self.count {
            texts.push(self.text_at(index, 0))?;
        }
        Ok(texts)
    }

    /// The keys in an order.
    pub fn keys<const N: usize>(
        self,
        alloc: Global,
        order: Order,
    ) -> Result<Vec<TinyAsciiStr<N>>, AllocError> {
        let mut keys = Vec::new(alloc);
        for key in 0..KEYS {
            keys.push(self.key(order, key))?;
        }
        Ok(keys)
    }

    // The text of a record, or the first text after it that no record has.
    fn text_at<const N: usize>(self, index: u32, after: u32) -> TinyAsciiStr<N> {
        let alike = self.alike.max(1);
        text(
            (index / alike).wrapping_mul(2).wrapping_add(after),
            index % alike,
        )
    }

    // The index of the first record that begins with the same sixteen bytes.
    fn first_alike(self, index: u32) -> u32 {
        index - index % self.alike.max(1)
    }

    fn key<const N: usize>(self, order: Order, key: u32) -> TinyAsciiStr<N> {
        let count = self.count.max(1);
        let random = random(key) % count;
        match order {
            Order::Random => self.text_at(random, 0),
            Order::FirstAlike => self.text_at(self.first_alike(random), 0),
            Order::OneNotFirst if key == 0 => self.text_at(
                self.first_alike(random).wrapping_add(1),
                0,
            ),
            Order::OneNotFirst => self.text_at(self.first_alike(random), 0),
            Order::Steps(step) => self.text_at(key.wrapping_mul(step) % count, 0),
            Order::Same => self.text_at(count / 2, 0),
        }
    }
}

/// The order of keys.
#[derive(Clone, Copy)]
pub enum Order {
    Random,
    /// Random, and each the first of those that begin alike.
    FirstAlike,
    /// The same, but the first key is the second of those that begin alike.
    OneNotFirst,
    /// Each this number of records after the last, and from the first record again.
    Steps(u32),
    Same,
}

// Eight letters of a number, eight letters `m`, and eight letters of a second number, cut after `N` bytes. The letters ascend
// with the numbers, which are below 16 to the power `N` where `N` is less than 8.
fn text<const N: usize>(number: u32, second: u32) -> TinyAsciiStr<N> {
    let mut bytes = [b'm'; 24];
    let skipped = 8usize.saturating_sub(N);
    for lane in 0..8usize {
        bytes[lane] = letter(number, lane + skipped);
        bytes[16 + lane] = letter(second, lane);
    }
    TinyAsciiStr::from_utf8_lossy(&bytes[..], b'?')
}

// The letter of the four bits at one of eight places, the highest first. Past the last place it is `a`.
fn letter(number: u32, place: usize) -> u8 {
    let mut bits = number;
    for _ in place..7usize {
        bits /= 16;
    }
    if place < 8 {
        b'a' + (bits % 16) as u8
    } else {
        b'a'
    }
}

// A random number, by the last steps of MurmurHash3.
fn random(number: u32) -> u32 {
    let mut bits = number.wrapping_add(1).wrapping_mul(0x9e37_79b9);
    bits = (bits ^ (bits >> 16)).wrapping_mul(0x85eb_ca6b);
    bits = (bits ^ (bits >> 13)).wrapping_mul(0xc2b2_ae35);
    bits ^ (bits >> 16)
}
