//! A digest of results.

ghost use Rattle.std.specs.Prelude.{◌<◌, ◌^◌};

use tinystr::{ParseError, TinyAsciiStr};
use tinystr_packed::Table;

/// A number that all results went into, by the step of FxHash.
#[derive(Drop)]
pub struct Digest {
    state: u64,
}

impl Digest {
    pub fn new() -> Self {
        Digest { state: 0 }
    }

    #[inline(always)]
    pub fn add(&mut self, number: u64) {
        self.state = (self.state.rotate_left(5) ^ number).wrapping_mul(0x517c_c1b7_2722_0a95);
    }

    #[inline(always)]
    pub fn add_bytes(&mut self, bytes: &[u8]) {
        self.add(bytes.len() as u64);
        let (words, rest) = bytes.as_chunks::<8>();
        for word in words {
            self.add(u64::from_le_bytes(*word));
        }
        let mut last = 0u64;
        for byte in rest {
            last = (last << 8) ^ u64::from(*byte);
        }
        self.add(last);
    }

    /// A text with its padding.
    #[inline(always)]
    pub fn add_text<const N: usize>(&mut self, text: &TinyAsciiStr<N>) {
        self.add_bytes(text.all_bytes());
    }

    /// The texts of a table, and how many there are.
    #[inline(always)]
    pub fn add_table<const N: usize>(&mut self, table: &Table<'_, N>)
        requires { N < 2 ^ 63 }
    {
        self.add(table.len() as u64);
        for text in table.iter() {
            self.add_text(&text);
        }
    }

    /// Where a text is, or would be.
    #[inline(always)]
    pub fn add_place(&mut self, place: Result<usize, usize>) {
        match place {
            Ok(index) => self.add(index as u64),
            Err(index) => self.add(!(index as u64)),
        }
    }

    pub fn add_fault(&mut self, fault: ParseError) {
        self.add(match fault {
            ParseError::TooLong { max, len } => (max as u64).rotate_left(32) ^ len as u64,
            ParseError::ContainsNull => 1 << 32,
            ParseError::NonAscii => 1 << 33,
        });
    }

    pub fn value(&self) -> u64 {
        self.state
    }
}
