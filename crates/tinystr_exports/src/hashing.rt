//! The hash of a value, by a hasher that other programs have too.

ghost use Rattle.std.specs.Prelude.{◌*◌, ◌%◌, ◌^◌, fold, bit_xor};

use std::hash::{Hash, Hasher};

/// FNV-1a: an exclusive or and a product for each byte.
#[derive(Drop)]
struct Fnv(u64);

const START: u64 = 0xcbf29ce484222325;

const FACTOR: u64 = 0x100000001b3;

impl Hasher for Fnv {
    ghost write = { λ s bytes. record { 0 = fold (λ h b. (bit_xor h b * 0x100000001b3) % 2 ^ 64) s.0 bytes } };

    ghost finish = { λ s. s.0 };

    #[inline]
    fn finish(&self) -> u64 {
        self.0
    }

    #[inline]
    fn write(&mut self, bytes: &[u8]) {
        let mut hash = self.0;
        for byte in bytes {
            hash = (hash ^ u64::from(*byte)).wrapping_mul(FACTOR);
        }
        self.0 = hash;
    }
}

/// The hash of a value.
#[inline(always)]
pub fn hash_of<T: Hash>(value: &T) -> u64 {
    let mut state = Fnv(START);
    value.hash(&mut state);
    state.finish()
}
