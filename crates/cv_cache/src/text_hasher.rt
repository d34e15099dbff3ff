//! The keys of a cache, and a keyed hash for maps whose keys are texts. No program here runs the hash: the cache sums
//! its texts by words (`text_sum.rt`).
ghost use Rattle.std.specs.Prelude.{◌≡◌};
ghost use Rattle.std.specs.List.{fold};
ghost use Rattle.cv_cache.specs.Hashes.{hash_start, folded, with_byte, hash_of};

use std::hash::{BuildHasher, Hasher};
use std::random::RandomSource;

/// What a cache mixes into the sums of its texts. Clients choose the texts, and a cache compares whole texts only if
/// their sums are equal. Without the keys a client cannot find texts with equal sums.
#[derive(Clone, Copy)]
pub struct HashKeys {
    /// A sum begins with it. In a hash, each byte and its index are mixed with it.
    pub(crate) seed: u64,
    /// One factor of each product, or what that factor is mixed with.
    pub(crate) factor: u64,
}

impl HashKeys {
    /// Returns the known keys, which are public: bits of pi and of the golden ratio.
    pub fn known() -> HashKeys {
        HashKeys {
            seed: 0x243f_6a88_85a3_08d3,
            factor: 0x9e37_79b9_7f4a_7c15,
        }
    }

    /// Returns random keys, or the known ones if the system gives no random bytes. A cache is right with any keys.
    pub fn drawn<R: RandomSource>(rt: &R) -> HashKeys {
        let mut bytes = [0u8; 16];
        if rt.fill_bytes(&mut bytes).is_err() {
            return HashKeys::known();
        }
        let drawn = u128::from_le_bytes(bytes);
        HashKeys {
            seed: (drawn >> 64) as u64,
            factor: (drawn & 0xFFFF_FFFF_FFFF_FFFF) as u64 | 1,
        }
    }
}

impl BuildHasher for HashKeys {
    type Hasher = TextHasher;

    ghost build_hasher = { hash_start };

    fn build_hasher(&self) -> TextHasher {
        TextHasher {
            keys: *self,
            offset: 0,
            total: 0,
        }
    }
}

/// Hashes a text as a sum over its bytes, each mixed with its index and the keys. The bytes of a slice come one by one.
/// In a sum, no multiplication waits for the one before it.
#[derive(Clone, Copy)]
pub struct TextHasher {
    keys: HashKeys,
    /// 256 for each byte so far.
    offset: u64,
    total: u64,
}

/// The xor of the two halves of a 128-bit product.
pub(crate) fn folded(a: u64, b: u64) -> u64
    ensures { result ≡ folded a b }
{
    let product = a as u128 * b as u128;
    (product & 0xFFFF_FFFF_FFFF_FFFF) as u64 ^ (product >> 64) as u64
}

impl TextHasher {
    /// The hasher after one more byte.
    fn with(self, byte: u8) -> TextHasher
        ensures { result ≡ with_byte self byte }
    {
        let placed = self.keys.seed ^ self.offset.wrapping_add(u64::from(byte));
        TextHasher {
            keys: self.keys,
            offset: self.offset.wrapping_add(256),
            total: self.total.wrapping_add(folded(placed, self.keys.factor)),
        }
    }
}

impl Hasher for TextHasher {
    ghost write = { fold with_byte };

    ghost finish = { hash_of };

    fn finish(&self) -> u64 {
        folded(self.total ^ self.keys.seed, self.keys.factor)
    }

    fn write(&mut self, bytes: &[u8]) {
        let mut hasher = *self;
        for byte in bytes {
            hasher = hasher.with(*byte);
        }
        *self = hasher;
    }
}
