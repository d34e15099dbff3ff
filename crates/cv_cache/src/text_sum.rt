//! A keyed sum of long texts.
ghost use Rattle.std.specs.Prelude.{◌≡◌, length};
ghost use Rattle.std.specs.List.{fold};
ghost use Rattle.cv_cache.specs.Private.Sums.{start, with_block, with_byte, ended, sum_of, IsSum};

use crate::text_hasher::{HashKeys, folded};

/// The sum of a text, and the keys that it was made with.
#[derive(Clone, Copy)]
pub(crate) struct Sum {
    keys: HashKeys,
    value: u64,
}

impl Sum {
    /// The sum of a text by these keys.
    pub(crate) fn of(keys: &HashKeys, text: &[u8]) -> Sum
        ensures { IsSum text.now result }
    {
        Sum {
            keys: *keys,
            value: keys.sum_of(text),
        }
    }

    /// The sum of the same text by these keys. In the program they are always the sum's own keys, but a contract cannot
    /// say that of what a lock holds.
    pub(crate) fn by(self, keys: &HashKeys, text: &[u8]) -> u64
        requires { IsSum text.now self }
        ensures { result ≡ sum_of keys.now text.now }
    {
        if self.keys.seed == keys.seed && self.keys.factor == keys.factor {
            return self.value;
        }
        keys.sum_of(text)
    }
}

/// Two chains of products. The multiplications of one do not wait for those of the other.
#[derive(Clone, Copy)]
struct Chains {
    even: u64,
    odd: u64,
}

impl Chains {
    /// The chains before the first byte of a text. They begin with its length, which tells bytes that fill a block from
    /// bytes that are left over.
    fn start(keys: &HashKeys, length: usize) -> Chains
        ensures { result ≡ start keys.now length }
    {
        let even = folded(keys.seed ^ length as u64, keys.factor);
        let odd = folded(even ^ keys.seed, keys.factor);
        Chains { even, odd }
    }

    /// The chains after one more block. Its first half goes into one chain, its second half into the other.
    fn with_block(self, factor: u64, block: &[u8; 32]) -> Chains
        ensures { result ≡ with_block factor self block.now }
    {
        let (words, _) = block.as_chunks::<8>();
        let low = u64::from_le_bytes(words[0]);
        let high = u64::from_le_bytes(words[1]);
        let even = folded(self.even ^ low, factor ^ high);
        let low = u64::from_le_bytes(words[2]);
        let high = u64::from_le_bytes(words[3]);
        let odd = folded(self.odd ^ low, factor ^ high);
        Chains { even, odd }
    }

    /// The chains after one more byte.
    fn with_byte(self, factor: u64, byte: u8) -> Chains
        ensures { result ≡ with_byte factor self byte }
    {
        Chains {
            even: self.even,
            odd: folded(self.odd ^ u64::from(byte), factor),
        }
    }

    /// The sum that both chains give.
    fn ended(self, keys: &HashKeys) -> u64
        ensures { result ≡ ended keys.now self }
    {
        folded(self.even ^ keys.seed, self.odd ^ keys.factor)
    }
}

/// The chains after all blocks.
fn over_blocks(start: Chains, factor: u64, blocks: &[[u8; 32]]) -> Chains
    ensures { result ≡ fold (with_block factor) start blocks.now }
{
    let mut chains = start;
    for block in blocks {
        chains = chains.with_block(factor, block);
    }
    chains
}

/// The chains after the bytes that fill no block.
fn over_bytes(start: Chains, factor: u64, bytes: &[u8]) -> Chains
    ensures { result ≡ fold (with_byte factor) start bytes.now }
{
    let mut chains = start;
    for byte in bytes {
        chains = chains.with_byte(factor, *byte);
    }
    chains
}

impl HashKeys {
    /// The sum of a text, by words of 8 bytes; at most 31 last bytes are summed one by one. Each word is mixed with a
    /// key, or with a chain that depends on the keys, before it is multiplied. Without the keys a client knows neither
    /// factor of any product, and cannot find texts with equal sums. A chain depends on the order of its blocks, and
    /// begins with the length.
    pub(crate) fn sum_of(&self, text: &[u8]) -> u64
        ensures { result ≡ sum_of self.now text.now }
    {
        let (blocks, rest) = text.as_chunks::<32>();
        let start = Chains::start(self, text.len());
        let chains = over_blocks(start, self.factor, blocks);
        over_bytes(chains, self.factor, rest).ended(self)
    }
}
