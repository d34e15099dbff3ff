//! Numbers by chance, the same for each seed.

/// A generator of numbers, by the method that is known as SplitMix64.
#[derive(Clone, Copy)]
pub struct Random {
    state: u64,
}

impl Random {
    /// The numbers of a seed. Each stream of them is another.
    pub fn new(seed: u32, stream: u32) -> Random {
        Random {
            state: (u64::from(seed) << 32) | u64::from(stream),
        }
    }

    fn next(&mut self) -> u64 {
        self.state = self.state.wrapping_add(0x9E37_79B9_7F4A_7C15);
        let mut mixed = self.state;
        mixed = (mixed ^ (mixed >> 30)).wrapping_mul(0xBF58_476D_1CE4_E5B9);
        mixed = (mixed ^ (mixed >> 27)).wrapping_mul(0x94D0_49BB_1331_11EB);
        mixed ^ (mixed >> 31)
    }

    /// A number below a bound, or 0 where there is none.
    pub fn below(&mut self, bound: usize) -> usize {
        (self.next() % (bound.max(1) as u64)) as usize
    }

    /// A number of 32 bits.
    pub fn number(&mut self) -> u32 {
        (self.next() % 0x1_0000_0000) as u32
    }

    /// A number from one up to another.
    pub fn between(&mut self, least: usize, most: usize) -> usize {
        let span = most.saturating_sub(least).saturating_add(1);
        least.saturating_add(self.below(span))
    }

    /// Whether it hits once in so many times.
    pub fn is_one_in(&mut self, count: usize) -> bool {
        self.below(count) == 0
    }

    /// One of some words. The first ones come more often, as in a text.
    pub fn word<'a>(&mut self, words: &[&'a str]) -> &'a str {
        let most = self.below(words.len()).saturating_add(1);
        words.get(self.below(most)).map_or("", |word| *word)
    }
}
