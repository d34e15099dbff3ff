//! Pseudorandom numbers.

/// A linear congruential generator: the same seed gives the same numbers.
#[derive(Drop)]
pub struct Numbers {
    pub state: u64,
}

impl Numbers {
    /// Returns the next number, which is below `limit`, or 0 if the limit is 0.
    pub fn below(&mut self, limit: u32) -> u32 {
        self.state = self
            .state
            .wrapping_mul(6_364_136_223_846_793_005)
            .wrapping_add(1_442_695_040_888_963_407);
        let limit = u64::from(limit.max(1));
        u32::try_from((self.state >> 33) % limit).unwrap_or(0)
    }

    /// Returns one of `numbers`, or 0 if there are none.
    pub fn one_of(&mut self, numbers: &[u32]) -> u32 {
        let count = u32::try_from(numbers.len()).unwrap_or(0);
        let place = self.below(count);
        numbers.get(place as usize).map_or(0, |number| *number)
    }
}
