//! Numbers that follow one from another, by the linear congruence of Knuth's MMIX.

/// The number that follows.
pub fn following(number: u64) -> u64 {
    number
        .wrapping_mul(6_364_136_223_846_793_005)
        .wrapping_add(1_442_695_040_888_963_407)
}

/// Numbers that are drawn.
#[derive(Clone, Copy)]
pub struct Draw {
    state: u64,
}

impl Draw {
    pub fn new(seed: u64) -> Draw {
        Draw {
            state: following(seed),
        }
    }

    /// The next number, below this one.
    pub fn below(&mut self, count: u64) -> u64 {
        self.state = following(self.state);
        if count == 0 {
            return 0;
        }
        (self.state >> 33) % count
    }

    /// The next number, below this one, as a byte.
    pub fn byte(&mut self, count: u64) -> u8 {
        (self.below(count) & 255) as u8
    }
}
