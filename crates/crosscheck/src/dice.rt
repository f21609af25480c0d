// Repeatable random numbers, by Marsaglia's xorshift.
#[derive(Drop)]
pub struct Dice {
    state: u64,
}

impl Dice {
    // The seed is any number but 0.
    pub fn seeded(seed: u64) -> Dice {
        Dice { state: seed }
    }

    fn roll(&mut self) -> u64 {
        let mut x = self.state;
        x ^= x << 13;
        x ^= x >> 7;
        x ^= x << 17;
        self.state = x;
        x
    }

    // A number from low to high.
    pub fn between(&mut self, low: u32, high: u32) -> u32 {
        let width = high.saturating_sub(low).saturating_add(1);
        low.saturating_add((self.roll() >> 32) as u32 % width.max(1))
    }

    // The same for numbers that fit a byte. Not by `between`, which takes other bits of a roll: the seed is to draw the
    // files that it drew.
    pub fn byte(&mut self, low: u8, high: u8) -> u8 {
        let width = high.saturating_sub(low).saturating_add(1);
        low.saturating_add((self.roll() >> 56) as u8 % width.max(1))
    }

    // Comes true once in so many times.
    pub fn once_in(&mut self, times: u32) -> bool {
        self.between(1, times) == 1
    }
}
