//! Coins that a seed chooses.

/// Coins, the same each time for one seed.
#[derive(Clone, Copy, Debug)]
pub struct Coins {
    state: u64,
    /// How many coins in a row fall the same way.
    run: u64,
    left: u64,
    last: bool,
}

impl Coins {
    /// With seed 0 each coin shows tails, and with seed 1 heads. With another seed one, four or seven coins in a row fall the
    /// same way.
    pub fn new(seed: u64) -> Coins {
        let (run, left) = match seed {
            0 | 1 => (u64::MAX, u64::MAX),
            _ => (1 + seed % 3 * 3, 0),
        };
        Coins {
            state: seed,
            run,
            left,
            last: seed == 1,
        }
    }

    /// Tosses a coin.
    pub fn toss(&mut self) -> bool {
        if self.left > 0 {
            self.left -= 1;
            return self.last;
        }
        self.left = self.run.saturating_sub(1);
        self.last = self.number() % 2 == 1;
        self.last
    }

    /// A number below 2^31.
    pub fn number(&mut self) -> u64 {
        self.state = self
            .state
            .wrapping_mul(6364136223846793005)
            .wrapping_add(1442695040888963407);
        self.state >> 33
    }
}
