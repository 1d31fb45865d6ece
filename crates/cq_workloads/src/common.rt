//! What the jobs share.
use rand_xoshiro::Xoshiro256PlusPlus;
use rand_xoshiro::rand_core::{Rng, SeedableRng};
use std::io;

/// The error of that text.
pub fn stop(what: &'static str) -> io::Error {
    io::Error::other(what)
}

/// Numbers drawn by a seed.
#[derive(Drop)]
pub struct Draws {
    generator: Xoshiro256PlusPlus,
}

impl Draws {
    pub fn new(seed: u64) -> Draws {
        Draws {
            generator: Xoshiro256PlusPlus::seed_from_u64(seed),
        }
    }

    /// A number below `limit`, or 0 where that is 0.
    pub fn below(&mut self, limit: u64) -> u64 {
        let drawn = self.generator.next_u64();
        drawn.checked_rem(limit).unwrap_or(0)
    }

    /// Whether one in so many draws comes out.
    pub fn one_in(&mut self, count: u64) -> bool {
        self.below(count) == 0
    }
}
