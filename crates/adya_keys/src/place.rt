//! Places in a list, in two halves.

ghost use Rattle.std.specs.Prelude.{◌≡◌};

use std::marker::Model;

/// A place, counted from 0, in two halves of 32 bits: a struct that has one needs no gap before it or at its end.
#[derive(Clone, Copy)]
pub struct Place {
    low: u32,
    high: u32,
}

impl Model for Place {
    ghost use Rattle.std.specs.Prelude.{ℕ, ◌+◌, ◌*◌, ◌/◌, ◌%◌, ◌<◌};
    ghost use Rattle.std.proofs.lemmas.Nat.{div-mul-add, mod-mul-add};

    ghost Value = { ℕ };

    ghost view = { λ p. p.high * 4294967296 + p.low };

    ghost invariant = { λ p. (p.low < 4294967296) × (p.high < 4294967296) };

    ghost inverse = { λ n. record { low = n % 4294967296; high = n / 4294967296 } };

    ghost inverse_ok = { λ p h i. record {
      low = mod-mul-add p.high 4294967296 p.low h.0 i;
      high = div-mul-add p.high 4294967296 p.low h.0 i;
    } };
}

impl Place {
    /// Makes that of the number.
    #[inline(always)]
    pub fn new(place: usize) -> Place
        ensures { result ≡ place }
    {
        Place {
            low: (place % 4_294_967_296) as u32,
            high: (place / 4_294_967_296) as u32,
        }
    }

    /// Returns the number.
    #[inline(always)]
    pub fn get(self) -> usize
        ensures { result ≡ self }
    {
        self.high as usize * 4_294_967_296 + self.low as usize
    }
}
