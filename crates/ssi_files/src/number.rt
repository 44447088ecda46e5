//! The numbers of segments.

ghost use Rattle.std.specs.Prelude.{◌≡◌, ◌+◌, ◌↔◌, IsSome, IfSome};
ghost use Rattle.ssi_files.specs.Meaning.Names.{IsNumber};

use std::marker::Model;

/// The number of a segment, 1 to 99,999,999.
#[derive(Clone, Copy, Debug, PartialEq, Eq, PartialOrd, Ord)]
pub struct SegmentNumber {
    number: u32,
}

impl Model for SegmentNumber {
    ghost use Rattle.std.specs.Prelude.{ℕ, ◌<◌};

    ghost Value = { ℕ };

    ghost view = { λ s. s.number };

    ghost invariant = { λ s. (0 < s.number) × (s.number < 100_000_000) };

    ghost inverse = { λ n. record { number = n } };
}

impl SegmentNumber {
    /// Makes the number of a segment. `None` if and only if it is 0 or above 99,999,999.
    pub fn new(number: u32) -> Option<SegmentNumber>
        ensures limits { IsSome result ↔ IsNumber number }
        ensures same { IfSome result (λ n. n ≡ number) }
    {
        if number == 0 || number > 99_999_999 {
            return None;
        }
        Some(SegmentNumber { number })
    }

    /// Returns the number as an integer.
    pub fn get(self) -> u32
        ensures same { result ≡ self }
        ensures limits { IsNumber self }
    {
        self.number
    }

    /// Returns the number of the segment that comes after this one. `None` if and only if this is the last number there is.
    pub fn next(self) -> Option<SegmentNumber>
        ensures limits { IsSome result ↔ IsNumber (self + 1) }
        ensures same { IfSome result (λ n. n ≡ self + 1) }
    {
        SegmentNumber::new(self.number + 1)
    }
}
