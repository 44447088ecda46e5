//! Transactions by their numbers, and the numbers of a transaction's modifications of a key.

ghost use Rattle.std.specs.Prelude.{◌≡◌, ◌<◌, ◌^◌, ◌↔◌, IsOk, IfOk};
ghost use Rattle.adya_keys.specs.Meaning.Keys.{IsTxn, IsMod};

use std::marker::Model;
use thiserror::Error;

/// The number is 0, or above the limit of its kind.
#[derive(Clone, Copy, Debug, PartialEq, Eq, Error, Drop)]
#[error("3 bad number")]
pub struct BadNumber;

/// The number of a transaction, 1 to 4294967295.
#[derive(Clone, Copy, Debug, PartialEq, Eq, PartialOrd, Ord, Hash)]
pub struct Txn {
    number: u32,
}

impl Model for Txn {
    ghost use Rattle.std.specs.Prelude.{ℕ, ◌<◌, ◌^◌};

    ghost Value = { ℕ };

    ghost view = { λ t. t.number };

    ghost invariant = { λ t. (0 < t.number) × (t.number < 2 ^ 32) };

    ghost inverse = { λ n. record { number = n } };
}

impl Txn {
    /// Makes the transaction of this number; `BadNumber` if and only if it is 0 or above 4294967295.
    pub fn new(number: u64) -> Result<Txn, BadNumber>
        ensures limits { IsOk result ↔ IsTxn number }
        ensures same { IfOk result (λ t. t ≡ number) }
    {
        if number == 0 || number > 4_294_967_295 {
            return Err(BadNumber);
        }
        Ok(Txn {
            number: number as u32,
        })
    }

    /// Returns the number of the transaction.
    pub fn get(&self) -> u32
        ensures same { result ≡ self.now }
        ensures limits { IsTxn self.now }
    {
        self.number
    }
}

/// The number of a write or delete among those of one key by one transaction, 1 to 65535.
#[derive(Clone, Copy, Debug, PartialEq, Eq, PartialOrd, Ord, Hash)]
pub struct Mod {
    number: u16,
}

impl Model for Mod {
    ghost use Rattle.std.specs.Prelude.{ℕ, ◌<◌, ◌^◌};

    ghost Value = { ℕ };

    ghost view = { λ m. m.number };

    ghost invariant = { λ m. (0 < m.number) × (m.number < 2 ^ 16) };

    ghost inverse = { λ n. record { number = n } };
}

impl Mod {
    /// Makes a modification of this number; `BadNumber` if and only if it is 0 or above 65535.
    pub fn new(number: u64) -> Result<Mod, BadNumber>
        ensures limits { IsOk result ↔ IsMod number }
        ensures same { IfOk result (λ m. m ≡ number) }
    {
        if number == 0 || number > 65_535 {
            return Err(BadNumber);
        }
        Ok(Mod {
            number: number as u16,
        })
    }

    /// Returns the number of the modification.
    pub fn get(&self) -> u16
        ensures same { result ≡ self.now }
        ensures limits { IsMod self.now }
    {
        self.number
    }
}
