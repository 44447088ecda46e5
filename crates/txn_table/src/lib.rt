//! A table by transactions: an array for small numbers, and an ordered map for all others.
#![tactic(auto)]

mod places;

ghost use Rattle.std.specs.Prelude.{◌≡◌, ◌==◌, ℕ, cond, IfOk, OnOk, OnErr};

use adya_values::Txn;
pub use places::places_of;
use std::alloc::{AllocError, Global};
use std::collections::BTreeMap;

/// A value for each transaction.
///
/// Transactions are mostly numbered from 1 on, without large gaps. The values of small numbers stand in an array, where
/// one look finds them. Those of others stand in an ordered map, so that no choice of numbers makes the table slow.
#[derive(Drop)]
pub struct TxnTable<V> {
    small: Vec<V>,
    large: BTreeMap<Txn, V>,
    initial: V,
}

impl<V: Copy> TxnTable<V> {
    ghost use Rattle.txn_table.specs.Mirror.{value_for};

    /// Makes the table in which each transaction has this value. Its array holds the numbers below `small`, and takes its
    /// room now; `AllocError` if memory is refused.
    pub fn new(alloc: Global, small: usize, initial: V) -> Result<TxnTable<V>, AllocError>
        ensures { IfOk result (λ t. (u : ℕ) → value_for t u ≡ initial) }
    {
        let mut values = Vec::new(alloc);
        values.resize(small, initial)?;
        Ok(TxnTable {
            small: values,
            large: BTreeMap::new(alloc),
            initial,
        })
    }

    /// Returns the transaction's value.
    pub fn get(&self, txn: Txn) -> V
        ensures { result ≡ value_for self.now txn }
    {
        match self.small.get(txn.get() as usize) {
            Some(value) => *value,
            None => self.large.get(&txn).copied().unwrap_or(self.initial),
        }
    }

    /// Gives the transaction the value; `AllocError` if memory is refused, and then nothing has changed.
    pub fn set(&mut self, txn: Txn, value: V) -> Result<(), AllocError>
        ensures set { OnOk result ((u : ℕ) → value_for self.new u ≡ cond (txn == u) value (value_for self.old u)) }
        ensures refused { OnErr result ((u : ℕ) → value_for self.new u ≡ value_for self.old u) }
    {
        if let Some(place) = self.small.get_mut(txn.get() as usize) {
            *place = value;
            return Ok(());
        }
        self.large.insert(txn, value)?;
        Ok(())
    }
}
