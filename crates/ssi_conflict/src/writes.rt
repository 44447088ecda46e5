//! The index of written keys.

ghost use Rattle.std.specs.Prelude.{◌≡◌, ℕ, List, None, Some, OnOk, true, false, cond};
ghost use Rattle.ssi_conflict.specs.Machinery.Index.{writer_in, has_key, is_one_of, pivot_at, stamp_at, IsLowest};
ghost use Rattle.ssi_conflict.specs.Machinery.Records.{row_in};

use crate::reading::{Met, Reading};
use crate::records::Records;
use adya_values::{Key, Txn};
use std::alloc::{AllocError, Global};
use std::collections::BTreeMap;

/// A write of the key. The stamp of its commit is the next one after `before`.
#[derive(Clone, Copy, PartialEq, Eq, PartialOrd, Ord)]
pub(crate) struct Write {
    pub(crate) key: Key,
    pub(crate) before: u64,
}

/// Who wrote each key, by key and stamp.
#[derive(Drop)]
pub(crate) struct Writes {
    writers: BTreeMap<Write, Txn>,
}

impl Writes {
    pub(crate) fn new(alloc: Global) -> Writes
        ensures { (k : List ℕ) (a : ℕ) → writer_in result k a ≡ None }
    {
        Writes {
            writers: BTreeMap::new(alloc),
        }
    }

    /// Adds writes of these keys. If out of memory, some of them are there, and all others are as before.
    pub(crate) fn add(&mut self, keys: &[Key], before: u64, txn: Txn) -> Result<(), AllocError>
        ensures added { OnOk result ((k : List ℕ) → has_key keys.now k ≡ true
            → writer_in self.new k before ≡ Some txn) }
        ensures others { (k : List ℕ) (a : ℕ) → is_one_of keys.now before k a ≡ false
            → writer_in self.new k a ≡ writer_in self.old k a }
    {
        for key in keys {
            let write = Write { key: *key, before };
            self.writers.insert(write, txn)?;
        }
        Ok(())
    }

    /// Removes the writes of these keys.
    pub(crate) fn remove(&mut self, keys: &[Key], before: u64)
        ensures { (k : List ℕ) (a : ℕ)
            → writer_in self.new k a ≡ cond (is_one_of keys.now before k a) None (writer_in self.old k a) }
    {
        for key in keys {
            let write = Write { key: *key, before };
            self.writers.remove(&write);
        }
    }

    /// Returns what the read meets of the commits up to the stamp `last`. It walks the entries of the keys that are read,
    /// of a single key only those above the snapshot.
    pub(crate) fn met(&self, records: &Records, reading: &Reading, last: u64) -> Met
        ensures pivot { IsLowest (writer_in self.now) (pivot_at (row_in records.now) reading.now last) result.pivot }
        ensures first { IsLowest (writer_in self.now) (stamp_at (row_in records.now) reading.now last) result.first }
    {
        let from = Write {
            key: reading.low,
            before: reading.snapshot,
        };
        let to = Write {
            key: reading.high,
            before: last,
        };
        let mut met = Met::nothing();
        if to < from {
            return met;
        }
        for (write, txn) in self.writers.range(from..=to) {
            met = met.and(reading.meet(records, write, *txn, last));
        }
        met
    }
}
