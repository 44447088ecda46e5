//! The records of transactions, by number.

ghost use Rattle.std.specs.BTreeMap.{get as slot_of};
ghost use Rattle.std.specs.Ordering.{nat_cmp};
ghost use Rattle.slab.specs.Slab.{get as held};
ghost use Rattle.ssi_conflict.specs.Machinery.Slots.{AreApart, AreTaken};

use crate::record::Record;
use crate::stamps::sooner;
use adya_values::{Key, Txn};
use slab::Slab;
use std::alloc::{AllocError, Global};
use std::collections::BTreeMap;

#[derive(Drop)]
pub(crate) struct Records {
    // the place of each transaction's record
    slots: BTreeMap<Txn, usize>,
    records: Slab<Record>,
    ghost apart: { AreApart (slot_of nat_cmp slots) },
    ghost taken: { AreTaken (slot_of nat_cmp slots) (held records) },
}

impl Records {
    ghost use Rattle.std.specs.Prelude.{◌≡◌, ℕ, List, None, Some, OnOk, OnErr, option_map, is_some, length};
    ghost use Rattle.std.specs.List.{IsDistinct};
    ghost use Rattle.std.specs.Option.{option_copied};
    ghost use Rattle.std.specs.Ordering.{eq_by_cmp};
    ghost use Rattle.std.specs.Set.{is_member};
    ghost use Rattle.ssi_conflict.specs.Machinery.Rows.{with_sooner, closed};
    ghost use Rattle.ssi_conflict.specs.Machinery.Records.{row_of, row_in, Changes};

    pub(crate) fn new(alloc: Global) -> Records
        ensures { (t : ℕ) → row_in result t ≡ None }
    {
        Records {
            slots: BTreeMap::new(alloc),
            records: Slab::new(alloc),
        }
    }

    /// Returns the record of the transaction.
    pub(crate) fn get(&self, txn: Txn) -> Option<&Record>
        ensures { option_map row_of (option_copied result) ≡ row_in self.now txn }
    {
        let Some(at) = self.slots.get(&txn) else {
            return None;
        };
        self.records.get(*at)
    }

    /// Adds a record.
    pub(crate) fn add(&mut self, txn: Txn, kept: Record) -> Result<(), AllocError>
        ensures added { OnOk result (Changes (row_in self.old) (row_in self.new) txn (Some (row_of kept))) }
        ensures refused { OnErr result ((x : ℕ) → row_in self.new x ≡ row_in self.old x) }
    {
        self.records.reserve(1)?;
        let at = self.records.insert_reserved(kept);
        if let Err(_) = self.slots.insert(txn, at) {
            self.records.try_remove(at);
            return Err(AllocError);
        }
        Ok(())
    }

    /// Pairs lead from the transaction to one with this stamp.
    pub(crate) fn add_out(&mut self, txn: Txn, stamp: Option<u64>)
        ensures { Changes (row_in self.old) (row_in self.new) txn
            (option_map (with_sooner stamp) (row_in self.old txn)) }
    {
        let Some(at) = self.slots.get(&txn) else {
            return;
        };
        if let Some(kept) = self.records.get_mut(*at) {
            kept.first_out = sooner(kept.first_out, stamp);
        }
    }

    /// The transaction has committed with this stamp, and takes the keys.
    pub(crate) fn close(&mut self, txn: Txn, stamp: u64, keys: &mut Vec<Key>)
        ensures { Changes (row_in self.old) (row_in self.new) txn
            (option_map (closed stamp keys.old.items) (row_in self.old txn)) }
    {
        let Some(at) = self.slots.get(&txn) else {
            return;
        };
        if let Some(kept) = self.records.get_mut(*at) {
            kept.stamp = Some(stamp);
            std::mem::swap(&mut kept.keys, keys);
        }
    }

    /// Removes the record of the transaction, and returns it.
    pub(crate) fn remove(&mut self, txn: Txn) -> Option<Record>
        ensures value { option_map row_of result ≡ row_in self.old txn }
        ensures rows { Changes (row_in self.old) (row_in self.new) txn None }
    {
        let Some(at) = self.slots.remove(&txn) else {
            return None;
        };
        self.records.try_remove(at)
    }

    /// Returns the number of records.
    pub(crate) fn len(&self) -> usize
        ensures { (ts : List ℕ) → IsDistinct (eq_by_cmp nat_cmp) ts
            → ((t : ℕ) → is_member (eq_by_cmp nat_cmp) ts t ≡ is_some (row_in self.now t)) → result ≡ length ts }
    {
        self.slots.len()
    }
}
