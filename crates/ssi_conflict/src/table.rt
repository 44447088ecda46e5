//! What is kept of all transactions.

ghost use Rattle.std.specs.Prelude.{◌≡◌, ℕ, suc, List, true, None, Some, OnOk, OnErr, OnSome, IfSome, IfNone, option_map, is_some, length, ◌<◌};
ghost use Rattle.std.specs.List.{IsDistinct};
ghost use Rattle.std.specs.VecDeque.{deque_len};
ghost use Rattle.std.specs.Option.{option_copied};
ghost use Rattle.std.specs.Ordering.{nat_cmp, eq_by_cmp};
ghost use Rattle.std.specs.Set.{is_member};
ghost use Rattle.ssi_conflict.specs.Machinery.Rows.{new_row, with_sooner, closed, read_conflict, read_pivot, IsSmallestRow, IsLeastStamp};
ghost use Rattle.ssi_conflict.specs.Machinery.Records.{row_of, Changes};
ghost use Rattle.ssi_conflict.specs.Machinery.Index.{stamp_in, commit_in, writer_in, IsIndexed};
ghost use Rattle.ssi_conflict.specs.Machinery.Tables.{row_at, met, pivots, IsTidy, IsPrepared, is_open_row, IsOldestRow, IsPast, is_after as comes_after};

use crate::reading::{Met, Reading};
use crate::record::Record;
use crate::records::Records;
use crate::stamps::{is_after, is_no_later, is_within};
use crate::writes::Writes;
use adya_values::{Key, Txn};
use std::alloc::{AllocError, Global};
use std::collections::{BTreeSet, VecDeque};

#[derive(Drop)]
pub(crate) struct Table {
    records: Records,
    // the open transactions
    open: BTreeSet<Txn>,
    // the committed ones, by rising stamp
    closed: VecDeque<Txn>,
    // the writes of the committed ones, and those of the commit that was judged last
    writes: Writes,
    // the greatest stamp so far
    last: u64,
    // the keys of the commit that was judged last
    judged: Vec<Key>,
}

/// A commit by a transaction with this snapshot.
#[derive(Clone, Copy)]
pub(crate) struct Writer {
    pub(crate) txn: Txn,
    pub(crate) snapshot: u64,
}

impl Table {
    pub(crate) fn new(alloc: Global) -> Table
        ensures empty { (t : ℕ) → row_at result t ≡ None }
        ensures tidy { IsTidy result }
        ensures last { result.last ≡ 0 }
    {
        Table {
            records: Records::new(alloc),
            open: BTreeSet::new(alloc),
            closed: VecDeque::new(alloc),
            writes: Writes::new(alloc),
            last: 0,
            judged: Vec::new(alloc),
        }
    }

    /// Adds a record of a transaction that begins.
    pub(crate) fn open(&mut self, alloc: Global, txn: Txn, snapshot: u64) -> Result<(), AllocError>
        ensures opened { OnOk result (Changes (row_at self.old) (row_at self.new) txn (Some (new_row snapshot))) }
        ensures refused { OnErr result ((x : ℕ) → row_at self.new x ≡ row_at self.old x) }
        ensures tidy { row_at self.old txn ≡ None → IsTidy self.old → IsTidy self.new }
        ensures last { self.new.last ≡ self.old.last }
    {
        let kept = Record {
            snapshot,
            stamp: None,
            keys: Vec::new(alloc),
            first_out: None,
        };
        self.open.insert(txn)?;
        if let Err(refused) = self.records.add(txn, kept) {
            self.open.remove(&txn);
            return Err(refused);
        }
        Ok(())
    }

    /// Returns the record of the transaction.
    pub(crate) fn get(&self, txn: Txn) -> Option<&Record>
        ensures { option_map row_of (option_copied result) ≡ row_at self.now txn }
    {
        self.records.get(txn)
    }

    /// Pairs lead from the transaction to one with this stamp.
    pub(crate) fn add_out(&mut self, txn: Txn, stamp: Option<u64>)
        ensures rows { Changes (row_at self.old) (row_at self.new) txn
            (option_map (with_sooner stamp) (row_at self.old txn)) }
        ensures rest { self.new ≡ record self.old { records = self.new.records } }
    {
        self.records.add_out(txn, stamp);
    }

    /// Returns what the read meets.
    pub(crate) fn met(&self, reading: &Reading) -> Met
        ensures pivot { IsTidy self.now
            → IsSmallestRow (row_at self.now) (read_pivot reading.now.snapshot reading.now.low reading.now.high)
            result.pivot }
        ensures first { IsTidy self.now
            → IsLeastStamp (row_at self.now) (read_conflict reading.now.snapshot reading.now.low reading.now.high)
            result.first }
    {
        self.writes.met(&self.records, reading, self.last)
    }

    /// Returns whether the writer would be a pivot with this reader.
    pub(crate) fn pivots(&self, writer: &Writer, first_out: Option<u64>, reader: Txn) -> bool
        ensures { result ≡ pivots (row_at self.now) writer.now.txn writer.now.snapshot first_out reader }
    {
        match self.get(reader) {
            None => false,
            Some(kept) => reader != writer.txn
                && !is_within(kept.stamp, writer.snapshot)
                && is_no_later(first_out, kept.stamp),
        }
    }

    /// Makes all that a commit of the transaction with these keys takes memory for: room in the list, and its writes.
    /// Those of the commit that was judged before go.
    pub(crate) fn prepare(&mut self, txn: Txn, keys: &[Key]) -> Result<(), AllocError>
        ensures rows { (x : ℕ) → row_at self.new x ≡ row_at self.old x }
        ensures tidy { IsTidy self.old → IsTidy self.new }
        ensures last { self.new.last ≡ self.old.last }
        ensures prepared { OnOk result (IsPrepared self.new txn keys.now) }
    {
        self.writes.remove(&self.judged, self.last);
        self.judged.clear();
        self.closed.reserve(1)?;
        self.judged.extend_from_slice(keys)?;
        self.writes.add(&self.judged, self.last, txn)
    }

    /// The reader gets a pair to the writer, which commits with this stamp.
    pub(crate) fn meet(&mut self, writer: &Writer, stamp: u64, reader: Txn)
        ensures rows { Changes (row_at self.old) (row_at self.new) reader
            (option_map (met writer.now.txn writer.now.snapshot stamp reader) (row_at self.old reader)) }
        ensures rest { self.new ≡ record self.old { records = self.new.records } }
    {
        let apart = match self.get(reader) {
            None => false,
            Some(kept) => reader != writer.txn && !is_within(kept.stamp, writer.snapshot),
        };
        if apart {
            self.add_out(reader, Some(stamp));
        }
    }

    /// The transaction has committed with the keys that were judged.
    pub(crate) fn close(&mut self, txn: Txn, stamp: u64)
        ensures rows { Changes (row_at self.old) (row_at self.new) txn
            (option_map (closed stamp self.old.judged.items) (row_at self.old txn)) }
        ensures tidy { is_open_row (row_at self.old txn) ≡ true → stamp ≡ suc self.old.last
            → IsPrepared self.old txn self.old.judged.items → IsTidy self.old → IsTidy self.new }
        ensures last { self.new.last ≡ stamp }
    {
        self.open.remove(&txn);
        let _ = self.closed.push_back(txn);
        self.records.close(txn, stamp, &mut self.judged);
        self.last = stamp;
    }

    /// Removes an open transaction.
    pub(crate) fn remove(&mut self, txn: Txn)
        ensures rows { Changes (row_at self.old) (row_at self.new) txn None }
        ensures tidy { is_open_row (row_at self.old txn) ≡ true → IsTidy self.old → IsTidy self.new }
        ensures last { self.new.last ≡ self.old.last }
    {
        self.open.remove(&txn);
        self.drop_record(txn);
    }

    /// Returns the snapshot of the open transaction with the smallest number.
    pub(crate) fn oldest(&self) -> Option<u64>
        ensures { IsTidy self.now → IsOldestRow (row_at self.now) result }
    {
        let Some(txn) = self.open.first() else {
            return None;
        };
        let Some(kept) = self.get(*txn) else {
            return None;
        };
        Some(kept.snapshot)
    }

    /// Removes the transaction that committed first, if that was not after this snapshot, and returns its number.
    pub(crate) fn pop_before(&mut self, oldest: Option<u64>) -> Option<Txn>
        ensures popped { IfSome result (λ t. Changes (row_at self.old) (row_at self.new) t None) }
        ensures past { IfSome result (λ t. IsTidy self.old → IsPast (row_at self.old) oldest t) }
        ensures shorter { OnSome result (deque_len self.new.closed < deque_len self.old.closed) }
        ensures tidy { IsTidy self.old → IsTidy self.new }
        ensures last { self.new.last ≡ self.old.last }
        ensures same { IfNone result ((x : ℕ) → row_at self.new x ≡ row_at self.old x) }
        ensures rest { IfNone result (IsTidy self.old → (t n : ℕ) → stamp_in (row_at self.old t) ≡ Some n →
            comes_after (Some n) oldest ≡ true) }
    {
        let Some(first) = self.closed.front() else {
            return None;
        };
        let first = *first;
        let Some(kept) = self.get(first) else {
            return None;
        };
        if is_after(kept.stamp, oldest) {
            return None;
        }
        self.closed.pop_front();
        self.drop_record(first);
        Some(first)
    }

    /// Drops what is kept of the transaction.
    fn drop_record(&mut self, txn: Txn)
        ensures rows { Changes (row_at self.old) (row_at self.new) txn None }
        ensures rest { self.new ≡ record self.old { records = self.new.records; writes = self.new.writes } }
        ensures indexed { IsIndexed (λ t. commit_in (row_at self.old t)) (writer_in self.old.writes) self.old.last
            self.old.judged.items
            → IsIndexed (λ t. commit_in (row_at self.new t)) (writer_in self.new.writes) self.old.last
            self.old.judged.items }
    {
        let Some(kept) = self.records.remove(txn) else {
            return;
        };
        let Some(stamp) = kept.stamp else {
            return;
        };
        self.writes.remove(&kept.keys, stamp.saturating_sub(1));
    }

    /// Returns the number of transactions that have a record.
    pub(crate) fn len(&self) -> usize
        ensures { (ts : List ℕ) → IsDistinct (eq_by_cmp nat_cmp) ts
            → ((t : ℕ) → is_member (eq_by_cmp nat_cmp) ts t ≡ is_some (row_at self.now t)) → result ≡ length ts }
    {
        self.records.len()
    }
}
