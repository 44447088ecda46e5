//! The tracker.

ghost use Rattle.std.specs.Prelude.{◌≡◌, ◌∷◌, [], ℕ, List, IfOk, OnOk, OnErr, option_map};
ghost use Rattle.std.specs.List.{list_any};
ghost use Rattle.ssi_reads.specs.Clauses.Marks.{has_txn, with_mark, IsEmpty, IsSame};
ghost use Rattle.ssi_conflict.specs.Meaning.Calls.{Call, Begins, Reads, Commits, Aborts};
ghost use Rattle.ssi_conflict.specs.Clauses.Allowed.{IsAllowed};
ghost use Rattle.ssi_conflict.specs.Clauses.Pairs.{IsOrderedPivot, IsSmallest};
ghost use Rattle.ssi_conflict.specs.Meaning.Kept.{kept_count};
ghost use Rattle.ssi_conflict.specs.Mirror.{Holds, Stands, IsReady, pivot_of, carried};
ghost use Rattle.ssi_conflict.specs.Machinery.Tables.{row_at, met_if, any_pivots};

use crate::answer::Answer;
use crate::reading::Reading;
use crate::table::{Table, Writer};
use adya_values::{Key, Txn};
use ssi_reads::Marks;
use std::alloc::{AllocError, Global};

/// The pairs of concurrent transactions of which one read what the other wrote, and the question that they are kept for:
/// whether a read or a commit would leave a pivot of the commit-order rule (Cahill, Röhm and Fekete 2008, section 3;
/// Ports and Grittner 2012).
///
/// The contracts speak of the list of all calls so far, the newest first. `Stands` says that the tracker stands for such
/// a list, and each call takes a tracker that stands for the calls to one that stands for them and itself. What a caller
/// has to keep is `IsAllowed`; nothing is said of a tracker after a call that was not allowed.
///
/// Kept are a record and the marks of each transaction that is open, or that committed after the snapshot of an open
/// one. All others are dropped at the next commit or abort.
#[derive(Drop)]
pub struct Tracker<M> {
    alloc: Global,
    table: Table,
    marks: M,
    // the transactions that have read the keys that were judged last
    readers: Vec<Txn>,
}

/// Adds a mark over the keys from `low` to `high`.
fn mark<M: Marks>(marks: &mut M, txn: Txn, low: Key, high: Key) -> Result<(), AllocError>
    ensures marks { OnOk result (IsSame (M.marked marks.new) (with_mark txn low high (M.marked marks.old))) }
    ensures refused { OnErr result (IsSame (M.marked marks.new) (M.marked marks.old)) }
{
    if low == high {
        marks.mark_key(txn, low)
    } else {
        marks.mark_range(txn, low, high)
    }
}

/// Sets the list to the transactions that have read one of the keys.
fn find_readers<M: Marks>(readers: &mut Vec<Txn>, marks: &M, keys: &[Key]) -> Result<(), AllocError>
    ensures { OnOk result ((r : ℕ) → has_txn readers.new.items r ≡ list_any (M.marked marks.now r) keys.now) }
{
    readers.clear();
    for key in keys {
        let found = marks.readers_of(*key)?;
        readers.extend_from_slice(&found)?;
    }
    Ok(())
}

/// Returns whether the transaction would be a pivot with one of the readers.
fn any_pivots_with(table: &Table, txn: Txn, readers: &[Txn]) -> bool
    ensures { result ≡ any_pivots (row_at table.now) txn readers.now }
{
    let Some(kept) = table.get(txn) else {
        return false;
    };
    let writer = Writer {
        txn,
        snapshot: kept.snapshot,
    };
    let first_out = kept.first_out;
    for reader in readers {
        if table.pivots(&writer, first_out, *reader) {
            return true;
        }
    }
    false
}

/// The readers get their pairs to the writer.
fn meet_all(table: &mut Table, writer: &Writer, stamp: u64, readers: &[Txn])
    ensures rows { (r : ℕ)
        → row_at table.new r ≡ option_map (met_if writer.now.txn writer.now.snapshot stamp readers.now r)
        (row_at table.old r) }
    ensures rest { table.new ≡ record table.old { records = table.new.records } }
{
    for reader in readers {
        table.meet(writer, stamp, *reader);
    }
}

impl<M: Marks> Tracker<M> {
    /// Returns a tracker for no calls, and takes no memory. The marks have to be empty. The allocator is kept for all
    /// later calls.
    pub fn new(alloc: Global, marks: M) -> Tracker<M>
        ensures { IsEmpty (M.marked marks) → Stands M.marked result [] }
    {
        Tracker {
            alloc,
            table: Table::new(alloc),
            marks,
            readers: Vec::new(alloc),
        }
    }

    /// Begins a transaction, whose snapshot is the greatest stamp so far. Its number is above all earlier ones.
    /// `AllocError` if out of memory: all is as before then.
    pub fn on_begin(&mut self, txn: Txn, snapshot: u64) -> Result<(), AllocError>
        ensures begun { (calls : List Call) → Stands M.marked self.old calls → IsAllowed (Begins txn snapshot) calls
            → OnOk result (Stands M.marked self.new (Begins txn snapshot ∷ calls)) }
        ensures refused { (calls : List Call) → Stands M.marked self.old calls → IsAllowed (Begins txn snapshot) calls
            → OnErr result (Stands M.marked self.new calls) }
    {
        self.table.open(self.alloc, txn, snapshot)
    }

    /// Records that an open transaction reads the keys from `low` to `high`, both included. Returns `Unsafe` with the
    /// smallest pivot that would stand, and records nothing then. `AllocError` if out of memory: all is as before then.
    ///
    /// It walks the writes of kept transactions: of a single key only those that came after the snapshot, of a range
    /// all. Each takes logarithmic time.
    pub fn on_read(&mut self, txn: Txn, low: Key, high: Key) -> Result<Answer, AllocError>
        ensures stands { (calls : List Call) → Stands M.marked self.old calls → IsAllowed (Reads txn low high) calls
            → Stands M.marked self.new (carried (Reads txn low high) calls result) }
        ensures answer { (calls : List Call) → Stands M.marked self.old calls → IsAllowed (Reads txn low high) calls
            → IfOk result (λ a. IsSmallest IsOrderedPivot (Reads txn low high ∷ calls) (pivot_of a)) }
    {
        let Some(kept) = self.table.get(txn) else {
            return Ok(Answer::Safe);
        };
        let reading = Reading {
            snapshot: kept.snapshot,
            low,
            high,
        };
        let met = self.table.met(&reading);
        if let Some(pivot) = met.pivot {
            return Ok(Answer::Unsafe { pivot });
        }
        mark(&mut self.marks, txn, low, high)?;
        self.table.add_out(txn, met.first);
        Ok(Answer::Safe)
    }

    /// Returns whether an open transaction may commit with these written keys, which are distinct: `Unsafe` with its own
    /// number if it would be a pivot. No other transaction becomes one by a commit. `AllocError` if out of memory.
    ///
    /// After `Safe` the tracker is ready for that commit, and all that it takes memory for is there. If the commit does
    /// not follow, this memory is kept until the next call of `judge`, which takes it over.
    pub fn judge(&mut self, txn: Txn, keys: &[Key]) -> Result<Answer, AllocError>
        ensures stands { (calls : List Call) → Stands M.marked self.old calls → Stands M.marked self.new calls }
        ensures answer { (calls : List Call) (n : ℕ) → Stands M.marked self.old calls
            → IsAllowed (Commits txn n keys.now) calls
            → IfOk result (λ a. IsSmallest IsOrderedPivot (Commits txn n keys.now ∷ calls) (pivot_of a)) }
        ensures ready { IfOk result (λ a. a ≡ Answer.Safe → IsReady M.marked self.new txn keys.now) }
    {
        find_readers(&mut self.readers, &self.marks, keys)?;
        if any_pivots_with(&self.table, txn, &self.readers) {
            return Ok(Answer::Unsafe { pivot: txn });
        }
        self.table.prepare(txn, keys)?;
        Ok(Answer::Safe)
    }

    /// Commits an open transaction with the next stamp and the keys for which the tracker is ready: `judge` was the last
    /// call, with the same keys, and returned `Safe`. Adds the pairs with those who have read one of the keys, and takes
    /// no memory.
    pub fn on_commit(&mut self, txn: Txn, stamp: u64, keys: &[Key])
        ensures { (calls : List Call) → Stands M.marked self.old calls → IsAllowed (Commits txn stamp keys.now) calls
            → IsReady M.marked self.old txn keys.now → Stands M.marked self.new (Commits txn stamp keys.now ∷ calls) }
    {
        let Some(kept) = self.table.get(txn) else {
            return;
        };
        let writer = Writer {
            txn,
            snapshot: kept.snapshot,
        };
        meet_all(&mut self.table, &writer, stamp, &self.readers);
        self.table.close(txn, stamp);
        self.retire();
    }

    /// Aborts an open transaction, and takes no memory. Its pairs stay.
    pub fn on_abort(&mut self, txn: Txn)
        ensures { (calls : List Call) → Stands M.marked self.old calls → IsAllowed (Aborts txn) calls
            → Stands M.marked self.new (Aborts txn ∷ calls) }
    {
        self.table.remove(txn);
        self.marks.forget(txn);
        self.retire();
    }

    /// Returns how many transactions are kept: those that are open, or that committed after the snapshot of an open one.
    pub fn kept(&self) -> usize
        ensures { (calls : List Call) → Stands M.marked self.now calls → result ≡ kept_count calls }
    {
        self.table.len()
    }

    /// Drops the transactions that are no longer kept. No later answer changes by that.
    fn retire(&mut self)
        ensures { (calls : List Call) → Holds M.marked self.old calls → Stands M.marked self.new calls }
    {
        let oldest = self.table.oldest();
        while let Some(txn) = self.table.pop_before(oldest) {
            self.marks.forget(txn);
        }
    }
}
