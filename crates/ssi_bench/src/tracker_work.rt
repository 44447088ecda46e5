//! Transactions of a tracker: eight are open at once, each reads four keys and writes two.

use crate::work::{Done, Work, key_of, txn_of};
use adya_values::Txn;
use ssi_conflict::{Answer, Tracker};
use ssi_reads::Marks;
use std::alloc::Global;

const OPEN_AT_ONCE: u64 = 8;

/// Begins a transaction at each step, and ends the one that began eight steps before. If the first one stays open, all
/// others are kept, and so each commit meets all that have read its keys.
pub(crate) fn run<M: Marks + Drop>(alloc: Global, marks: M, work: &Work) -> Option<Done> {
    let mut tracker = Tracker::new(alloc, marks);
    let mut readers = Vec::from_elem(alloc, 0u64, work.keys as usize).ok()?;
    let mut refused = [false; OPEN_AT_ONCE as usize];
    let (mut committed, mut met) = (0u64, 0u64);
    for number in 1..work.transactions as u64 + 1 {
        let at = (number % OPEN_AT_ONCE) as usize;
        let is_left_open = work.is_open && number == OPEN_AT_ONCE + 1;
        if number > OPEN_AT_ONCE && !refused[at] && !is_left_open {
            let txn = txn_of(number - OPEN_AT_ONCE)?;
            if commits(&mut tracker, work, txn, committed.wrapping_add(1))? {
                committed = committed.wrapping_add(1);
                met = met.wrapping_add(readers_met(work, txn, &readers));
            }
        }
        let txn = txn_of(number)?;
        tracker.on_begin(txn, committed).ok()?;
        refused[at] = !reads(&mut tracker, work, txn)?;
        if work.is_open && !refused[at] {
            note_reads(work, txn, &mut readers);
        }
    }
    Some(Done {
        held: tracker.kept() as u64,
        met,
    })
}

/// Returns which key the `nth` operation of the transaction is on.
fn key_at(work: &Work, txn: Txn, nth: u64) -> u32 {
    work.chosen((txn.get() as u64).wrapping_mul(8).wrapping_add(nth))
}

/// Reads some keys. Returns whether the transaction may go on; it is aborted otherwise.
fn reads<M: Marks>(tracker: &mut Tracker<M>, work: &Work, txn: Txn) -> Option<bool> {
    for nth in 0..4u64 {
        let key = key_of(key_at(work, txn, nth))?;
        if tracker.on_read(txn, key, key).ok()? != Answer::Safe {
            tracker.on_abort(txn);
            return Some(false);
        }
    }
    Some(true)
}

/// Commits writes of two keys with this stamp, or aborts. Returns whether it has committed.
fn commits<M: Marks>(tracker: &mut Tracker<M>, work: &Work, txn: Txn, stamp: u64) -> Option<bool> {
    let number = key_at(work, txn, 4);
    let keys = [key_of(number)?, key_of(work.range_end(number))?];
    if tracker.judge(txn, &keys).ok()? != Answer::Safe {
        tracker.on_abort(txn);
        return Some(false);
    }
    tracker.on_commit(txn, stamp, &keys);
    Some(true)
}

/// Counts one more reader of each key that the transaction has read.
fn note_reads(work: &Work, txn: Txn, readers: &mut [u64]) {
    for nth in 0..4u64 {
        let key = key_at(work, txn, nth) as usize;
        if key < readers.len() {
            readers[key] = readers[key].wrapping_add(1);
        }
    }
}

/// Returns how many have read the keys that the transaction has written.
fn readers_met(work: &Work, txn: Txn, readers: &[u64]) -> u64 {
    let first = key_at(work, txn, 4);
    let (one, two) = (first as usize, work.range_end(first) as usize);
    if one < readers.len() && two < readers.len() {
        return readers[one].wrapping_add(readers[two]);
    }
    0
}
