//! What a read meets.

ghost use Rattle.std.specs.Prelude.{◌≡◌, None};
ghost use Rattle.ssi_conflict.specs.Machinery.Rows.{sooner as sooner_of};
ghost use Rattle.ssi_conflict.specs.Machinery.Index.{is_met, pivot_at, stamp_at};
ghost use Rattle.ssi_conflict.specs.Machinery.Records.{row_in};

use crate::records::Records;
use crate::stamps::{is_earlier, sooner};
use crate::writes::Write;
use adya_values::{Key, Txn};

/// A read of keys by a transaction with this snapshot.
#[derive(Clone, Copy)]
pub(crate) struct Reading {
    pub(crate) snapshot: u64,
    pub(crate) low: Key,
    pub(crate) high: Key,
}

/// What a read meets: the smallest number of a writer that it would make a pivot, and the least stamp of a writer.
#[derive(Clone, Copy)]
pub(crate) struct Met {
    pub(crate) pivot: Option<Txn>,
    pub(crate) first: Option<u64>,
}

/// Returns the smaller of two numbers, or the one that is there.
fn smaller(a: Option<Txn>, b: Option<Txn>) -> Option<Txn>
    ensures { result ≡ sooner_of a b }
{
    match (a, b) {
        (None, m) => m,
        (Some(n), None) => Some(n),
        (Some(n), Some(m)) => Some(if m < n { m } else { n }),
    }
}

impl Met {
    pub(crate) fn nothing() -> Met
        ensures pivot { result.pivot ≡ None }
        ensures first { result.first ≡ None }
    {
        Met {
            pivot: None,
            first: None,
        }
    }

    /// Returns what both meet.
    pub(crate) fn and(self, other: Met) -> Met
        ensures pivot { result.pivot ≡ sooner_of self.pivot other.pivot }
        ensures first { result.first ≡ sooner_of self.first other.first }
    {
        Met {
            pivot: smaller(self.pivot, other.pivot),
            first: sooner(self.first, other.first),
        }
    }
}

impl Reading {
    /// Returns whether the key is read, and its commit came after the snapshot and is not above `last`.
    fn meets(&self, write: &Write, last: u64) -> bool
        ensures { result ≡ is_met self.now last write.now }
    {
        self.snapshot <= write.before
            && write.before < last
            && self.low <= write.key
            && write.key <= self.high
    }

    /// Returns what the read meets of one write of the transaction.
    pub(crate) fn meet(&self, records: &Records, write: &Write, txn: Txn, last: u64) -> Met
        ensures pivot { result.pivot ≡ pivot_at (row_in records.now) self.now last (write.now, txn) }
        ensures first { result.first ≡ stamp_at (row_in records.now) self.now last (write.now, txn) }
    {
        let Some(kept) = records.get(txn) else {
            return Met::nothing();
        };
        if !self.meets(write, last) {
            return Met::nothing();
        }
        Met {
            pivot: if is_earlier(kept.first_out, kept.stamp) {
                Some(txn)
            } else {
                None
            },
            first: kept.stamp,
        }
    }
}
