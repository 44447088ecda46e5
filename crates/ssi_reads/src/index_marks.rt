//! Marks of keys and of ranges, in indexes.

ghost use Rattle.std.specs.Prelude.{◌||◌};
ghost use Rattle.ssi_reads.specs.Clauses.Marks.{IsEmpty};
ghost use Rattle.ssi_reads.specs.Machinery.Indexed.{key_marked};
ghost use Rattle.ssi_reads.specs.Machinery.Ranged.{ranged};

use crate::key_marks::KeyMarks;
use crate::marks::Marks;
use crate::members::by_number;
use crate::range_marks::RangeMarks;
use adya_values::{Key, Txn};
use std::alloc::{AllocError, Global};
use std::collections::BTreeSet;

/// Marks of keys by key, and marks of ranges by the longest prefix that the two ends of a range share. A mark takes
/// logarithmic time, and `forget` takes it for each key and each range that the transaction has marked.
///
/// `readers_of` walks the readers of the key. It also walks the ranges under each prefix of the key that don't start
/// above the key. Many ranges may stand under a short prefix: each of them is looked at, even if it ends below the key.
#[derive(Drop)]
pub struct IndexMarks {
    alloc: Global,
    keys: KeyMarks,
    ranges: RangeMarks,
}

impl IndexMarks {
    /// Returns a set without marks, and takes no memory. The allocator is kept for the marks.
    pub fn new(alloc: Global) -> IndexMarks
        ensures { IsEmpty (⟦<IndexMarks as Marks>⟧.marked result) }
    {
        IndexMarks {
            alloc,
            keys: KeyMarks::new(alloc),
            ranges: RangeMarks::new(alloc),
        }
    }
}

impl Marks for IndexMarks {
    ghost marked = { λ m u k. key_marked m.keys u k || ranged m.ranges u k };

    fn mark_key(&mut self, txn: Txn, key: Key) -> Result<(), AllocError> {
        self.keys.mark(txn, key)
    }

    fn mark_range(&mut self, txn: Txn, low: Key, high: Key) -> Result<(), AllocError> {
        self.ranges.mark(txn, low, high)
    }

    fn readers_of(&self, key: Key) -> Result<Vec<Txn>, AllocError> {
        let mut found = BTreeSet::new(self.alloc);
        self.ranges.add_readers(&mut found, key)?;
        self.keys.add_readers(&mut found, key)?;
        by_number(self.alloc, &found)
    }

    fn forget(&mut self, txn: Txn) {
        self.keys.forget(txn);
        self.ranges.forget(txn);
    }
}
