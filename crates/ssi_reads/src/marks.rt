//! What marks promise.

ghost use Rattle.std.specs.Prelude.{◌≡◌, ℕ, List, Bool, IfOk, OnOk, OnErr};
ghost use Rattle.std.specs.List.Sorted.{IsStrictlySortedBy};
ghost use Rattle.std.specs.Ordering.{nat_cmp};
ghost use Rattle.ssi_reads.specs.Clauses.Marks.{has_txn, with_mark, without, IsSame};

use adya_values::{Key, Txn};
use std::alloc::AllocError;

/// A set of marks, each of a transaction over a key or a range of keys. To mark a key again changes nothing of the set.
pub trait Marks {
    // whether the transaction has a mark over the key
    ghost marked: { Self → ℕ → List ℕ → Bool };

    /// Adds a mark of the transaction over the key. `AllocError` if out of memory: the set is as before then.
    fn mark_key(&mut self, txn: Txn, key: Key) -> Result<(), AllocError>
        ensures marks { OnOk result (IsSame (marked self.new) (with_mark txn key key (marked self.old))) }
        ensures refused { OnErr result (IsSame (marked self.new) (marked self.old)) };

    /// Adds a mark of the transaction over each key from `low` to `high`, both included; over none if `high` is below `low`.
    /// `AllocError` if out of memory: the set is as before then.
    fn mark_range(&mut self, txn: Txn, low: Key, high: Key) -> Result<(), AllocError>
        ensures marks { OnOk result (IsSame (marked self.new) (with_mark txn low high (marked self.old))) }
        ensures refused { OnErr result (IsSame (marked self.new) (marked self.old)) };

    /// Returns the transactions with a mark over the key, by rising number, each once. `AllocError` if out of memory.
    fn readers_of(&self, key: Key) -> Result<Vec<Txn>, AllocError>
        ensures exact { IfOk result (λ ts. (t : ℕ) → has_txn ts.items t ≡ marked self.now t key) }
        ensures rising { IfOk result (λ ts. IsStrictlySortedBy nat_cmp ts.items) };

    /// Removes all marks of the transaction, and takes no memory.
    fn forget(&mut self, txn: Txn)
        ensures { IsSame (marked self.new) (without txn (marked self.old)) };
}
