//! A set of transactions as a list.

ghost use Rattle.std.specs.Prelude.{◌≡◌, ℕ, IfOk};
ghost use Rattle.std.specs.List.Sorted.{IsStrictlySortedBy};
ghost use Rattle.std.specs.Ordering.{nat_cmp};
ghost use Rattle.std.specs.BTreeSet.{contains};
ghost use Rattle.ssi_reads.specs.Clauses.Marks.{has_txn};

use adya_values::Txn;
use std::alloc::{AllocError, Global};
use std::collections::BTreeSet;

/// Returns the members by rising number.
pub(crate) fn by_number(alloc: Global, set: &BTreeSet<Txn>) -> Result<Vec<Txn>, AllocError>
    ensures exact { IfOk result (λ ts. (t : ℕ) → has_txn ts.items t ≡ contains nat_cmp set.now t) }
    ensures rising { IfOk result (λ ts. IsStrictlySortedBy nat_cmp ts.items) }
{
    let mut txns = Vec::new(alloc);
    'members: for txn in set.iter() {
        txns.push(*txn)?;
    }
    Ok(txns)
}
