//! The places of transactions in a list, as a table.

ghost use Rattle.std.specs.Prelude.{IfOk};
ghost use Rattle.txn_table.specs.Mirror.{HasPlaces};

use crate::TxnTable;
use adya_values::Txn;
use std::alloc::{AllocError, Global};

/// Returns the table that has for each transaction its first place in the list, from 0 on, and for one that isn't there the
/// length of the list. Its array holds the numbers below `small`; `AllocError` if memory is refused.
pub fn places_of(alloc: Global, txns: &[Txn], small: usize) -> Result<TxnTable<usize>, AllocError>
    ensures { IfOk result (λ m. HasPlaces m txns.now) }
{
    let mut places = TxnTable::new(alloc, small, txns.len())?;
    let mut i = txns.len();
    while i > 0 {
        i -= 1;
        places.set(txns[i], i)?;
    }
    Ok(places)
}
