//! Tables of the places of writers in long order lines.

ghost use Rattle.std.specs.Prelude.{IfOk};
ghost use Rattle.adya_terms.specs.Clauses.Checked.{checked_history};
ghost use Rattle.adya_dsg.specs.Machinery.Places.{AreTables};

use crate::txn_places::TxnPlaces;
use adya_terms::Checked;
use std::alloc::{AllocError, Global};
use std::collections::BTreeMap;

/// A line with at most so many writers is read through to find one, which takes less time than to look it up in a table.
pub(crate) const SHORT_LINE: usize = 256;

/// Returns a table of the writers of each long order line, by the index of the line. Most lines are short and take no
/// memory here.
pub(crate) fn line_tables<'a>(
    alloc: Global,
    checked: &'a Checked<'a>,
) -> Result<BTreeMap<usize, TxnPlaces<'a>>, AllocError>
    ensures { IfOk result (AreTables (checked_history checked.now)) }
{
    let orders = checked.history().orders();
    let mut tables = BTreeMap::new(alloc);
    for line in 0..orders.len() {
        let txns = orders.writers(line);
        if txns.len() > SHORT_LINE {
            tables.insert(line, TxnPlaces::of(alloc, txns, 0)?)?;
        }
    }
    Ok(tables)
}
