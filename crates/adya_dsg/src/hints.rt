//! Where writers were found last in order lines.

ghost use Rattle.std.specs.Prelude.{◌≡◌, ◌<◌, suc, length};
ghost use Rattle.adya_values.specs.Meaning.Orders.{writers, place};
ghost use Rattle.adya_dsg.specs.Machinery.VersionOrders.{ordered_history};
ghost use Rattle.adya_dsg.specs.Machinery.Choices.{key_at};

use crate::version_orders::VersionOrders;
use adya_values::Txn;
use std::alloc::{AllocError, Global};

/// For each order line the index among its writers where one was found last, and 0 at the start. An index that is too large
/// for 32 bits is kept as the largest number of 32 bits.
///
/// Events are looked at in the order in which they happened, and most of them read the newest version of their key. So
/// the next writer that is looked for in a line is mostly this one or comes soon after it.
#[derive(Drop)]
pub(crate) struct Hints {
    indexes: Vec<u32>,
}

impl Hints {
    /// Makes the hints for these version orders; `AllocError` if memory is refused.
    pub fn of(alloc: Global, versions: &VersionOrders) -> Result<Hints, AllocError> {
        let indexes = vec![in alloc; 0; versions.line_count()]?;
        Ok(Hints { indexes })
    }

    /// Returns the place of the transaction in the line, or the place after the last one if it isn't there.
    pub fn place(&mut self, versions: &VersionOrders, line: usize, txn: Txn) -> usize
        requires { line < length (ordered_history versions.now).orders }
        ensures { let h = ordered_history versions.now in
            result ≡ suc (place (writers h (key_at h line)) txn) }
    {
        let Some(hint) = self.indexes.get_mut(line) else {
            return versions.place(line, txn);
        };
        let place = versions.place_near(line, txn, *hint as usize);
        *hint = (place - 1).min(u32::MAX as usize) as u32;
        place
    }
}
