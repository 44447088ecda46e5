//! The order line of each key that the events name.

ghost use Rattle.std.specs.Prelude.{length, IfOk};
ghost use Rattle.adya_keys.specs.Machinery.Indices.{indices_in};
ghost use Rattle.adya_values.specs.Mirror.Lines.{orders_of};
ghost use Rattle.adya_values.specs.Mirror.Numbers.{keys_of};
ghost use Rattle.adya_terms.specs.Mirror.LineNumbers.{FindsLines};

use crate::{Events, Orders};
use adya_values::Indices;
use std::alloc::{AllocError, Global};

/// Returns by the number of each key, which the events give, the index of its order line and 1; 0 if it has no line.
pub(crate) fn lines_by_number(
    alloc: Global,
    events: &Events,
    orders: &Orders,
) -> Result<Indices, AllocError>
    ensures { IfOk result (λ v. FindsLines (indices_in v) (keys_of events.now) (orders_of orders.now) (length (orders_of orders.now))) }
{
    let count = events.key_count();
    let mut lines = Indices::with_capacity(alloc, count)?;
    lines.add_zeros(count)?;
    for i in 0..orders.len() {
        if let Some(number) = events.number_of(orders.key(i)) {
            lines.set(alloc, number as usize, i + 1)?;
        }
    }
    Ok(lines)
}
