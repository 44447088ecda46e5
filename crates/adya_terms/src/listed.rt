//! M7: the order line of a key names exactly its committed writers, without repeats.

ghost use Rattle.std.specs.Prelude.{◌≡◌, ◌^◌, ◌<◌, ◌+◌, ℕ, List, [], true, Some, length, map, option_map, slice_get, IfOk, MatchResult};
ghost use Rattle.std.specs.Bool.{OnTrue, OnFalse};
ghost use Rattle.adya_keys.specs.Machinery.Indices.{indices_in};
ghost use Rattle.adya_keys.specs.Meaning.Keys.{keys_rise};
ghost use Rattle.adya_values.specs.Meaning.Histories.{Event, Order};
ghost use Rattle.adya_values.specs.Mirror.Lines.{orders_of};
ghost use Rattle.adya_values.specs.Computing.Faults as faults;
ghost use Rattle.adya_terms.specs.Machinery.EventIndex.{indexed, keys_in, last_in};
ghost use Rattle.adya_terms.specs.Machinery.Checks.{Names, listing_faults, parts};
ghost use Rattle.adya_terms.specs.Machinery.Places.{orders_in, AreWrites, HasLines, IsLineOf, Judges};
ghost use Rattle.adya_terms.specs.Mirror.LineNumbers.{FindsLines};

use crate::event_index::EventIndex;
use crate::placing::{Placed, Placing};
use crate::{CheckFault, Key, Orders, Rule};
use std::alloc::Global;

/// Returns the first order line that breaks M7, if there is one. The line of the first order is `first`.
fn check_lines(placing: &Placing, first: usize) -> Result<(), CheckFault>
    requires near { first + length (orders_in placing.now) < 2 ^ 64 }
    requires lines { HasLines placing.now.lines (orders_in placing.now) }
    ensures { let os = orders_in placing.now in
        (all : List Event)
        → Judges all os placing.now
        → let found = faults.order_faults all first os in
        MatchResult result (λ u. found ≡ []) (Names found) }
{
    for i in 0..placing.len() {
        if !placing.is_full(i) {
            return Err(CheckFault::Malformed {
                line: first + i,
                rule: Rule::M7,
            });
        }
    }
    Ok(())
}

/// Returns the first order line that breaks M7, or else the line after the orders if a key with a committed writer has
/// no line. The line of the first order is `first`. If no line does, returns the order lines of the keys and the last writes
/// of the writers that these name.
pub(crate) fn check_orders(
    alloc: Global,
    index: &EventIndex,
    orders: &Orders,
    first: usize,
) -> Result<Placed, CheckFault>
    requires near { first + length (orders_of orders.now) < 2 ^ 64 }
    requires rise { keys_rise (map (λ o. o.key) (orders_of orders.now)) ≡ true }
    ensures faults { let found = listing_faults (parts (indexed index.now) (orders_of orders.now) []) first in
        MatchResult result (λ u. found ≡ []) (Names found) }
    ensures numbers { let os = orders_of orders.now in IfOk result (λ p. FindsLines (indices_in p.numbers) (keys_in index.now) os (length os)) }
    ensures lines { IfOk result (λ p. AreWrites (last_in index.now) p.lines (orders_of orders.now)) }
{
    let Ok(placing) = Placing::of(alloc, index, orders) else {
        return Err(CheckFault::Memory);
    };
    if let Err(fault) = check_lines(&placing, first) {
        return Err(fault);
    }
    // no line breaks the rule, so a key that is left out has no line
    if placing.left_out {
        return Err(CheckFault::Malformed {
            line: first + orders.len(),
            rule: Rule::M7,
        });
    }
    Ok(Placed {
        numbers: placing.numbers,
        lines: placing.lines,
    })
}

/// Returns the index of the key's order line. It is looked for at the other index first.
pub(crate) fn line_of(orders: &Orders, key: Key, first: usize) -> Option<usize>
    requires { keys_rise (map (λ o. o.key) (orders_of orders.now)) ≡ true }
    ensures { IsLineOf result (orders_of orders.now) key }
{
    if is_of(orders, first, key) {
        return Some(first);
    }
    let at = orders.below(key);
    if is_of(orders, at, key) {
        return Some(at);
    }
    None
}

/// Returns whether the order line at the index is of the key.
fn is_of(orders: &Orders, at: usize, key: Key) -> bool
    ensures yes { OnTrue result (option_map (λ o. o.key) (slice_get (orders_of orders.now) at) ≡ Some key) }
    ensures no { OnFalse result (option_map (λ o. o.key) (slice_get (orders_of orders.now) at) ≡ Some key → ⊥) }
{
    at < orders.len() && orders.key(at) == key
}
