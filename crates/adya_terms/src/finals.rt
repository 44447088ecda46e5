//! M8: the finals hold the values of the keys' last versions.

ghost use Rattle.std.specs.Prelude.{◌≡◌, ◌^◌, ◌<◌, ◌+◌, [], true, Some, length, map, option_map, slice_get, is_some, MatchResult};
ghost use Rattle.std.specs.Bool.{OnTrue, OnFalse};
ghost use Rattle.adya_keys.specs.Meaning.Keys.{keys_rise};
ghost use Rattle.adya_values.specs.Meaning.Histories.{Order};
ghost use Rattle.adya_values.specs.Meaning.Events.{shown};
ghost use Rattle.adya_values.specs.Mirror.Events.{final_of};
ghost use Rattle.adya_keys.specs.Mirror.{value_of};
ghost use Rattle.adya_values.specs.Mirror.Lines.{finals_of, orders_of};
ghost use Rattle.adya_values.specs.Clauses.Rules.{final_value};
ghost use Rattle.adya_values.specs.Computing.Faults as faults;
ghost use Rattle.adya_terms.specs.Machinery.Checks.{Names, final_value_faults, parts};
ghost use Rattle.adya_terms.specs.Machinery.Places.{AreWrites, IsLineOf};
ghost use Rattle.adya_terms.specs.Machinery.EventIndex.{indexed, last_in};
ghost use Rattle.adya_terms.specs.Machinery.Tables.{written_at};

use crate::event_index::EventIndex;
use crate::line_places::LinePlaces;
use crate::listed::line_of;
use crate::{CheckFault, FinalPair, Finals, Key, Orders, Rule, Value};

/// Returns the index of the event that wrote the last version of the order line, which is at the index, if it has one. The lines
/// have the writes that installed what the orders name.
fn last_write(index: &EventIndex, orders: &Orders, lines: &LinePlaces, line: usize) -> Option<usize>
    requires rise { keys_rise (map (λ o. o.key) (orders_of orders.now)) ≡ true }
    requires writes { AreWrites (last_in index.now) lines.now (orders_of orders.now) }
    requires there { line < length (orders_of orders.now) }
    ensures { (o : Order) → slice_get (orders_of orders.now) line ≡ Some o
        → shown (written_at (indexed index.now) result) ≡ faults.last_value (parts (indexed index.now) (orders_of orders.now) []) o.key }
{
    let Some(last) = orders.writers(line).len().checked_sub(1) else {
        return None;
    };
    lines.write_at(line, last)
}

/// Returns the value of the last version of the order line, likewise, if it has one.
fn line_value(index: &EventIndex, orders: &Orders, lines: &LinePlaces, line: usize) -> Option<Value>
    requires rise { keys_rise (map (λ o. o.key) (orders_of orders.now)) ≡ true }
    requires writes { AreWrites (last_in index.now) lines.now (orders_of orders.now) }
    requires there { line < length (orders_of orders.now) }
    ensures { (o : Order) → slice_get (orders_of orders.now) line ≡ Some o
        → option_map value_of result ≡ faults.last_value (parts (indexed index.now) (orders_of orders.now) []) o.key }
{
    match last_write(index, orders, lines, line) {
        Some(at) => index.value_at(at),
        None => None,
    }
}

/// Returns whether the last version of the order line, likewise, has a value. It reads no value.
fn line_has_value(index: &EventIndex, orders: &Orders, lines: &LinePlaces, line: usize) -> bool
    requires rise { keys_rise (map (λ o. o.key) (orders_of orders.now)) ≡ true }
    requires writes { AreWrites (last_in index.now) lines.now (orders_of orders.now) }
    requires there { line < length (orders_of orders.now) }
    ensures { (o : Order) → slice_get (orders_of orders.now) line ≡ Some o
        → result ≡ is_some (faults.last_value (parts (indexed index.now) (orders_of orders.now) []) o.key) }
{
    match last_write(index, orders, lines, line) {
        Some(at) => index.shows(at),
        None => false,
    }
}

/// Returns whether the final has the value of its key's last version. The key's order line is at the index.
fn is_final(
    index: &EventIndex,
    orders: &Orders,
    lines: &LinePlaces,
    line: Option<usize>,
    pair: &FinalPair,
) -> bool
    requires rise { keys_rise (map (λ o. o.key) (orders_of orders.now)) ≡ true }
    requires writes { AreWrites (last_in index.now) lines.now (orders_of orders.now) }
    requires line { IsLineOf line (orders_of orders.now) pair.now.key }
    ensures { let f = final_of pair.now in
        result ≡ faults.is_value (faults.last_value (parts (indexed index.now) (orders_of orders.now) []) f.key) f.value }
{
    let Some(line) = line else {
        return false;
    };
    is_value(line_value(index, orders, lines, line), &pair.value)
}

fn is_value(last: Option<Value>, value: &Value) -> bool
    ensures { result ≡ faults.is_value (option_map value_of last) (value_of value.now) }
{
    match last {
        None => false,
        Some(last) => last.same(value),
    }
}

/// Returns the first line of a final that isn't the value of its key's last version, if there is one.
fn check_lines(
    index: &EventIndex,
    orders: &Orders,
    lines: &LinePlaces,
    finals: &Finals,
    first: usize,
) -> Result<(), CheckFault>
    requires near { first + length (finals_of finals.now) < 2 ^ 64 }
    requires rise { keys_rise (map (λ o. o.key) (orders_of orders.now)) ≡ true }
    requires writes { AreWrites (last_in index.now) lines.now (orders_of orders.now) }
    ensures { let found = faults.final_faults (parts (indexed index.now) (orders_of orders.now) (finals_of finals.now)) first (finals_of finals.now) in
        MatchResult result (λ u. found ≡ []) (Names found) }
{
    // the keys of both lists rise, so the next line is mostly the one after the last
    let mut next = 0usize;
    for i in 0..finals.len() {
        let pair = finals.at(i);
        let line = line_of(orders, pair.key, next);
        if !is_final(index, orders, lines, line, &pair) {
            return Err(CheckFault::Malformed {
                line: first + i,
                rule: Rule::M8,
            });
        }
        next = line.unwrap_or(next).wrapping_add(1);
    }
    Ok(())
}

/// Returns whether the key has a final. It is looked for at the index first.
fn has_final(finals: &Finals, key: Key, first: usize) -> bool
    requires { keys_rise (map (λ f. f.key) (finals_of finals.now)) ≡ true }
    ensures { result ≡ is_some (final_value (finals_of finals.now) key) }
{
    if is_of(finals, first, key) {
        return true;
    }
    is_of(finals, finals.below(key), key)
}

/// Returns whether the final at the index is of the key.
fn is_of(finals: &Finals, at: usize, key: Key) -> bool
    ensures yes { OnTrue result (option_map (λ f. f.key) (slice_get (finals_of finals.now) at) ≡ Some key) }
    ensures no { OnFalse result (option_map (λ f. f.key) (slice_get (finals_of finals.now) at) ≡ Some key → ⊥) }
{
    at < finals.len() && finals.key(at) == key
}

/// Returns whether each key whose last version has a value has a final line.
fn has_finals(index: &EventIndex, orders: &Orders, lines: &LinePlaces, finals: &Finals) -> bool
    requires orders_rise { keys_rise (map (λ o. o.key) (orders_of orders.now)) ≡ true }
    requires finals_rise { keys_rise (map (λ f. f.key) (finals_of finals.now)) ≡ true }
    requires writes { AreWrites (last_in index.now) lines.now (orders_of orders.now) }
    ensures { result ≡ faults.has_finals (parts (indexed index.now) (orders_of orders.now) (finals_of finals.now)) }
{
    let mut next = 0usize;
    for i in 0..orders.len() {
        let has_value = line_has_value(index, orders, lines, i);
        if has_value && !has_final(finals, orders.key(i), next) {
            return false;
        }
        next = next.wrapping_add(usize::from(has_value));
    }
    true
}

/// Returns the first line of a final that isn't the value of its key's last version, or else the line after the
/// finals if a key whose last version has a value has no final. The line of the first final is `first`.
pub(crate) fn check_finals(
    index: &EventIndex,
    orders: &Orders,
    lines: &LinePlaces,
    finals: &Finals,
    first: usize,
) -> Result<(), CheckFault>
    requires near { first + length (finals_of finals.now) < 2 ^ 64 }
    requires orders_rise { keys_rise (map (λ o. o.key) (orders_of orders.now)) ≡ true }
    requires finals_rise { keys_rise (map (λ f. f.key) (finals_of finals.now)) ≡ true }
    requires writes { AreWrites (last_in index.now) lines.now (orders_of orders.now) }
    ensures { let found = final_value_faults (parts (indexed index.now) (orders_of orders.now) (finals_of finals.now)) first in
        MatchResult result (λ u. found ≡ []) (Names found) }
{
    if let Err(fault) = check_lines(index, orders, lines, finals, first) {
        return Err(fault);
    }
    if !has_finals(index, orders, lines, finals) {
        return Err(CheckFault::Malformed {
            line: first + finals.len(),
            rule: Rule::M8,
        });
    }
    Ok(())
}
