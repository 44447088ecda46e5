//! The rules M1 to M5 of each event, given those before it.

ghost use Rattle.std.specs.Prelude.{◌≡◌, ◌<◌, ℕ, List, [], true, Some, length, slice_get, MatchOption, MatchResult};
ghost use Rattle.adya_values.specs.Meaning.Histories.{Event as EventValue};
ghost use Rattle.adya_values.specs.Mirror.Events.{events_of};
ghost use Rattle.adya_values.specs.Mirror.Numbers.{has_seen, seen_entry};
ghost use Rattle.adya_values.specs.Meaning.Events.{last_write, written};
ghost use Rattle.adya_values.specs.Computing.Faults as faults;
ghost use Rattle.adya_values.specs.Computing.Faults.{entry_eq};
ghost use Rattle.std.specs.List.{filter_map, list_all, list_any};
ghost use Rattle.adya_terms.specs.Machinery.Telling.{told, Means};
ghost use Rattle.adya_terms.specs.Machinery.NewestWrites.{Keeps};
ghost use Rattle.adya_terms.specs.Machinery.Checks.{Names};

use crate::newest_writes::NewestWrites;
use crate::scans::Scan;
use crate::tables::Tables;
use crate::{CheckFault, Events, Rule, Seen, Txn};
use std::alloc::Global;

/// M1: returns whether the event's transaction is still open.
fn is_open(tables: &Tables, at: usize) -> bool
    requires { at < length (told tables.now) }
    ensures { (before : List EventValue) (e : EventValue)
        → Means tables.now before
        → slice_get (told tables.now) at ≡ Some e
        → result ≡ faults.is_open before e }
{
    !tables.has_ended(tables.writes.events.txn_at(at))
}

/// M2: returns whether the event, if it writes, has the next number of its transaction's writes of the key.
fn is_next(tables: &Tables, at: usize) -> bool
    ensures { (before : List EventValue) (e : EventValue)
        → Means tables.now before
        → slice_get (told tables.now) at ≡ Some e
        → result ≡ faults.is_next before (written e) }
{
    let Some(new) = tables.writes.events.numbered_at(at) else {
        return true;
    };
    let number = u32::from(new.m.get());
    match tables.version_at(tables.last_place(new.txn, new.key)) {
        None => number == 1,
        Some(last) => number == u32::from(last.m.get()) + 1,
    }
}

/// Returns whether the version was written with this content. Most often it is the newest write of its key.
fn is_written(tables: &Tables, newest: &NewestWrites, seen: &Seen) -> bool
    requires { has_seen tables.now.writes.events.now seen.now ≡ true }
    ensures { (before : List EventValue)
        → Means tables.now before
        → Keeps newest.now (told tables.now) before
        → result ≡ list_any (entry_eq (seen_entry tables.now.writes.events.now seen.now)) (filter_map written before) }
{
    newest.has(tables.writes.events, seen) || tables.was_written(seen)
}

/// M3: returns whether all that the event sees was written before.
fn was_written(tables: &Tables, newest: &NewestWrites, at: usize) -> bool
    requires { at < length (told tables.now) }
    ensures { (before : List EventValue) (e : EventValue)
        → Means tables.now before
        → Keeps newest.now (told tables.now) before
        → slice_get (told tables.now) at ≡ Some e
        → result ≡ faults.was_written before e }
{
    let observed = tables.writes.events.observed(at);
    for seen in observed.seen() {
        if !is_written(tables, newest, seen) {
            return false;
        }
    }
    true
}

/// Returns whether the version is the transaction's latest of its key, or the transaction has written none.
fn is_own(tables: &Tables, txn: Txn, seen: &Seen) -> bool
    requires { has_seen tables.now.writes.events.now seen.now ≡ true }
    ensures { let o = seen_entry tables.now.writes.events.now seen.now in
        (before : List EventValue) → Means tables.now before → result ≡ faults.is_none_or (last_write txn o.version.key before) o }
{
    match tables.last_place(txn, seen.key) {
        None => true,
        Some(last) => tables.writes.events.wrote(last, seen),
    }
}

/// Returns whether that holds of all that an event sees.
fn are_own(tables: &Tables, txn: Txn, observed: &[Seen]) -> bool
    requires { list_all (has_seen tables.now.writes.events.now) observed.now ≡ true }
    ensures { (before : List EventValue)
        → Means tables.now before
        → let es = tables.now.writes.events.now in
        result ≡ list_all (λ s. faults.is_none_or (last_write txn (seen_entry es s).version.key before) (seen_entry es s)) observed.now }
{
    for seen in observed {
        if !is_own(tables, txn, seen) {
            return false;
        }
    }
    true
}

/// M4: returns whether the event sees no other version than its transaction's latest of each key that this has written.
fn sees_own(tables: &Tables, at: usize) -> bool
    requires { at < length (told tables.now) }
    ensures { (before : List EventValue) (e : EventValue)
        → Means tables.now before
        → slice_get (told tables.now) at ≡ Some e
        → result ≡ faults.sees_own before e }
{
    let events = tables.writes.events;
    let txn = events.txn_at(at);
    let observed = events.observed(at);
    match events.bounds_at(at) {
        None => are_own(tables, txn, observed.seen()),
        Some((low, high)) => {
            let scan = Scan::of(events, low, high, observed.seen());
            scan.lists_own(&tables.writes, txn)
        }
    }
}

/// M5: returns whether the bounds of a scan are in order, and its list has rising keys within the bounds.
fn is_rising(tables: &Tables, at: usize) -> bool
    requires { at < length (told tables.now) }
    ensures { (e : EventValue) → slice_get (told tables.now) at ≡ Some e → result ≡ faults.is_rising e }
{
    let events = tables.writes.events;
    let observed = events.observed(at);
    match events.bounds_at(at) {
        None => true,
        Some((low, high)) => Scan::of(events, low, high, observed.seen()).is_rising(),
    }
}

/// Returns the first rule that the event breaks.
fn broken_rule(tables: &Tables, newest: &NewestWrites, at: usize) -> Option<Rule>
    requires { at < length (told tables.now) }
    ensures { (before : List EventValue) (e : EventValue)
        → Means tables.now before
        → Keeps newest.now (told tables.now) before
        → slice_get (told tables.now) at ≡ Some e
        → (line : ℕ)
        → MatchOption result (faults.faults_at before line e ≡ [])
        (λ r. faults.first (faults.faults_at before line e) ≡ Some (faults.Malformed line r)) }
{
    if !is_open(tables, at) {
        return Some(Rule::M1);
    }
    if !is_next(tables, at) {
        return Some(Rule::M2);
    }
    if !was_written(tables, newest, at) {
        return Some(Rule::M3);
    }
    if !sees_own(tables, at) {
        return Some(Rule::M4);
    }
    if !is_rising(tables, at) {
        return Some(Rule::M5);
    }
    None
}

/// Makes the tables of the events, if none of them breaks a rule.
pub(crate) fn tables_of(alloc: Global, events: &Events) -> Result<Tables<'_>, CheckFault>
    ensures { let all = events_of events.now in
        MatchResult result (λ t. (t.writes.events.now ≡ events.now) × Means t all × (faults.event_faults [] 2 all ≡ []))
        (Names (faults.event_faults [] 2 all)) }
{
    let keys = events.key_count();
    let Ok(mut newest) = NewestWrites::new(alloc, keys) else {
        return Err(CheckFault::Memory);
    };
    let Ok(mut tables) = Tables::new(alloc, events) else {
        return Err(CheckFault::Memory);
    };
    for i in 0..events.len() {
        if let Some(rule) = broken_rule(&tables, &newest, i) {
            return Err(CheckFault::Malformed { line: i + 2, rule });
        }
        let Ok(()) = tables.record(i) else {
            return Err(CheckFault::Memory);
        };
        if let Some(new) = events.numbered_at(i) {
            newest.keep(new.key, i);
        }
    }
    Ok(tables)
}
