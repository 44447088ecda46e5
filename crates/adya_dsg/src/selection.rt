//! What an event reads or selects.

ghost use Rattle.std.specs.Prelude.{◌≡◌, ◌<◌, ◌≤◌, [], ℕ, List, Some, length, map, drop, slice_get, true, false, IfSome, OnOk, All, option_map, option_to_list};
ghost use Rattle.std.specs.List.{list_all};
ghost use Rattle.adya_keys.specs.Meaning.Keys.{key_lt, keys_rise};
ghost use Rattle.adya_values.specs.Meaning.Histories.{Event, Read, Scan};
ghost use Rattle.adya_values.specs.Mirror.Numbers.{bounds, has_seen};
ghost use Rattle.adya_values.specs.Meaning.Events.{listed, observed, txn_of};
ghost use Rattle.adya_values.specs.Meaning.Selections.{place_of};
ghost use Rattle.adya_dsg.specs.Machinery.VersionOrders.{ordered_entry, ordered_events, ordered_history, IsNumber, numbered};
ghost use Rattle.adya_dsg.specs.Machinery.Choices.{choices, choice_of, event_at, key_at};

use crate::hints::Hints;
use crate::version_orders::VersionOrders;
use adya_terms::laws::checked_iff_no_fault;
use adya_values::{Seen, Txn};
use std::alloc::{AllocError, Global};

/// A place of an order line, of which an event reads the version or a scan selects it.
#[derive(Clone, Copy)]
pub(crate) struct Selection {
    pub line: usize,
    pub place: usize,
}

/// Finds what events read or select, one event after another. It is made once for a pass over the events.
#[derive(Drop)]
pub(crate) struct Selector {
    /// What the last event reads or selects of others, by rising keys.
    pub selections: Vec<Selection>,
    hints: Hints,
}

impl Selector {
    /// Makes a selector for the events of the history with these version orders; `AllocError` if memory is refused.
    pub fn of(alloc: Global, versions: &VersionOrders) -> Result<Selector, AllocError> {
        Ok(Selector {
            selections: Vec::new(alloc),
            hints: Hints::of(alloc, versions)?,
        })
    }

    /// Puts into the selections, in place of what they are, those of the event.
    pub fn select(&mut self, versions: &VersionOrders, event: usize) -> Result<(), AllocError>
        requires { event < length (ordered_history versions.now).events }
        ensures within { OnOk result (All (λ s. s.line < length (ordered_history versions.now).orders) self.new.selections.items) }
        ensures choices { let h = ordered_history versions.now in
            OnOk result (map (choice_of h) self.new.selections.items ≡ choices h (event_at h event)) }
    {
        checked_iff_no_fault();
        let selections = &mut self.selections;
        let hints = &mut self.hints;
        selections.clear();
        let txn = versions.txn(event);
        let observed = versions.observed(event);
        let seen = observed.seen();
        match versions.bounds(event) {
            Some((low, high)) => {
                select_scanned(selections, hints, versions, txn, low, high, seen)
            }
            None => select_read(selections, hints, versions, txn, seen),
        }
    }
}

/// Adds what an event of the transaction that is no scan reads of others: it sees one entry, or none.
fn select_read(
    selections: &mut Vec<Selection>,
    hints: &mut Hints,
    versions: &VersionOrders,
    txn: Txn,
    seen: &[Seen],
) -> Result<(), AllocError>
    requires none { selections.old.items ≡ [] }
    requires there { list_all (has_seen (ordered_events versions.now)) seen.now ≡ true }
    ensures within { OnOk result (All (λ s. s.line < length (ordered_history versions.now).orders) selections.new.items) }
    ensures choices { let h = ordered_history versions.now in
        (e : Event)
        → txn_of e ≡ txn
        → bounds e ≡ None
        → observed e ≡ map (ordered_entry versions.now) seen.now
        → OnOk result (map (choice_of h) selections.new.items ≡ choices h e) }
{
    let [read] = seen else {
        return Ok(());
    };
    if let Some(selection) = of_read(hints, versions, txn, read) {
        selections.push(selection)?;
    }
    Ok(())
}

fn of_read(hints: &mut Hints, versions: &VersionOrders, txn: Txn, read: &Seen) -> Option<Selection>
    requires { has_seen (ordered_events versions.now) read.now ≡ true }
    ensures within { IfSome result (λ s. s.line < length (ordered_history versions.now).orders) }
    ensures choice { let h = ordered_history versions.now in
        (value : List ℕ)
        → option_to_list (option_map (choice_of h) result)
        ≡ choices h (Read txn (ordered_entry versions.now read.now).version value) }
{
    if read.txn == txn {
        return None;
    }
    let line = versions.line_of(read.key)?;
    Some(Selection {
        line,
        place: hints.place(versions, line, read.txn),
    })
}

/// Adds what a scan of the transaction selects of others, with bounds of these numbers, if it sees these entries. The
/// entries rise by their keys, and so do the lines.
fn select_scanned(
    selections: &mut Vec<Selection>,
    hints: &mut Hints,
    versions: &VersionOrders,
    txn: Txn,
    low: u32,
    high: u32,
    seen: &[Seen],
) -> Result<(), AllocError>
    requires none { selections.old.items ≡ [] }
    requires low { IsNumber versions.now low }
    requires high { IsNumber versions.now high }
    requires there { list_all (has_seen (ordered_events versions.now)) seen.now ≡ true }
    requires rise { keys_rise (map (λ w. w.version.key) (map (ordered_entry versions.now) seen.now)) ≡ true }
    ensures within { OnOk result (All (λ s. s.line < length (ordered_history versions.now).orders) selections.new.items) }
    ensures choices { let h = ordered_history versions.now in
        OnOk result (map (choice_of h) selections.new.items
        ≡ choices h (Scan txn (numbered versions.now low) (numbered versions.now high) (map (ordered_entry versions.now) seen.now))) }
{
    let mut next = 0;
    for line in versions.lines_below(low)..versions.lines_up_to(high) {
        next = reached(versions, seen, next, line);
        let listed = listed(versions, seen, next, line);
        if let Some(place) = selected(hints, versions, txn, line, listed) {
            selections.push(Selection { line, place })?;
        }
    }
    Ok(())
}

/// Returns the index of the first of the entries from this index on that isn't passed at the line.
fn reached(versions: &VersionOrders, seen: &[Seen], from: usize, line: usize) -> usize
    requires { list_all (has_seen (ordered_events versions.now)) seen.now ≡ true }
    ensures same { let h = ordered_history versions.now in
        let w = ordered_entry versions.now in
        (i : ℕ)
        → line ≤ i
        → i < length (ordered_history versions.now).orders
        → listed (key_at h i) (map w (drop result seen.now)) ≡ listed (key_at h i) (map w (drop from seen.now)) }
    ensures reached { (s : Seen)
        → slice_get seen.now result ≡ Some s
        → key_lt (numbered versions.now s.key) (key_at (ordered_history versions.now) line) ≡ false }
{
    for at in from..seen.len() {
        if !is_passed(versions, &seen[at], line) {
            return at;
        }
    }
    seen.len()
}

/// Returns whether the entry is of no line from this one on: its key has an earlier line, or none.
fn is_passed(versions: &VersionOrders, seen: &Seen, line: usize) -> bool
    requires { has_seen (ordered_events versions.now) seen.now ≡ true }
    ensures passed { result ≡ true → (i : ℕ)
        → line ≤ i
        → i < length (ordered_history versions.now).orders
        → key_at (ordered_history versions.now) i ≡ numbered versions.now seen.now.key → ⊥ }
    ensures reached { result ≡ false
        → key_lt (numbered versions.now seen.now.key) (key_at (ordered_history versions.now) line) ≡ false }
{
    match versions.line_of(seen.key) {
        None => true,
        Some(own) => own < line,
    }
}

/// Returns the entry of the line's key, if it is listed. It is at the index then, and no entry of a smaller key.
fn listed(versions: &VersionOrders, seen: &[Seen], at: usize, line: usize) -> Option<Seen>
    requires within { line < length (ordered_history versions.now).orders }
    requires there { list_all (has_seen (ordered_events versions.now)) seen.now ≡ true }
    requires rise { keys_rise (map (λ w. w.version.key) (map (ordered_entry versions.now) seen.now)) ≡ true }
    requires reached { (s : Seen)
        → slice_get seen.now at ≡ Some s
        → key_lt (numbered versions.now s.key) (key_at (ordered_history versions.now) line) ≡ false }
    ensures { let w = ordered_entry versions.now in
        option_map w result ≡ listed (key_at (ordered_history versions.now) line) (map w (drop at seen.now)) }
{
    let seen = seen.get(at)?;
    if versions.line_of(seen.key)? == line {
        return Some(*seen);
    }
    None
}

/// Returns the place of the line that a scan of the transaction selects, if it lists this entry of the line's key.
fn selected(
    hints: &mut Hints,
    versions: &VersionOrders,
    txn: Txn,
    line: usize,
    listed: Option<Seen>,
) -> Option<usize>
    requires { line < length (ordered_history versions.now).orders }
    ensures { let h = ordered_history versions.now in
        result ≡ place_of h txn (key_at h line) (option_map (ordered_entry versions.now) listed) }
{
    let Some(seen) = listed else {
        return Some(0);
    };
    if seen.txn == txn {
        return None;
    }
    Some(hints.place(versions, line, seen.txn))
}
