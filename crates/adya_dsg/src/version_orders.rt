//! The version orders of a history, with what changes the matches of scans.

ghost use Rattle.std.specs.Prelude.{◌≡◌, ◌<◌, ◌≤◌, ℕ, suc, Some, slice_get, List, nat_lt, leb, length, map, option_map, true, false, IfNone, IfSome, IfOk};
ghost use Rattle.std.specs.List.{find, list_all, list_any};
ghost use Rattle.std.specs.List.Sorted.{IsNonDecreasingBy, IsPartitionPoint};
ghost use Rattle.adya_keys.specs.Meaning.Keys.{key_lt, keys_rise};
ghost use Rattle.adya_values.specs.Meaning.Selections.{is_scan};
ghost use Rattle.adya_keys.specs.Machinery.Indices.{indices_in};
ghost use Rattle.adya_values.specs.Mirror.Events.{events_of};
ghost use Rattle.adya_values.specs.Mirror.Lines.{orders_of};
ghost use Rattle.adya_values.specs.Mirror.Numbers.{bounds, both_at, has_seen, keys_of, seen_entry, seen_in};
ghost use Rattle.adya_values.specs.Meaning.Events.{txn_of, is_committed, observed};
ghost use Rattle.adya_values.specs.Meaning.Orders.{writers, place, installer, is_visible_at};
ghost use Rattle.adya_terms.specs.Clauses.Checked.{checked_history, history_in};
ghost use Rattle.adya_dsg.specs.Machinery.Choices.{event_at, key_at};
ghost use Rattle.adya_terms.specs.Mirror.LineNumbers.{FindsLines};
ghost use Rattle.adya_dsg.specs.Machinery.LineChanges.{AreChanges};
ghost use Rattle.adya_dsg.specs.Machinery.Links.{changed_places};
ghost use Rattle.adya_dsg.specs.Machinery.Places.{AreTables};

use crate::changes::{LineChanges, scan_changes};
use crate::line_tables::{SHORT_LINE, line_tables};
use crate::txn_places::TxnPlaces;
use adya_terms::Checked;
use adya_terms::laws::checked_iff_no_fault;
use adya_values::{Events, Indices, Key, Observed, Orders, Txn};
use std::alloc::{AllocError, Global};
use std::collections::BTreeMap;

/// So many writers from the hint on are looked at before the whole line.
const NEAR: usize = 8;

/// The version orders of a checked history. An order line is named by its index in the list of lines. In a line, place
/// 0 is that of the unborn version, and the writers come from place 1 on.
#[derive(Drop)]
pub(crate) struct VersionOrders<'a> {
    checked: &'a Checked<'a>,
    events: &'a Events,
    /// By the number of each key the index of its line and 1; 0 if it has none.
    lines: &'a Indices,
    /// Tables of the writers of the long lines, by the index of the line.
    tables: BTreeMap<usize, TxnPlaces<'a>>,
    /// Empty if no event is a scan.
    changes: LineChanges,
    ghost same: { events_of events.now ≡ (checked_history checked.now).events },
    ghost found: { let os = (checked_history checked.now).orders in FindsLines (indices_in lines.now) (keys_of events.now) os (length os) },
    ghost tabled: { AreTables (checked_history checked.now) tables },
    ghost changed: { let h = checked_history checked.now in
        list_any is_scan h.events ≡ true → AreChanges h changes.places.items changes.starts.items (length h.orders) },
}

impl<'a> VersionOrders<'a> {
    ghost use Rattle.adya_dsg.specs.Machinery.VersionOrders.{ordered_history, ordered_events, IsNumber, numbered};

    /// Takes the orders of the history, and finds what changes the matches; `AllocError` if memory is refused.
    pub fn of(alloc: Global, checked: &'a Checked<'a>) -> Result<VersionOrders<'a>, AllocError>
        ensures same { IfOk result (λ g. history_in g.checked.now ≡ history_in checked.now) }
    {
        let tables = line_tables(alloc, checked)?;
        let changes = scan_changes(alloc, checked)?;
        Ok(VersionOrders {
            checked,
            events: checked.events(),
            lines: checked.line_numbers(),
            tables,
            changes,
        })
    }

    /// Returns how many events the history has.
    pub fn event_count(&self) -> usize
        ensures { result ≡ length (ordered_history self.now).events }
    {
        self.events.len()
    }

    /// Returns the transaction of the event at the index.
    pub fn txn(&self, event: usize) -> Txn
        requires { event < length (ordered_history self.now).events }
        ensures { result ≡ txn_of (event_at (ordered_history self.now) event) }
    {
        self.events.txn_at(event)
    }

    /// Returns whether the event's transaction has committed.
    pub fn is_committed(&self, event: usize) -> bool
        requires { event < length (ordered_history self.now).events }
        ensures { let h = ordered_history self.now in
            result ≡ is_committed h.events (txn_of (event_at h event)) }
    {
        self.checked.is_committed(self.txn(event))
    }

    /// Returns the numbers of the bounds of the event, if it is a scan.
    pub fn bounds(&self, event: usize) -> Option<(u32, u32)>
        ensures keys { option_map (both_at (keys_of (ordered_events self.now))) result
            ≡ bounds (event_at (ordered_history self.now) event) }
        ensures there { IfSome result (λ b. IsNumber self.now b.0 × IsNumber self.now b.1) }
    {
        self.events.bounds_at(event)
    }

    /// Returns whether the event is a scan.
    pub fn is_scan(&self, event: usize) -> bool
        ensures scan { result ≡ is_scan (event_at (ordered_history self.now) event) }
        ensures some { result ≡ true → list_any is_scan (ordered_history self.now).events ≡ true }
    {
        self.bounds(event).is_some()
    }

    /// Returns what the event sees.
    pub fn observed(&self, event: usize) -> Observed<'_>
        requires { event < length (ordered_history self.now).events }
        ensures entries { observed (event_at (ordered_history self.now) event)
            ≡ map (seen_entry (ordered_events self.now)) (seen_in result) }
        ensures there { list_all (has_seen (ordered_events self.now)) (seen_in result) ≡ true }
    {
        self.events.observed(event)
    }

    /// Returns the order lines.
    pub fn orders(&self) -> &Orders
        ensures value { orders_of result.now ≡ (ordered_history self.now).orders }
        ensures rise { keys_rise (map (λ o. o.key) (ordered_history self.now).orders) ≡ true }
    {
        self.checked.history().orders()
    }

    /// Returns how many order lines the history has.
    pub fn line_count(&self) -> usize
        ensures { result ≡ length (ordered_history self.now).orders }
    {
        self.orders().len()
    }

    /// Returns the key of the order line.
    pub fn key(&self, line: usize) -> Key
        requires { line < length (ordered_history self.now).orders }
        ensures { result ≡ key_at (ordered_history self.now) line }
    {
        self.orders().key(line)
    }

    /// Returns the writers of the order line.
    pub fn writers(&self, line: usize) -> &[Txn]
        requires { line < length (ordered_history self.now).orders }
        ensures { let h = ordered_history self.now in
            result.now ≡ writers h (key_at h line) }
    {
        self.orders().writers(line)
    }

    /// Returns the place of the transaction in the line, or the place after the last one if it isn't there.
    pub fn place(&self, line: usize, txn: Txn) -> usize
        requires { line < length (ordered_history self.now).orders }
        ensures { let h = ordered_history self.now in
            result ≡ suc (place (writers h (key_at h line)) txn) }
    {
        self.count_before(line, self.writers(line), txn) + 1
    }

    /// Returns how many of the writers of the line, which are these, come before the transaction.
    fn count_before(&self, line: usize, txns: &[Txn], txn: Txn) -> usize
        requires { let h = ordered_history self.now in
            txns.now ≡ writers h (key_at h line) }
        ensures { result ≡ place txns.now txn }
    {
        if txns.len() > SHORT_LINE {
            if let Some(table) = self.tables.get(&line) {
                return table.place(txn);
            }
        }
        writers_before(txns, txn)
    }

    /// Returns the same as [`place`](VersionOrders::place), and finds it fastest if the transaction is at the index of the
    /// hint among the writers of the line, or soon after. The hint may be any number.
    pub fn place_near(&self, line: usize, txn: Txn, hint: usize) -> usize
        requires { line < length (ordered_history self.now).orders }
        ensures { let h = ordered_history self.now in
            result ≡ suc (place (writers h (key_at h line)) txn) }
    {
        checked_iff_no_fault();
        match near(self.writers(line), txn, hint) {
            Some(index) => index + 1,
            None => self.place(line, txn),
        }
    }

    /// Returns who installed the version at the place of the line.
    pub fn installer(&self, line: usize, place: usize) -> Option<Txn>
        requires { line < length (ordered_history self.now).orders }
        ensures { let h = ordered_history self.now in
            result ≡ installer h (key_at h line) place }
    {
        if place == 0 {
            return None;
        }
        self.writers(line).get(place - 1).copied()
    }

    /// Returns whether the version at the place of the line is neither unborn nor dead. Like the calls below about
    /// changes, it is for histories with scans: others keep no changes.
    pub fn is_visible(&self, line: usize, place: usize) -> bool
        requires scans { list_any is_scan (ordered_history self.now).events ≡ true }
        requires within { line < length (ordered_history self.now).orders }
        ensures { let h = ordered_history self.now in
            result ≡ is_visible_at h (key_at h line) place }
    {
        // the unborn version isn't visible, and each change turns that round
        place <= self.writers(line).len() && self.changes_up_to(line, place) % 2 == 1
    }

    /// Returns the places of the line where the version is visible and the one before isn't, or the other way round.
    pub fn changes(&self, line: usize) -> &[usize]
        requires scans { list_any is_scan (ordered_history self.now).events ≡ true }
        requires within { line < length (ordered_history self.now).orders }
        ensures { let h = ordered_history self.now in
            result.now ≡ changed_places h (key_at h line) }
    {
        self.changes.of(line)
    }

    /// Returns how many of these places come before this one or are it.
    fn changes_up_to(&self, line: usize, place: usize) -> usize
        requires scans { list_any is_scan (ordered_history self.now).events ≡ true }
        requires within { line < length (ordered_history self.now).orders }
        ensures within { let h = ordered_history self.now in
            result ≤ length (changed_places h (key_at h line)) }
        ensures up_to { let h = ordered_history self.now in
            IsPartitionPoint (λ q. leb q place ≡ true) (λ q. leb q place ≡ false) (changed_places h (key_at h line)) result }
    {
        let changes = self.changes(line);
        // most scans select the newest version, and then there is nothing to search
        if are_up_to(changes, place) {
            return changes.len();
        }
        changes.partition_point(|q| *q <= place)
    }

    /// Returns the first such place after this one.
    pub fn next_change(&self, line: usize, place: usize) -> Option<usize>
        requires scans { list_any is_scan (ordered_history self.now).events ≡ true }
        requires within { line < length (ordered_history self.now).orders }
        ensures { let h = ordered_history self.now in
            result ≡ find (λ q. nat_lt place q) (changed_places h (key_at h line)) }
    {
        let next = self.changes_up_to(line, place);
        self.changes(line).get(next).copied()
    }

    /// Returns the line of the key with the number.
    pub fn line_of(&self, key: u32) -> Option<usize>
        requires { IsNumber self.now key }
        ensures within { IfSome result (λ i. i < length (ordered_history self.now).orders) }
        ensures found { IfSome result (λ i. key_at (ordered_history self.now) i ≡ numbered self.now key) }
        ensures none { IfNone result ((i : ℕ) → i < length (ordered_history self.now).orders
            → key_at (ordered_history self.now) i ≡ numbered self.now key → ⊥) }
    {
        let above = self.lines.at(key as usize);
        if above == 0 {
            return None;
        }
        Some(above - 1)
    }

    /// Returns how many lines have smaller keys than the one with the number. If it has a line, this takes no search.
    pub fn lines_below(&self, key: u32) -> usize
        requires { IsNumber self.now key }
        ensures within { result ≤ length (ordered_history self.now).orders }
        ensures below { (i : ℕ) → i < result
            → key_lt (key_at (ordered_history self.now) i) (numbered self.now key) ≡ true }
        ensures others { (i : ℕ) → result ≤ i → i < length (ordered_history self.now).orders
            → key_lt (key_at (ordered_history self.now) i) (numbered self.now key) ≡ false }
    {
        match self.line_of(key) {
            Some(line) => line,
            None => self.orders_below(self.events.key(key)),
        }
    }

    /// Returns how many lines have smaller keys.
    fn orders_below(&self, key: Key) -> usize
        ensures within { result ≤ length (ordered_history self.now).orders }
        ensures below { (i : ℕ) → i < result
            → key_lt (key_at (ordered_history self.now) i) key ≡ true }
        ensures others { (i : ℕ) → result ≤ i → i < length (ordered_history self.now).orders
            → key_lt (key_at (ordered_history self.now) i) key ≡ false }
    {
        self.orders().below(key)
    }

    /// Returns how many lines have no larger keys than the one with the number. If it has a line, this takes no search.
    pub fn lines_up_to(&self, key: u32) -> usize
        requires { IsNumber self.now key }
        ensures within { result ≤ length (ordered_history self.now).orders }
        ensures up_to { (i : ℕ) → i < result
            → key_lt (numbered self.now key) (key_at (ordered_history self.now) i) ≡ false }
        ensures above { (i : ℕ) → result ≤ i → i < length (ordered_history self.now).orders
            → key_lt (numbered self.now key) (key_at (ordered_history self.now) i) ≡ true }
    {
        match self.line_of(key) {
            Some(line) => line + 1,
            None => self.lines_below(key),
        }
    }
}

/// Returns how many of the writers come before the transaction.
fn writers_before(writers: &[Txn], txn: Txn) -> usize
    ensures { result ≡ place writers.now txn }
{
    for (i, writer) in writers.iter().enumerate() {
        if *writer == txn {
            return i;
        }
    }
    writers.len()
}

/// Returns the index of the transaction among the writers, if it is at this index or one of the next few.
fn near(writers: &[Txn], txn: Txn, from: usize) -> Option<usize>
    ensures { IfSome result (λ i. slice_get writers.now i ≡ Some txn) }
{
    let end = writers.len().min(from.saturating_add(NEAR));
    for i in from..end {
        if writers[i] == txn {
            return Some(i);
        }
    }
    None
}

/// Returns whether the last of the places is no later than this one. If they rise, none of them is later then.
fn are_up_to(places: &[usize], place: usize) -> bool
    ensures { result ≡ true
        → IsNonDecreasingBy (λ q. q) places.now
        → IsPartitionPoint (λ q. leb q place ≡ true) (λ q. leb q place ≡ false) places.now (length places.now) }
{
    match places.last() {
        Some(last) => *last <= place,
        None => true,
    }
}
