//! What a scan lists: M4 and M5.

ghost use Rattle.std.specs.Prelude.{◌≡◌, ◌<◌, ℕ, List, true, false, Some, get_or, length, map};
ghost use Rattle.std.specs.Bool.{OnTrue, OnFalse};
ghost use Rattle.std.specs.List.{list_all};
ghost use Rattle.adya_keys.specs.Machinery.Within.{key_at};
ghost use Rattle.adya_keys.specs.Meaning.Keys as keys;
ghost use Rattle.adya_values.specs.Meaning.Histories as histories;
ghost use Rattle.adya_values.specs.Meaning.Histories.{Entry as EntryValue, Event as EventValue};
ghost use Rattle.adya_values.specs.Mirror.Events.{events_of};
ghost use Rattle.adya_values.specs.Mirror.Numbers.{has_seen, keys_of, seen_entry};
ghost use Rattle.adya_keys.specs.Mirror.{AreNumbered};
ghost use Rattle.adya_values.specs.Computing.Faults as faults;
ghost use Rattle.adya_values.specs.Meaning.Events.{last_write};
ghost use Rattle.adya_values.specs.Computing.Faults.{none_or_lists_only, sees_own};
ghost use Rattle.std.specs.BTreeMap.{get};
ghost use Rattle.std.specs.Ordering.{nat_cmp};
ghost use Rattle.txn_table.specs.Mirror.{value_for};
ghost use Rattle.adya_terms.specs.Machinery.Tables.{own, written_at};
ghost use Rattle.adya_terms.specs.Machinery.Chains.{chain_passes};
ghost use Rattle.adya_terms.specs.Machinery.OwnWrites.{place_of};

use crate::own_writes::OwnWrites;
use crate::{Events, Key, Seen, Txn};

fn lies_in(low: Key, high: Key, key: Key) -> bool
    ensures { result ≡ keys.lies_in low high key }
{
    low <= key && key <= high
}

/// A scan of a list of events: its bounds, and what it lists.
#[derive(Clone, Copy)]
pub(crate) struct Scan<'a> {
    pub(crate) events: &'a Events,
    pub(crate) low: Key,
    pub(crate) high: Key,
    pub(crate) seen: &'a [Seen],
    pub ghost numbered: { AreNumbered (keys_of events.now) },
    pub ghost there: { list_all (has_seen events.now) seen.now ≡ true },
}

impl<'a> Scan<'a> {
    ghost use Rattle.adya_terms.specs.Machinery.Scans.{key_seen, listed};

    /// Makes the scan with these numbers of bounds.
    pub fn of(events: &'a Events, low: u32, high: u32, seen: &'a [Seen]) -> Scan<'a>
        requires numbered { AreNumbered (keys_of events.now) }
        requires low { low < length (keys_of events.now) }
        requires high { high < length (keys_of events.now) }
        requires seen { list_all (has_seen events.now) seen.now ≡ true }
        ensures events { result.events.now ≡ events.now }
        ensures low { result.low ≡ key_at (keys_of events.now) low }
        ensures high { result.high ≡ key_at (keys_of events.now) high }
        ensures seen { result.seen.now ≡ seen.now }
    {
        Scan {
            events,
            low: events.key(low),
            high: events.key(high),
            seen,
        }
    }

    /// Returns the key of an entry.
    fn key(&self, seen: &Seen) -> Key
        ensures { result ≡ key_seen self.now seen.now }
    {
        self.events.key_or(seen.key, self.low)
    }

    /// Returns whether each listed key lies between the bounds. The keys rise, so the first and the last one tell.
    fn all_lie_in(&self) -> bool
        requires { keys.keys_rise (map (λ w. w.version.key) (listed self.now)) ≡ true }
        ensures { result ≡ list_all (λ s. keys.lies_in self.now.low self.now.high (key_seen self.now s)) self.now.seen.now }
    {
        let (Some(first), Some(last)) = (self.seen.first(), self.seen.last()) else {
            return true;
        };
        self.low <= self.key(first) && self.key(last) <= self.high
    }

    /// Returns whether each listed key is below the next.
    fn keys_rise(&self) -> bool
        ensures { result ≡ keys.keys_rise (map (λ w. w.version.key) (listed self.now)) }
    {
        for i in 1..self.seen.len() {
            if !self.events.is_below(self.seen[i - 1].key, self.seen[i].key) {
                return false;
            }
        }
        true
    }

    /// M4: returns whether of each key between the bounds that the transaction has written its last write is listed, and nothing
    /// else of that key.
    pub fn lists_own<'b>(&'b self, writes: &'b OwnWrites, txn: Txn) -> bool
        ensures { (before : List EventValue)
            → ((k : List ℕ) → written_at (events_of self.now.events.now) (place_of writes.now (own txn k)) ≡ last_write txn k before)
            → result ≡ sees_own before (histories.Scan txn self.now.low self.now.high (listed self.now)) }
    {
        if self.high < self.low {
            return true;
        }
        let owed = Owed {
            writes,
            txn,
            scan: self,
        };
        owed.has_chain() && owed.has_later()
    }

    /// M5: returns whether the bounds are in order, and the list has rising keys within the bounds.
    pub fn is_rising(&self) -> bool
        ensures { (t : ℕ) → result ≡ faults.is_rising (histories.Scan t self.now.low self.now.high (listed self.now)) }
    {
        self.low <= self.high && self.keys_rise() && self.all_lie_in()
    }

    /// Returns whether the write at the place, of the key with the number, is listed and nothing else of its key.
    fn lists_only(&self, at: usize, number: u32) -> bool
        requires { number < length (keys_of self.now.events.now) }
        ensures { (w : EntryValue)
            → written_at (events_of self.now.events.now) (Some at) ≡ Some w
            → w.version.key ≡ key_at (keys_of self.now.events.now) number
            → result ≡ faults.lists_only (listed self.now) w }
    {
        let mut found = false;
        for seen in self.seen {
            if self.events.wrote(at, seen) {
                found = true;
            } else if seen.key == number {
                return false;
            }
        }
        found
    }

    /// Returns the same by binary search. The keys rise.
    fn finds_only(&self, at: usize, number: u32) -> bool
        requires number { number < length (keys_of self.now.events.now) }
        requires rise { keys.keys_rise (map (λ w. w.version.key) (listed self.now)) ≡ true }
        ensures { (w : EntryValue)
            → written_at (events_of self.now.events.now) (Some at) ≡ Some w
            → w.version.key ≡ key_at (keys_of self.now.events.now) number
            → result ≡ faults.lists_only (listed self.now) w }
    {
        let key = self.events.key(number);
        match self.seen.binary_search_by_key(&key, |seen| self.key(seen)) {
            Err(_) => false,
            Ok(i) => self.events.wrote(at, &self.seen[i]),
        }
    }
}

/// A scan, with whether the keys that it lists rise.
#[derive(Clone, Copy)]
struct ScanList<'a, 'b> {
    scan: &'a Scan<'b>,
    rising: bool,
    ghost rise: { rising ≡ true → keys.keys_rise (map (λ w. w.version.key) (map (seen_entry scan.now.events.now) scan.now.seen.now)) ≡ true },
}

impl ScanList<'_, '_> {
    ghost use Rattle.adya_terms.specs.Machinery.Scans.{listed};

    /// Returns whether what the event at the place writes, if there is one, is listed and nothing else of its key.
    fn has_write(&self, at: Option<usize>) -> bool
        ensures { result
            ≡ none_or_lists_only (listed self.now.scan.now) (written_at (events_of self.now.scan.now.events.now) at) }
    {
        let Some(at) = at else {
            return true;
        };
        let Some(write) = self.scan.events.numbered_at(at) else {
            return true;
        };
        if self.rising {
            return self.scan.finds_only(at, write.key);
        }
        self.scan.lists_only(at, write.key)
    }
}

/// The writes of a transaction that its scan must list: those of keys between the bounds.
#[derive(Clone, Copy)]
struct Owed<'a, 'b, 'c> {
    writes: &'a OwnWrites<'c>,
    txn: Txn,
    scan: &'a Scan<'b>,
}

impl Owed<'_, '_, '_> {
    ghost use Rattle.adya_terms.specs.Machinery.Owed.{passes, AreShown};
    ghost use Rattle.adya_terms.specs.Machinery.Scans.{listed};

    /// Returns whether the last write of the key with the number is listed and nothing else of it, if the key lies between the
    /// bounds.
    fn has_key(&self, number: u32) -> bool
        requires { number < length (keys_of self.now.writes.now.events.now) }
        ensures { result ≡ passes self.now (key_at (keys_of self.now.writes.now.events.now) number) }
    {
        let scan = self.scan;
        if !lies_in(scan.low, scan.high, self.writes.events.key(number)) {
            return true;
        }
        // few writes are chained, so the list is read through for each of them
        let list = ScanList {
            scan,
            rising: false,
        };
        list.has_write(self.writes.last_place(self.txn, number))
    }

    /// Returns whether that holds of the key of each write in the transaction's chain.
    fn has_chain(&self) -> bool
        ensures { let w = self.now.writes.now in
            let chain = value_for w.chains self.now.txn in
            result ≡ chain_passes w.rows.items (λ n. passes self.now (key_at (keys_of w.events.now) n)) chain.len chain.last }
    {
        let chain = self.writes.chain(self.txn);
        let mut link = chain.last;
        for _ in 0..chain.len {
            let Some(row) = self.writes.row(link) else {
                return true;
            };
            if !self.has_key(row.key) {
                return false;
            }
            link = row.before;
        }
        true
    }

    /// Returns whether each of the transaction's other last writes of keys between the bounds is listed, and nothing else of
    /// its key. The bounds don't run downward.
    fn has_later(&self) -> bool
        requires { keys.key_lt self.now.scan.now.high self.now.scan.now.low ≡ false }
        ensures shown { let scan = self.now.scan.now in
            OnTrue result (AreShown (get nat_cmp self.now.writes.now.later self.now.txn) scan.low scan.high (listed scan) (events_of scan.events.now)) }
        ensures missed { let scan = self.now.scan.now in
            OnFalse result (AreShown (get nat_cmp self.now.writes.now.later self.now.txn) scan.low scan.high (listed scan) (events_of scan.events.now) → ⊥) }
    {
        let Some(later) = self.writes.later(self.txn) else {
            return true;
        };
        let scan = self.scan;
        let list = ScanList {
            scan,
            rising: scan.keys_rise(),
        };
        for (_, at) in later.range(scan.low..=scan.high) {
            if !list.has_write(Some(*at)) {
                return false;
            }
        }
        true
    }
}
