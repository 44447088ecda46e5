//! The events of a history with what the rules from M6 on, and the search for bad reads, look up in them.

ghost use Rattle.std.specs.Prelude.{◌≡◌, ◌<◌, ◌^◌, ◌||◌, ◌==◌, ℕ, List, [], true, Some, is_some, length, option_map, IfNone, IfOk, IfSome, MatchResult};
ghost use Rattle.std.specs.List.{filter_map, list_any};
ghost use Rattle.adya_keys.specs.Machinery.Within.{key_at};
ghost use Rattle.adya_values.specs.Mirror.Events.{events_of};
ghost use Rattle.adya_keys.specs.Mirror.{value_of, number_in};
ghost use Rattle.adya_values.specs.Mirror.Numbers.{has_seen, seen_entry};
ghost use Rattle.adya_values.specs.Meaning.Events.{aborts, is_committed, last_write, shown, written};
ghost use Rattle.adya_values.specs.Clauses.Rules.{has_ended};
ghost use Rattle.adya_values.specs.Computing.Faults.{entry_eq, event_faults, is_entry};
ghost use Rattle.adya_terms.specs.Machinery.Tables.{own, written_at, KnowsCommitted};
ghost use Rattle.adya_terms.specs.Machinery.Places.{Installs};
ghost use Rattle.adya_terms.specs.Machinery.Telling.{told, Means};
ghost use Rattle.adya_terms.specs.Machinery.Checks.{Names, Holds};

use crate::rules::tables_of;
use crate::tables::{Ended, Tables};
use crate::{CheckFault, EventView, Events, NumberedVersion, Seen, Txn, Value};
use std::alloc::{AllocError, Global};
use std::collections::BTreeSet;
use txn_table::TxnTable;

/// The events of a history, which keep the rules M1 to M5, and its unfinished transactions, with tables of both.
#[derive(Drop)]
pub(crate) struct EventIndex<'a> {
    pub unfinished: &'a [Txn],
    tables: Tables<'a>,
    unfinished_set: BTreeSet<Txn>,
    pub ghost tell: { Means tables (told tables) },
    pub ghost holds: { Holds unfinished_set unfinished.now },
}

impl<'a> EventIndex<'a> {
    ghost use Rattle.adya_terms.specs.Machinery.EventIndex.{events_in, indexed, keys_in, unfinished_in, last_in};

    /// Makes the index, if no event breaks one of the rules M1 to M5.
    pub fn of(
        alloc: Global,
        events: &'a Events,
        unfinished: &'a [Txn],
    ) -> Result<EventIndex<'a>, CheckFault>
        ensures events { IfOk result (λ x. events_in x ≡ events.now) }
        ensures unfinished { IfOk result (λ x. x.unfinished.now ≡ unfinished.now) }
        ensures faults { let faults = event_faults [] 2 (events_of events.now) in
            MatchResult result (λ x. faults ≡ []) (Names faults) }
    {
        let tables = match tables_of(alloc, events) {
            Ok(tables) => tables,
            Err(fault) => return Err(fault),
        };
        let Ok(unfinished_set) = set_of(alloc, unfinished) else {
            return Err(CheckFault::Memory);
        };
        Ok(EventIndex {
            unfinished,
            tables,
            unfinished_set,
        })
    }

    /// Returns the events.
    pub fn events(&self) -> &Events
        ensures { result.now ≡ events_in self.now }
    {
        self.tables.writes.events
    }

    /// Returns how many events there are.
    pub fn len(&self) -> usize
        ensures length { result ≡ length (indexed self.now) }
        ensures near { result < 2 ^ 60 }
    {
        self.events().len()
    }

    /// Returns whether the transaction has committed.
    pub fn has_committed(&self, txn: Txn) -> bool
        ensures { result ≡ is_committed (indexed self.now) txn }
    {
        self.tables.has_committed(txn)
    }

    /// Returns whether the transaction has committed or aborted.
    pub fn has_ended(&self, txn: Txn) -> bool
        ensures { result ≡ has_ended (indexed self.now) txn }
    {
        self.tables.has_ended(txn)
    }

    /// Returns whether the transaction is listed as unfinished.
    pub fn is_unfinished(&self, txn: Txn) -> bool
        ensures { result ≡ list_any (λ u. u == txn) (unfinished_in self.now) }
    {
        self.unfinished_set.contains(&txn)
    }

    /// Returns whether the transaction has aborted or is unfinished.
    pub fn is_aborted(&self, txn: Txn) -> bool
        ensures { result ≡ (list_any (aborts txn) (indexed self.now) || list_any (λ u. u == txn) (unfinished_in self.now)) }
    {
        self.tables.has_aborted(txn) || self.is_unfinished(txn)
    }

    /// Returns the value that the event at the index writes, if it writes one.
    pub fn value_at(&self, at: usize) -> Option<Value>
        ensures { option_map value_of result ≡ shown (written_at (indexed self.now) (Some at)) }
    {
        match self.events().get(at) {
            Some(EventView::Write { value, .. }) => Some(value),
            Some(EventView::Delete { .. }) => None,
            Some(EventView::Read { .. }) => None,
            Some(EventView::Scan { .. }) => None,
            Some(EventView::Commit { .. }) => None,
            Some(EventView::Abort { .. }) => None,
            None => None,
        }
    }

    /// Returns whether the event at the index writes a value.
    pub fn shows(&self, at: usize) -> bool
        ensures { result ≡ is_some (shown (written_at (indexed self.now) (Some at))) }
    {
        self.events().shows(at)
    }

    /// Returns the index of the transaction's last write of the key with the number in the list of events. There is none if the
    /// key has no number.
    pub fn last_place(&self, txn: Txn, number: Option<u32>) -> Option<usize>
        requires { IfSome number (λ n. n < length (keys_in self.now)) }
        ensures { (k : List ℕ) → number ≡ number_in (keys_in self.now) k → result ≡ last_in self.now (own txn k) }
    {
        match number {
            None => None,
            Some(number) => self.tables.last_place(txn, number),
        }
    }

    /// Returns the version that the event at the index installs: if its transaction has committed, and writes the key last there.
    pub fn installed_at(&self, at: usize) -> Option<NumberedVersion>
        ensures there { IfSome result (λ v. v.key < length (keys_in self.now)) }
        ensures installs { IfSome result (λ v. Installs (indexed self.now) (last_in self.now) (key_at (keys_in self.now) v.key) v.txn at) }
        ensures none { IfNone result ((k : List ℕ) (t : ℕ) → Installs (indexed self.now) (last_in self.now) k t at → ⊥) }
    {
        let Some(version) = self.events().numbered_at(at) else {
            return None;
        };
        if !self.has_committed(version.txn) {
            return None;
        }
        let Some(last) = self.last_place(version.txn, Some(version.key)) else {
            return None;
        };
        if last != at {
            return None;
        }
        Some(version)
    }

    /// Returns whether the entry, which was written, is its transaction's last write of the key.
    pub fn is_last(&self, seen: &Seen) -> bool
        requires there { has_seen (events_in self.now) seen.now ≡ true }
        requires written { list_any (entry_eq (seen_entry (events_in self.now) seen.now)) (filter_map written (indexed self.now)) ≡ true }
        ensures { let o = seen_entry (events_in self.now) seen.now in
            result ≡ is_entry (last_write o.version.txn o.version.key (indexed self.now)) o }
    {
        !self.tables.was_replaced(seen.version())
    }

    /// Returns how the transactions have ended.
    pub fn into_ended(self) -> TxnTable<Ended>
        ensures { KnowsCommitted result (indexed self.entry) }
    {
        self.tables.ended
    }
}

/// Makes the set of the transactions.
fn set_of(alloc: Global, txns: &[Txn]) -> Result<BTreeSet<Txn>, AllocError>
    ensures { IfOk result (λ s. Holds s txns.now) }
{
    let mut set = BTreeSet::new(alloc);
    for txn in txns {
        set.insert(*txn)?;
    }
    Ok(set)
}
