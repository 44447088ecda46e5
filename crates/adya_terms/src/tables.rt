//! What the events so far say of transactions, of their keys and of versions.

ghost use Rattle.std.specs.Prelude.{◌≡◌, ◌<◌, ◌||◌, is_some, ◌++◌, [], ◌∷◌, List, true, Some, cond, length, option_map, slice_get, IfOk, IfSome};
ghost use Rattle.txn_table.specs.Mirror.{value_for};
ghost use Rattle.adya_values.specs.declared.event.Version.{Version};
ghost use Rattle.adya_values.specs.Meaning.Histories.{Abort, Commit, Event as EventValue};
ghost use Rattle.adya_keys.specs.Machinery.Within.{key_at};
ghost use Rattle.adya_values.specs.Mirror.Numbers.{has_seen, keys_of, seen_entry, version_in};
ghost use Rattle.adya_keys.specs.Mirror.{AreNumbered};
ghost use Rattle.adya_values.specs.Meaning.Events.{written};
ghost use Rattle.adya_values.specs.Computing.Faults.{is_next};
ghost use Rattle.adya_terms.specs.Machinery.Tables.{own, own_eq, written_at, is_at, is_there, with_replaced, Own};
ghost use Rattle.adya_terms.specs.Machinery.OwnWrites.{place_of};

use crate::own_writes::OwnWrites;
use crate::{Events, NumberedVersion, Seen, Txn};
use std::alloc::{AllocError, Global};
use std::collections::HashMap;
use txn_table::TxnTable;

/// How a transaction has ended, if it has.
#[derive(Clone, Copy)]
pub(crate) struct Ended {
    pub committed: bool,
    pub aborted: bool,
}

/// Which transactions have ended, and how; the place in the list of events at which each transaction wrote each key last; and
/// the place of each version that a later write of the same transaction replaced.
#[derive(Drop)]
pub(crate) struct Tables<'a> {
    pub ended: TxnTable<Ended>,
    pub writes: OwnWrites<'a>,
    pub replaced: HashMap<NumberedVersion, usize>,
}

impl<'a> Tables<'a> {
    ghost use Rattle.adya_terms.specs.Machinery.Telling.{keys_in, replaced_in, told, Means};

    /// Makes the tables of none of the events. Their arrays take their room now.
    pub fn new(alloc: Global, events: &'a Events) -> Result<Tables<'a>, AllocError>
        requires { AreNumbered (keys_of events.now) }
        ensures means { IfOk result (λ t. Means t []) }
        ensures events { IfOk result (λ t. t.writes.events.now ≡ events.now) }
    {
        let open = Ended {
            committed: false,
            aborted: false,
        };
        let small = array_length(events);
        let ended = TxnTable::new(alloc, small, open)?;
        let writes = OwnWrites::new(alloc, events, small)?;
        Ok(Tables {
            ended,
            writes,
            replaced: HashMap::new(alloc),
        })
    }

    /// Returns whether the transaction has committed.
    pub fn has_committed(&self, txn: Txn) -> bool
        ensures { result ≡ (value_for self.now.ended txn).committed }
    {
        self.ended.get(txn).committed
    }

    /// Returns whether the transaction has aborted.
    pub fn has_aborted(&self, txn: Txn) -> bool
        ensures { result ≡ (value_for self.now.ended txn).aborted }
    {
        self.ended.get(txn).aborted
    }

    /// Returns whether the transaction has committed or aborted.
    pub fn has_ended(&self, txn: Txn) -> bool
        ensures { result ≡ ((value_for self.now.ended txn).committed || (value_for self.now.ended txn).aborted) }
    {
        let ended = self.ended.get(txn);
        ended.committed || ended.aborted
    }

    /// Returns the version that the event at the place writes.
    pub fn version_at(&self, at: Option<usize>) -> Option<NumberedVersion>
        ensures version { option_map (version_in (keys_in self.now)) result ≡ option_map (λ w. w.version) (written_at (told self.now) at) }
        ensures there { IfSome result (λ v. v.key < length (keys_in self.now)) }
    {
        match at {
            None => None,
            Some(at) => self.writes.events.numbered_at(at),
        }
    }

    /// Returns whether the event at the place writes the entry.
    pub fn wrote(&self, at: Option<usize>, seen: &Seen) -> bool
        requires { has_seen self.now.writes.events.now seen.now ≡ true }
        ensures { result ≡ is_there (seen_entry self.now.writes.events.now seen.now) (written_at (told self.now) at) }
    {
        match at {
            None => false,
            Some(at) => self.writes.events.wrote(at, seen),
        }
    }

    /// Returns the index of the transaction's last write of the key with the number in the list of events.
    pub fn last_place(&self, txn: Txn, number: u32) -> Option<usize>
        requires { number < length (keys_in self.now) }
        ensures { result ≡ place_of self.now.writes (own txn (key_at (keys_in self.now) number)) }
    {
        self.writes.last_place(txn, number)
    }

    /// Returns whether a later write of the same transaction replaced the version.
    pub fn was_replaced(&self, version: NumberedVersion) -> bool
        requires { version.key < length (keys_in self.now) }
        ensures { result ≡ is_some (replaced_in self.now (version_in (keys_in self.now) version)) }
    {
        self.replaced.contains_key(&version)
    }

    /// Returns the place of the version if a later write of the same transaction replaced it.
    fn replaced_place(&self, version: NumberedVersion) -> Option<usize>
        requires { version.key < length (keys_in self.now) }
        ensures { result ≡ replaced_in self.now (version_in (keys_in self.now) version) }
    {
        self.replaced.get(&version).copied()
    }

    /// Returns whether the version was written with this content.
    pub fn was_written(&self, seen: &Seen) -> bool
        requires { has_seen self.now.writes.events.now seen.now ≡ true }
        ensures { result
            ≡ is_at (place_of self.now.writes) (replaced_in self.now) (told self.now) (seen_entry self.now.writes.events.now seen.now) }
    {
        self.wrote(self.last_place(seen.txn, seen.key), seen)
            || self.wrote(self.replaced_place(seen.version()), seen)
    }

    /// Records the event at the place.
    pub fn record(&mut self, at: usize) -> Result<(), AllocError>
        requires { at < length (told self.old) }
        ensures means { IfOk result
            (λ u. (before : List EventValue) (e : EventValue)
            → Means self.old before
            → slice_get (told self.old) at ≡ Some e
            → is_next before (written e) ≡ true
            → Means self.new (before ++ e ∷ [])) }
        ensures events { self.new.writes.events ≡ self.old.writes.events }
    {
        if let Some(new) = self.writes.events.numbered_at(at) {
            return self.put(at, new);
        }
        if let Some(txn) = self.writes.events.commit_at(at) {
            return self.commit(txn);
        }
        if let Some(txn) = self.writes.events.abort_at(at) {
            return self.abort(txn);
        }
        Ok(())
    }

    fn commit(&mut self, txn: Txn) -> Result<(), AllocError>
        ensures means { IfOk result (λ u. (before : List EventValue) → Means self.old before → Means self.new (before ++ Commit txn ∷ [])) }
        ensures events { self.new.writes.events ≡ self.old.writes.events }
    {
        let aborted = self.has_aborted(txn);
        self.ended.set(
            txn,
            Ended {
                committed: true,
                aborted,
            },
        )
    }

    fn abort(&mut self, txn: Txn) -> Result<(), AllocError>
        ensures means { IfOk result (λ u. (before : List EventValue) → Means self.old before → Means self.new (before ++ Abort txn ∷ [])) }
        ensures events { self.new.writes.events ≡ self.old.writes.events }
    {
        let committed = self.has_committed(txn);
        self.ended.set(
            txn,
            Ended {
                committed,
                aborted: true,
            },
        )
    }

    /// Records that the version is written at the place, and that it replaced the one before it.
    fn put(&mut self, at: usize, new: NumberedVersion) -> Result<(), AllocError>
        requires { new.key < length (keys_in self.old) }
        ensures last { let v = version_in (keys_in self.old) new in
            IfOk result (λ u. (q : Own) → place_of self.new.writes q ≡ cond (own_eq (own v.txn v.key) q) (Some at) (place_of self.old.writes q)) }
        ensures replaced { let v = version_in (keys_in self.old) new in
            let p = place_of self.old.writes (own v.txn v.key) in
            IfOk result
            (λ u. (r : Version) → replaced_in self.new r ≡ with_replaced (written_at (told self.old) p) p (replaced_in self.old) r) }
        ensures ended { IfOk result (λ u. self.new.ended ≡ self.old.ended) }
        ensures events { self.new.writes.events ≡ self.old.writes.events }
    {
        let place = self.last_place(new.txn, new.key);
        self.writes.put(new.txn, new.key, at)?;
        let Some(old) = self.version_at(place) else {
            return Ok(());
        };
        let Some(place) = place else {
            return Ok(());
        };
        self.replaced.insert(old, place)?;
        Ok(())
    }
}

/// Returns how many numbers of transactions, from 0 on, are kept in arrays: up to the largest, but no more than there are
/// events, since large numbers may be few.
fn array_length(events: &Events) -> usize {
    let mut largest = 0u32;
    for i in 0..events.len() {
        largest = largest.max(events.txn_at(i).get());
    }
    events.len().min((largest as usize).saturating_add(1))
}
