//! Views.

ghost use Rattle.std.specs.Prelude.{◌≡◌, ℕ, suc, List, [], ◌+◌, ◌<◌, ◌≤◌, true, map, option_map, OnOk, OnErr, IfOk, is_some};
ghost use Rattle.adya_keys.specs.Meaning.Keys.{key_le};
ghost use Rattle.adya_values.specs.Meaning.Histories.{Entry as PlainEntry};
ghost use Rattle.adya_values.specs.Mirror.Events.{content_of, entry_of};
ghost use Rattle.adya_values.specs.Meaning.Events.{listed};
ghost use Rattle.ssi_versions.specs.Clauses.Conditions.{AreApart};
ghost use Rattle.ssi_versions.specs.Mirror.{write_of};
ghost use Rattle.ssi_snapshot.specs.Clauses.Writes.{mod_of, next_mod, next_write, put_write};
ghost use Rattle.ssi_snapshot.specs.Clauses.Listings.{keys, IsListing, up_to};
ghost use Rattle.ssi_snapshot.specs.Machinery.Stored.{is_keyed, all_writes};

use crate::limit::keep_first;
use crate::merge::{all_values, put_held, put_own};
use crate::writes::Writes;
use adya_values::{Content, Entry, Key, Mod, Txn, Version};
use ssi_versions::Chains;
use std::alloc::{AllocError, Global};
use std::collections::BTreeMap;

/// What a transaction sees: its snapshot, which is the stamp of the last commit before it began, and its own writes.
///
/// Of each key the last write is kept, in the order of the first writes of the keys.
#[derive(Drop)]
pub struct View {
    alloc: Global,
    txn: Txn,
    snapshot: u64,
    count: u16,
    writes: Writes,
    ghost keyed: { is_keyed writes ≡ true },
    ghost counted: { (key : List ℕ) → mod_of (listed key (map write_of (all_writes writes))) ≤ count },
}

impl View {
    ghost use Rattle.ssi_snapshot.specs.Mirror.{txn_of, snapshot_of, count_of, written, own, sees, sees_between, IsAsBefore};

    /// Makes the view of a transaction that has written nothing, with this snapshot. Takes no memory.
    pub fn new(alloc: Global, txn: Txn, snapshot: u64) -> Self
        ensures txn { txn_of result ≡ txn }
        ensures snapshot { snapshot_of result ≡ snapshot }
        ensures count { count_of result ≡ 0 }
        ensures written { written result ≡ [] }
    {
        View {
            alloc,
            txn,
            snapshot,
            count: 0,
            writes: Writes::Nothing,
        }
    }

    /// Returns the transaction.
    pub fn txn(&self) -> Txn
        ensures { result ≡ txn_of self.now }
    {
        self.txn
    }

    /// Returns the snapshot: the stamp of the last commit before the transaction began.
    pub fn snapshot(&self) -> u64
        ensures { result ≡ snapshot_of self.now }
    {
        self.snapshot
    }

    /// Returns how often the transaction has written.
    pub fn count(&self) -> u16
        ensures { result ≡ count_of self.now }
    {
        self.count
    }

    /// Writes the key; dead content deletes it. The transaction may have written at most 65,534 times before.
    ///
    /// Returns the number of the write among the transaction's writes of the key, counted from 1. Returns an error if
    /// memory runs out; the view is then as before.
    pub fn put(&mut self, key: Key, content: Content) -> Result<Mod, AllocError>
        requires { count_of self.old < 65535 }
        ensures m { IfOk result (λ m. m ≡ next_mod key (written self.old)) }
        ensures written { OnOk result (written self.new
            ≡ put_write (next_write (txn_of self.old) key (content_of content) (written self.old)) (written self.old)) }
        ensures count { OnOk result (count_of self.new ≡ suc (count_of self.old)) }
        ensures same { (txn_of self.new ≡ txn_of self.old) × (snapshot_of self.new ≡ snapshot_of self.old) }
        ensures err { OnErr result (IsAsBefore self.old self.new) }
    {
        let m = self.next_mod(key);
        let version = Version {
            key,
            txn: self.txn,
            m,
        };
        self.writes.put(self.alloc, &(version, content))?;
        self.count += 1;
        Ok(m)
    }

    /// Returns the version of the key that the transaction sees: its own last write of the key, or else the newest one at
    /// its snapshot. Either may be dead. Returns none if there is neither. Takes no memory.
    pub fn get<C: Chains>(&self, chains: &C, key: Key) -> Option<Entry>
        ensures { option_map entry_of result ≡ sees key self.now (C.held chains.now) }
    {
        if let Some(write) = self.writes.get(key) {
            return Some(write);
        }
        let held = chains.at(key, self.snapshot)?;
        Some(Entry {
            version: held.version,
            content: held.content,
        })
    }

    /// Returns by rising key what the transaction sees of each key from `low` to `high`, both included. A dead version is
    /// listed, and a key of which the transaction sees no version is left out. `low` may not be above `high`.
    ///
    /// Returns an error if memory runs out.
    pub fn scan<C: Chains>(&self, chains: &C, low: Key, high: Key) -> Result<Vec<Entry>, AllocError>
        requires { key_le low high ≡ true }
        ensures { IfOk result (λ v. IsListing (sees_between low high self.now (C.held chains.now)) (map entry_of v.items)) }
    {
        let held = chains.range_at(low, high, self.snapshot)?;
        let mut seen = BTreeMap::new(self.alloc);
        put_held(&mut seen, held.as_slice())?;
        put_own(&mut seen, self.writes(), low, high)?;
        let entries = all_values(self.alloc, &seen)?;
        Ok(entries)
    }

    /// Returns what [`View::scan`] lists, up to the `n`th visible entry and with it; all of it if fewer are visible. `n`
    /// is at least 1.
    ///
    /// Returns an error if memory runs out.
    pub fn scan_first<C: Chains>(
        &self,
        chains: &C,
        low: Key,
        high: Key,
        n: u16,
    ) -> Result<Vec<Entry>, AllocError>
        requires range { key_le low high ≡ true }
        requires some { 0 < n }
        ensures { IfOk result (λ v. (all : List PlainEntry)
            × IsListing (sees_between low high self.now (C.held chains.now)) all
            × (map entry_of v.items ≡ up_to n all)) }
    {
        let mut entries = self.scan(chains, low, high)?;
        keep_first(&mut entries, n);
        Ok(entries)
    }

    /// Returns whether the transaction has written the key. Takes no memory.
    pub fn owns(&self, key: Key) -> bool
        ensures { result ≡ is_some (own key self.now) }
    {
        self.writes.get(key).is_some()
    }

    /// Returns the transaction's last write of each key, in the order of its first writes of the keys. Takes no memory.
    pub fn writes(&self) -> &[(Version, Content)]
        ensures all { map write_of result.now ≡ written self.now }
        ensures apart { AreApart (written self.now) }
    {
        self.writes.as_slice()
    }

    /// Returns the keys that the transaction has written, in the order of its first writes of them. Takes no memory.
    pub fn keys(&self) -> &[Key]
        ensures { result.now ≡ keys (written self.now) }
    {
        self.writes.keys()
    }

    /// Returns the number of the transaction's next write of the key.
    fn next_mod(&self, key: Key) -> Mod
        requires { count_of self.now < 65535 }
        ensures m { result ≡ next_mod key (written self.now) }
        ensures within { result ≤ count_of self.now + 1 }
    {
        match self.writes.get(key) {
            Some(write) => Mod::new(u64::from(write.version.m.get()) + 1).unwrap(),
            None => Mod::new(1).unwrap(),
        }
    }
}
