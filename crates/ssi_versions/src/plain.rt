//! The plain way to keep versions: a list of all installs.
//!
//! A lookup walks over the list, and a collection compares each version with all later ones. [`crate::KeyChains`] is
//! the fast way.

ghost use Rattle.std.specs.Prelude.{◌≡◌, ◌++◌, ◌&&◌, not, ℕ, List, [], None, if◌then◌else◌, true, length, map, drop, nat_le, option_map, slice_get, OnOk, OnErr, IfOk, IfSome};
ghost use Rattle.std.specs.List.{list_any, list_all};
ghost use Rattle.std.specs.Map.{lookup};
ghost use Rattle.std.specs.BTreeMap.{is_at, values, IsOrdered};
ghost use Rattle.std.specs.Ordering.{nat_cmp};
ghost use Rattle.std.specs.Cmp.Lexicographic.{slice_cmp};
ghost use Rattle.adya_keys.specs.Meaning.Keys.{key_le, keys_rise, lies_in};
ghost use Rattle.ssi_versions.specs.Clauses.ByStamp.{newest, newest_within, IsByStamp};
ghost use Rattle.ssi_versions.specs.Mirror.{held_of, write_of, chain_of, found_in, key_in, key_total, is_of};
ghost use Rattle.ssi_versions.specs.Computing.Kept.{is_kept_before, next_stamp, kept_in};
ghost use Rattle.ssi_versions.specs.Machinery.Plain.{as_held};

use crate::between::is_between;
use crate::{Chains, Held};
use adya_values::{Content, Key, Version};
use std::alloc::{AllocError, Global};
use std::collections::BTreeMap;

/// A list of all held versions in the order of their installs.
#[derive(Drop)]
pub struct PlainChains {
    alloc: Global,
    items: Vec<Held>,
    ghost rise: { (key : List ℕ) → IsByStamp (chain_of key (map held_of items.items)) },
}

impl PlainChains {
    /// Returns a store that holds no version. Takes no memory.
    pub fn new(alloc: Global) -> Self
        ensures { ⟦<PlainChains as Chains>⟧.held result ≡ [] }
    {
        PlainChains {
            alloc,
            items: Vec::new(alloc),
        }
    }
}

impl Chains for PlainChains {
    ghost held = { λ c. map held_of c.items.items };

    fn install(&mut self, stamp: u64, writes: &[(Version, Content)]) -> Result<(), AllocError> {
        append(&mut self.items, stamp, writes)?;
        Ok(())
    }

    fn at(&self, key: Key, stamp: u64) -> Option<Held> {
        newest_at(&self.items, key, stamp)
    }

    fn range_at(&self, low: Key, high: Key, stamp: u64) -> Result<Vec<Held>, AllocError> {
        let seen = seen_in(self.alloc, &self.items, low, high, stamp)?;
        let found = listed(self.alloc, &seen)?;
        Ok(found)
    }

    fn all_at(&self, stamp: u64) -> Result<Vec<Held>, AllocError> {
        let seen = seen_in_all(self.alloc, &self.items, stamp)?;
        let found = listed(self.alloc, &seen)?;
        Ok(found)
    }

    fn last(&self, key: Key) -> Option<Held> {
        newest(&self.items, key)
    }

    fn collect(&mut self, snapshots: &[u64]) -> u64 {
        compact(&mut self.items, snapshots);
        self.items.len() as u64
    }

    fn held(&self) -> u64 {
        self.items.len() as u64
    }

    fn keys(&self) -> u64 {
        key_total(&self.items)
    }

    ghost by_stamp = { λ chains key. chains.rise key };
}

/// Puts these writes at the end, all or none.
fn append(
    items: &mut Vec<Held>,
    stamp: u64,
    writes: &[(Version, Content)],
) -> Result<(), AllocError>
    ensures added { OnOk result (items.new.items ≡ items.old.items ++ map (as_held stamp) writes.now) }
    ensures err { OnErr result (items.new.items ≡ items.old.items) }
{
    items.reserve(writes.len())?;
    'writes: for write in writes {
        items.push_reserved(Held {
            version: write.0,
            content: write.1,
            stamp,
        });
    }
    Ok(())
}

/// The newest version of the key at or below the stamp.
fn newest_at(items: &[Held], key: Key, stamp: u64) -> Option<Held>
    ensures { option_map held_of result ≡ newest_within stamp (chain_of key (map held_of items.now)) }
{
    let n = items.len();
    'back: for k in 0..n {
        let held = items[n - 1 - k];
        if held.version.key == key && held.stamp <= stamp {
            return Some(held);
        }
    }
    None
}

/// The newest version of the key.
fn newest(items: &[Held], key: Key) -> Option<Held>
    ensures { option_map held_of result ≡ newest (chain_of key (map held_of items.now)) }
{
    let n = items.len();
    'back: for k in 0..n {
        let held = items[n - 1 - k];
        if held.version.key == key {
            return Some(held);
        }
    }
    None
}

/// Whether the version is of the range, and at or below the stamp.
fn is_seen(held: &Held, low: Key, high: Key, stamp: u64) -> bool
    ensures { result ≡ (lies_in low high held.now.version.key && nat_le held.now.stamp stamp) }
{
    low <= held.version.key && held.version.key <= high && held.stamp <= stamp
}

/// Of each key from `low` to `high` the newest version at or below the stamp.
fn seen_in(
    alloc: Global,
    items: &[Held],
    low: Key,
    high: Key,
    stamp: u64,
) -> Result<BTreeMap<Key, Held>, AllocError>
    ensures seen { IfOk result (λ m. (key : List ℕ) → option_map held_of (lookup (is_at (slice_cmp nat_cmp key)) m.entries)
        ≡ if lies_in low high key then newest_within stamp (chain_of key (map held_of items.now)) else None) }
    ensures owned { IfOk result (λ m. list_all (λ e. is_of e.0 (held_of e.1)) m.entries ≡ true) }
{
    let mut seen = BTreeMap::new(alloc);
    'items: for held in items {
        if is_seen(held, low, high, stamp) {
            seen.insert(held.version.key, *held)?;
        }
    }
    Ok(seen)
}

/// Of each key the newest version at or below the stamp.
fn seen_in_all(alloc: Global, items: &[Held], stamp: u64) -> Result<BTreeMap<Key, Held>, AllocError>
    ensures seen { IfOk result (λ m. (key : List ℕ) → option_map held_of (lookup (is_at (slice_cmp nat_cmp key)) m.entries)
        ≡ newest_within stamp (chain_of key (map held_of items.now))) }
    ensures owned { IfOk result (λ m. list_all (λ e. is_of e.0 (held_of e.1)) m.entries ≡ true) }
{
    let mut seen = BTreeMap::new(alloc);
    'items: for held in items {
        if held.stamp <= stamp {
            seen.insert(held.version.key, *held)?;
        }
    }
    Ok(seen)
}

/// The values of the map.
fn listed(alloc: Global, seen: &BTreeMap<Key, Held>) -> Result<Vec<Held>, AllocError>
    ensures all { IfOk result (λ v. v.items ≡ values seen.now) }
    ensures ordered { IsOrdered (slice_cmp nat_cmp) seen.now }
{
    let mut found = Vec::new(alloc);
    'found: for held in seen.values() {
        found.push(*held)?;
    }
    Ok(found)
}

/// The stamp of the next version of the key.
fn next_of(key: Key, later: &[Held]) -> Option<u64>
    ensures { result ≡ next_stamp (chain_of key (map held_of later.now)) }
{
    'later: for held in later {
        if held.version.key == key {
            return Some(held.stamp);
        }
    }
    None
}

fn is_kept(snapshots: &[u64], held: &Held, later: &[Held]) -> bool
    ensures { result ≡ is_kept_before snapshots.now held.now.stamp (next_stamp (chain_of held.now.version.key (map held_of later.now))) }
{
    match next_of(held.version.key, later) {
        Some(next) => is_between(snapshots, held.stamp, next),
        None => true,
    }
}

/// Drops what is neither the last of its key nor seen by a snapshot.
fn compact(items: &mut Vec<Held>, snapshots: &[u64])
    ensures { items.new.items ≡ kept_in snapshots.now items.old.items }
{
    let mut to = 0;
    'items: for i in 0..items.len() {
        let held = items[i];
        if is_kept(snapshots, &held, &items[i + 1..]) {
            items[to] = held;
            to += 1;
        }
    }
    items.truncate(to);
}

fn has_key(later: &[Held], key: Key) -> bool
    ensures { result ≡ list_any (λ g. is_of key (held_of g)) later.now }
{
    later.iter().any(|g| g.version.key == key)
}

/// How many keys the versions are of.
fn key_total(items: &[Held]) -> u64
    ensures { result ≡ key_total (map held_of items.now) }
{
    let mut total = 0;
    let n = items.len();
    'back: for k in 0..n {
        let i = n - 1 - k;
        let held = items[i];
        if !has_key(&items[i + 1..], held.version.key) {
            total += 1;
        }
    }
    total
}
