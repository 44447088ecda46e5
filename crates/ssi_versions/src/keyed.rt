//! Versions in chains by key: the fast way to keep them.

ghost use Rattle.std.specs.Prelude.{◌≡◌, [], ◌∷◌, ◌++◌, ◌≤◌, ◌<◌, ◌+◌, ◌^◌, List, ℕ, true, false, if◌then◌else◌, ◌==◌, length, take, drop, map, option_map, OnOk, OnErr, IfOk};
ghost use Rattle.std.specs.List.{All};
ghost use Rattle.std.specs.BTreeMap.{IsOrdered, values};
ghost use Rattle.std.specs.BTreeMap.Range.{entries_between};
ghost use Rattle.std.specs.declared.ops.Bound.TheVariants.{Included};
ghost use Rattle.std.specs.Ordering.{nat_cmp};
ghost use Rattle.std.specs.Cmp.Lexicographic.{slice_cmp};
ghost use Rattle.adya_keys.specs.Meaning.Keys.{key_eq, key_le};
ghost use Rattle.ssi_versions.specs.Clauses.ByStamp.{newest, newest_within, IsByStamp};
ghost use Rattle.ssi_versions.specs.Clauses.Conditions.{AreApart};
ghost use Rattle.ssi_versions.specs.Mirror.{held_of, write_of, chain_of};
ghost use Rattle.ssi_versions.specs.Machinery.Plain.{as_held};
ghost use Rattle.ssi_versions.specs.Computing.Kept.{is_kept_before, next_stamp};
ghost use Rattle.ssi_versions.specs.Machinery.Keyed.{versions, placed, AreByStamp, kept_places, held_at, held_in, is_owned, filled_count, seen_between, seen_in, StandByStamp, kept_vec, HasRoomAt};

use crate::between::{Snapshots, looked_through};
use crate::place::Place;
use crate::{Chains, Held};
use adya_values::{Content, Key, Version};
use smallvec::SmallVec;
use std::alloc::{AllocError, Global};
use std::collections::BTreeMap;

/// An ordered map from each key to the chain of its held versions, the newest last.
///
/// For n the number of keys and held versions, `at` and `last` take O(log n), `range_at` takes that and what it passes,
/// `all_at` takes O(n log n), and `held` and `keys` take constant time. `collect` passes each held version once. It searches the snapshots for it
/// in O(log s), for s the number of snapshots, if these stand in rising order, else in O(s).
#[derive(Drop)]
pub struct KeyChains {
    alloc: Global,
    chains: BTreeMap<Key, SmallVec<Place, 4>>,
    total: u64,
    filled: u64,
    ghost owned: { is_owned chains.entries ≡ true },
    ghost rise: { (key : List ℕ) → IsByStamp (chain_of key (versions chains.entries)) },
    ghost counted: { total ≡ length (versions chains.entries) },
    ghost named: { filled ≡ filled_count chains.entries },
}

impl KeyChains {
    /// Returns a store that holds no version. Takes no memory.
    pub fn new(alloc: Global) -> Self
        ensures { ⟦<KeyChains as Chains>⟧.held result ≡ [] }
    {
        KeyChains {
            alloc,
            chains: BTreeMap::new(alloc),
            total: 0,
            filled: 0,
        }
    }
}

impl Chains for KeyChains {
    ghost held = { λ c. versions c.chains.entries };

    fn install(&mut self, stamp: u64, writes: &[(Version, Content)]) -> Result<(), AllocError> {
        let Some(total) = self.total.checked_add(writes.len() as u64) else {
            return Err(AllocError);
        };
        let opened = add_all(self.alloc, &mut self.chains, stamp, writes)?;
        self.total = total;
        self.filled += opened;
        Ok(())
    }

    fn at(&self, key: Key, stamp: u64) -> Option<Held> {
        let _ordered = self.chains.len();
        match self.chains.get(&key) {
            Some(chain) => newest_at(chain.as_slice(), stamp),
            None => None,
        }
    }

    fn range_at(&self, low: Key, high: Key, stamp: u64) -> Result<Vec<Held>, AllocError> {
        let _ordered = self.chains.len();
        let found = seen_between(self.alloc, &self.chains, low, high, stamp)?;
        Ok(found)
    }

    fn all_at(&self, stamp: u64) -> Result<Vec<Held>, AllocError> {
        let _ordered = self.chains.len();
        let found = seen_in_all(self.alloc, &self.chains, stamp)?;
        Ok(found)
    }

    fn last(&self, key: Key) -> Option<Held> {
        let _ordered = self.chains.len();
        match self.chains.get(&key) {
            Some(chain) => newest(chain.as_slice()),
            None => None,
        }
    }

    fn collect(&mut self, stamps: &[u64]) -> u64 {
        let _total = self.total;
        let told = looked_through(stamps);
        compact_all(&mut self.chains, &told);
        self.total = count(&self.chains);
        self.total
    }

    fn held(&self) -> u64 {
        self.total
    }

    fn keys(&self) -> u64 {
        let _ordered = self.chains.len();
        self.filled
    }

    ghost by_stamp = { λ chains key. chains.rise key };
}

/// Puts these writes at the ends of their chains, and tells how many of these had none. If memory is refused, what is held
/// stays.
fn add_all(
    alloc: Global,
    chains: &mut BTreeMap<Key, SmallVec<Place, 4>>,
    stamp: u64,
    writes: &[(Version, Content)],
) -> Result<u64, AllocError>
    requires apart { AreApart (map write_of writes.now) }
    requires owned { is_owned chains.old.entries ≡ true }
    ensures added { OnOk result ((q : List ℕ) → held_at q chains.new.entries ≡ held_at q chains.old.entries ++ chain_of q (map held_of (map (as_held stamp) writes.now))) }
    ensures owned { is_owned chains.new.entries ≡ true }
    ensures count { OnOk result (length (versions chains.new.entries) ≡ length (versions chains.old.entries) + length writes.now) }
    ensures filled { IfOk result (λ opened. filled_count chains.new.entries ≡ filled_count chains.old.entries + opened) }
    ensures fits { OnOk result (filled_count chains.new.entries < 2 ^ 63) }
    ensures refused { OnErr result (versions chains.new.entries ≡ versions chains.old.entries) }
    ensures refused_filled { OnErr result (filled_count chains.new.entries ≡ filled_count chains.old.entries) }
    ensures ordered { OnOk result (IsOrdered (slice_cmp nat_cmp) chains.old × IsOrdered (slice_cmp nat_cmp) chains.new) }
{
    let _before = chains.len();
    // most transactions write one key, whose chain is then found once
    if let [write] = writes {
        let opened = add(alloc, chains, stamp, write)?;
        let _after = chains.len();
        return Ok(u64::from(opened));
    }
    make_room_for(alloc, chains, writes)?;
    Ok(put_all(chains, stamp, writes))
}

/// Puts one version at the end of its key's chain, and tells whether that had none. If memory is refused, what is held stays.
fn add(
    alloc: Global,
    chains: &mut BTreeMap<Key, SmallVec<Place, 4>>,
    stamp: u64,
    write: &(Version, Content),
) -> Result<bool, AllocError>
    ensures added { OnOk result ((q : List ℕ) → held_at q chains.new.entries ≡ held_at q chains.old.entries ++ chain_of q (held_of (as_held stamp write.now) ∷ [])) }
    ensures owned { is_owned chains.old.entries ≡ true → is_owned chains.new.entries ≡ true }
    ensures count { OnOk result (length (versions chains.new.entries) ≡ length (versions chains.old.entries) + 1) }
    ensures filled { IfOk result (λ opened. filled_count chains.new.entries ≡ filled_count chains.old.entries + (if opened then 1 else 0)) }
    ensures refused { OnErr result (versions chains.new.entries ≡ versions chains.old.entries) }
    ensures refused_filled { OnErr result (filled_count chains.new.entries ≡ filled_count chains.old.entries) }
{
    if let Some(chain) = chains.get_mut(&write.0.key) {
        return push(chain, stamped(stamp, write));
    }
    add_first(alloc, chains, stamp, write)
}

/// Does the same, whether the key has a chain or not, in two steps: makes room, and puts the version there.
fn add_first(
    alloc: Global,
    chains: &mut BTreeMap<Key, SmallVec<Place, 4>>,
    stamp: u64,
    write: &(Version, Content),
) -> Result<bool, AllocError>
    ensures added { OnOk result ((q : List ℕ) → held_at q chains.new.entries ≡ held_at q chains.old.entries ++ chain_of q (held_of (as_held stamp write.now) ∷ [])) }
    ensures owned { is_owned chains.old.entries ≡ true → is_owned chains.new.entries ≡ true }
    ensures count { OnOk result (length (versions chains.new.entries) ≡ length (versions chains.old.entries) + 1) }
    ensures filled { IfOk result (λ opened. filled_count chains.new.entries ≡ filled_count chains.old.entries + (if opened then 1 else 0)) }
    ensures refused { OnErr result (versions chains.new.entries ≡ versions chains.old.entries) }
    ensures refused_filled { OnErr result (filled_count chains.new.entries ≡ filled_count chains.old.entries) }
{
    make_room(alloc, chains, write.0.key)?;
    Ok(put(chains, stamped(stamp, write)))
}

/// The version that is written, with its stamp.
fn stamped(stamp: u64, write: &(Version, Content)) -> Held
    ensures { result ≡ as_held stamp write.now }
{
    Held {
        version: write.0,
        content: write.1,
        stamp,
    }
}

/// Puts the version at the end of the chain, and tells whether that was empty. If memory is refused, the chain keeps its
/// versions.
fn push(chain: &mut SmallVec<Place, 4>, held: Held) -> Result<bool, AllocError>
    ensures ok { OnOk result (chain.new.items ≡ chain.old.items ++ record { held = held } ∷ []) }
    ensures opened { IfOk result (λ opened. opened ≡ (length chain.old.items == 0)) }
    ensures err { OnErr result (chain.new.items ≡ chain.old.items) }
{
    let opened = chain.is_empty();
    chain.reserve(1)?;
    chain.push_reserved(Place { held });
    Ok(opened)
}

/// Makes room for one more version of the key. What is held stays.
fn make_room(
    alloc: Global,
    chains: &mut BTreeMap<Key, SmallVec<Place, 4>>,
    key: Key,
) -> Result<(), AllocError>
    ensures same { (q : List ℕ) → held_at q chains.new.entries ≡ held_at q chains.old.entries }
    ensures room { OnOk result (HasRoomAt chains.new.entries key) }
    ensures keeps { (q : List ℕ) → HasRoomAt chains.old.entries q → HasRoomAt chains.new.entries q }
    ensures versions { versions chains.new.entries ≡ versions chains.old.entries }
    ensures owned { is_owned chains.new.entries ≡ is_owned chains.old.entries }
    ensures filled { filled_count chains.new.entries ≡ filled_count chains.old.entries }
{
    if let Some(chain) = chains.get_mut(&key) {
        return chain.reserve(1);
    }
    chains.insert(key, SmallVec::new(alloc))?;
    Ok(())
}

/// Puts one version at the end of its key's chain, and tells whether that had none.
fn put(chains: &mut BTreeMap<Key, SmallVec<Place, 4>>, held: Held) -> bool
    requires { HasRoomAt chains.old.entries held.version.key }
    ensures added { (q : List ℕ) → held_at q chains.new.entries ≡ held_at q chains.old.entries ++ chain_of q (held_of held ∷ []) }
    ensures keeps { (q : List ℕ) → key_eq held.version.key q ≡ false → HasRoomAt chains.old.entries q → HasRoomAt chains.new.entries q }
    ensures owned { is_owned chains.old.entries ≡ true → is_owned chains.new.entries ≡ true }
    ensures count { length (versions chains.new.entries) ≡ length (versions chains.old.entries) + 1 }
    ensures filled { filled_count chains.new.entries ≡ filled_count chains.old.entries + (if result then 1 else 0) }
{
    if let Some(chain) = chains.get_mut(&held.version.key) {
        let opened = chain.is_empty();
        chain.push_reserved(Place { held });
        return opened;
    }
    false
}

/// Makes room for one more version of each written key. What is held stays, also on refusal.
fn make_room_for(
    alloc: Global,
    chains: &mut BTreeMap<Key, SmallVec<Place, 4>>,
    writes: &[(Version, Content)],
) -> Result<(), AllocError>
    ensures room { OnOk result (All (λ w. HasRoomAt chains.new.entries w.0.key) writes.now) }
    ensures same { (q : List ℕ) → held_at q chains.new.entries ≡ held_at q chains.old.entries }
    ensures versions { versions chains.new.entries ≡ versions chains.old.entries }
    ensures owned { is_owned chains.new.entries ≡ is_owned chains.old.entries }
    ensures filled { filled_count chains.new.entries ≡ filled_count chains.old.entries }
{
    'writes: for write in writes {
        make_room(alloc, chains, write.0.key)?;
    }
    Ok(())
}

/// Puts these writes at the ends of their chains, and tells how many of these had none.
fn put_all(
    chains: &mut BTreeMap<Key, SmallVec<Place, 4>>,
    stamp: u64,
    writes: &[(Version, Content)],
) -> u64
    requires room { All (λ w. HasRoomAt chains.old.entries w.0.key) writes.now }
    requires apart { AreApart (map write_of writes.now) }
    requires owned { is_owned chains.old.entries ≡ true }
    ensures added { (q : List ℕ) → held_at q chains.new.entries ≡ held_at q chains.old.entries ++ chain_of q (map held_of (map (as_held stamp) writes.now)) }
    ensures owned { is_owned chains.new.entries ≡ true }
    ensures count { length (versions chains.new.entries) ≡ length (versions chains.old.entries) + length writes.now }
    ensures filled { filled_count chains.new.entries ≡ filled_count chains.old.entries + result }
    ensures fits { filled_count chains.new.entries < 2 ^ 63 }
    ensures ordered { IsOrdered (slice_cmp nat_cmp) chains.old × IsOrdered (slice_cmp nat_cmp) chains.new }
{
    let _before = chains.len();
    let mut opened = 0;
    'writes: for write in writes {
        if put(chains, stamped(stamp, write)) {
            opened += 1;
        }
    }
    let _after = chains.len();
    opened
}

/// Returns the newest version at or below the stamp: the last one, or else by binary search.
fn newest_at(chain: &[Place], stamp: u64) -> Option<Held>
    requires { IsByStamp (map placed chain.now) }
    ensures { option_map held_of result ≡ newest_within stamp (map placed chain.now) }
{
    // mostly it is the newest one
    if let Some(held) = newest(chain) {
        if held.stamp <= stamp {
            return Some(held);
        }
    }
    sought_at(chain, stamp)
}

fn sought_at(chain: &[Place], stamp: u64) -> Option<Held>
    requires { IsByStamp (map placed chain.now) }
    ensures { option_map held_of result ≡ newest_within stamp (map placed chain.now) }
{
    let n = chain.partition_point(|place| place.held.stamp <= stamp);
    if n == 0 {
        return None;
    }
    Some(chain[n - 1].held)
}

/// The newest version.
fn newest(chain: &[Place]) -> Option<Held>
    ensures { option_map held_of result ≡ newest (map placed chain.now) }
{
    let n = chain.len();
    if n == 0 {
        return None;
    }
    Some(chain[n - 1].held)
}

/// Of each key from `low` to `high` the newest version at or below the stamp.
fn seen_between(
    alloc: Global,
    chains: &BTreeMap<Key, SmallVec<Place, 4>>,
    low: Key,
    high: Key,
    stamp: u64,
) -> Result<Vec<Held>, AllocError>
    requires ordered { key_le low high ≡ true }
    requires rising { AreByStamp (entries_between (slice_cmp nat_cmp) (Included low) (Included high) chains.now.entries) }
    ensures { IfOk result (λ v. map held_of v.items ≡ seen_between low high stamp chains.now.entries) }
{
    let mut found = Vec::new(alloc);
    'chains: for (_, chain) in chains.range(low..=high) {
        if let Some(held) = newest_at(chain.as_slice(), stamp) {
            found.push(held)?;
        }
    }
    Ok(found)
}

/// Of each key the newest version at or below the stamp.
fn seen_in_all(
    alloc: Global,
    chains: &BTreeMap<Key, SmallVec<Place, 4>>,
    stamp: u64,
) -> Result<Vec<Held>, AllocError>
    requires { StandByStamp (values chains.now) }
    ensures { IfOk result (λ v. map held_of v.items ≡ seen_in stamp (values chains.now)) }
{
    let mut found = Vec::new(alloc);
    'chains: for chain in chains.values() {
        if let Some(held) = newest_at(chain.as_slice(), stamp) {
            found.push(held)?;
        }
    }
    Ok(found)
}

/// The stamp of the version at the place.
fn next_stamp(chain: &[Place], i: usize) -> Option<u64>
    ensures { result ≡ next_stamp (map placed (drop i chain.now)) }
{
    match chain.get(i) {
        Some(next) => Some(next.held.stamp),
        None => None,
    }
}

fn is_kept(snapshots: &Snapshots<'_>, stamp: u64, next: Option<u64>) -> bool
    ensures { result ≡ is_kept_before snapshots.now.stamps.now stamp next }
{
    match next {
        Some(next) => snapshots.is_between(stamp, next),
        None => true,
    }
}

/// Moves what is kept to the front, and tells how much that is.
fn compact(chain: &mut [Place], snapshots: &Snapshots<'_>) -> usize
    ensures kept { take result chain.new ≡ kept_places snapshots.now.stamps.now chain.old }
    ensures len { length chain.new ≡ length chain.old }
    ensures within { result ≤ length chain.old }
{
    let mut to = 0;
    'chain: for i in 0..chain.len() {
        let place = chain[i];
        let next = next_stamp(chain, i + 1);
        if is_kept(snapshots, place.held.stamp, next) {
            chain[to] = place;
            to += 1;
        }
    }
    to
}

/// Drops what is neither the last version of the chain nor seen by a snapshot.
fn compact_chain(chain: &mut SmallVec<Place, 4>, snapshots: &Snapshots<'_>)
    ensures { chain.new ≡ kept_vec snapshots.now.stamps.now chain.old }
{
    let to = compact(chain.as_mut_slice(), snapshots);
    chain.truncate(to);
}

/// Drops from each chain what is neither its last version nor seen by a snapshot.
fn compact_all(chains: &mut BTreeMap<Key, SmallVec<Place, 4>>, snapshots: &Snapshots<'_>)
    ensures kept { chains.new.entries ≡ map (λ e. (e.0, kept_vec snapshots.now.stamps.now e.1)) chains.old.entries }
    ensures ordered { IsOrdered (slice_cmp nat_cmp) chains.old × IsOrdered (slice_cmp nat_cmp) chains.new }
{
    chains.retain(|_, chain| {
        compact_chain(chain, snapshots);
        true
    });
}

/// How many versions there are.
fn count(chains: &BTreeMap<Key, SmallVec<Place, 4>>) -> u64
    requires { length (versions chains.now.entries) < 2 ^ 64 }
    ensures { result ≡ length (versions chains.now.entries) }
{
    let mut total = 0;
    'chains: for chain in chains.values() {
        total += chain.len() as u64;
    }
    total
}
