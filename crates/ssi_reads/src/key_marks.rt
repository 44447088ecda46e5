//! Marks of single keys, in an index.

ghost use Rattle.std.specs.Prelude.{◌≡◌, ◌≢◌, ◌&&◌, ◌||◌, ℕ, List, false, OnOk, OnErr};
ghost use Rattle.std.specs.BTreeSet.{contains};
ghost use Rattle.std.specs.Ordering.{nat_cmp, is_eq};
ghost use Rattle.std.specs.Cmp.Lexicographic.{slice_cmp};
ghost use Rattle.ssi_reads.specs.Clauses.Marks.{with_mark, without, IsSame, IsEmpty};
ghost use Rattle.ssi_reads.specs.Machinery.Indexed.{indexed, listed, key_marked};

use adya_values::{Key, Txn};
use std::alloc::{AllocError, Global};
use std::collections::{BTreeMap, BTreeSet};

/// The transactions of each marked key, and the keys of each transaction. A transaction has a mark over a key if both
/// maps say so: then no refusal between the two leaves half a mark, and to drop the keys of a transaction unmarks them.
#[derive(Drop)]
pub(crate) struct KeyMarks {
    alloc: Global,
    txns: BTreeMap<Key, BTreeSet<Txn>>,
    keys: BTreeMap<Txn, BTreeSet<Key>>,
}

impl KeyMarks {
    pub(crate) fn new(alloc: Global) -> KeyMarks
        ensures { IsEmpty (key_marked result) }
    {
        KeyMarks {
            alloc,
            txns: BTreeMap::new(alloc),
            keys: BTreeMap::new(alloc),
        }
    }

    /// Adds a mark, in time logarithmic in the number of marks.
    pub(crate) fn mark(&mut self, txn: Txn, key: Key) -> Result<(), AllocError>
        ensures marks { OnOk result (IsSame (key_marked self.new) (with_mark txn key key (key_marked self.old))) }
        ensures refused { OnErr result (IsSame (key_marked self.new) (key_marked self.old)) }
    {
        add_key(self.alloc, &mut self.keys, txn, key)?;
        add_txn(self.alloc, &mut self.txns, key, txn)
    }

    /// Adds the transactions with a mark of the key.
    pub(crate) fn add_readers(&self, found: &mut BTreeSet<Txn>, key: Key) -> Result<(), AllocError>
        ensures { OnOk result ((u : ℕ) → contains nat_cmp found.new u ≡ (key_marked self.now u key || contains nat_cmp found.old u)) }
    {
        let Some(set) = self.txns.get(&key) else {
            return Ok(());
        };
        add_listed(found, &self.keys, set, key)
    }

    /// Removes the marks of the transaction, in time logarithmic in the number of marks for each of them.
    pub(crate) fn forget(&mut self, txn: Txn)
        ensures { IsSame (key_marked self.new) (without txn (key_marked self.old)) }
    {
        let Some(set) = self.keys.remove(&txn) else {
            return;
        };
        remove_all(&mut self.txns, &set, txn);
    }
}

fn add_txn(
    alloc: Global,
    txns: &mut BTreeMap<Key, BTreeSet<Txn>>,
    key: Key,
    txn: Txn,
) -> Result<(), AllocError>
    ensures added { OnOk result ((k : List ℕ) (u : ℕ) → indexed txns.new k u ≡ ((is_eq (slice_cmp nat_cmp key k) && is_eq (nat_cmp txn u)) || indexed txns.old k u)) }
    ensures refused { OnErr result ((k : List ℕ) (u : ℕ) → indexed txns.new k u ≡ indexed txns.old k u) }
    ensures absent { OnErr result (indexed txns.old key txn ≡ false) }
{
    if let Some(set) = txns.get_mut(&key) {
        set.insert(txn)?;
        return Ok(());
    }
    let mut set = BTreeSet::new(alloc);
    set.insert(txn)?;
    txns.insert(key, set)?;
    Ok(())
}

fn add_key(
    alloc: Global,
    keys: &mut BTreeMap<Txn, BTreeSet<Key>>,
    txn: Txn,
    key: Key,
) -> Result<(), AllocError>
    ensures added { OnOk result ((u : ℕ) (k : List ℕ) → listed keys.new u k ≡ ((is_eq (nat_cmp txn u) && is_eq (slice_cmp nat_cmp key k)) || listed keys.old u k)) }
    ensures refused { OnErr result ((u : ℕ) (k : List ℕ) → listed keys.new u k ≡ listed keys.old u k) }
{
    if let Some(set) = keys.get_mut(&txn) {
        set.insert(key)?;
        return Ok(());
    }
    let mut set = BTreeSet::new(alloc);
    set.insert(key)?;
    keys.insert(txn, set)?;
    Ok(())
}

fn has_key(keys: &BTreeMap<Txn, BTreeSet<Key>>, txn: Txn, key: Key) -> bool
    ensures { result ≡ listed keys.now txn key }
{
    match keys.get(&txn) {
        None => false,
        Some(set) => set.contains(&key),
    }
}

/// Adds those of the set under which the key stands.
fn add_listed(
    found: &mut BTreeSet<Txn>,
    keys: &BTreeMap<Txn, BTreeSet<Key>>,
    set: &BTreeSet<Txn>,
    key: Key,
) -> Result<(), AllocError>
    ensures { OnOk result ((u : ℕ) → contains nat_cmp found.new u ≡ ((contains nat_cmp set.now u && listed keys.now u key) || contains nat_cmp found.old u)) }
{
    for txn in set {
        if has_key(keys, *txn, key) {
            found.insert(*txn)?;
        }
    }
    Ok(())
}

/// Removes the transaction from the key's set, and the set if it becomes empty. Other transactions stay.
fn remove_txn(txns: &mut BTreeMap<Key, BTreeSet<Txn>>, key: Key, txn: Txn)
    ensures { (k : List ℕ) (u : ℕ) → u ≢ txn → indexed txns.new k u ≡ indexed txns.old k u }
{
    let Some(set) = txns.get_mut(&key) else {
        return;
    };
    set.remove(&txn);
    if set.is_empty() {
        txns.remove(&key);
    }
}

fn remove_all(txns: &mut BTreeMap<Key, BTreeSet<Txn>>, keys: &BTreeSet<Key>, txn: Txn)
    ensures { (k : List ℕ) (u : ℕ) → u ≢ txn → indexed txns.new k u ≡ indexed txns.old k u }
{
    for key in keys {
        remove_txn(txns, *key, txn);
    }
}
