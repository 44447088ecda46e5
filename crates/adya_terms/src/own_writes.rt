//! The places of each transaction's writes.

ghost use Rattle.std.specs.Prelude.{◌≡◌, ◌<◌, ◌≤◌, ◌^◌, ◌==◌, ◌&&◌, ◌++◌, [], ◌∷◌, ℕ, suc, Some, None, List, cond, length, option_map, IfOk, OnErr};
ghost use Rattle.std.specs.Bool.{OnTrue};
ghost use Rattle.std.specs.BTreeMap.{get};
ghost use Rattle.std.specs.Ordering.{nat_cmp, is_eq};
ghost use Rattle.std.specs.Cmp.Lexicographic.{slice_cmp};
ghost use Rattle.txn_table.specs.Mirror.{value_for};
ghost use Rattle.adya_keys.specs.Machinery.Within.{key_at};
ghost use Rattle.adya_values.specs.Mirror.Numbers.{keys_of};
ghost use Rattle.adya_keys.specs.Mirror.{AreNumbered};
ghost use Rattle.adya_terms.specs.Machinery.Tables.{own, own_eq, Own};
ghost use Rattle.adya_terms.specs.Machinery.Chains.{longer, own_place, row, row_at, walk, AreFew, AreKnown, AreLinked};

use crate::{Events, Key, Txn};
use std::alloc::{AllocError, Global};
use std::collections::BTreeMap;
use txn_table::TxnTable;

/// How many writes of a transaction are chained at most.
const FEW: u32 = 16;

/// The chain of a transaction's first writes.
#[derive(Clone, Copy)]
pub(crate) struct Chain {
    /// How many writes it has.
    pub(crate) len: u32,
    /// The row of its last write, counted from 1; 0 if it has none.
    pub(crate) last: u32,
}

/// A write in a chain.
#[derive(Clone, Copy)]
pub(crate) struct Row {
    /// The place of the write in the list of events.
    pub(crate) at: u32,
    /// The row of the write before it in its chain, counted from 1; 0 if there is none.
    pub(crate) before: u32,
    /// The number of its key.
    pub(crate) key: u32,
}

/// The places in the list of events at which each transaction wrote each key last. The first writes of a transaction are
/// chained: what it wrote lies close together in most histories, so looking through a few rows costs less than a search
/// in a large table. Only the later writes of a long transaction have a table, and all writes from the first one on whose place
/// or row has a number too large for 32 bits. The table goes by the keys themselves, since a scan asks for those between two.
#[derive(Drop)]
pub(crate) struct OwnWrites<'a> {
    alloc: Global,
    pub(crate) events: &'a Events,
    /// How many writes a chain has room for; 0 once there was a write whose numbers are too large for a row.
    room: u32,
    chains: TxnTable<Chain>,
    rows: Vec<Row>,
    later: BTreeMap<Txn, BTreeMap<Key, usize>>,
    pub ghost numbered: { AreNumbered (keys_of events.now) },
    pub ghost linked: { AreLinked (length (keys_of events.now)) (value_for chains) rows.items },
    pub ghost known: { AreKnown (keys_of events.now) (λ q. own_place later q.txn q.key) },
    pub ghost few: { AreFew room (value_for chains) (λ q. own_place later q.txn q.key) },
}

impl<'a> OwnWrites<'a> {
    ghost use Rattle.adya_terms.specs.Machinery.OwnWrites.{place_of};

    /// Makes those of no events. Room for the chains of transactions with numbers below `small` is taken now.
    pub fn new(alloc: Global, events: &'a Events, small: usize) -> Result<OwnWrites<'a>, AllocError>
        requires { AreNumbered (keys_of events.now) }
        ensures none { IfOk result (λ w. (q : Own) → place_of w q ≡ None) }
        ensures events { IfOk result (λ w. w.events.now ≡ events.now) }
    {
        let none = Chain { len: 0, last: 0 };
        let chains = TxnTable::new(alloc, small, none)?;
        Ok(OwnWrites {
            alloc,
            events,
            room: FEW,
            chains,
            rows: Vec::new(alloc),
            later: BTreeMap::new(alloc),
        })
    }

    /// Returns the place of the transaction's last write of the key with the number.
    pub fn last_place(&self, txn: Txn, number: u32) -> Option<usize>
        requires { number < length (keys_of self.now.events.now) }
        ensures { result ≡ place_of self.now (own txn (key_at (keys_of self.now.events.now) number)) }
    {
        let chain = self.chain(txn);
        if chain.len < self.room {
            return self.in_chain(chain, number);
        }
        match self.later_place(txn, self.events.key(number)) {
            Some(at) => Some(at),
            None => self.in_chain(chain, number),
        }
    }

    /// Returns the chain of the transaction.
    pub fn chain(&self, txn: Txn) -> Chain
        ensures { result ≡ value_for self.now.chains txn }
    {
        self.chains.get(txn)
    }

    /// Returns the row with this number, counted from 1.
    pub fn row(&self, link: u32) -> Option<Row>
        ensures { result ≡ row_at self.now.rows.items link }
    {
        if link == 0 {
            return None;
        }
        self.rows.get(link as usize - 1).copied()
    }

    /// Returns the places of the transaction's last writes that aren't in its chain, by their keys.
    pub fn later(&self, txn: Txn) -> Option<&BTreeMap<Key, usize>>
        ensures { option_map (λ m. m.now) result ≡ get nat_cmp self.now.later txn }
    {
        self.later.get(&txn)
    }

    fn later_place(&self, txn: Txn, key: Key) -> Option<usize>
        ensures { result ≡ own_place self.now.later txn key }
    {
        match self.later(txn) {
            None => None,
            Some(places) => places.get(&key).copied(),
        }
    }

    /// Returns the place of the last write of the key in the chain.
    fn in_chain(&self, chain: Chain, number: u32) -> Option<usize>
        ensures { result ≡ walk self.now.rows.items number chain.len chain.last }
    {
        let mut link = chain.last;
        for _ in 0..chain.len {
            let Some(row) = self.row(link) else {
                return None;
            };
            if row.key == number {
                return Some(row.at as usize);
            }
            link = row.before;
        }
        None
    }

    /// Records that the transaction's last write of the key with the number is at the place.
    pub fn put(&mut self, txn: Txn, number: u32, at: usize) -> Result<(), AllocError>
        requires { number < length (keys_of self.old.events.now) }
        ensures last { let key = key_at (keys_of self.old.events.now) number in
            IfOk result (λ u. (q : Own) → place_of self.new q ≡ cond (own_eq (own txn key) q) (Some at) (place_of self.old q)) }
        ensures events { self.new.events ≡ self.old.events }
    {
        let chain = self.chain(txn);
        if chain.len >= self.room {
            return self.put_in_table(txn, number, at);
        }
        if !self.fits(at) {
            self.room = 0;
            return self.put_in_table(txn, number, at);
        }
        self.lengthen(txn, chain, at, number)
    }

    /// Records the write in the table of later writes. The transaction has no room in its chain.
    fn put_in_table(&mut self, txn: Txn, number: u32, at: usize) -> Result<(), AllocError>
        requires number { number < length (keys_of self.old.events.now) }
        requires full { self.old.room ≤ (value_for self.old.chains txn).len }
        ensures last { let key = key_at (keys_of self.old.events.now) number in
            IfOk result (λ u. (q : Own) → place_of self.new q ≡ cond (own_eq (own txn key) q) (Some at) (place_of self.old q)) }
        ensures events { self.new.events ≡ self.old.events }
    {
        let key = self.events.key(number);
        put_later(self.alloc, &mut self.later, txn, key, at)
    }

    /// Returns whether the place, and the number of one row more, fit into 32 bits.
    fn fits(&self, at: usize) -> bool
        ensures { OnTrue result ((at < 2 ^ 32) × (suc (length self.now.rows.items) < 2 ^ 32)) }
    {
        at <= u32::MAX as usize && self.rows.len() < u32::MAX as usize
    }

    /// Adds the place, with the number of its key, to the chain of the transaction.
    fn lengthen(&mut self, txn: Txn, chain: Chain, at: usize, number: u32) -> Result<(), AllocError>
        requires number { number < length (keys_of self.old.events.now) }
        requires chain { value_for self.old.chains txn ≡ chain }
        requires room { chain.len < self.old.room }
        requires place { at < 2 ^ 32 }
        requires row { suc (length self.old.rows.items) < 2 ^ 32 }
        ensures rows { IfOk result (λ u. self.new.rows.items ≡ self.old.rows.items ++ row at chain.last number ∷ []) }
        ensures chains { IfOk result (λ u. (t : ℕ) → value_for self.new.chains t
            ≡ cond (txn == t) (longer chain self.old.rows.items) (value_for self.old.chains t)) }
        ensures later { self.new.later ≡ self.old.later }
        ensures events { self.new.events ≡ self.old.events }
    {
        self.rows.push(Row {
            at: at as u32,
            before: chain.last,
            key: number,
        })?;
        self.chains.set(
            txn,
            Chain {
                len: chain.len + 1,
                last: self.rows.len() as u32,
            },
        )
    }
}

/// Puts the place under the transaction and the key. If memory is refused, nothing changes.
fn put_later(
    alloc: Global,
    places: &mut BTreeMap<Txn, BTreeMap<Key, usize>>,
    txn: Txn,
    key: Key,
    at: usize,
) -> Result<(), AllocError>
    ensures put { IfOk result (λ r. (u : ℕ) (k : List ℕ) → own_place places.new u k
        ≡ cond (is_eq (nat_cmp txn u) && is_eq (slice_cmp nat_cmp key k)) (Some at) (own_place places.old u k)) }
    ensures refused { OnErr result ((u : ℕ) (k : List ℕ) → own_place places.new u k ≡ own_place places.old u k) }
{
    if let Some(own) = places.get_mut(&txn) {
        own.insert(key, at)?;
        return Ok(());
    }
    let mut own = BTreeMap::new(alloc);
    own.insert(key, at)?;
    places.insert(txn, own)?;
    Ok(())
}
