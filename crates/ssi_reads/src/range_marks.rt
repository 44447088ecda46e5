//! Marks of ranges, by the prefixes of their keys.

ghost use Rattle.std.specs.Prelude.{◌≡◌, ◌≢◌, ◌&&◌, ◌||◌, ◌≤◌, ℕ, List, Option, Bool, length, take, false, OnOk, OnErr};
ghost use Rattle.std.specs.BTreeSet.{contains};
ghost use Rattle.std.specs.Ordering.{nat_cmp, is_eq};
ghost use Rattle.adya_keys.specs.Meaning.Keys.{lies_in};
ghost use Rattle.ssi_reads.specs.Clauses.Marks.{with_mark, without, IsSame, IsEmpty};
ghost use Rattle.ssi_reads.specs.Machinery.Prefixes.{prefix_of};
ghost use Rattle.ssi_reads.specs.Machinery.Ranged.{HasMorePlaces, HasMoreMarks, HasSamePlaces, HasSameMarks, HasOthers, filed, mark_of, place_of, counts, any_counts, under, ranged};

use crate::place::{Place, prefix};
use crate::span::{Mark, Span};
use adya_values::{Key, Txn};
use std::alloc::{AllocError, Global};
use std::collections::{BTreeMap, BTreeSet};

/// The ranges of each transaction, and the marks of the ranges under each prefix. A key of a range begins with what both
/// ends begin with, so the ranges over a key stand under the key's own prefixes.
///
/// A range is marked if both maps say so: then no refusal between the two leaves half a mark, and to drop the ranges of a
/// transaction unmarks them.
#[derive(Drop)]
pub(crate) struct RangeMarks {
    alloc: Global,
    places: BTreeMap<Txn, BTreeSet<Place>>,
    marks: BTreeMap<Option<Key>, BTreeSet<Mark>>,
}

impl RangeMarks {
    pub(crate) fn new(alloc: Global) -> RangeMarks
        ensures { IsEmpty (ranged result) }
    {
        RangeMarks {
            alloc,
            places: BTreeMap::new(alloc),
            marks: BTreeMap::new(alloc),
        }
    }

    /// Adds a mark, in time logarithmic in the number of marks.
    pub(crate) fn mark(&mut self, txn: Txn, low: Key, high: Key) -> Result<(), AllocError>
        ensures marks { OnOk result (IsSame (ranged self.new) (with_mark txn low high (ranged self.old))) }
        ensures refused { OnErr result (IsSame (ranged self.new) (ranged self.old)) }
    {
        let place = Place::new(low, high);
        add_place(self.alloc, &mut self.places, txn, place.prefix, place.span)?;
        add_mark(self.alloc, &mut self.marks, &place, txn)
    }

    /// Adds the transactions with a range over the key. It looks at each range under a prefix of the key
    /// that doesn't start above the key.
    pub(crate) fn add_readers(&self, found: &mut BTreeSet<Txn>, key: Key) -> Result<(), AllocError>
        ensures { OnOk result ((u : ℕ) → contains nat_cmp found.new u ≡ (ranged self.now u key || contains nat_cmp found.old u)) }
    {
        for len in 0..key.bytes().len() + 1 {
            self.add_under(found, key, len)?;
        }
        Ok(())
    }

    /// Adds those with a range over the key that stands under the prefix of so many bytes.
    fn add_under(&self, found: &mut BTreeSet<Txn>, key: Key, len: usize) -> Result<(), AllocError>
        requires within { len ≤ length key }
        ensures { OnOk result ((u : ℕ) → contains nat_cmp found.new u ≡ (under self.now key u (prefix_of (take len key)) || contains nat_cmp found.old u)) }
    {
        let prefix = prefix(key, len);
        let Some(marks) = self.marks.get(&prefix) else {
            return Ok(());
        };
        add_counted(found, &self.places, marks, &prefix, key)
    }

    /// Removes the marks of the transaction, in time logarithmic in the number of marks for each of its ranges.
    pub(crate) fn forget(&mut self, txn: Txn)
        ensures { IsSame (ranged self.new) (without txn (ranged self.old)) }
    {
        let Some(places) = self.places.remove(&txn) else {
            return;
        };
        remove_all(&mut self.marks, &places, txn);
    }
}

fn add_place(
    alloc: Global,
    places: &mut BTreeMap<Txn, BTreeSet<Place>>,
    txn: Txn,
    prefix: Option<Key>,
    span: Span,
) -> Result<(), AllocError>
    ensures added { OnOk result (HasMorePlaces txn (place_of prefix span) places.old places.new) }
    ensures refused { OnErr result (HasSamePlaces places.old places.new) }
{
    let place = Place { prefix, span };
    if let Some(set) = places.get_mut(&txn) {
        set.insert(place)?;
        return Ok(());
    }
    let mut set = BTreeSet::new(alloc);
    set.insert(place)?;
    places.insert(txn, set)?;
    Ok(())
}

fn add_mark(
    alloc: Global,
    marks: &mut BTreeMap<Option<Key>, BTreeSet<Mark>>,
    place: &Place,
    txn: Txn,
) -> Result<(), AllocError>
    ensures added { OnOk result (HasMoreMarks place.now.prefix (mark_of place.now txn) marks.old marks.new) }
    ensures refused { OnErr result (HasSameMarks marks.old marks.new) }
    ensures absent { OnErr result (filed marks.old place.now.prefix (mark_of place.now txn) ≡ false) }
{
    let mark = Mark {
        span: place.span,
        txn,
    };
    if let Some(set) = marks.get_mut(&place.prefix) {
        set.insert(mark)?;
        return Ok(());
    }
    let mut set = BTreeSet::new(alloc);
    set.insert(mark)?;
    marks.insert(place.prefix, set)?;
    Ok(())
}

/// Returns whether the mark is over the key, and its transaction has the range under this prefix.
fn counts(
    places: &BTreeMap<Txn, BTreeSet<Place>>,
    mark: &Mark,
    prefix: &Option<Key>,
    key: Key,
) -> bool
    ensures { result ≡ counts places.now prefix.now key mark.now }
{
    if !mark.span.covers(key) {
        return false;
    }
    let place = Place {
        prefix: *prefix,
        span: mark.span,
    };
    match places.get(&mark.txn) {
        None => false,
        Some(set) => set.contains(&place),
    }
}

/// Adds the transactions of the marks that count. No mark counts after one whose range starts above the key.
fn add_counted(
    found: &mut BTreeSet<Txn>,
    places: &BTreeMap<Txn, BTreeSet<Place>>,
    marks: &BTreeSet<Mark>,
    prefix: &Option<Key>,
    key: Key,
) -> Result<(), AllocError>
    ensures { OnOk result ((u : ℕ) → contains nat_cmp found.new u ≡ (any_counts places.now prefix.now key u marks.now.keys || contains nat_cmp found.old u)) }
{
    for mark in marks {
        if key < mark.span.low {
            return Ok(());
        }
        if counts(places, mark, prefix, key) {
            found.insert(mark.txn)?;
        }
    }
    Ok(())
}

/// Removes the mark under the place's prefix, and the set there if it becomes empty. Other transactions' marks stay.
fn remove_mark(marks: &mut BTreeMap<Option<Key>, BTreeSet<Mark>>, place: &Place, txn: Txn)
    ensures { HasOthers txn marks.old marks.new }
{
    let Some(set) = marks.get_mut(&place.prefix) else {
        return;
    };
    set.remove(&Mark {
        span: place.span,
        txn,
    });
    if set.is_empty() {
        marks.remove(&place.prefix);
    }
}

fn remove_all(marks: &mut BTreeMap<Option<Key>, BTreeSet<Mark>>, places: &BTreeSet<Place>, txn: Txn)
    ensures { HasOthers txn marks.old marks.new }
{
    for place in places {
        remove_mark(marks, place, txn);
    }
}
