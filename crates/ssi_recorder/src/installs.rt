//! What events install: the version order of each key, and its final value.

ghost use Rattle.std.specs.Prelude.{◌≡◌, ℕ, List, [], ◌∷◌, Some, true, ◌&&◌, if◌then◌else◌, map, option_map, slice_get, length, OnOk, IfOk, nat_eq};
ghost use Rattle.std.specs.List.{filter_map, IsDistinct};
ghost use Rattle.std.specs.BTreeMap.{is_at, keys, values, IsOrdered};
ghost use Rattle.std.specs.Ordering.{nat_cmp};
ghost use Rattle.std.specs.Cmp.Lexicographic.{slice_cmp};
ghost use Rattle.adya_keys.specs.Meaning.Keys.{key_eq};
ghost use Rattle.adya_values.specs.Mirror.Events.{entry_of, events_of, order_of, final_of};
ghost use Rattle.adya_keys.specs.Mirror.{value_of};
ghost use Rattle.adya_values.specs.Meaning.Events.{written, visible};
ghost use Rattle.adya_values.specs.Mirror.Lines.{finals_of, orders_of};
ghost use Rattle.adya_values.specs.Computing.Shapes.{is_shape};
ghost use Rattle.ssi_recorder.specs.Meaning.Recorded.{by_commit, orders_of_events, finals_of_events};
ghost use Rattle.ssi_recorder.specs.Machinery.Lines.{put_at, write_by, AreLines, order_in, final_in};

use adya_values::{
    Content, Entry, Events, FinalPair, Finals, Key, Order, Orders, Txn, Value, Version,
};
use indexmap::IndexSet;
use std::alloc::{AllocError, Global};
use std::collections::BTreeMap;

/// The version orders and the final values, both by rising key.
#[derive(Drop)]
pub(crate) struct Lists {
    pub orders: Orders,
    pub finals: Finals,
}

/// Returns the committed transactions in the order of their commits.
fn committers(alloc: Global, events: &Events) -> Result<IndexSet<Txn>, AllocError>
    ensures { IfOk result (λ s. s.keys ≡ by_commit (events_of events.now)) }
{
    let mut committed = IndexSet::new(alloc);
    'events: for i in 0..events.len() {
        if let Some(txn) = events.commit_at(i) {
            committed.insert(txn)?;
        }
    }
    Ok(committed)
}

/// Puts the version into the line of its key, at this place; a later version at the same place replaces it.
fn put(
    alloc: Global,
    lines: &mut BTreeMap<Key, BTreeMap<usize, Entry>>,
    place: usize,
    entry: &Entry,
) -> Result<(), AllocError>
    ensures put { OnOk result ((q : List ℕ) (r : ℕ) → put_at q r lines.new.entries
        ≡ if key_eq entry.now.version.key q && is_at (nat_cmp place) r then Some (entry_of entry.now) else put_at q r lines.old.entries) }
    ensures lines { OnOk result (AreLines lines.old.entries → AreLines lines.new.entries) }
{
    let key = entry.version.key;
    if let Some(line) = lines.get_mut(&key) {
        line.insert(place, *entry)?;
        return Ok(());
    }
    let mut line = BTreeMap::new(alloc);
    line.insert(place, *entry)?;
    lines.insert(key, line)?;
    Ok(())
}

/// Returns the last writes of the committed transactions, by key and by the place of their commit.
fn lines(
    alloc: Global,
    events: &Events,
    committed: &IndexSet<Txn>,
) -> Result<BTreeMap<Key, BTreeMap<usize, Entry>>, AllocError>
    ensures lines { IfOk result (λ m. (q : List ℕ) (r : ℕ) → put_at q r m.entries ≡ write_by (slice_get committed.now.keys r) q (events_of events.now)) }
    ensures good { IfOk result (λ m. AreLines m.entries) }
    ensures distinct { IsDistinct nat_eq committed.now.keys }
{
    let _unique = committed.len();
    let mut lines = BTreeMap::new(alloc);
    'events: for i in 0..events.len() {
        let Some(event) = events.get(i) else {
            unreachable!()
        };
        if let Some(entry) = event.written() {
            if let Some(place) = committed.get_index_of(&entry.version.txn) {
                put(alloc, &mut lines, place, &entry)?;
            }
        }
    }
    Ok(lines)
}

/// Returns the versions of a line, in order.
fn versions(alloc: Global, line: &BTreeMap<usize, Entry>) -> Result<Vec<Entry>, AllocError>
    ensures { IfOk result (λ v. v.items ≡ values line.now) }
{
    let mut versions = Vec::new(alloc);
    'versions: for entry in line.values() {
        versions.push(*entry)?;
    }
    Ok(versions)
}

/// Returns the writers of the versions.
fn writers_of(alloc: Global, versions: &[Entry]) -> Result<Vec<Txn>, AllocError>
    ensures { IfOk result (λ v. v.items ≡ map (λ w. w.version.txn) versions.now) }
{
    let mut writers = Vec::new(alloc);
    'versions: for entry in versions {
        writers.push(entry.version.txn)?;
    }
    Ok(writers)
}

/// Returns the order line of a key.
fn order(alloc: Global, key: Key, line: &BTreeMap<usize, Entry>) -> Result<Order, AllocError>
    ensures { IfOk result (λ o. order_of o ≡ order_in (key, line.now)) }
{
    let versions = versions(alloc, line)?;
    let writers = writers_of(alloc, versions.as_slice())?;
    let order = Order { key, writers };
    Ok(order)
}

/// Returns the order lines of the keys.
fn orders(
    alloc: Global,
    lines: &BTreeMap<Key, BTreeMap<usize, Entry>>,
) -> Result<Orders, AllocError>
    ensures orders { IfOk result (λ os. orders_of os ≡ map order_in lines.now.entries) }
    ensures ordered { IsOrdered (slice_cmp nat_cmp) lines.now }
{
    let _ordered = lines.len();
    let mut orders = Orders::new(alloc);
    'lines: for (key, line) in lines.iter() {
        let order = order(alloc, *key, line)?;
        orders.push(&order)?;
    }
    Ok(orders)
}

/// Returns the final value of a key, if its last version is visible.
fn final_pair(key: Key, line: &BTreeMap<usize, Entry>) -> Option<FinalPair>
    ensures { option_map final_of result ≡ final_in (key, line.now) }
{
    let (_, last) = line.last_key_value()?;
    match last.content {
        Content::Live(value) => Some(FinalPair { key, value }),
        Content::Dead => None,
    }
}

/// Returns the final values of the keys.
fn finals(
    alloc: Global,
    lines: &BTreeMap<Key, BTreeMap<usize, Entry>>,
) -> Result<Finals, AllocError>
    ensures { IfOk result (λ fs. finals_of fs ≡ filter_map final_in lines.now.entries) }
{
    let mut finals = Finals::new(alloc);
    'lines: for (key, line) in lines.iter() {
        if let Some(pair) = final_pair(*key, line) {
            finals.push(&pair)?;
        }
    }
    Ok(finals)
}

/// Returns the version orders and the final values that the events make.
pub(crate) fn installed(alloc: Global, events: &Events) -> Result<Lists, AllocError>
    ensures shape { IfOk result (λ i. is_shape (orders_of i.orders) (finals_of i.finals) ≡ true) }
    ensures orders { IfOk result (λ i. orders_of i.orders ≡ orders_of_events (events_of events.now)) }
    ensures finals { IfOk result (λ i. finals_of i.finals ≡ finals_of_events (events_of events.now)) }
{
    let committed = committers(alloc, events)?;
    let by_key = lines(alloc, events, &committed)?;
    let orders = orders(alloc, &by_key)?;
    let finals = finals(alloc, &by_key)?;
    let lists = Lists { orders, finals };
    Ok(lists)
}
