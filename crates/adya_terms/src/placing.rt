//! The places of the last writes of committed transactions in the order lines of their keys.

ghost use Rattle.std.specs.Prelude.{◌≡◌, ◌<◌, ◌^◌, ℕ, List, Option, Some, false, true, suc, length, get_or, map, replicate, set, slice_get, slice_index, IfOk, MatchOption, OnOk};
ghost use Rattle.adya_keys.specs.Meaning.Keys.{Key as KeyValue, keys_rise};
ghost use Rattle.adya_values.specs.Meaning.Histories.{Event, Order};
ghost use Rattle.adya_keys.specs.Machinery.Indices.{indices_in};
ghost use Rattle.adya_keys.specs.Machinery.Within.{key_at};
ghost use Rattle.adya_values.specs.Mirror.Lines.{orders_of};
ghost use Rattle.adya_values.specs.Mirror.Numbers.{keys_of};
ghost use Rattle.adya_terms.specs.Machinery.EventIndex.{indexed, keys_in, last_in};
ghost use Rattle.adya_terms.specs.Machinery.Tables.{Own};
ghost use Rattle.adya_terms.specs.Machinery.LinePlaces.{blank, AreParts};
ghost use Rattle.adya_terms.specs.Machinery.Places.{is_full, lacks_at, orders_in, places_in, AreLinesOf, ArePlaced, IsInjective, Installs};
ghost use Rattle.adya_terms.specs.Mirror.LineNumbers.{FindsLines};

use crate::event_index::EventIndex;
use crate::line_numbers::lines_by_number;
use crate::line_places::LinePlaces;
use crate::line_writers::LineWriters;
use crate::{Events, Orders, Txn};
use adya_values::Indices;
use std::alloc::{AllocError, Global};

/// The order lines of the keys, and the last writes of the writers that they name.
#[derive(Drop)]
pub(crate) struct Placed {
    /// By the number of each key the index of its line and 1; 0 if it has none.
    pub numbers: Indices,
    pub lines: LinePlaces,
}

/// The order lines, with the last writes of their writers as far as these are found. The events are gone through in their order,
/// since a transaction's rows lie together there, and an array by lines is small.
#[derive(Drop)]
pub(crate) struct Placing<'a> {
    /// By the number of each key the index of its line and 1; 0 if it has none.
    pub numbers: Indices,
    writers: LineWriters<'a>,
    pub lines: LinePlaces,
    /// By line, whether a committed writer of the key isn't named.
    lacks: Vec<bool>,
    /// Whether a key with a committed writer has no line.
    pub left_out: bool,
}

impl<'a> Placing<'a> {
    /// Makes that of the lines, before any event.
    fn new(alloc: Global, events: &Events, orders: &'a Orders) -> Result<Placing<'a>, AllocError>
        ensures numbers { let os = orders_of orders.now in IfOk result (λ x. FindsLines (indices_in x.numbers) (keys_of events.now) os (length os)) }
        ensures orders { IfOk result (λ x. orders_in x ≡ orders_of orders.now) }
        ensures lines { let os = orders_of orders.now in
            IfOk result (λ x. AreParts (blank os) (indices_in x.lines.writes) (indices_in x.lines.starts) (length os)) }
        ensures lacks { IfOk result (λ x. x.lacks.items ≡ replicate (length (orders_of orders.now)) false) }
        ensures left_out { IfOk result (λ x. x.left_out ≡ false) }
    {
        Ok(Placing {
            numbers: lines_by_number(alloc, events, orders)?,
            writers: LineWriters::of(alloc, orders)?,
            lines: LinePlaces::new(alloc, orders)?,
            lacks: vec![in alloc; false; orders.len()]?,
            left_out: false,
        })
    }

    /// Records that the last write of the key with the number by the transaction, which has committed, is at the index.
    fn put(&mut self, alloc: Global, key: u32, txn: Txn, at: usize) -> Result<(), AllocError>
        requires { at < 2 ^ 60 }
        ensures orders { OnOk result (orders_in self.new ≡ orders_in self.old) }
        ensures placed { OnOk result ((all : List Event) (last : Own → Option ℕ) (ks : List KeyValue)
            → let os = orders_in self.old in
            keys_rise (map (λ o. o.key) os) ≡ true
            → IsInjective last
            → key < length ks
            → Installs all last (key_at ks key) txn at
            → ArePlaced all last at ks os self.old
            → ArePlaced all last (suc at) ks os self.new) }
    {
        let Some(line) = self.line(key) else {
            self.left_out = true;
            return Ok(());
        };
        self.put_in(alloc, line, txn, at)?;
        Ok(())
    }

    /// Returns the index of the line of the key with the number.
    fn line(&self, key: u32) -> Option<usize>
        ensures { let above = slice_index (indices_in self.now.numbers) key in
            MatchOption result (above ≡ 0) (λ i. above ≡ suc i) }
    {
        let above = self.numbers.get(key as usize).unwrap_or(0);
        if above == 0 {
            return None;
        }
        Some(above - 1)
    }

    /// Records that the last write of the line's key by the transaction, which has committed, is at the index.
    fn put_in(&mut self, alloc: Global, line: usize, txn: Txn, at: usize) -> Result<(), AllocError>
        requires { at < 2 ^ 60 }
        ensures orders { OnOk result (orders_in self.new ≡ orders_in self.old) }
        ensures numbers { OnOk result (self.new.numbers ≡ self.old.numbers) }
        ensures left_out { OnOk result (self.new.left_out ≡ self.old.left_out) }
        ensures lines { OnOk result ((all : List Event) (last : Own → Option ℕ) (o : Order)
            → let os = orders_in self.old in
            keys_rise (map (λ x. x.key) os) ≡ true
            → IsInjective last
            → slice_get os line ≡ Some o
            → Installs all last o.key txn at
            → AreLinesOf all last at os self.old
            → AreLinesOf all last (suc at) os self.new) }
    {
        if line >= self.len() {
            return Ok(());
        }
        let Some(place) = self.writers.place(alloc, line, txn)? else {
            raise(&mut self.lacks, line);
            return Ok(());
        };
        self.writers.pass(line, place);
        self.lines.fill(alloc, line, place, at)?;
        Ok(())
    }

    /// Places the writers of the lines.
    pub fn of(
        alloc: Global,
        index: &EventIndex,
        orders: &'a Orders,
    ) -> Result<Placing<'a>, AllocError>
        requires rise { keys_rise (map (λ o. o.key) (orders_of orders.now)) ≡ true }
        ensures orders { IfOk result (λ x. orders_in x ≡ orders_of orders.now) }
        ensures placed { IfOk result (ArePlaced (indexed index.now) (last_in index.now) (length (indexed index.now)) (keys_in index.now) (orders_of orders.now)) }
    {
        let mut placing = Placing::new(alloc, index.events(), orders)?;
        for at in 0..index.len() {
            if let Some(version) = index.installed_at(at) {
                placing.put(alloc, version.key, version.txn, at)?;
            }
        }
        Ok(placing)
    }

    /// Returns how many lines there are.
    pub fn len(&self) -> usize
        ensures { result ≡ length (orders_in self.now) }
    {
        self.writers.orders.len()
    }

    /// Returns whether each place of the line is found, and no committed writer is missing.
    pub fn is_full(&self, line: usize) -> bool
        requires { suc line < length (indices_in self.now.lines.starts) }
        ensures { result ≡ is_full (places_in self.now.lines line) (lacks_at self.now.lacks.items line) }
    {
        !is_raised(&self.lacks, line) && self.lines.is_full(line)
    }
}

/// Raises the flag at the index, if there is one.
fn raise(flags: &mut Vec<bool>, at: usize)
    ensures { flags.new.items ≡ set flags.old.items at true }
{
    if let Some(flag) = flags.get_mut(at) {
        *flag = true;
    }
}

/// Returns whether the flag at the index is raised.
fn is_raised(flags: &Vec<bool>, at: usize) -> bool
    ensures { result ≡ get_or flags.now.items at false }
{
    flags.get(at).copied().unwrap_or(false)
}
