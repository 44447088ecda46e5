//! The writers that the order lines name, and where one of them is.

ghost use Rattle.std.specs.Prelude.{◌≡◌, ◌<◌, Some, length, slice_get, IfOk, IfSome, OnOk};
ghost use Rattle.std.specs.Bool.{OnTrue, OnFalse};
ghost use Rattle.txn_table.specs.Mirror.{HasPlaces};
ghost use Rattle.adya_values.specs.Mirror.Lines.{orders_of};
ghost use Rattle.adya_terms.specs.Machinery.LinePlaces.{writers_at};
ghost use Rattle.adya_terms.specs.Machinery.LineWriters.{AreTables, IsPlaceOf};

use crate::{Orders, Txn};
use std::alloc::{AllocError, Global};
use std::collections::BTreeMap;
use txn_table::{TxnTable, places_of};

/// How far from the place at which a writer is expected it is looked for before the line is read through: writers of a key
/// that run at the same time may be named in another order than that of their last writes.
const NEAR: usize = 16;

/// A line with at most so many writers is read through to find one, which takes less time than a table of them.
const SHORT_LINE: usize = 256;

/// The writers that the order lines name.
#[derive(Drop)]
pub(crate) struct LineWriters<'a> {
    pub orders: &'a Orders,
    /// For each line the place after the one that was found last: most lines name their writers in the order in which these
    /// are looked for. A place that is too large for 32 bits is kept as the largest number of 32 bits.
    next: Vec<u32>,
    /// The places of the writers of long lines, by line. A line's are made when one of its writers is first looked for that
    /// isn't near.
    tables: BTreeMap<usize, TxnTable<usize>>,
    ghost tabled: { AreTables tables (orders_of orders.now) },
}

impl<'a> LineWriters<'a> {
    /// Makes those of these orders.
    pub fn of(alloc: Global, orders: &'a Orders) -> Result<LineWriters<'a>, AllocError>
        ensures { IfOk result (λ x. x.orders.now ≡ orders.now) }
    {
        Ok(LineWriters {
            orders,
            next: vec![in alloc; 0; orders.len()]?,
            tables: BTreeMap::new(alloc),
        })
    }

    /// Returns a place of the transaction among the writers of the line: one near to the place at which it is expected, if it
    /// is there; `AllocError` if memory is refused.
    pub fn place(
        &mut self,
        alloc: Global,
        line: usize,
        txn: Txn,
    ) -> Result<Option<usize>, AllocError>
        requires { line < length (orders_of self.old.orders.now) }
        ensures found { IfOk result (λ o. IsPlaceOf o (writers_at (orders_of self.old.orders.now) line) txn) }
        ensures orders { OnOk result (self.new.orders ≡ self.old.orders) }
    {
        let orders = self.orders;
        let writers = orders.writers(line);
        let first = self.next(line);
        if is_at(writers, first, txn) {
            return Ok(Some(first));
        }
        if let Some(place) = place_near(writers, first, txn) {
            return Ok(Some(place));
        }
        if writers.len() <= SHORT_LINE {
            return Ok(any_place(writers, txn));
        }
        self.tabled_place(alloc, line, txn)
    }

    /// Returns a place of the transaction among the writers of a long line.
    fn tabled_place(
        &mut self,
        alloc: Global,
        line: usize,
        txn: Txn,
    ) -> Result<Option<usize>, AllocError>
        requires { line < length (orders_of self.old.orders.now) }
        ensures found { IfOk result (λ o. IsPlaceOf o (writers_at (orders_of self.old.orders.now) line) txn) }
        ensures orders { OnOk result (self.new.orders ≡ self.old.orders) }
    {
        let orders = self.orders;
        let writers = orders.writers(line);
        if let Some(table) = self.tables.get(&line) {
            return Ok(place_in(writers, table, txn));
        }
        let table = places_of(alloc, writers, 0)?;
        let place = place_in(writers, &table, txn);
        self.tables.insert(line, table)?;
        Ok(place)
    }

    /// Returns the place at which the next writer of the line is expected.
    fn next(&self, line: usize) -> usize {
        self.next.get(line).copied().unwrap_or(0) as usize
    }

    /// Expects the next writer of the line after this place.
    pub fn pass(&mut self, line: usize, place: usize)
        ensures { self.new.orders ≡ self.old.orders }
    {
        if let Some(next) = self.next.get_mut(line) {
            *next = place.saturating_add(1).min(u32::MAX as usize) as u32;
        }
    }
}

/// Returns a place of the transaction among the writers, whose places the table has.
fn place_in(writers: &[Txn], table: &TxnTable<usize>, txn: Txn) -> Option<usize>
    requires { HasPlaces table.now writers.now }
    ensures { IsPlaceOf result writers.now txn }
{
    let place = table.get(txn);
    if is_at(writers, place, txn) {
        return Some(place);
    }
    None
}

/// Returns a place of the transaction that is near to the other place.
fn place_near(writers: &[Txn], other: usize, txn: Txn) -> Option<usize>
    ensures { IfSome result (λ p. slice_get writers.now p ≡ Some txn) }
{
    for place in other.saturating_sub(NEAR)..other.saturating_add(NEAR) {
        if is_at(writers, place, txn) {
            return Some(place);
        }
    }
    None
}

/// Returns a place of the transaction among the writers.
fn any_place(writers: &[Txn], txn: Txn) -> Option<usize>
    ensures { IsPlaceOf result writers.now txn }
{
    for (i, writer) in writers.iter().enumerate() {
        if *writer == txn {
            return Some(i);
        }
    }
    None
}

/// Returns whether the transaction is at the place.
fn is_at(writers: &[Txn], place: usize, txn: Txn) -> bool
    ensures yes { OnTrue result (slice_get writers.now place ≡ Some txn) }
    ensures no { OnFalse result (slice_get writers.now place ≡ Some txn → ⊥) }
{
    match writers.get(place) {
        Some(writer) => *writer == txn,
        None => false,
    }
}
