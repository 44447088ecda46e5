//! Histories.

ghost use Rattle.std.specs.Prelude.{◌≡◌, ◌↔◌, true, length, map, IsOk, IfOk, IfErr, ◌==◌, ◌&&◌, not, [], nat_lt, ◌∷◌};
ghost use Rattle.std.specs.List.{list_all};
ghost use Rattle.adya_keys.specs.Meaning.Keys.{key_lt, keys_rise};
ghost use Rattle.adya_values.specs.Mirror.Events.{events_of};
ghost use Rattle.adya_values.specs.Mirror.Lines.{finals_of, orders_of};
ghost use Rattle.adya_values.specs.Computing.Shapes.{is_shape, numbers_rise, fits_edition};

use crate::{Edition, Events, Finals, Orders, Txn};
use std::fmt;
use thiserror::Error;

/// The lists don't form a history: an order has no writer, or the unfinished transactions, the keys of the orders or
/// the keys of the finals don't strictly rise. The lists are given back as they were given.
#[derive(Error, Drop)]
#[error("4 bad shape")]
pub struct BadShape {
    /// The events, as given.
    pub events: Events,
    /// The unfinished transactions, as given; empty if the history was to be of the first edition.
    pub unfinished: Vec<Txn>,
    /// The orders, as given.
    pub orders: Orders,
    /// The finals, as given.
    pub finals: Finals,
}

impl fmt::Debug for BadShape {
    fn fmt<W: fmt::Write>(&self, f: &mut fmt::Formatter<W>) -> fmt::Result {
        f.debug_struct("BadShape").finish_non_exhaustive()
    }
}

/// A history (Adya 1999, section 3.1): the events in the order in which they happened, the version order of each
/// written key, and the final values. Orders and finals are sorted by key, and no key is there twice. A history of
/// the second edition may have unfinished transactions, which count as aborted.
#[derive(Drop)]
pub struct History {
    edition: Edition,
    events: Events,
    unfinished: Vec<Txn>,
    orders: Orders,
    finals: Finals,
    pub ghost edited: { fits_edition edition unfinished.items ≡ true },
    pub ghost shape: { is_shape (orders_of orders) (finals_of finals) ≡ true },
}

impl History {
    ghost use Rattle.adya_values.specs.Mirror.Histories.{history_of, edition_in, unfinished_in, orders_in, finals_in};

    /// Makes a history of the first edition. Returns `BadShape` with the lists if an order has no writer, or the
    /// keys of the orders or of the finals don't strictly rise.
    pub fn new(events: Events, orders: Orders, finals: Finals) -> Result<History, BadShape>
        ensures limits { IsOk result ↔ (is_shape (orders_of orders) (finals_of finals) ≡ true) }
        ensures edition { IfOk result (λ h. (edition_in h ≡ Edition.One) × (unfinished_in h ≡ [])) }
        ensures same { IfOk result (λ h. (h.events ≡ events) × (h.orders ≡ orders) × (h.finals ≡ finals)) }
        ensures back { IfErr result (λ b. (b.events ≡ events) × (b.unfinished.items ≡ []) × (b.orders ≡ orders) × (b.finals ≡ finals)) }
    {
        let unfinished = Vec::new(orders.allocator());
        if !is_shape(&orders, &finals) {
            return Err(BadShape {
                events,
                unfinished,
                orders,
                finals,
            });
        }
        Ok(History {
            edition: Edition::One,
            events,
            unfinished,
            orders,
            finals,
        })
    }

    /// Makes a history of the second edition. Returns `BadShape` with the lists if an order has no writer, or the
    /// unfinished transactions, the keys of the orders or the keys of the finals don't strictly rise.
    pub fn new_two(
        events: Events,
        unfinished: Vec<Txn>,
        orders: Orders,
        finals: Finals,
    ) -> Result<History, BadShape>
        ensures limits { IsOk result
            ↔ ((numbers_rise unfinished.items && is_shape (orders_of orders) (finals_of finals)) ≡ true) }
        ensures edition { IfOk result (λ h. edition_in h ≡ Edition.Two) }
        ensures same { IfOk result (λ h. (h.events ≡ events) × (h.unfinished ≡ unfinished) × (h.orders ≡ orders) × (h.finals ≡ finals)) }
        ensures back { IfErr result (λ b. (b.events ≡ events) × (b.unfinished ≡ unfinished) × (b.orders ≡ orders) × (b.finals ≡ finals)) }
    {
        if !numbers_rise(&unfinished) || !is_shape(&orders, &finals) {
            return Err(BadShape {
                events,
                unfinished,
                orders,
                finals,
            });
        }
        Ok(History {
            edition: Edition::Two,
            events,
            unfinished,
            orders,
            finals,
        })
    }

    /// Returns the edition of the history's text.
    pub fn edition(&self) -> Edition
        ensures { result ≡ edition_in self.now }
    {
        self.edition
    }

    /// Returns the unfinished transactions, rising; none in the first edition.
    pub fn unfinished(&self) -> &[Txn]
        ensures value { result.now ≡ unfinished_in self.now }
        ensures edited { fits_edition (edition_in self.now) (unfinished_in self.now) ≡ true }
    {
        &self.unfinished
    }

    /// Returns the events, in the order in which they happened.
    pub fn events(&self) -> &Events
        ensures { events_of result.now ≡ (history_of self.now).events }
    {
        &self.events
    }

    /// Returns the version orders, by rising key.
    pub fn orders(&self) -> &Orders
        ensures value { result.now ≡ orders_in self.now }
        ensures shape { is_shape (history_of self.now).orders (history_of self.now).finals ≡ true }
    {
        &self.orders
    }

    /// Returns the final values, by rising key.
    pub fn finals(&self) -> &Finals
        ensures { result.now ≡ finals_in self.now }
    {
        &self.finals
    }
}

fn numbers_rise(txns: &[Txn]) -> bool
    ensures { result ≡ numbers_rise txns.now }
{
    let [first, rest @ ..] = txns else {
        return true;
    };
    let mut last = *first;
    for t in rest {
        if *t <= last {
            return false;
        }
        last = *t;
    }
    true
}

fn is_shape(orders: &Orders, finals: &Finals) -> bool
    ensures { result ≡ is_shape (orders_of orders.now) (finals_of finals.now) }
{
    all_have_writers(orders) && orders.keys_rise() && finals.keys_rise()
}

fn all_have_writers(orders: &Orders) -> bool
    ensures { result ≡ list_all (λ o. not (length o.writers == 0)) (orders_of orders.now) }
{
    for i in 0..orders.len() {
        if orders.writers(i).is_empty() {
            return false;
        }
    }
    true
}
