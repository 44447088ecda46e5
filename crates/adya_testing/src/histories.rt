//! Small histories and certificates from short arguments.

ghost use Rattle.std.specs.Prelude.{◌≡◌, IfOk, map};
ghost use Rattle.adya_values.specs.Mirror.Events.{event_of, events_of, entry_of, order_of, final_of};
ghost use Rattle.adya_values.specs.Mirror.Histories.{history_of, serial_txns};
ghost use Rattle.adya_values.specs.Mirror.Lines.{finals_of, orders_of};
ghost use Rattle.adya_values.specs.Meaning.Histories.{Write, Delete, Read, Scan, Commit, Abort, Live, Dead};

use adya_values::{
    BadKey, BadNumber, BadShape, BadValue, Content, Entry, Event, Events, FinalPair, Finals,
    History, Key, Mod, Order, Orders, Serial, Txn, Value, Version,
};
use std::alloc::{AllocError, Global};
use thiserror::Error;

/// Why no such history was made.
#[derive(Debug, Error, Drop)]
pub enum BadHistory {
    /// The text is no key.
    #[error(transparent)]
    Key(#[from] BadKey),
    /// The text is no value.
    #[error(transparent)]
    Value(#[from] BadValue),
    /// The number is out of its limits.
    #[error(transparent)]
    Number(#[from] BadNumber),
    /// The keys of the orders or of the finals don't rise, or an order has no writer.
    #[error(transparent)]
    Shape(#[from] BadShape),
    /// Out of memory.
    #[error(transparent)]
    Memory(#[from(alloc)] AllocError),
}

/// Makes the version of the key that the transaction wrote as its m-th.
pub fn version(key: &str, txn: u64, m: u64) -> Result<Version, BadHistory>
    ensures { IfOk result (λ v. (v.key ≡ key.now) × (v.txn ≡ txn) × (v.m ≡ m)) }
{
    Ok(Version {
        key: Key::new(key.as_bytes())?,
        txn: Txn::new(txn)?,
        m: Mod::new(m)?,
    })
}

/// Makes a scan's entry of a version with a value.
pub fn live(version: Version, value: &str) -> Result<Entry, BadHistory>
    ensures { IfOk result (λ e. entry_of e ≡ record { version = version; content = Live value.now }) }
{
    Ok(Entry {
        version,
        content: Content::Live(Value::new(value.as_bytes())?),
    })
}

/// Makes a scan's entry of a dead version.
pub fn dead(version: Version) -> Entry
    ensures { entry_of result ≡ record { version = version; content = Dead } }
{
    Entry {
        version,
        content: Content::Dead,
    }
}

/// Makes the event that the transaction writes the value as its m-th version of the key.
pub fn write(txn: u64, key: &str, m: u64, value: &str) -> Result<Event, BadHistory>
    ensures { IfOk result (λ e. event_of e ≡ Write txn key.now m value.now) }
{
    Ok(Event::Write {
        txn: Txn::new(txn)?,
        key: Key::new(key.as_bytes())?,
        m: Mod::new(m)?,
        value: Value::new(value.as_bytes())?,
    })
}

/// Makes the event that the transaction deletes the key as its m-th version of it.
pub fn delete(txn: u64, key: &str, m: u64) -> Result<Event, BadHistory>
    ensures { IfOk result (λ e. event_of e ≡ Delete txn key.now m) }
{
    Ok(Event::Delete {
        txn: Txn::new(txn)?,
        key: Key::new(key.as_bytes())?,
        m: Mod::new(m)?,
    })
}

/// Makes the event that the transaction reads the version, with the value.
pub fn read(txn: u64, version: Version, value: &str) -> Result<Event, BadHistory>
    ensures { IfOk result (λ e. event_of e ≡ Read txn version value.now) }
{
    Ok(Event::Read {
        txn: Txn::new(txn)?,
        version,
        value: Value::new(value.as_bytes())?,
    })
}

/// Makes the event that the transaction scans the keys from `low` to `high` and is shown the entries.
pub fn scan(txn: u64, low: &str, high: &str, entries: Vec<Entry>) -> Result<Event, BadHistory>
    ensures { IfOk result (λ e. event_of e ≡ Scan txn low.now high.now (map entry_of entries.items)) }
{
    Ok(Event::Scan {
        txn: Txn::new(txn)?,
        low: Key::new(low.as_bytes())?,
        high: Key::new(high.as_bytes())?,
        entries,
    })
}

/// Makes the event that the transaction commits.
pub fn commit(txn: u64) -> Result<Event, BadHistory>
    ensures { IfOk result (λ e. event_of e ≡ Commit txn) }
{
    Ok(Event::Commit {
        txn: Txn::new(txn)?,
    })
}

/// Makes the event that the transaction aborts.
pub fn abort(txn: u64) -> Result<Event, BadHistory>
    ensures { IfOk result (λ e. event_of e ≡ Abort txn) }
{
    Ok(Event::Abort {
        txn: Txn::new(txn)?,
    })
}

/// Makes the list of the transactions with these numbers.
pub fn txns(alloc: Global, numbers: &[u64]) -> Result<Vec<Txn>, BadHistory>
    ensures { IfOk result (λ v. v.items ≡ numbers.now) }
{
    let mut txns = Vec::new(alloc);
    for n in numbers {
        txns.push(Txn::new(*n)?)?;
    }
    Ok(txns)
}

/// Makes the version order of the key.
pub fn version_order(alloc: Global, key: &str, writers: &[u64]) -> Result<Order, BadHistory>
    ensures { IfOk result (λ o. order_of o ≡ record { key = key.now; writers = writers.now }) }
{
    Ok(Order {
        key: Key::new(key.as_bytes())?,
        writers: txns(alloc, writers)?,
    })
}

/// Makes the pair of a key and the value that it holds at the end.
pub fn final_pair(key: &str, value: &str) -> Result<FinalPair, BadHistory>
    ensures { IfOk result (λ f. final_of f ≡ record { key = key.now; value = value.now }) }
{
    Ok(FinalPair {
        key: Key::new(key.as_bytes())?,
        value: Value::new(value.as_bytes())?,
    })
}

/// Makes the history of the first edition with these lists.
pub fn history(
    events: Vec<Event>,
    orders: Vec<Order>,
    finals: Vec<FinalPair>,
) -> Result<History, BadHistory>
    ensures events { IfOk result (λ h. (history_of h).events ≡ map event_of events.items) }
    ensures orders { IfOk result (λ h. (history_of h).orders ≡ map order_of orders.items) }
    ensures finals { IfOk result (λ h. (history_of h).finals ≡ map final_of finals.items) }
{
    let alloc = *events.allocator();
    let events = packed(alloc, &events)?;
    let orders = packed_orders(alloc, &orders)?;
    let finals = packed_finals(alloc, &finals)?;
    Ok(History::new(events, orders, finals)?)
}

/// Makes the list of these events.
fn packed(alloc: Global, events: &[Event]) -> Result<Events, AllocError>
    ensures { IfOk result (λ es. events_of es ≡ map event_of events.now) }
{
    let mut list = Events::new(alloc);
    for event in events {
        list.push_owned(event)?;
    }
    Ok(list)
}

/// Makes the list of these orders.
pub fn packed_orders(alloc: Global, orders: &[Order]) -> Result<Orders, AllocError>
    ensures { IfOk result (λ os. orders_of os ≡ map order_of orders.now) }
{
    let mut list = Orders::new(alloc);
    for order in orders {
        list.push(order)?;
    }
    Ok(list)
}

/// Makes the list of these final values.
pub fn packed_finals(alloc: Global, finals: &[FinalPair]) -> Result<Finals, AllocError>
    ensures { IfOk result (λ fs. finals_of fs ≡ map final_of finals.now) }
{
    let mut list = Finals::new(alloc);
    for pair in finals {
        list.push(pair)?;
    }
    Ok(list)
}

/// Makes the certificate with these transactions.
pub fn certificate(alloc: Global, numbers: &[u64]) -> Result<Serial, BadHistory>
    ensures { IfOk result (λ s. serial_txns s ≡ numbers.now) }
{
    Ok(Serial::new(txns(alloc, numbers)?))
}
