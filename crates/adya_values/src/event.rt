//! Versions of keys, and the events that write and read them.

ghost use Rattle.std.specs.Prelude.{◌≡◌, IfOk, option_map};
ghost use Rattle.adya_values.specs.Mirror.Events.{content_of, entry_of, event_of, view_of};
ghost use Rattle.adya_values.specs.Meaning.Events.{txn_of, written};
ghost use Rattle.adya_values.specs.Machinery.Packed.{entry_count};
ghost use Rattle.adya_values.specs.Computing.Faults.{content_eq, entry_eq};

use crate::{Key, Listed, Mod, Txn, Value};
use std::alloc::{AllocError, Global};
use std::fmt;

/// A version of a key: the result of one write or delete by one transaction (Adya 1999, section 3.1).
#[derive(Clone, Copy, Debug, PartialEq, Eq, PartialOrd, Ord, Hash)]
pub struct Version {
    /// The key.
    pub key: Key,
    /// The transaction that wrote it.
    pub txn: Txn,
    /// The number of the write among its transaction's writes and deletes of the key, counted from 1.
    pub m: Mod,
}

impl fmt::Display for Version {
    fn fmt<W: fmt::Write>(&self, f: &mut fmt::Formatter<W>) -> fmt::Result {
        write!(f, "{}.{}:{}", self.key, self.txn.get(), self.m.get())
    }
}

/// A version by the number that its key has in a list of events.
#[derive(Clone, Copy, Debug, PartialEq, Eq, Hash)]
pub struct NumberedVersion {
    /// The number of the key.
    pub key: u32,
    /// The transaction that wrote it.
    pub txn: Txn,
    /// The number of the write among its transaction's writes and deletes of the key, counted from 1.
    pub m: Mod,
}

/// What a version holds.
#[derive(Clone, Copy)]
pub enum Content {
    /// A value.
    Live(Value),
    /// Nothing: the version was made by a delete.
    Dead,
}

impl Content {
    /// Returns whether both are the same value or both are dead.
    pub fn same(&self, other: &Content) -> bool
        ensures { result ≡ content_eq (content_of self.now) (content_of other.now) }
    {
        match (self, other) {
            (Content::Live(value), Content::Live(other)) => value.same(other),
            (Content::Live(_), Content::Dead) => false,
            (Content::Dead, Content::Live(_)) => false,
            (Content::Dead, Content::Dead) => true,
        }
    }
}

/// A version with its content, as a scan lists it.
#[derive(Clone, Copy)]
pub struct Entry {
    /// The version.
    pub version: Version,
    /// What the version holds.
    pub content: Content,
}

impl Entry {
    /// Returns whether both are the same version with the same content.
    pub fn same(&self, other: &Entry) -> bool
        ensures { result ≡ entry_eq (entry_of self.now) (entry_of other.now) }
    {
        self.version == other.version && self.content.same(&other.content)
    }
}

/// One step of a transaction.
#[derive(Drop)]
pub enum Event {
    /// The transaction writes its version `m` of the key.
    Write {
        txn: Txn,
        key: Key,
        m: Mod,
        value: Value,
    },
    /// The transaction deletes the key: its version `m` of it is dead.
    Delete {
        txn: Txn,
        key: Key,
        m: Mod,
    },
    /// The transaction reads this version and gets the value.
    Read {
        txn: Txn,
        version: Version,
        value: Value,
    },
    /// The transaction scans the keys from `low` to `high`, both included, and gets these versions. Of a key in the
    /// range that isn't listed it sees the unborn version.
    Scan {
        txn: Txn,
        low: Key,
        high: Key,
        entries: Vec<Entry>,
    },
    /// The transaction commits.
    Commit {
        txn: Txn,
    },
    /// The transaction aborts.
    Abort {
        txn: Txn,
    },
}

impl Event {
    /// Returns how many entries the event lists, if it is a scan; 0 if not.
    pub fn entry_count(&self) -> usize
        ensures { result ≡ entry_count (event_of self.now) }
    {
        match self {
            Event::Scan { entries, .. } => entries.len(),
            _ => 0,
        }
    }

    /// Returns an equal event. `AllocError` if there is no memory for the entries of a scan.
    pub fn copy(&self, alloc: Global) -> Result<Event, AllocError>
        ensures { IfOk result (λ e. event_of e ≡ event_of self.now) }
    {
        Ok(match self {
            Event::Write { txn, key, m, value } => Event::Write {
                txn: *txn,
                key: *key,
                m: *m,
                value: *value,
            },
            Event::Delete { txn, key, m } => Event::Delete {
                txn: *txn,
                key: *key,
                m: *m,
            },
            Event::Read {
                txn,
                version,
                value,
            } => Event::Read {
                txn: *txn,
                version: *version,
                value: *value,
            },
            Event::Scan {
                txn,
                low,
                high,
                entries,
            } => Event::Scan {
                txn: *txn,
                low: *low,
                high: *high,
                entries: Vec::from_slice(alloc, entries)?,
            },
            Event::Commit { txn } => Event::Commit { txn: *txn },
            Event::Abort { txn } => Event::Abort { txn: *txn },
        })
    }

    /// Returns the event as a list shows it.
    pub fn view(&self) -> EventView<'_>
        ensures { view_of result ≡ event_of self.now }
    {
        match self {
            Event::Write { txn, key, m, value } => EventView::Write {
                txn: *txn,
                key: *key,
                m: *m,
                value: *value,
            },
            Event::Delete { txn, key, m } => EventView::Delete {
                txn: *txn,
                key: *key,
                m: *m,
            },
            Event::Read {
                txn,
                version,
                value,
            } => EventView::Read {
                txn: *txn,
                version: *version,
                value: *value,
            },
            Event::Scan {
                txn,
                low,
                high,
                entries,
            } => EventView::Scan {
                txn: *txn,
                low: *low,
                high: *high,
                entries: Listed::Plain(entries),
            },
            Event::Commit { txn } => EventView::Commit { txn: *txn },
            Event::Abort { txn } => EventView::Abort { txn: *txn },
        }
    }
}

/// One step of a transaction, as a list of events shows it.
#[derive(Clone, Copy)]
pub enum EventView<'a> {
    /// The transaction writes its version `m` of the key.
    Write {
        txn: Txn,
        key: Key,
        m: Mod,
        value: Value,
    },
    /// The transaction deletes the key: its version `m` of it is dead.
    Delete {
        txn: Txn,
        key: Key,
        m: Mod,
    },
    /// The transaction reads this version and gets the value.
    Read {
        txn: Txn,
        version: Version,
        value: Value,
    },
    /// The transaction scans the keys from `low` to `high`, both included, and gets these versions. Of a key in the
    /// range that isn't listed it sees the unborn version.
    Scan {
        txn: Txn,
        low: Key,
        high: Key,
        entries: Listed<'a>,
    },
    /// The transaction commits.
    Commit {
        txn: Txn,
    },
    /// The transaction aborts.
    Abort {
        txn: Txn,
    },
}

impl EventView<'_> {
    /// Returns the transaction that the event belongs to.
    #[inline(always)]
    pub fn txn(&self) -> Txn
        ensures { result ≡ txn_of (view_of self.now) }
    {
        match self {
            EventView::Write { txn, .. } => *txn,
            EventView::Delete { txn, .. } => *txn,
            EventView::Read { txn, .. } => *txn,
            EventView::Scan { txn, .. } => *txn,
            EventView::Commit { txn } => *txn,
            EventView::Abort { txn } => *txn,
        }
    }

    /// Returns the version that the event writes, with its content, if it is a write or a delete.
    #[inline(always)]
    pub fn written(&self) -> Option<Entry>
        ensures { option_map entry_of result ≡ written (view_of self.now) }
    {
        match self {
            EventView::Write { txn, key, m, value } => Some(Entry {
                version: Version {
                    key: *key,
                    txn: *txn,
                    m: *m,
                },
                content: Content::Live(*value),
            }),
            EventView::Delete { txn, key, m } => Some(Entry {
                version: Version {
                    key: *key,
                    txn: *txn,
                    m: *m,
                },
                content: Content::Dead,
            }),
            EventView::Read { .. } => None,
            EventView::Scan { .. } => None,
            EventView::Commit { .. } => None,
            EventView::Abort { .. } => None,
        }
    }
}
