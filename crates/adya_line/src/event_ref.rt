//! Events that lie in a line.

ghost use Rattle.std.specs.Prelude.{◌≡◌, true};
ghost use Rattle.adya_keys.specs.Meaning.Keys.{is_key, is_value, IsTxn};

use crate::entries::{Entries, take_entries};
use adya_values::{
    Entry, EntryRef, Event, EventView, Events, Key, Listed, Txn, Value, Version, VersionRef,
};
use std::alloc::{AllocError, Global};

/// A write whose key and value are slices of the line.
#[derive(Clone, Copy)]
pub struct WriteRef<'a> {
    /// The version that is written, by its own transaction.
    pub version: VersionRef<'a>,
    /// The bytes of the value, 1 to 64.
    pub value: &'a [u8],
    pub ghost is_value: { is_value value.now ≡ true },
}

/// A delete whose key is a slice of the line.
#[derive(Clone, Copy)]
pub struct DeleteRef<'a> {
    /// The dead version that is written, by its own transaction.
    pub version: VersionRef<'a>,
}

/// A read whose key and value are slices of the line.
#[derive(Clone, Copy)]
pub struct ReadRef<'a> {
    /// Who reads, from 1 on.
    pub txn: u32,
    /// The version that is read.
    pub version: VersionRef<'a>,
    /// The bytes of the value that is found, 1 to 64.
    pub value: &'a [u8],
    pub ghost is_txn: { IsTxn txn },
    pub ghost is_value: { is_value value.now ≡ true },
}

/// A scan whose keys and entries are slices of the line.
#[derive(Clone, Copy)]
pub struct ScanRef<'a> {
    /// Who scans, from 1 on.
    pub txn: u32,
    /// The bytes of the first key of the range, 1 to 32.
    pub low: &'a [u8],
    /// The bytes of the last key of the range, 1 to 32; the range has both.
    pub high: &'a [u8],
    /// The line from the first entry's `;` on, or from the closing bracket on if there is no entry.
    pub listed: &'a [u8],
    pub ghost is_txn: { IsTxn txn },
    pub ghost is_lo: { is_key low.now ≡ true },
    pub ghost is_hi: { is_key high.now ≡ true },
}

/// A commit or an abort.
#[derive(Clone, Copy)]
pub struct EndRef {
    /// Who ends, from 1 on.
    pub txn: u32,
    pub ghost is_txn: { IsTxn txn },
}

/// One step of a transaction, whose keys and values are slices of the line. Numbers, keys and values are within
/// their limits.
#[derive(Clone, Copy)]
pub enum EventRef<'a> {
    /// The transaction of the version writes it.
    Write(WriteRef<'a>),
    /// The transaction of the version deletes the key: the version is dead.
    Delete(DeleteRef<'a>),
    /// The transaction reads a version and finds the value.
    Read(ReadRef<'a>),
    /// The transaction scans the keys from `low` to `high`, both included, and is shown the entries.
    Scan(ScanRef<'a>),
    /// The transaction commits.
    Commit(EndRef),
    /// The transaction aborts.
    Abort(EndRef),
}

impl<'a> EventRef<'a> {
    ghost use Rattle.std.specs.Prelude.{◌++◌, ◌∷◌, [], map, IfOk, OnErr, OnOk};
    ghost use Rattle.adya_values.specs.Mirror.Events.{entries_of, entry_of, event_of, events_of, view_of};
    ghost use Rattle.adya_values.specs.Mirror.Refs.{view_entry};
    ghost use Rattle.adya_line.specs.Mirror.{view, entries_in, entries_left, showing};

    /// Walks the entries of a scan, in the order of the line; their keys and values are slices of the line. Other
    /// events have none.
    #[tactic(auto, unfolding(crate::specs::Computing::Reading::entries_at))]
    pub fn entries(&self) -> Entries<'a>
        ensures { entries_left result ≡ entries_in (view self.now) }
    {
        match self {
            EventRef::Scan(scan) => scan.entries(),
            _ => Entries::new(&[]),
        }
    }

    /// Returns the entries of a scan by themselves, in the order of the line; other events have none. `AllocError` if
    /// there is no memory for them.
    pub fn to_entries(&self, alloc: Global) -> Result<Vec<Entry>, AllocError>
        ensures { IfOk result (λ v. map entry_of v.items ≡ entries_in (view self.now)) }
    {
        let mut entries = Vec::new(alloc);
        let mut left = self.entries();
        while let Some(entry) = left.next() {
            entries.push(entry.entry())?;
        }
        Ok(entries)
    }

    /// Puts the entries of a scan in place of what is there, in the order of the line; other events have none. Their keys and
    /// values are slices of the line. `AllocError` if there is no memory for them; then some of them are there.
    pub fn read_entries(&self, entries: &mut Vec<EntryRef<'a>>) -> Result<(), AllocError>
        ensures { OnOk result (map view_entry entries.new.items ≡ entries_in (view self.now)) }
    {
        match self {
            EventRef::Scan(scan) => {
                take_entries(scan.listed, entries)?;
            }
            _ => entries.clear(),
        }
        Ok(())
    }

    /// Returns the event by itself. `AllocError` if there is no memory for the entries of a scan.
    pub fn to_event(&self, alloc: Global) -> Result<Event, AllocError>
        ensures { IfOk result (λ e. event_of e ≡ view self.now) }
    {
        let entries = self.to_entries(alloc)?;
        Ok(match self.with_entries(Listed::Plain(&entries)) {
            EventView::Write { txn, key, m, value } => Event::Write { txn, key, m, value },
            EventView::Delete { txn, key, m } => Event::Delete { txn, key, m },
            EventView::Read {
                txn,
                version,
                value,
            } => Event::Read {
                txn,
                version,
                value,
            },
            EventView::Scan { txn, low, high, .. } => Event::Scan {
                txn,
                low,
                high,
                entries,
            },
            EventView::Commit { txn } => Event::Commit { txn },
            EventView::Abort { txn } => Event::Abort { txn },
        })
    }

    /// Adds the event to the list, with these entries in place of those in the line, which only a scan has. `AllocError` if memory
    /// is refused; then the list has the same events as before.
    pub fn add_to(&self, events: &mut Events, entries: &Listed<'_>) -> Result<(), AllocError>
        ensures ok { OnOk result (events_of events.new ≡ events_of events.old ++ showing (entries_of entries.now) (view self.now) ∷ []) }
        ensures same { entries_of entries.now ≡ entries_in (view self.now)
            → OnOk result (events_of events.new ≡ events_of events.old ++ view self.now ∷ []) }
        ensures err { OnErr result (events_of events.new ≡ events_of events.old) }
    {
        match self {
            EventRef::Write(w) => {
                let v = w.version;
                events.push_write(v.writer(), v.key, v.modification(), w.value)
            }
            EventRef::Delete(d) => {
                let v = d.version;
                events.push_delete(v.writer(), v.key, v.modification())
            }
            EventRef::Read(r) => {
                let v = r.version;
                events.push_read(txn_of(r.txn), v.key, v.writer(), v.modification(), r.value)
            }
            EventRef::Scan(s) => events.push_scan(txn_of(s.txn), s.low, s.high, entries),
            EventRef::Commit(e) => events.push(&EventView::Commit { txn: txn_of(e.txn) }),
            EventRef::Abort(e) => events.push(&EventView::Abort { txn: txn_of(e.txn) }),
        }
    }

    /// Returns the event with these entries in place of those in the line, which only a scan has.
    pub fn with_entries<'b>(&self, entries: Listed<'b>) -> EventView<'b>
        ensures event { view_of result ≡ showing (entries_of entries.entry) (view self.now) }
        ensures same { entries_of entries.entry ≡ entries_in (view self.now) → view_of result ≡ view self.now }
    {
        match self {
            EventRef::Write(w) => {
                let Version { key, txn, m } = w.version.version();
                EventView::Write {
                    txn,
                    key,
                    m,
                    value: Value::from_valid(w.value),
                }
            }
            EventRef::Delete(d) => {
                let Version { key, txn, m } = d.version.version();
                EventView::Delete { txn, key, m }
            }
            EventRef::Read(r) => EventView::Read {
                txn: txn_of(r.txn),
                version: r.version.version(),
                value: Value::from_valid(r.value),
            },
            EventRef::Scan(s) => EventView::Scan {
                txn: txn_of(s.txn),
                low: Key::from_valid(s.low),
                high: Key::from_valid(s.high),
                entries,
            },
            EventRef::Commit(e) => EventView::Commit { txn: txn_of(e.txn) },
            EventRef::Abort(e) => EventView::Abort { txn: txn_of(e.txn) },
        }
    }
}

impl<'a> ScanRef<'a> {
    ghost use Rattle.adya_line.specs.Computing.Reading.{entries_of};
    ghost use Rattle.adya_line.specs.Mirror.{entries_left};

    /// Walks the entries, in the order of the line.
    pub fn entries(&self) -> Entries<'a>
        ensures { entries_left result ≡ entries_of self.now.listed.now }
    {
        Entries::new(self.listed)
    }
}

fn txn_of(number: u32) -> Txn
    requires { IsTxn number }
    ensures { result ≡ number }
{
    Txn::new(u64::from(number)).unwrap()
}
