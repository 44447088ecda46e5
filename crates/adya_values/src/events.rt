//! Lists of events.

ghost use Rattle.std.specs.Prelude.{◌≡◌, ◌<◌, ◌^◌, ◌++◌, ◌∷◌, ◌+◌, ℕ, [], true, Some, IsOk, IfOk, OnOk, OnErr};
ghost use Rattle.std.specs.List.{list_all};
ghost use Rattle.adya_values.specs.Machinery.Packed.{entry_count, is_row_of};

use crate::arena::{Arena, Row};
use crate::{
    Entry, Event, EventView, Key, Listed, Mod, NumberedVersion, Observed, Seen, Txn, Version,
};
use std::alloc::{AllocError, Global};

/// Events in the order in which they happened, packed: a row of a fixed size for each, and beside the rows each key once, the bytes
/// of all values and what scans list.
#[derive(Drop)]
pub struct Events {
    arena: Arena,
    rows: Vec<Row>,
    ghost valid: { list_all (is_row_of arena) rows.items ≡ true },
}

impl Events {
    ghost use Rattle.std.specs.Prelude.{map, length, slice_get, option_map};
    ghost use Rattle.std.specs.Prelude.{false, is_some, option_and_then, slice_index_or, IfSome, MatchOption};
    ghost use Rattle.adya_values.specs.Meaning.Events.{aborts, commit_of, observed, shown, txn_of, written};
    ghost use Rattle.adya_values.specs.Computing.Faults.{is_entry};
    ghost use Rattle.adya_values.specs.Meaning.Histories.{Abort, Commit, Delete, Read, Scan, Write};
    ghost use Rattle.adya_keys.specs.Meaning.Keys.{is_key, is_value, key_lt};
    ghost use Rattle.adya_values.specs.Mirror.Numbers.{bounds, both_at, has_seen, keys_of, seen_entry, seen_in, version_in};
    ghost use Rattle.adya_keys.specs.Mirror.{number_in, AreNumbered};
    ghost use Rattle.adya_keys.specs.Machinery.Within.{key_at};
    ghost use Rattle.adya_values.specs.Mirror.Events.{entries_of, entry_of, event_of, event_of_row, view_of, events_of, HasRows, HasRoomFor};

    /// Makes a list of no events. It takes no memory.
    pub fn new(alloc: Global) -> Events
        ensures { events_of result ≡ [] }
    {
        Events {
            arena: Arena::new(alloc),
            rows: Vec::new(alloc),
        }
    }

    /// Adds an event at the end. If memory is refused, the list has the same events as before. None is refused if
    /// [`reserve`](Events::reserve) has made room.
    pub fn push(&mut self, event: &EventView<'_>) -> Result<(), AllocError>
        ensures ok { OnOk result (events_of self.new ≡ events_of self.old ++ view_of event.now ∷ []) }
        ensures err { OnErr result (events_of self.new ≡ events_of self.old) }
        ensures fits { HasRows self.old 1 → HasRoomFor self.old (entry_count (view_of event.now)) → IsOk result }
        ensures rows { (n : ℕ) → HasRows self.old (n + 1) → HasRows self.new n }
    {
        let row = self.arena.keep(event)?;
        self.add(row)
    }

    /// Adds an event that has its list for itself, as [`push`](Events::push) does.
    pub fn push_owned(&mut self, event: &Event) -> Result<(), AllocError>
        ensures ok { OnOk result (events_of self.new ≡ events_of self.old ++ event_of event.now ∷ []) }
        ensures err { OnErr result (events_of self.new ≡ events_of self.old) }
        ensures fits { HasRows self.old 1 → HasRoomFor self.old (entry_count (event_of event.now)) → IsOk result }
        ensures rows { (n : ℕ) → HasRows self.old (n + 1) → HasRows self.new n }
    {
        let row = self.arena.keep_owned(event)?;
        self.add(row)
    }

    /// Adds the transaction's write of a key, as [`push`](Events::push) does. The bytes form a key and a value.
    pub fn push_write(
        &mut self,
        txn: Txn,
        key: &[u8],
        m: Mod,
        value: &[u8],
    ) -> Result<(), AllocError>
        requires key { is_key key.now ≡ true }
        requires value { is_value value.now ≡ true }
        ensures ok { OnOk result (events_of self.new ≡ events_of self.old ++ Write txn key.now m value.now ∷ []) }
        ensures err { OnErr result (events_of self.new ≡ events_of self.old) }
        ensures fits { HasRows self.old 1 → HasRoomFor self.old 0 → IsOk result }
        ensures rows { (n : ℕ) → HasRows self.old (n + 1) → HasRows self.new n }
    {
        let row = self.arena.keep_write(txn, key, m, value)?;
        self.add(row)
    }

    /// Adds the transaction's delete of a key, as [`push`](Events::push) does. The bytes form a key.
    pub fn push_delete(&mut self, txn: Txn, key: &[u8], m: Mod) -> Result<(), AllocError>
        requires { is_key key.now ≡ true }
        ensures ok { OnOk result (events_of self.new ≡ events_of self.old ++ Delete txn key.now m ∷ []) }
        ensures err { OnErr result (events_of self.new ≡ events_of self.old) }
        ensures fits { HasRows self.old 1 → HasRoomFor self.old 0 → IsOk result }
        ensures rows { (n : ℕ) → HasRows self.old (n + 1) → HasRows self.new n }
    {
        let row = self.arena.keep_delete(txn, key, m)?;
        self.add(row)
    }

    /// Adds the transaction's read of a version, as [`push`](Events::push) does. The bytes form a key and a value.
    pub fn push_read(
        &mut self,
        txn: Txn,
        key: &[u8],
        writer: Txn,
        m: Mod,
        value: &[u8],
    ) -> Result<(), AllocError>
        requires key { is_key key.now ≡ true }
        requires value { is_value value.now ≡ true }
        ensures ok { OnOk result (events_of self.new
            ≡ events_of self.old ++ Read txn (record { key = key.now; txn = writer; m = m }) value.now ∷ []) }
        ensures err { OnErr result (events_of self.new ≡ events_of self.old) }
        ensures fits { HasRows self.old 1 → HasRoomFor self.old 0 → IsOk result }
        ensures rows { (n : ℕ) → HasRows self.old (n + 1) → HasRows self.new n }
    {
        let row = self.arena.keep_read(txn, key, writer, m, value)?;
        self.add(row)
    }

    /// Adds the transaction's scan of a range of keys, as [`push`](Events::push) does. The bytes form keys.
    pub fn push_scan(
        &mut self,
        txn: Txn,
        low: &[u8],
        high: &[u8],
        entries: &Listed<'_>,
    ) -> Result<(), AllocError>
        requires low { is_key low.now ≡ true }
        requires high { is_key high.now ≡ true }
        ensures ok { OnOk result (events_of self.new ≡ events_of self.old ++ Scan txn low.now high.now (entries_of entries.now) ∷ []) }
        ensures err { OnErr result (events_of self.new ≡ events_of self.old) }
        ensures fits { HasRows self.old 1 → HasRoomFor self.old (length (entries_of entries.now)) → IsOk result }
        ensures rows { (n : ℕ) → HasRows self.old (n + 1) → HasRows self.new n }
    {
        let row = self.arena.keep_scan(txn, low, high, entries)?;
        self.add(row)
    }

    fn add(&mut self, row: Row) -> Result<(), AllocError>
        requires { is_row_of self.old.arena row ≡ true }
        ensures ok { OnOk result (events_of self.new ≡ events_of self.old ++ event_of_row self.old.arena row ∷ []) }
        ensures err { OnErr result (events_of self.new ≡ events_of self.old) }
        ensures fits { HasRows self.old 1 → IsOk result }
        ensures rows { (n : ℕ) → HasRows self.old (n + 1) → HasRows self.new n }
    {
        self.rows.push(row)?;
        Ok(())
    }

    /// Adds the transaction's commit at the end. There is room for its row, and it needs no other.
    pub fn commit(&mut self, txn: Txn)
        requires { HasRows self.old 1 }
        ensures events { events_of self.new ≡ events_of self.old ++ Commit txn ∷ [] }
        ensures rows { (n : ℕ) → HasRows self.old (n + 1) → HasRows self.new n }
    {
        self.rows.push_reserved(Row::Commit { txn });
    }

    /// Adds the transaction's abort at the end. There is room for its row, and it needs no other.
    pub fn abort(&mut self, txn: Txn)
        requires { HasRows self.old 1 }
        ensures events { events_of self.new ≡ events_of self.old ++ Abort txn ∷ [] }
        ensures rows { (n : ℕ) → HasRows self.old (n + 1) → HasRows self.new n }
    {
        self.rows.push_reserved(Row::Abort { txn });
    }

    /// Makes room for so many more rows, and for what one event holds that lists no more than so many entries. The events
    /// stay, also if memory is refused.
    pub fn reserve(&mut self, rows: usize, entries: usize) -> Result<(), AllocError>
        ensures same { events_of self.new ≡ events_of self.old }
        ensures rows { OnOk result (HasRows self.new rows) }
        ensures room { OnOk result (HasRoomFor self.new entries) }
        ensures kept { (n : ℕ) → HasRows self.old n → HasRows self.new n }
    {
        self.rows.reserve(rows)?;
        self.arena.reserve(entries)
    }

    /// Returns a list of the same events.
    pub fn copy(&self, alloc: Global) -> Result<Events, AllocError>
        ensures { IfOk result (λ es. events_of es ≡ events_of self.now) }
    {
        let arena = self.arena.copy(alloc)?;
        let rows = Vec::from_slice(alloc, &self.rows)?;
        Ok(Events { arena, rows })
    }

    /// Returns how many events there are.
    #[inline(always)]
    pub fn len(&self) -> usize
        ensures length { result ≡ length (events_of self.now) }
        ensures near { result < 2 ^ 60 }
    {
        self.rows.as_slice().len()
    }

    /// Returns the row at the index, if there is one.
    #[inline(always)]
    fn row(&self, i: usize) -> Option<Row>
        ensures event { option_map (event_of_row self.now.arena) result ≡ slice_get (events_of self.now) i }
        ensures there { IfSome result (λ r. is_row_of self.now.arena r ≡ true) }
    {
        self.rows.get(i).copied()
    }

    /// Returns the row at the index, which is below the length.
    #[inline(always)]
    fn row_at(&self, i: usize) -> Row
        requires { i < length (events_of self.now) }
        ensures event { slice_get (events_of self.now) i ≡ Some (event_of_row self.now.arena result) }
        ensures there { is_row_of self.now.arena result ≡ true }
    {
        self.rows[i]
    }

    /// Returns the event at the index, counted from 0; `None` if the list is no longer than that.
    #[inline(always)]
    pub fn get(&self, i: usize) -> Option<EventView<'_>>
        ensures { option_map view_of result ≡ slice_get (events_of self.now) i }
    {
        match self.row(i) {
            Some(row) => Some(self.arena.event(row)),
            None => None,
        }
    }

    /// Returns the event at the index, counted from 0, which is below the length.
    #[inline(always)]
    pub fn at(&self, i: usize) -> EventView<'_>
        requires { i < length (events_of self.now) }
        ensures { slice_get (events_of self.now) i ≡ Some (view_of result) }
    {
        self.arena.event(self.row_at(i))
    }

    /// Returns the transaction of the event at the index, counted from 0, which is below the length.
    #[inline(always)]
    pub fn txn_at(&self, i: usize) -> Txn
        requires { i < length (events_of self.now) }
        ensures { option_map txn_of (slice_get (events_of self.now) i) ≡ Some result }
    {
        self.arena.txn(self.row_at(i))
    }

    /// Returns whether the event at the index, counted from 0, writes a value.
    #[inline(always)]
    pub fn shows(&self, i: usize) -> bool
        ensures { result ≡ is_some (shown (option_and_then written (slice_get (events_of self.now) i))) }
    {
        match self.row(i) {
            Some(row) => self.arena.shows(row),
            None => false,
        }
    }

    /// Returns the version that the event at the index, counted from 0, writes, by the number of its key; `None` if it writes none or
    /// there is no such event.
    #[inline(always)]
    pub fn numbered_at(&self, i: usize) -> Option<NumberedVersion>
        ensures version { option_map (version_in (keys_of self.now)) result
            ≡ option_map (λ w. w.version) (option_and_then written (slice_get (events_of self.now) i)) }
        ensures there { IfSome result (λ v. v.key < length (keys_of self.now)) }
    {
        match self.row(i) {
            Some(row) => self.arena.numbered(row),
            None => None,
        }
    }

    /// Returns what the event at the index, counted from 0, sees: what it reads, or all that a scan lists. The index is below
    /// the length.
    #[inline(always)]
    pub fn observed(&self, i: usize) -> Observed<'_>
        requires { i < length (events_of self.now) }
        ensures entries { option_map observed (slice_get (events_of self.now) i) ≡ Some (map (seen_entry self.now) (seen_in result)) }
        ensures there { list_all (has_seen self.now) (seen_in result) ≡ true }
    {
        self.arena.observed(self.row_at(i))
    }

    /// Returns the numbers of the bounds of the scan at the index, counted from 0; `None` if the event isn't a scan or there is
    /// no such event.
    #[inline(always)]
    pub fn bounds_at(&self, i: usize) -> Option<(u32, u32)>
        ensures keys { option_map (both_at (keys_of self.now)) result ≡ option_and_then bounds (slice_get (events_of self.now) i) }
        ensures there { IfSome result (λ b. (b.0 < length (keys_of self.now)) × (b.1 < length (keys_of self.now))) }
    {
        match self.row(i) {
            Some(row) => self.arena.bounds(row),
            None => None,
        }
    }

    /// Returns whether the event at the index, counted from 0, writes the version that an event of the list sees, with its content.
    #[inline(always)]
    pub fn wrote(&self, i: usize, seen: &Seen) -> bool
        requires { has_seen self.now seen.now ≡ true }
        ensures { result ≡ is_entry (option_and_then written (slice_get (events_of self.now) i)) (seen_entry self.now seen.now) }
    {
        match self.row(i) {
            Some(row) => self.arena.wrote(row, seen),
            None => false,
        }
    }

    /// Returns the entry that an event of the list sees.
    #[inline(always)]
    pub fn entry(&self, seen: &Seen) -> Entry
        requires { has_seen self.now seen.now ≡ true }
        ensures { entry_of result ≡ seen_entry self.now seen.now }
    {
        self.arena.entry(seen)
    }

    /// Returns the version whose key the number says.
    #[inline(always)]
    pub fn version(&self, version: NumberedVersion) -> Version
        requires { version.key < length (keys_of self.now) }
        ensures { result ≡ version_in (keys_of self.now) version }
    {
        self.arena.version_of(version)
    }

    /// Returns how many keys have numbers. Each key that an event names has one of its own; they go from 0 on.
    #[inline(always)]
    pub fn key_count(&self) -> usize
        ensures count { result ≡ length (keys_of self.now) }
        ensures near { result < 2 ^ 32 }
        ensures numbered { AreNumbered (keys_of self.now) }
    {
        self.arena.key_count()
    }

    /// Returns the key with the number.
    #[inline(always)]
    pub fn key(&self, number: u32) -> Key
        requires { number < length (keys_of self.now) }
        ensures { result ≡ key_at (keys_of self.now) number }
    {
        self.arena.key(number)
    }

    /// Returns whether the one key is below the other, by their numbers.
    #[inline(always)]
    pub fn is_below(&self, low: u32, high: u32) -> bool
        requires low { low < length (keys_of self.now) }
        requires high { high < length (keys_of self.now) }
        ensures { result ≡ key_lt (key_at (keys_of self.now) low) (key_at (keys_of self.now) high) }
    {
        self.arena.is_below(low, high)
    }

    /// Returns the key with the number; the other key if no key has the number.
    #[inline(always)]
    pub fn key_or(&self, number: u32, other: Key) -> Key
        ensures { result ≡ slice_index_or (keys_of self.now) number other }
    {
        self.arena.key_or(number, other)
    }

    /// Returns the number of the key; `None` if it has none, and then no event names it.
    #[inline(always)]
    pub fn number_of(&self, key: Key) -> Option<u32>
        ensures number { result ≡ number_in (keys_of self.now) key }
        ensures there { IfSome result (λ n. n < length (keys_of self.now)) }
    {
        self.arena.number_of(key)
    }

    /// Returns the transaction that the event at the index commits, if it is a commit. The index, counted from 0, is below the
    /// length.
    #[inline(always)]
    pub fn commit_at(&self, i: usize) -> Option<Txn>
        requires { i < length (events_of self.now) }
        ensures { option_and_then commit_of (slice_get (events_of self.now) i) ≡ result }
    {
        match self.row_at(i) {
            Row::Commit { txn } => Some(txn),
            _ => None,
        }
    }

    /// Returns the transaction that the event at the index aborts, if it is an abort. The index, counted from 0, is below the
    /// length.
    #[inline(always)]
    pub fn abort_at(&self, i: usize) -> Option<Txn>
        requires { i < length (events_of self.now) }
        ensures { MatchOption result ((t : ℕ) → option_map (aborts t) (slice_get (events_of self.now) i) ≡ Some false)
            (λ t. slice_get (events_of self.now) i ≡ Some (Abort t)) }
    {
        self.arena.abort(self.row_at(i))
    }
}
