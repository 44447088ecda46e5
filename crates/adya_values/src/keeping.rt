//! How what events hold is added to the arena.

ghost use Rattle.std.specs.Prelude.{◌≡◌, ◌≤◌, ◌<◌, ◌+◌, ◌++◌, ◌∷◌, [], ℕ, true, map, Some, slice_get, length, vec_len, vec_capacity, IsOk, IfOk, OnOk};
ghost use Rattle.adya_keys.specs.Meaning.Keys.{is_key, is_value};
ghost use Rattle.adya_values.specs.Meaning.Histories.{Delete, Read, Scan, Write};
ghost use Rattle.adya_keys.specs.Machinery.KeyTables.{keys_in};
ghost use Rattle.adya_values.specs.Machinery.Seen.{content_in, is_content, IsKept};
ghost use Rattle.adya_keys.specs.Machinery.Within.{part, IsFront};

use crate::arena::{Arena, Listing, Row};
use crate::{ContentRef, EntryRef, Event, EventView, Listed, Mod, Seen, Txn, Version};
use adya_keys::Place;
use std::alloc::AllocError;

impl Arena {
    ghost use Rattle.adya_values.specs.Mirror.Refs.{view_content, view_entry};
    ghost use Rattle.adya_values.specs.Mirror.Events.{entries_of, event_of, event_of_row, view_of};
    ghost use Rattle.adya_values.specs.Machinery.Packed.{entry_of_seen, is_row_of, is_listing, is_seen_of, scan_in, entry_count, CanNumber, CanSee, Extends, HasRoomIn};

    /// Keeps what the event holds, and returns its row. If memory is refused, or if there are 4,294,967,295 keys, what was
    /// there is still where it was.
    pub(crate) fn keep(&mut self, event: &EventView<'_>) -> Result<Row, AllocError>
        ensures extends { Extends self.old self.new }
        ensures row { IfOk result (λ r. is_row_of self.new r ≡ true) }
        ensures event { IfOk result (λ r. event_of_row self.new r ≡ view_of event.now) }
        ensures succeeds { HasRoomIn self.old (entry_count (view_of event.now)) → IsOk result }
    {
        match event {
            EventView::Write { txn, key, m, value } => {
                self.keep_write(*txn, key.bytes(), *m, value.bytes())
            }
            EventView::Delete { txn, key, m } => self.keep_delete(*txn, key.bytes(), *m),
            EventView::Read {
                txn,
                version,
                value,
            } => {
                let Version {
                    key,
                    txn: writer,
                    m,
                } = version;
                self.keep_read(*txn, key.bytes(), *writer, *m, value.bytes())
            }
            EventView::Scan {
                txn,
                low,
                high,
                entries,
            } => self.keep_scan(*txn, low.bytes(), high.bytes(), entries),
            EventView::Commit { txn } => Ok(Row::Commit { txn: *txn }),
            EventView::Abort { txn } => Ok(Row::Abort { txn: *txn }),
        }
    }

    /// Keeps what the write holds, as [`keep`](Arena::keep) does.
    pub(crate) fn keep_write(
        &mut self,
        txn: Txn,
        key: &[u8],
        m: Mod,
        value: &[u8],
    ) -> Result<Row, AllocError>
        requires key { is_key key.now ≡ true }
        requires value { is_value value.now ≡ true }
        ensures extends { Extends self.old self.new }
        ensures row { IfOk result (λ r. is_row_of self.new r ≡ true) }
        ensures event { IfOk result (λ r. event_of_row self.new r ≡ Write txn key.now m value.now) }
        ensures succeeds { HasRoomIn self.old 0 → IsOk result }
    {
        let key = self.number(key)?;
        let at = self.add_value(key, value)?;
        Ok(Row::Write {
            txn,
            m,
            key,
            at,
            len: value.len() as u8,
        })
    }

    /// Keeps what the delete holds, as [`keep`](Arena::keep) does.
    pub(crate) fn keep_delete(&mut self, txn: Txn, key: &[u8], m: Mod) -> Result<Row, AllocError>
        requires { is_key key.now ≡ true }
        ensures extends { Extends self.old self.new }
        ensures row { IfOk result (λ r. is_row_of self.new r ≡ true) }
        ensures event { IfOk result (λ r. event_of_row self.new r ≡ Delete txn key.now m) }
        ensures succeeds { HasRoomIn self.old 0 → IsOk result }
    {
        let key = self.number(key)?;
        Ok(Row::Delete { txn, m, key })
    }

    /// Keeps what the read holds, as [`keep`](Arena::keep) does.
    pub(crate) fn keep_read(
        &mut self,
        txn: Txn,
        key: &[u8],
        writer: Txn,
        m: Mod,
        value: &[u8],
    ) -> Result<Row, AllocError>
        requires key { is_key key.now ≡ true }
        requires value { is_value value.now ≡ true }
        ensures extends { Extends self.old self.new }
        ensures row { IfOk result (λ r. is_row_of self.new r ≡ true) }
        ensures event { IfOk result (λ r. event_of_row self.new r ≡ Read txn (record { key = key.now; txn = writer; m = m }) value.now) }
        ensures succeeds { HasRoomIn self.old 0 → IsOk result }
    {
        let key = self.number(key)?;
        let at = self.keep_value(key, value)?;
        Ok(Row::Read {
            txn,
            writer,
            m,
            key,
            at,
            len: value.len() as u8,
        })
    }

    /// Keeps what the scan holds, as [`keep`](Arena::keep) does.
    pub(crate) fn keep_scan(
        &mut self,
        txn: Txn,
        low: &[u8],
        high: &[u8],
        entries: &Listed<'_>,
    ) -> Result<Row, AllocError>
        requires low { is_key low.now ≡ true }
        requires high { is_key high.now ≡ true }
        ensures extends { Extends self.old self.new }
        ensures row { IfOk result (λ r. is_row_of self.new r ≡ true) }
        ensures event { IfOk result (λ r. event_of_row self.new r ≡ Scan txn low.now high.now (entries_of entries.now)) }
        ensures succeeds { HasRoomIn self.old (length (entries_of entries.now)) → IsOk result }
    {
        let listing = self.list(low, high, entries)?;
        self.scan_row(txn, listing)
    }

    /// Keeps what the event holds, as [`keep`](Arena::keep) does.
    pub(crate) fn keep_owned(&mut self, event: &Event) -> Result<Row, AllocError>
        ensures extends { Extends self.old self.new }
        ensures row { IfOk result (λ r. is_row_of self.new r ≡ true) }
        ensures event { IfOk result (λ r. event_of_row self.new r ≡ event_of event.now) }
        ensures succeeds { HasRoomIn self.old (entry_count (event_of event.now)) → IsOk result }
    {
        let Some(view) = Some(event.view()) else {
            unreachable!()
        };
        self.keep(&view)
    }

    /// Returns the number of the key, which it gets if it has none.
    fn number(&mut self, key: &[u8]) -> Result<u32, AllocError>
        requires { is_key key.now ≡ true }
        ensures number { IfOk result (λ n. slice_get (keys_in self.new.keys) n ≡ Some key.now) }
        ensures front { IsFront (keys_in self.old.keys) (keys_in self.new.keys) }
        ensures bytes { self.new.bytes ≡ self.old.bytes }
        ensures listings { self.new.listings ≡ self.old.listings }
        ensures seen { self.new.seen ≡ self.old.seen }
        ensures count { length (keys_in self.new.keys) ≤ length (keys_in self.old.keys) + 1 }
        ensures succeeds { CanNumber self.old.keys (vec_capacity self.old.last_values) 1 → IsOk result }
        ensures room { (n : ℕ) → CanNumber self.old.keys (vec_capacity self.old.last_values) (n + 1)
            → CanNumber self.new.keys (vec_capacity self.new.last_values) n }
    {
        let number = self.keys.number(key)?;
        make_places(&mut self.last_values, self.keys.len())?;
        Ok(number)
    }

    /// Adds a text, and returns its place.
    fn add(&mut self, text: &[u8]) -> Result<usize, AllocError>
        ensures at { IfOk result (λ n. n ≡ length self.old.bytes.items) }
        ensures bytes { OnOk result (self.new.bytes.items ≡ self.old.bytes.items ++ text.now) }
        ensures front { IsFront self.old.bytes.items self.new.bytes.items }
        ensures keys { self.new.keys ≡ self.old.keys }
        ensures listings { self.new.listings ≡ self.old.listings }
        ensures seen { self.new.seen ≡ self.old.seen }
        ensures len { vec_len self.new.bytes ≤ vec_len self.old.bytes + length text.now }
        ensures capacity { vec_capacity self.old.bytes ≤ vec_capacity self.new.bytes }
        ensures places { vec_capacity self.new.last_values ≡ vec_capacity self.old.last_values }
        ensures succeeds { vec_len self.old.bytes + length text.now ≤ vec_capacity self.old.bytes → IsOk result }
    {
        add_to(&mut self.bytes, text)
    }

    /// Adds the value of the key, and returns its place.
    fn add_value(&mut self, key: u32, value: &[u8]) -> Result<usize, AllocError>
        requires { is_value value.now ≡ true }
        ensures kept { IfOk result (λ n. IsKept self.new.bytes.items value.now n (length value.now)) }
        ensures front { IsFront self.old.bytes.items self.new.bytes.items }
        ensures keys { self.new.keys ≡ self.old.keys }
        ensures listings { self.new.listings ≡ self.old.listings }
        ensures seen { self.new.seen ≡ self.old.seen }
        ensures len { vec_len self.new.bytes ≤ vec_len self.old.bytes + 64 }
        ensures capacity { vec_capacity self.old.bytes ≤ vec_capacity self.new.bytes }
        ensures places { vec_capacity self.new.last_values ≡ vec_capacity self.old.last_values }
        ensures succeeds { vec_len self.old.bytes + 64 ≤ vec_capacity self.old.bytes → IsOk result }
    {
        let at = self.add(value)?;
        note(&mut self.last_values, key, at);
        Ok(at)
    }

    /// Returns the place of the value of the key. It isn't added again if the last one that was added for the key begins with it.
    fn keep_value(&mut self, key: u32, value: &[u8]) -> Result<usize, AllocError>
        requires { is_value value.now ≡ true }
        ensures kept { IfOk result (λ n. IsKept self.new.bytes.items value.now n (length value.now)) }
        ensures front { IsFront self.old.bytes.items self.new.bytes.items }
        ensures keys { self.new.keys ≡ self.old.keys }
        ensures listings { self.new.listings ≡ self.old.listings }
        ensures seen { self.new.seen ≡ self.old.seen }
        ensures len { vec_len self.new.bytes ≤ vec_len self.old.bytes + 64 }
        ensures capacity { vec_capacity self.old.bytes ≤ vec_capacity self.new.bytes }
        ensures places { vec_capacity self.new.last_values ≡ vec_capacity self.old.last_values }
        ensures succeeds { vec_len self.old.bytes + 64 ≤ vec_capacity self.old.bytes → IsOk result }
    {
        if let Some(last) = self.last_values.get(key as usize) {
            let at = *last as usize;
            if holds(&self.bytes, at, value) {
                return Ok(at);
            }
        }
        self.add_value(key, value)
    }

    /// Keeps the entry, and returns its row. If memory is refused, what was there is still where it was.
    fn see(&mut self, entry: &EntryRef<'_>) -> Result<Seen, AllocError>
        ensures extends { Extends self.old self.new }
        ensures listings { self.new.listings ≡ self.old.listings }
        ensures seen { self.new.seen ≡ self.old.seen }
        ensures there { IfOk result (λ s. is_seen_of self.new s ≡ true) }
        ensures entry { IfOk result (λ s. entry_of_seen self.new s ≡ view_entry entry.now) }
        ensures succeeds { (n : ℕ) → CanSee self.old (n + 1) → IsOk result × CanSee self.new n }
    {
        let version = &entry.version;
        let key = self.number(version.key)?;
        let (at, len) = self.keep_content(key, &entry.content)?;
        Ok(Seen {
            len,
            m: version.modification(),
            txn: version.writer(),
            key,
            at: Place::new(at),
        })
    }

    /// Keeps the value, if there is one, and returns its place and its length.
    fn keep_content(
        &mut self,
        key: u32,
        content: &ContentRef<'_>,
    ) -> Result<(usize, u8), AllocError>
        ensures kept { IfOk result (λ p. is_content self.new.bytes.items p.0 p.1 ≡ true) }
        ensures content { IfOk result (λ p. content_in self.new.bytes.items p.0 p.1 ≡ view_content content.now) }
        ensures front { IsFront self.old.bytes.items self.new.bytes.items }
        ensures keys { self.new.keys ≡ self.old.keys }
        ensures listings { self.new.listings ≡ self.old.listings }
        ensures seen { self.new.seen ≡ self.old.seen }
        ensures len { vec_len self.new.bytes ≤ vec_len self.old.bytes + 64 }
        ensures capacity { vec_capacity self.old.bytes ≤ vec_capacity self.new.bytes }
        ensures places { vec_capacity self.new.last_values ≡ vec_capacity self.old.last_values }
        ensures succeeds { vec_len self.old.bytes + 64 ≤ vec_capacity self.old.bytes → IsOk result }
    {
        match content {
            ContentRef::Dead => Ok((0, 0)),
            ContentRef::Live(value) => {
                let at = self.keep_value(key, value.bytes)?;
                Ok((at, value.bytes.len() as u8))
            }
        }
    }

    fn add_entry(&mut self, entry: &EntryRef<'_>) -> Result<(), AllocError>
        ensures extends { Extends self.old self.new }
        ensures listings { self.new.listings ≡ self.old.listings }
        ensures entries { OnOk result (map (entry_of_seen self.new) self.new.seen.items
            ≡ map (entry_of_seen self.old) self.old.seen.items ++ view_entry entry.now ∷ []) }
        ensures succeeds { (n : ℕ) → CanSee self.old (n + 1) → IsOk result × CanSee self.new n }
    {
        let seen = self.see(entry)?;
        self.seen.push(seen)?;
        Ok(())
    }

    fn add_entries(&mut self, entries: &Listed<'_>) -> Result<(), AllocError>
        ensures extends { Extends self.old self.new }
        ensures listings { self.new.listings ≡ self.old.listings }
        ensures entries { OnOk result (map (entry_of_seen self.new) self.new.seen.items
            ≡ map (entry_of_seen self.old) self.old.seen.items ++ entries_of entries.now) }
        ensures succeeds { CanSee self.old (length (entries_of entries.now)) → IsOk result }
    {
        for j in 0..entries.len() {
            self.add_entry(&entries.slices_at(j))?;
        }
        Ok(())
    }

    /// Adds the entries, and returns their listing with these bounds.
    fn list(&mut self, low: &[u8], high: &[u8], entries: &Listed<'_>) -> Result<Listing, AllocError>
        requires low { is_key low.now ≡ true }
        requires high { is_key high.now ≡ true }
        ensures extends { Extends self.old self.new }
        ensures listings { self.new.listings ≡ self.old.listings }
        ensures listed { IfOk result (λ l. is_listing (length (keys_in self.new.keys)) (length self.new.seen.items) (Some l) ≡ true) }
        ensures scan { (t : ℕ) → IfOk result (λ l. scan_in (keys_in self.new.keys) (map (entry_of_seen self.new) self.new.seen.items) t (Some l)
            ≡ Scan t low.now high.now (entries_of entries.now)) }
        ensures succeeds { HasRoomIn self.old (length (entries_of entries.now)) → IsOk result }
    {
        let low = self.number(low)?;
        let high = self.number(high)?;
        let from = self.seen.len();
        self.add_entries(entries)?;
        Ok(Listing {
            low,
            high,
            from,
            count: entries.len(),
        })
    }

    /// Returns the row of the scan. If it lists too many entries for a row, the listing is kept.
    fn scan_row(&mut self, txn: Txn, listing: Listing) -> Result<Row, AllocError>
        requires { is_listing (length (keys_in self.old.keys)) (length self.old.seen.items) (Some listing) ≡ true }
        ensures extends { Extends self.old self.new }
        ensures row { IfOk result (λ r. is_row_of self.new r ≡ true) }
        ensures event { IfOk result (λ r. event_of_row self.new r
            ≡ scan_in (keys_in self.old.keys) (map (entry_of_seen self.old) self.old.seen.items) txn (Some listing)) }
        ensures succeeds { vec_len self.old.listings < vec_capacity self.old.listings → IsOk result }
    {
        if listing.count <= u16::MAX as usize {
            return Ok(Row::Scan {
                count: listing.count as u16,
                txn,
                low: listing.low,
                high: listing.high,
                from: listing.from,
            });
        }
        let place = self.listings.len();
        self.listings.push(listing)?;
        Ok(Row::Long {
            txn,
            listing: place,
        })
    }
}

/// Adds the text to the bytes, and returns its place.
fn add_to(bytes: &mut Vec<u8>, text: &[u8]) -> Result<usize, AllocError>
    ensures at { IfOk result (λ n. n ≡ length bytes.old.items) }
    ensures bytes { OnOk result (bytes.new.items ≡ bytes.old.items ++ text.now) }
    ensures front { IsFront bytes.old.items bytes.new.items }
    ensures len { vec_len bytes.new ≤ vec_len bytes.old + length text.now }
    ensures capacity { vec_capacity bytes.old ≤ vec_capacity bytes.new }
    ensures succeeds { vec_len bytes.old + length text.now ≤ vec_capacity bytes.old → IsOk result }
{
    let at = bytes.len();
    bytes.extend_from_slice(text)?;
    Ok(at)
}

/// Makes a place for the last value of each of so many keys. If memory is refused, those that are there stay.
pub(crate) fn make_places(last_values: &mut Vec<u32>, keys: usize) -> Result<(), AllocError>
    ensures enough { OnOk result (keys ≤ vec_capacity last_values.new) }
    ensures succeeds { keys ≤ vec_capacity last_values.old → IsOk result }
    ensures capacity { vec_capacity last_values.old ≤ vec_capacity last_values.new }
{
    if last_values.len() < keys {
        last_values.resize(keys, 0)?;
    }
    Ok(())
}

/// Notes where the last value of the key begins, if the key has a place for it and 32 bits can say it.
fn note(last_values: &mut Vec<u32>, key: u32, at: usize)
    ensures { vec_capacity last_values.new ≡ vec_capacity last_values.old }
{
    let Ok(at) = u32::try_from(at) else {
        return;
    };
    if let Some(place) = last_values.get_mut(key as usize) {
        *place = at;
    }
}

/// Returns whether the text is in the bytes at the place.
#[inline(always)]
fn holds(bytes: &[u8], at: usize, text: &[u8]) -> bool
    ensures { result ≡ true → (at + length text.now ≤ length bytes.now) × (part at (length text.now) bytes.now ≡ text.now) }
{
    match bytes.get(at..at.saturating_add(text.len())) {
        Some(found) => found == text,
        None => false,
    }
}
