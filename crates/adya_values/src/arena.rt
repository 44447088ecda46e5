//! What events hold, packed: each key once, the bytes of all values one after the other, and what scans list.

ghost use Rattle.std.specs.Prelude.{◌≡◌, ◌<◌, ℕ, true, map, Some, slice_index_or, length, IfOk, OnOk, option_map, is_some, false, IfSome, MatchOption};
ghost use Rattle.adya_keys.specs.Meaning.Keys.{key_lt};
ghost use Rattle.adya_values.specs.Meaning.Histories.{Abort, Live};
ghost use Rattle.adya_values.specs.Meaning.Events.{aborts, observed, shown, txn_of, written};
ghost use Rattle.adya_values.specs.Computing.Faults.{content_eq, is_entry, version_eq};
ghost use Rattle.adya_keys.specs.Machinery.KeyTables.{keys_in};
ghost use Rattle.adya_values.specs.Machinery.Seen.{content_in, is_content, is_part, is_seen};
ghost use Rattle.adya_keys.specs.Machinery.Within.{key_at, part};
ghost use Rattle.std.specs.List.{list_all};

use crate::keeping::make_places;
use crate::{
    Entry, EventView, Key, Listed, MAX_VALUE_LEN, Mod, NumberedVersion, Observed, PackedEntries,
    Seen, Txn, Value, Version,
};
use adya_keys::{KeyTable, MOST_KEYS, Place};
use std::alloc::{AllocError, Global};

/// An event of a list. Of its key it has the number, and of its value the place where the bytes begin and how many there are.
/// The fields stand in such an order that they leave no gap: a row takes 24 bytes.
#[derive(Clone, Copy)]
pub(crate) enum Row {
    Write {
        len: u8,
        m: Mod,
        txn: Txn,
        key: u32,
        at: usize,
    },
    Delete {
        m: Mod,
        txn: Txn,
        key: u32,
    },
    Read {
        len: u8,
        m: Mod,
        txn: Txn,
        writer: Txn,
        key: u32,
        at: usize,
    },
    /// The numbers of the bounds, and which of the entries it lists, which are fewer than 65,536.
    Scan {
        count: u16,
        txn: Txn,
        low: u32,
        high: u32,
        from: usize,
    },
    /// A scan that lists more. The place of its listing says the rest.
    Long {
        txn: Txn,
        listing: usize,
    },
    Commit {
        txn: Txn,
    },
    Abort {
        txn: Txn,
    },
}

/// The numbers of the bounds of a scan, and which of the entries it lists.
#[derive(Clone, Copy)]
pub(crate) struct Listing {
    pub(crate) low: u32,
    pub(crate) high: u32,
    pub(crate) from: usize,
    pub(crate) count: usize,
}

impl Listing {
    ghost use Rattle.adya_values.specs.Machinery.Packed.{listing_of};

    /// Returns that of a scan that is short enough for its row.
    #[inline(always)]
    fn short(low: u32, high: u32, from: usize, count: u16) -> Listing
        ensures { result ≡ listing_of low high from count }
    {
        Listing {
            low,
            high,
            from,
            count: count as usize,
        }
    }
}

/// The keys, each of which has its index for a number, the bytes of values, and what scans list.
#[derive(Drop)]
pub(crate) struct Arena {
    pub(crate) keys: KeyTable,
    pub(crate) bytes: Vec<u8>,
    /// For each key, by its number, where the last value that was added for it begins. Most reads are of this value, and then its
    /// bytes need not be kept twice. Nothing depends on it: what is found there is compared.
    pub(crate) last_values: Vec<u32>,
    pub(crate) listings: Vec<Listing>,
    pub(crate) seen: Vec<Seen>,
    pub ghost there: { list_all (is_seen (length (keys_in keys)) bytes.items) seen.items ≡ true },
}

impl Arena {
    ghost use Rattle.adya_values.specs.Mirror.Events.{entry_of, event_of_row, view_of};
    ghost use Rattle.adya_keys.specs.Mirror.{value_of, number_in};
    ghost use Rattle.adya_values.specs.Mirror.Numbers.{bounds, both_at, seen_in, version_in};
    ghost use Rattle.adya_values.specs.Machinery.Packed.{entry_of_seen, is_row_of, is_listing, is_seen_of, scan_in, HasRoomIn};

    /// Makes an empty arena. It takes no memory.
    pub(crate) fn new(alloc: Global) -> Arena {
        Arena {
            keys: KeyTable::new(alloc),
            bytes: Vec::new(alloc),
            last_values: Vec::new(alloc),
            listings: Vec::new(alloc),
            seen: Vec::new(alloc),
        }
    }

    /// Makes room for what one event holds that lists no more than so many entries. What was there stays, also if memory is
    /// refused, or if there might be more than 4,294,967,295 keys.
    pub(crate) fn reserve(&mut self, entries: usize) -> Result<(), AllocError>
        ensures room { OnOk result (HasRoomIn self.new entries) }
        ensures keys { keys_in self.new.keys ≡ keys_in self.old.keys }
        ensures bytes { self.new.bytes.items ≡ self.old.bytes.items }
        ensures listings { self.new.listings.items ≡ self.old.listings.items }
        ensures seen { self.new.seen.items ≡ self.old.seen.items }
    {
        if entries > MOST_KEYS - 2 {
            return Err(AllocError);
        }
        self.keys.reserve(entries + 2)?;
        make_places(&mut self.last_values, self.keys.len() + entries + 2)?;
        self.bytes.reserve((entries + 1) * MAX_VALUE_LEN)?;
        self.listings.reserve(1)?;
        self.seen.reserve(entries)
    }

    /// Returns an equal arena.
    pub(crate) fn copy(&self, alloc: Global) -> Result<Arena, AllocError>
        ensures keys { IfOk result (λ a. keys_in a.keys ≡ keys_in self.now.keys) }
        ensures bytes { IfOk result (λ a. a.bytes.items ≡ self.now.bytes.items) }
        ensures listings { IfOk result (λ a. a.listings.items ≡ self.now.listings.items) }
        ensures seen { IfOk result (λ a. a.seen.items ≡ self.now.seen.items) }
    {
        Ok(Arena {
            keys: self.keys.copy(alloc)?,
            bytes: Vec::from_slice(alloc, &self.bytes)?,
            last_values: Vec::from_slice(alloc, &self.last_values)?,
            listings: Vec::from_slice(alloc, &self.listings)?,
            seen: Vec::from_slice(alloc, &self.seen)?,
        })
    }

    /// Returns the event of the row.
    #[inline(always)]
    pub(crate) fn event(&self, row: Row) -> EventView<'_>
        requires { is_row_of self.now row ≡ true }
        ensures { view_of result ≡ event_of_row self.now row }
    {
        match row {
            Row::Write {
                txn,
                m,
                key,
                at,
                len,
            } => EventView::Write {
                txn,
                key: self.key(key),
                m,
                value: self.value(at, len),
            },
            Row::Delete { txn, m, key } => EventView::Delete {
                txn,
                key: self.key(key),
                m,
            },
            Row::Read {
                txn,
                writer,
                m,
                key,
                at,
                len,
            } => EventView::Read {
                txn,
                version: Version {
                    key: self.key(key),
                    txn: writer,
                    m,
                },
                value: self.value(at, len),
            },
            Row::Scan {
                count,
                txn,
                low,
                high,
                from,
            } => self.scan(txn, Listing::short(low, high, from, count)),
            Row::Long { txn, listing } => self.scan(txn, self.listings[listing]),
            Row::Commit { txn } => EventView::Commit { txn },
            Row::Abort { txn } => EventView::Abort { txn },
        }
    }

    /// Returns the transaction of the event of the row.
    #[inline(always)]
    pub(crate) fn txn(&self, row: Row) -> Txn
        requires { is_row_of self.now row ≡ true }
        ensures { result ≡ txn_of (event_of_row self.now row) }
    {
        match row {
            Row::Write { txn, .. } => txn,
            Row::Delete { txn, .. } => txn,
            Row::Read { txn, .. } => txn,
            Row::Scan { txn, .. } => txn,
            Row::Long { txn, .. } => txn,
            Row::Commit { txn } => txn,
            Row::Abort { txn } => txn,
        }
    }

    /// Returns the transaction that the event of the row aborts, if it is an abort.
    #[inline(always)]
    pub(crate) fn abort(&self, row: Row) -> Option<Txn>
        requires { is_row_of self.now row ≡ true }
        ensures { MatchOption result ((t : ℕ) → aborts t (event_of_row self.now row) ≡ false) (λ t. event_of_row self.now row ≡ Abort t) }
    {
        match row {
            Row::Abort { txn } => Some(txn),
            Row::Write { .. } => None,
            Row::Delete { .. } => None,
            Row::Read { .. } => None,
            Row::Scan { .. } => None,
            Row::Long { .. } => None,
            Row::Commit { .. } => None,
        }
    }

    /// Returns whether the event of the row writes a value.
    #[inline(always)]
    pub(crate) fn shows(&self, row: Row) -> bool
        requires { is_row_of self.now row ≡ true }
        ensures { result ≡ is_some (shown (written (event_of_row self.now row))) }
    {
        match row {
            Row::Write { .. } => true,
            Row::Delete { .. } => false,
            Row::Read { .. } => false,
            Row::Scan { .. } => false,
            Row::Long { .. } => false,
            Row::Commit { .. } => false,
            Row::Abort { .. } => false,
        }
    }

    /// Returns the version that the event of the row writes, by the number of its key.
    #[inline(always)]
    pub(crate) fn numbered(&self, row: Row) -> Option<NumberedVersion>
        requires { is_row_of self.now row ≡ true }
        ensures version { option_map (version_in (keys_in self.now.keys)) result ≡ option_map (λ w. w.version) (written (event_of_row self.now row)) }
        ensures there { IfSome result (λ v. v.key < length (keys_in self.now.keys)) }
    {
        match row {
            Row::Write { txn, m, key, .. } => Some(NumberedVersion { key, txn, m }),
            Row::Delete { txn, m, key } => Some(NumberedVersion { key, txn, m }),
            Row::Read { .. } => None,
            Row::Scan { .. } => None,
            Row::Long { .. } => None,
            Row::Commit { .. } => None,
            Row::Abort { .. } => None,
        }
    }

    /// Returns what the event of the row sees.
    #[inline(always)]
    pub(crate) fn observed(&self, row: Row) -> Observed<'_>
        requires { is_row_of self.now row ≡ true }
        ensures entries { map (entry_of_seen self.now) (seen_in result) ≡ observed (event_of_row self.now row) }
        ensures there { list_all (is_seen_of self.now) (seen_in result) ≡ true }
    {
        match row {
            Row::Read {
                len,
                m,
                writer,
                key,
                at,
                ..
            } => Observed::One([Seen {
                len,
                m,
                txn: writer,
                key,
                at: Place::new(at),
            }]),
            Row::Scan {
                count,
                low,
                high,
                from,
                ..
            } => Observed::Many(self.listed(Listing::short(low, high, from, count))),
            Row::Long { listing, .. } => Observed::Many(self.listed(self.listings[listing])),
            Row::Write { .. } => Observed::Many(&[]),
            Row::Delete { .. } => Observed::Many(&[]),
            Row::Commit { .. } => Observed::Many(&[]),
            Row::Abort { .. } => Observed::Many(&[]),
        }
    }

    /// Returns the numbers of the bounds of the scan, if the row is that of one.
    #[inline(always)]
    pub(crate) fn bounds(&self, row: Row) -> Option<(u32, u32)>
        requires { is_row_of self.now row ≡ true }
        ensures keys { option_map (both_at (keys_in self.now.keys)) result ≡ bounds (event_of_row self.now row) }
        ensures there { IfSome result (λ b. (b.0 < length (keys_in self.now.keys)) × (b.1 < length (keys_in self.now.keys))) }
    {
        match row {
            Row::Scan { low, high, .. } => Some((low, high)),
            Row::Long { listing, .. } => {
                let Listing { low, high, .. } = self.listings[listing];
                Some((low, high))
            }
            Row::Write { .. } => None,
            Row::Delete { .. } => None,
            Row::Read { .. } => None,
            Row::Commit { .. } => None,
            Row::Abort { .. } => None,
        }
    }

    /// Returns whether the event of the row writes the version that is seen with its content.
    #[inline(always)]
    pub(crate) fn wrote(&self, row: Row, seen: &Seen) -> bool
        requires row { is_row_of self.now row ≡ true }
        requires seen { is_seen_of self.now seen.now ≡ true }
        ensures { result ≡ is_entry (written (event_of_row self.now row)) (entry_of_seen self.now seen.now) }
    {
        match row {
            Row::Write {
                txn,
                m,
                key,
                at,
                len,
            } => {
                self.is_version(NumberedVersion { key, txn, m }, seen)
                    && self.is_content(at, len, seen)
            }
            Row::Delete { txn, m, key } => {
                self.is_version(NumberedVersion { key, txn, m }, seen) && seen.is_dead()
            }
            Row::Read { .. } => false,
            Row::Scan { .. } => false,
            Row::Long { .. } => false,
            Row::Commit { .. } => false,
            Row::Abort { .. } => false,
        }
    }

    #[inline(always)]
    fn is_version(&self, version: NumberedVersion, seen: &Seen) -> bool
        requires version { version.key < length (keys_in self.now.keys) }
        requires seen { is_seen_of self.now seen.now ≡ true }
        ensures { result ≡ version_eq (version_in (keys_in self.now.keys) version) (entry_of_seen self.now seen.now).version }
    {
        version == seen.version()
    }

    #[inline(always)]
    fn is_content(&self, at: usize, len: u8, seen: &Seen) -> bool
        requires value { is_part self.now.bytes.items at len ≡ true }
        requires seen { is_content self.now.bytes.items seen.now.at seen.now.len ≡ true }
        ensures { result ≡ content_eq (Live (part at len self.now.bytes.items)) (content_in self.now.bytes.items seen.now.at seen.now.len) }
    {
        if seen.is_dead() {
            return false;
        }
        let place = seen.at.get();
        if at == place && len == seen.len {
            return true;
        }
        &self.bytes[at..at + len as usize] == &self.bytes[place..place + seen.len as usize]
    }

    /// Returns the entry that is seen.
    #[inline(always)]
    pub(crate) fn entry(&self, seen: &Seen) -> Entry
        requires { is_seen_of self.now seen.now ≡ true }
        ensures { entry_of result ≡ entry_of_seen self.now seen.now }
    {
        seen.slices(&self.keys, &self.bytes).entry()
    }

    /// Returns how many keys there are.
    #[inline(always)]
    pub(crate) fn key_count(&self) -> usize
        ensures { result ≡ length (keys_in self.now.keys) }
    {
        self.keys.len()
    }

    /// Returns the number of the key.
    #[inline(always)]
    pub(crate) fn number_of(&self, key: Key) -> Option<u32>
        ensures number { result ≡ number_in (keys_in self.now.keys) key }
        ensures there { IfSome result (λ n. n < length (keys_in self.now.keys)) }
    {
        self.keys.number_of(key.bytes())
    }

    /// Returns the version.
    #[inline(always)]
    pub(crate) fn version_of(&self, version: NumberedVersion) -> Version
        requires { version.key < length (keys_in self.now.keys) }
        ensures { result ≡ version_in (keys_in self.now.keys) version }
    {
        Version {
            key: self.key(version.key),
            txn: version.txn,
            m: version.m,
        }
    }

    /// Returns the key with the number.
    #[inline(always)]
    pub(crate) fn key(&self, number: u32) -> Key
        requires { number < length (keys_in self.now.keys) }
        ensures { result ≡ key_at (keys_in self.now.keys) number }
    {
        self.keys.key(number)
    }

    /// Returns whether the one key is below the other, by their numbers.
    #[inline(always)]
    pub(crate) fn is_below(&self, low: u32, high: u32) -> bool
        requires low { low < length (keys_in self.now.keys) }
        requires high { high < length (keys_in self.now.keys) }
        ensures { result ≡ key_lt (key_at (keys_in self.now.keys) low) (key_at (keys_in self.now.keys) high) }
    {
        self.keys.is_below(low, high)
    }

    /// Returns the key with the number; the other key if no key has the number.
    #[inline(always)]
    pub(crate) fn key_or(&self, number: u32, other: Key) -> Key
        ensures { result ≡ slice_index_or (keys_in self.now.keys) number other }
    {
        if number as usize >= self.keys.len() {
            return other;
        }
        self.keys.key(number)
    }

    #[inline(always)]
    fn value(&self, at: usize, len: u8) -> Value
        requires { is_part self.now.bytes.items at len ≡ true }
        ensures { value_of result ≡ part at len self.now.bytes.items }
    {
        Value::from_valid(&self.bytes[at..at + len as usize])
    }

    #[inline(always)]
    fn scan(&self, txn: Txn, listing: Listing) -> EventView<'_>
        requires { is_listing (length (keys_in self.now.keys)) (length self.now.seen.items) (Some listing) ≡ true }
        ensures { view_of result ≡ scan_in (keys_in self.now.keys) (map (entry_of_seen self.now) self.now.seen.items) txn (Some listing) }
    {
        EventView::Scan {
            txn,
            low: self.key(listing.low),
            high: self.key(listing.high),
            entries: Listed::Packed(PackedEntries {
                keys: &self.keys,
                bytes: &self.bytes,
                seen: self.listed(listing),
            }),
        }
    }

    /// Returns what the listing lists.
    #[inline(always)]
    fn listed(&self, listing: Listing) -> &[Seen]
        requires { is_listing (length (keys_in self.now.keys)) (length self.now.seen.items) (Some listing) ≡ true }
        ensures seen { result.now ≡ part listing.from listing.count self.now.seen.items }
        ensures there { list_all (is_seen_of self.now) result.now ≡ true }
    {
        &self.seen[listing.from..listing.from + listing.count]
    }
}
