//! What scans list, as a list or packed.

ghost use Rattle.std.specs.Prelude.{◌≡◌, ◌<◌, true, Some, length, option_map, slice_get};
ghost use Rattle.std.specs.List.{list_all};
ghost use Rattle.adya_keys.specs.Machinery.KeyTables.{keys_in};
ghost use Rattle.adya_values.specs.Machinery.Seen.{entry_in, is_seen};

use crate::{Entry, EntryRef, Seen};
use adya_keys::KeyTable;

/// Entries that a list of events holds: they name the keys by their numbers, and places in the bytes of all values.
#[derive(Clone, Copy)]
pub struct PackedEntries<'a> {
    pub(crate) keys: &'a KeyTable,
    pub(crate) bytes: &'a [u8],
    pub(crate) seen: &'a [Seen],
    pub ghost there: { list_all (is_seen (length (keys_in keys.now)) bytes.now) seen.now ≡ true },
}

impl PackedEntries<'_> {
    ghost use Rattle.adya_values.specs.Mirror.Refs.{view_entry};

    /// Returns the entry at the index, counted from 0.
    #[inline(always)]
    fn at(&self, i: usize) -> EntryRef<'_>
        requires { i < length self.now.seen.now }
        ensures { option_map (entry_in (keys_in self.now.keys.now) self.now.bytes.now) (slice_get self.now.seen.now i) ≡ Some (view_entry result) }
    {
        let seen = self.seen[i];
        seen.slices(self.keys, self.bytes)
    }
}

/// What a scan lists.
#[derive(Clone, Copy)]
pub enum Listed<'a> {
    /// A list of entries.
    Plain(&'a [Entry]),
    /// A list of entries whose keys and values are slices of a text.
    Slices(&'a [EntryRef<'a>]),
    /// Entries that a list of events holds.
    Packed(PackedEntries<'a>),
}

impl Listed<'_> {
    ghost use Rattle.adya_values.specs.Mirror.Events.{entries_of, entry_of};
    ghost use Rattle.adya_values.specs.Mirror.Refs.{view_entry};

    /// Returns how many entries there are.
    pub fn len(&self) -> usize
        ensures { result ≡ length (entries_of self.now) }
    {
        match self {
            Listed::Plain(entries) => entries.len(),
            Listed::Slices(entries) => entries.len(),
            Listed::Packed(packed) => packed.seen.len(),
        }
    }

    /// Returns the entry at the index, counted from 0, which is below the length.
    pub fn at(&self, i: usize) -> Entry
        requires { i < length (entries_of self.now) }
        ensures { slice_get (entries_of self.now) i ≡ Some (entry_of result) }
    {
        self.slices_at(i).entry()
    }

    /// Returns the same entry with slices of its key and value.
    #[inline(always)]
    pub(crate) fn slices_at(&self, i: usize) -> EntryRef<'_>
        requires { i < length (entries_of self.now) }
        ensures { slice_get (entries_of self.now) i ≡ Some (view_entry result) }
    {
        match self {
            Listed::Plain(entries) => {
                let Some(entry) = entries.get(i) else {
                    unreachable!()
                };
                entry.slices()
            }
            Listed::Slices(entries) => {
                let Some(entry) = entries.get(i) else {
                    unreachable!()
                };
                *entry
            }
            Listed::Packed(packed) => packed.at(i),
        }
    }
}
