//! What the events of a list see, by the numbers of keys.

ghost use Rattle.std.specs.Prelude.{◌≡◌, ◌==◌, length, true};
ghost use Rattle.adya_values.specs.Machinery.Seen.{content_in, entry_in, is_content, is_seen};

use crate::{ContentRef, EntryRef, Mod, NumberedVersion, Txn, ValueRef, VersionRef};
use adya_keys::{KeyTable, Place};

/// An entry that an event of a list sees, packed. Of its key it has the number, and of its value the place where the bytes
/// begin and how many there are; a dead version has none. The list says the rest. It takes 20 bytes.
#[derive(Clone, Copy)]
pub struct Seen {
    pub(crate) len: u8,
    /// The number of the write among its transaction's writes and deletes of the key, counted from 1.
    pub m: Mod,
    /// The transaction that wrote it.
    pub txn: Txn,
    /// The number of the key.
    pub key: u32,
    pub(crate) at: Place,
}

impl Seen {
    ghost use Rattle.adya_keys.specs.Machinery.KeyTables.{keys_in};
    ghost use Rattle.adya_values.specs.Mirror.Refs.{view_content, view_entry};

    /// Returns the version, by the number of its key.
    #[inline(always)]
    pub fn version(&self) -> NumberedVersion
        ensures { result ≡ record { key = self.now.key; txn = self.now.txn; m = self.now.m } }
    {
        NumberedVersion {
            key: self.key,
            txn: self.txn,
            m: self.m,
        }
    }

    /// Returns whether the version is dead.
    #[inline(always)]
    pub(crate) fn is_dead(&self) -> bool
        ensures { result ≡ (self.now.len == 0) }
    {
        self.len == 0
    }

    /// Returns the entry, given the keys and the bytes of all values.
    #[inline(always)]
    pub(crate) fn slices<'a>(&self, keys: &'a KeyTable, bytes: &'a [u8]) -> EntryRef<'a>
        requires { is_seen (length (keys_in keys.now)) bytes.now self.now ≡ true }
        ensures { view_entry result ≡ entry_in (keys_in keys.now) bytes.now self.now }
    {
        EntryRef {
            version: VersionRef::of(keys.text(self.key), self.txn, self.m),
            content: self.content(bytes),
        }
    }

    #[inline(always)]
    fn content<'a>(&self, bytes: &'a [u8]) -> ContentRef<'a>
        requires { is_content bytes.now self.now.at self.now.len ≡ true }
        ensures { view_content result ≡ content_in bytes.now self.now.at self.now.len }
    {
        if self.len == 0 {
            return ContentRef::Dead;
        }
        let at = self.at.get();
        ContentRef::Live(ValueRef {
            bytes: &bytes[at..at + self.len as usize],
        })
    }
}

/// What an event sees: the entry that it reads, or all that a scan lists.
#[derive(Clone, Copy)]
pub enum Observed<'a> {
    /// An entry.
    One([Seen; 1]),
    /// So many entries, or none.
    Many(&'a [Seen]),
}

impl Observed<'_> {
    ghost use Rattle.adya_values.specs.Mirror.Numbers.{seen_in};

    /// Returns the entries, packed.
    #[inline(always)]
    pub fn seen(&self) -> &[Seen]
        ensures { result.now ≡ seen_in self.now }
    {
        match self {
            Observed::One(seen) => seen,
            Observed::Many(seen) => seen,
        }
    }
}
