//! Versions and entries whose keys and values are slices of a text.

ghost use Rattle.std.specs.Prelude.{◌≡◌, true};
ghost use Rattle.adya_keys.specs.Meaning.Keys.{is_key, is_value, IsTxn, IsMod};

use crate::{Content, Entry, Key, Mod, Txn, Value, Version};

/// A version whose key is a slice of a text.
#[derive(Clone, Copy)]
pub struct VersionRef<'a> {
    /// The bytes of the key, 1 to 32.
    pub key: &'a [u8],
    /// Who wrote it, from 1 on.
    pub txn: u32,
    /// Which of the writes of this key by this transaction it was, counted from 1.
    pub m: u16,
    pub ghost is_key: { is_key key.now ≡ true },
    pub ghost is_txn: { IsTxn txn },
    pub ghost is_mod: { IsMod m },
}

impl<'a> VersionRef<'a> {
    ghost use Rattle.adya_values.specs.Mirror.Refs.{view_version};

    /// Makes that of the version whose key has these bytes.
    #[inline(always)]
    pub(crate) fn of(key: &'a [u8], txn: Txn, m: Mod) -> VersionRef<'a>
        requires { is_key key.now ≡ true }
        ensures { view_version result ≡ record { key = key.now; txn = txn; m = m } }
    {
        VersionRef {
            key,
            txn: txn.get(),
            m: m.get(),
        }
    }

    /// Returns who wrote it.
    #[inline(always)]
    pub fn writer(&self) -> Txn
        ensures { result ≡ self.now.txn }
    {
        Txn::new(u64::from(self.txn)).unwrap()
    }

    /// Returns which of its writer's writes of the key it is.
    #[inline(always)]
    pub fn modification(&self) -> Mod
        ensures { result ≡ self.now.m }
    {
        Mod::new(u64::from(self.m)).unwrap()
    }

    /// Returns the version by itself.
    #[inline(always)]
    pub fn version(&self) -> Version
        ensures { result ≡ view_version self.now }
    {
        Version {
            key: Key::from_valid(self.key),
            txn: self.writer(),
            m: self.modification(),
        }
    }
}

/// A value that is a slice of a text.
#[derive(Clone, Copy)]
pub struct ValueRef<'a> {
    /// The bytes of the value, 1 to 64.
    pub bytes: &'a [u8],
    pub ghost is_value: { is_value bytes.now ≡ true },
}

/// What a listed version is.
#[derive(Clone, Copy)]
pub enum ContentRef<'a> {
    /// A value.
    Live(ValueRef<'a>),
    /// A dead version, which a delete leaves.
    Dead,
}

/// A version with its content, as a scan lists it, whose key and value are slices of a text.
#[derive(Clone, Copy)]
pub struct EntryRef<'a> {
    /// The version.
    pub version: VersionRef<'a>,
    /// What it is.
    pub content: ContentRef<'a>,
}

impl EntryRef<'_> {
    ghost use Rattle.adya_values.specs.Mirror.Events.{entry_of};
    ghost use Rattle.adya_values.specs.Mirror.Refs.{view_entry};

    /// Returns the entry by itself.
    #[inline(always)]
    pub fn entry(&self) -> Entry
        ensures { entry_of result ≡ view_entry self.now }
    {
        Entry {
            version: self.version.version(),
            content: self.content.content(),
        }
    }
}

impl ContentRef<'_> {
    ghost use Rattle.adya_values.specs.Mirror.Events.{content_of};
    ghost use Rattle.adya_values.specs.Mirror.Refs.{view_content};

    #[inline(always)]
    fn content(&self) -> Content
        ensures { content_of result ≡ view_content self.now }
    {
        match self {
            ContentRef::Live(v) => Content::Live(Value::from_valid(v.bytes)),
            ContentRef::Dead => Content::Dead,
        }
    }
}

impl Entry {
    ghost use Rattle.adya_values.specs.Mirror.Events.{entry_of};
    ghost use Rattle.adya_values.specs.Mirror.Refs.{view_entry};

    /// Returns the entry with slices of its own key and value.
    #[inline(always)]
    pub(crate) fn slices(&self) -> EntryRef<'_>
        ensures { view_entry result ≡ entry_of self.now }
    {
        EntryRef {
            version: VersionRef::of(self.version.key.bytes(), self.version.txn, self.version.m),
            content: match &self.content {
                Content::Live(value) => ContentRef::Live(ValueRef {
                    bytes: value.bytes(),
                }),
                Content::Dead => ContentRef::Dead,
            },
        }
    }
}
