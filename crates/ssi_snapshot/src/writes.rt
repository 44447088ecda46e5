//! What a transaction has written.

ghost use Rattle.std.specs.Prelude.{◌≡◌, [], ◌∷◌, true, map, option_map, OnOk, OnErr, IfOk};
ghost use Rattle.adya_values.specs.Meaning.Events.{listed};
ghost use Rattle.adya_values.specs.Mirror.Events.{entry_of};
ghost use Rattle.ssi_versions.specs.Clauses.Conditions.{AreApart};
ghost use Rattle.ssi_versions.specs.Mirror.{write_of};
ghost use Rattle.ssi_snapshot.specs.Clauses.Writes.{put_write};
ghost use Rattle.ssi_snapshot.specs.Clauses.Listings.{keys};
ghost use Rattle.ssi_snapshot.specs.Machinery.Stored.{are_keyed, write_key, stored_writes, is_keyed, all_writes};

use adya_values::{Content, Entry, Key, Version};
use indexmap::IndexMap;
use std::alloc::{AllocError, Global};
use std::slice::from_ref;

/// The last write of each key, in the order of the first writes of the keys. A single one takes no memory.
#[derive(Drop)]
pub(crate) enum Writes {
    Nothing,
    Single((Version, Content)),
    Several(IndexMap<Key, (Version, Content)>),
}

/// Returns the write, with another one in its place or after it.
fn with_second(
    alloc: Global,
    first: &(Version, Content),
    write: &(Version, Content),
) -> Result<Writes, AllocError>
    ensures written { IfOk result (λ ws. map write_of (all_writes ws) ≡ put_write (write_of write.now) (write_of first.now ∷ [])) }
    ensures keyed { IfOk result (λ ws. is_keyed ws ≡ true) }
{
    if first.0.key == write.0.key {
        return Ok(Writes::Single(*write));
    }
    let mut writes = IndexMap::new(alloc);
    writes.insert(first.0.key, *first)?;
    writes.insert(write.0.key, *write)?;
    Ok(Writes::Several(writes))
}

/// Returns the write, if it is of the key.
fn single_of(write: &(Version, Content), key: Key) -> Option<Entry>
    ensures { option_map entry_of result ≡ listed key (write_of write.now ∷ []) }
{
    let &(version, content) = write;
    if version.key != key {
        return None;
    }
    Some(Entry { version, content })
}

/// Returns the write of the key.
fn several_of(writes: &IndexMap<Key, (Version, Content)>, key: Key) -> Option<Entry>
    requires { are_keyed write_key writes.now.entries ≡ true }
    ensures { option_map entry_of result ≡ listed key (stored_writes writes.now.entries) }
{
    match writes.get(&key) {
        Some(&(version, content)) => Some(Entry { version, content }),
        None => None,
    }
}

impl Writes {
    /// Puts the write in the place of the one of its key, or at the end if there is none. Returns an error if memory runs
    /// out; all is as before then.
    pub(crate) fn put(
        &mut self,
        alloc: Global,
        write: &(Version, Content),
    ) -> Result<(), AllocError>
        requires { is_keyed self.old ≡ true }
        ensures written { OnOk result (map write_of (all_writes self.new)
            ≡ put_write (write_of write.now) (map write_of (all_writes self.old))) }
        ensures keyed { is_keyed self.new ≡ true }
        ensures err { OnErr result (map write_of (all_writes self.new) ≡ map write_of (all_writes self.old)) }
    {
        let writes = match self {
            Writes::Nothing => Writes::Single(*write),
            Writes::Single(first) => with_second(alloc, first, write)?,
            Writes::Several(writes) => {
                writes.insert(write.0.key, *write)?;
                return Ok(());
            }
        };
        *self = writes;
        Ok(())
    }

    /// Returns the write of the key.
    pub(crate) fn get(&self, key: Key) -> Option<Entry>
        requires { is_keyed self.now ≡ true }
        ensures { option_map entry_of result ≡ listed key (map write_of (all_writes self.now)) }
    {
        match self {
            Writes::Nothing => None,
            Writes::Single(write) => single_of(write, key),
            Writes::Several(writes) => several_of(writes, key),
        }
    }

    /// Returns the writes.
    pub(crate) fn as_slice(&self) -> &[(Version, Content)]
        requires { is_keyed self.now ≡ true }
        ensures all { result.now ≡ all_writes self.now }
        ensures apart { AreApart (map write_of (all_writes self.now)) }
    {
        match self {
            Writes::Nothing => &[],
            Writes::Single(write) => from_ref(write),
            Writes::Several(writes) => {
                let _unique = writes.len();
                writes.values().as_slice()
            }
        }
    }

    /// Returns the keys of the writes.
    pub(crate) fn keys(&self) -> &[Key]
        requires { is_keyed self.now ≡ true }
        ensures { result.now ≡ keys (map write_of (all_writes self.now)) }
    {
        match self {
            Writes::Nothing => &[],
            Writes::Single(write) => from_ref(&write.0.key),
            Writes::Several(writes) => writes.keys().as_slice(),
        }
    }
}
