//! Own writes over committed versions, by key.

ghost use Rattle.std.specs.Prelude.{◌≡◌, ℕ, List, Some, None, true, if◌then◌else◌, map, OnOk, IfOk};
ghost use Rattle.std.specs.BTreeMap.{values, IsOrdered};
ghost use Rattle.std.specs.Ordering.{nat_cmp};
ghost use Rattle.std.specs.Cmp.Lexicographic.{slice_cmp};
ghost use Rattle.adya_keys.specs.Meaning.Keys.{key_eq, lies_in};
ghost use Rattle.adya_values.specs.Mirror.Events.{entry_of};
ghost use Rattle.adya_values.specs.Meaning.Events.{listed};
ghost use Rattle.ssi_versions.specs.Meaning.Changes.{otherwise, entry_in};
ghost use Rattle.ssi_versions.specs.Mirror.{held_of, write_of, found_in};
ghost use Rattle.ssi_snapshot.specs.Machinery.Stored.{are_keyed, entry_key, stored_at};

use adya_values::{Content, Entry, Key, Version};
use ssi_versions::Held;
use std::alloc::{AllocError, Global};
use std::collections::BTreeMap;

/// Puts the entry under its key, in the place of another one of this key.
fn put(seen: &mut BTreeMap<Key, Entry>, entry: &Entry) -> Result<(), AllocError>
    ensures stored { OnOk result ((key : List ℕ) → stored_at key seen.new.entries
        ≡ if key_eq entry.now.version.key key then Some (entry_of entry.now) else stored_at key seen.old.entries) }
    ensures keyed { are_keyed entry_key seen.old.entries ≡ true → are_keyed entry_key seen.new.entries ≡ true }
{
    seen.insert(entry.version.key, *entry)?;
    Ok(())
}

/// Puts each version under its key.
pub(crate) fn put_held(seen: &mut BTreeMap<Key, Entry>, held: &[Held]) -> Result<(), AllocError>
    ensures stored { OnOk result ((key : List ℕ) → stored_at key seen.new.entries
        ≡ otherwise (entry_in (found_in key (map held_of held.now))) (stored_at key seen.old.entries)) }
    ensures keyed { are_keyed entry_key seen.old.entries ≡ true → are_keyed entry_key seen.new.entries ≡ true }
{
    let n = held.len();
    'back: for k in 0..n {
        let held = &held[n - 1 - k];
        let entry = Entry {
            version: held.version,
            content: held.content,
        };
        put(seen, &entry)?;
    }
    Ok(())
}

/// Puts each write of a key from `low` to `high` under its key.
pub(crate) fn put_own(
    seen: &mut BTreeMap<Key, Entry>,
    writes: &[(Version, Content)],
    low: Key,
    high: Key,
) -> Result<(), AllocError>
    ensures stored { OnOk result ((key : List ℕ) → stored_at key seen.new.entries
        ≡ otherwise (if lies_in low high key then listed key (map write_of writes.now) else None)
        (stored_at key seen.old.entries)) }
    ensures keyed { are_keyed entry_key seen.old.entries ≡ true → are_keyed entry_key seen.new.entries ≡ true }
{
    let n = writes.len();
    'back: for k in 0..n {
        let write = &writes[n - 1 - k];
        if lies_in(low, high, write.0.key) {
            let entry = Entry {
                version: write.0,
                content: write.1,
            };
            put(seen, &entry)?;
        }
    }
    Ok(())
}

/// Returns whether the key lies between the two, both included.
fn lies_in(low: Key, high: Key, key: Key) -> bool
    ensures { result ≡ lies_in low high key }
{
    low <= key && key <= high
}

/// Returns the entries by rising key.
pub(crate) fn all_values(
    alloc: Global,
    seen: &BTreeMap<Key, Entry>,
) -> Result<Vec<Entry>, AllocError>
    ensures all { IfOk result (λ v. v.items ≡ values seen.now) }
    ensures ordered { IsOrdered (slice_cmp nat_cmp) seen.now }
{
    let mut entries = Vec::new(alloc);
    'entries: for entry in seen.values() {
        entries.push(*entry)?;
    }
    Ok(entries)
}
