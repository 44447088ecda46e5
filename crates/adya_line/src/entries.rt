//! The entries of a scan that lies in a line.

ghost use Rattle.std.specs.Prelude.{◌≡◌, map, IfOk, OnOk};
ghost use Rattle.adya_values.specs.Mirror.Refs.{view_content, view_entry};
ghost use Rattle.adya_line.specs.Computing.Reading.{Gives, content_at, entry_at, entries_of, after_entries};
ghost use Rattle.adya_line.specs.Mirror.{entries_left};

use crate::fields::{after, value_at, version_at};
use adya_values::{ContentRef, EntryRef, ValueRef};
use std::alloc::AllocError;

/// The entries of a scan, in the order of the line. They are read from the line one by one, and take no memory.
#[derive(Clone, Copy)]
pub struct Entries<'a> {
    rest: &'a [u8],
}

impl<'a> Entries<'a> {
    pub(crate) fn new(listed: &'a [u8]) -> Entries<'a>
        ensures { entries_left result ≡ entries_of listed.now }
    {
        Entries { rest: listed }
    }
}

impl<'a> Iterator for Entries<'a> {
    ghost use Rattle.std.specs.Iterator.{item_count};
    ghost use Rattle.adya_line.specs.Mirror.{entries_left, GivesEntry};

    type Item = EntryRef<'a>;

    ghost next_gives = { GivesEntry };

    ghost remaining = { item_count entries_left };

    fn next(&mut self) -> Option<EntryRef<'a>> {
        let (entry, rest) = entry_at(self.rest)?;
        self.rest = rest;
        Some(entry)
    }
}

/// Reads the content at the front; returns it and what follows.
#[tactic(auto, unfolding(crate::specs::Computing::Reading::content_at))]
fn content_at(bytes: &[u8]) -> Option<(ContentRef<'_>, &[u8])>
    ensures { Gives (λ x. (view_content x.0, x.1.now)) result (content_at bytes.now) }
{
    if let Some(rest) = after(b'!', bytes) {
        return Some((ContentRef::Dead, rest));
    }
    let (value, rest) = value_at(bytes)?;
    Some((ContentRef::Live(ValueRef { bytes: value }), rest))
}

/// Reads the entry at the front, with its `;`; returns it and what follows.
#[tactic(auto, unfolding(crate::specs::Computing::Reading::entry_at))]
fn entry_at(bytes: &[u8]) -> Option<(EntryRef<'_>, &[u8])>
    ensures { Gives (λ x. (view_entry x.0, x.1.now)) result (entry_at bytes.now) }
{
    let rest = after(b';', bytes)?;
    let (version, rest) = version_at(rest)?;
    let rest = after(b',', rest)?;
    let (content, rest) = content_at(rest)?;
    Some((EntryRef { version, content }, rest))
}

/// Returns what follows the entries at the front.
pub(crate) fn after_entries(bytes: &[u8]) -> &[u8]
    ensures { result.now ≡ after_entries bytes.now }
{
    let mut left = bytes;
    'entries: while let Some((_, rest)) = entry_at(left) {
        left = rest;
    }
    left
}

/// Puts the entries at the front in place of what is there, in the order of the line, and returns what follows them.
/// `AllocError` if there is no memory for them; then some of them are there.
pub(crate) fn take_entries<'a>(
    bytes: &'a [u8],
    entries: &mut Vec<EntryRef<'a>>,
) -> Result<&'a [u8], AllocError>
    ensures rest { IfOk result (λ r. r.now ≡ after_entries bytes.now) }
    ensures entries { OnOk result (map view_entry entries.new.items ≡ entries_of bytes.now) }
{
    entries.clear();
    let mut left = bytes;
    'entries: while let Some((entry, rest)) = entry_at(left) {
        entries.push(entry)?;
        left = rest;
    }
    Ok(left)
}
