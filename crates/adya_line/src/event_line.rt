//! The lines of events.

ghost use Rattle.std.specs.Prelude.{◌≡◌, None, map, IfOk, IfSome, MatchOption};
ghost use Rattle.adya_values.specs.Mirror.Refs.{view_entry};
ghost use Rattle.adya_values.specs.Meaning.Histories.{Event as Plain};
ghost use Rattle.adya_line.specs.Computing.Reading.{Gives, write_at, delete_at, read_at, scan_at, event_at};
ghost use Rattle.adya_line.specs.Machinery.Fronts.{scan_after};
ghost use Rattle.adya_line.specs.Meaning.Spelling.{event_text};
ghost use Rattle.adya_line.specs.Meaning.Limits.{IsEvent};
ghost use Rattle.adya_line.specs.Mirror.{entries_in, view};

use crate::entries::{after_entries, take_entries};
use crate::event_ref::{DeleteRef, EndRef, EventRef, ReadRef, ScanRef, WriteRef};
use crate::fields::{after, key_at, txn_at, value_at, version_at};
use crate::txn_line::txn_at_line;
use adya_values::EntryRef;
use std::alloc::AllocError;

/// How many bytes the text of an entry has, about, with a short key and value.
const ENTRY_LEN: usize = 24;

/// Reads a write after its letter.
#[tactic(auto, unfolding(crate::specs::Computing::Reading::write_at))]
fn write_at(bytes: &[u8]) -> Option<EventRef<'_>>
    ensures { Gives view result (write_at bytes.now) }
{
    let (txn, rest) = txn_at(bytes)?;
    let rest = after(b'(', rest)?;
    let (version, rest) = version_at(rest)?;
    let rest = after(b',', rest)?;
    let (value, rest) = value_at(rest)?;
    let rest = after(b')', rest)?;
    if version.txn != txn || !rest.is_empty() {
        return None;
    }
    Some(EventRef::Write(WriteRef { version, value }))
}

/// Reads a delete after its letter.
#[tactic(auto, unfolding(crate::specs::Computing::Reading::delete_at))]
fn delete_at(bytes: &[u8]) -> Option<EventRef<'_>>
    ensures { Gives view result (delete_at bytes.now) }
{
    let (txn, rest) = txn_at(bytes)?;
    let rest = after(b'(', rest)?;
    let (version, rest) = version_at(rest)?;
    let rest = after(b')', rest)?;
    if !rest.is_empty() || version.txn != txn {
        return None;
    }
    Some(EventRef::Delete(DeleteRef { version }))
}

/// Reads a read after its letter.
#[tactic(auto, unfolding(crate::specs::Computing::Reading::read_at))]
fn read_at(bytes: &[u8]) -> Option<EventRef<'_>>
    ensures { Gives view result (read_at bytes.now) }
{
    let (txn, rest) = txn_at(bytes)?;
    let rest = after(b'(', rest)?;
    let (version, rest) = version_at(rest)?;
    let rest = after(b',', rest)?;
    let (value, rest) = value_at(rest)?;
    let rest = after(b')', rest)?;
    if !rest.is_empty() {
        return None;
    }
    Some(EventRef::Read(ReadRef {
        txn,
        version,
        value,
    }))
}

/// Reads a scan's transaction and range after its letter. Its entries and its end are still to be looked at.
#[tactic(auto, unfolding(crate::specs::Computing::Reading::scan_at))]
fn scan_front(bytes: &[u8]) -> Option<ScanRef<'_>>
    ensures { MatchOption result (scan_at bytes.now ≡ None) (λ s.
        scan_at bytes.now ≡ scan_after s.txn s.low.now s.high.now s.listed.now) }
{
    let (txn, rest) = txn_at(bytes)?;
    let rest = after(b'(', rest)?;
    let (low, rest) = key_at(rest)?;
    let rest = after(b',', rest)?;
    let (high, listed) = key_at(rest)?;
    Some(ScanRef {
        txn,
        low,
        high,
        listed,
    })
}

/// Reads a scan after its letter.
fn scan_at(bytes: &[u8]) -> Option<EventRef<'_>>
    ensures { Gives view result (scan_at bytes.now) }
{
    let scan = scan_front(bytes)?;
    let rest = after(b')', after_entries(scan.listed))?;
    if !rest.is_empty() {
        return None;
    }
    Some(EventRef::Scan(scan))
}

#[tactic(auto, unfolding(crate::specs::Computing::Reading::event_at))]
fn event_at(line: &[u8]) -> Option<EventRef<'_>>
    ensures { Gives view result (event_at line.now) }
{
    match line {
        [b'w', rest @ ..] => write_at(rest),
        [b'd', rest @ ..] => delete_at(rest),
        [b'r', rest @ ..] => read_at(rest),
        [b's', rest @ ..] => scan_at(rest),
        [b'c', rest @ ..] => Some(EventRef::Commit(EndRef {
            txn: txn_at_line(rest)?,
        })),
        [b'a', rest @ ..] => Some(EventRef::Abort(EndRef {
            txn: txn_at_line(rest)?,
        })),
        _ => None,
    }
}

/// Reads the line of an event, without its line feed: `wT(K.T:M,V)`, `dT(K.T:M)`, `rT(K.T:M,V)`,
/// `sT(K,K;K.T:M,V;..)`, `cT` or `aT`. Returns `None` for every other text. It takes no memory: keys and values stay
/// slices of the line, and a scan's entries are read while they are walked.
// Not inlined: a caller pays at its entry for all locals of what is inlined into it.
#[inline(never)]
pub fn read_event(line: &[u8]) -> Option<EventRef<'_>>
    ensures found { IfSome result (λ e. (line.now ≡ event_text (view e)) × IsEvent (view e)) }
    ensures exact { Gives view result (event_at line.now) }
    ensures only { (e : Plain) → IsEvent e → line.now ≡ event_text e → MatchOption result ⊥ (λ r. view r ≡ e) }
{
    event_at(line)
}

/// Reads a scan after its letter, and puts its entries in place of what is there.
fn scan_with<'a>(
    bytes: &'a [u8],
    entries: &mut Vec<EntryRef<'a>>,
) -> Result<Option<EventRef<'a>>, AllocError>
    ensures exact { IfOk result (λ r. Gives view r (scan_at bytes.now)) }
    ensures entries { IfOk result (λ r. IfSome r (λ e. map view_entry entries.new.items ≡ entries_in (view e))) }
{
    let Some(scan) = scan_front(bytes) else {
        return Ok(None);
    };
    entries.reserve(scan.listed.len() / ENTRY_LEN)?;
    let left = take_entries(scan.listed, entries)?;
    let Some(rest) = after(b')', left) else {
        return Ok(None);
    };
    if !rest.is_empty() {
        return Ok(None);
    }
    Ok(Some(EventRef::Scan(scan)))
}

/// Reads the line of an event as [`read_event`] does, and puts the entries of a scan in place of what is there, in the order of
/// the line; other events have none. So a scan's entries are read once. `AllocError` if there is no memory for them, which says
/// nothing of the line; then some of them are there.
// Not inlined: a caller pays at its entry for all locals of what is inlined into it.
#[inline(never)]
pub fn read_event_with<'a>(
    line: &'a [u8],
    entries: &mut Vec<EntryRef<'a>>,
) -> Result<Option<EventRef<'a>>, AllocError>
    ensures exact { IfOk result (λ r. Gives view r (event_at line.now)) }
    ensures entries { IfOk result (λ r. IfSome r (λ e. map view_entry entries.new.items ≡ entries_in (view e))) }
{
    if let [b's', rest @ ..] = line {
        return scan_with(rest, entries);
    }
    let Some(event) = event_at(line) else {
        return Ok(None);
    };
    event.read_entries(entries)?;
    Ok(Some(event))
}
