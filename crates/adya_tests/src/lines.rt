//! Single lines: which are read, and events written again.

use adya_line::{
    ContentRef, EntryRef, EventRef, final_pair, order, read_event, txn, unfinished, write_event,
};
use adya_values::{Event, Listed};
use devices::Watched;
use std::alloc::Global;

const EVENTS: &str =
    "w1(x.1:1,5)\nd1(x.1:2)\nr2(x.1:1,5)\ns2(a,z;b.1:1,7;x.1:2,!)\ns3(a,b)\nc1\na2";

/// What a line may hold.
#[derive(Clone, Copy)]
pub(crate) enum Kind {
    Event,
    Unfinished,
    Order,
    Final,
    Txn,
}

impl Kind {
    /// Whether the line is read as none of this kind.
    pub(crate) fn refuses(self, alloc: Global, line: &[u8]) -> bool {
        match self {
            Kind::Event => read_event(line).is_none(),
            Kind::Unfinished => unfinished(line).is_none(),
            Kind::Order => matches!(order(alloc, line), Ok(None)),
            Kind::Final => final_pair(line).is_none(),
            Kind::Txn => txn(line).is_none(),
        }
    }
}

/// Whether the line is read as an event that is written as this line.
pub(crate) fn is_event(alloc: Global, line: &[u8]) -> bool {
    match written_again(alloc, line) {
        Some(text) => text.as_slice() == line,
        None => false,
    }
}

fn written_again(alloc: Global, line: &[u8]) -> Option<Vec<u8>> {
    let event = read_event(line)?;
    let entries = event.to_entries(alloc).ok()?;
    let mut out = Watched::new(Vec::new(alloc));
    write_event(&event.with_entries(Listed::Plain(&entries)), &mut out).ok()?;
    Some(out.into_inner())
}

/// Whether an event of each kind, read by itself and copied, is written as its line.
pub(crate) fn are_events_copied(alloc: Global) -> bool {
    for line in EVENTS.lines() {
        if copied(alloc, line.as_bytes()) != Some(true) {
            return false;
        }
    }
    true
}

/// Whether a copy of the event of the line is written as this line.
fn copied(alloc: Global, line: &[u8]) -> Option<bool> {
    let event = read_event(line)?.to_event(alloc).ok()?;
    let copy = event.copy(alloc).ok()?;
    Some(is_line_of(alloc, &copy, line))
}

fn is_line_of(alloc: Global, event: &Event, line: &[u8]) -> bool {
    let Some(view) = Some(event.view()) else {
        return false;
    };
    let mut out = Watched::new(Vec::new(alloc));
    write_event(&view, &mut out).is_ok() && out.into_inner().as_slice() == line
}

/// Whether a scan's entries come in the order of its line.
pub(crate) fn are_entries_in_order() -> bool {
    let Some(EventRef::Scan(scan)) = read_event(b"s1(a,c;b.2:1,7;a.3:4,!)") else {
        return false;
    };
    let mut entries = scan.entries();
    let first = entries.next();
    let second = entries.next();
    is_entry(first, (2, 1, false)) && is_entry(second, (3, 4, true)) && entries.next().is_none()
}

/// Whether the entry has these numbers of the transaction and the modification, and is dead or not.
fn is_entry(entry: Option<EntryRef<'_>>, wanted: (u32, u16, bool)) -> bool {
    match entry {
        Some(entry) => {
            let is_dead = matches!(entry.content, ContentRef::Dead);
            (entry.version.txn, entry.version.m, is_dead) == wanted
        }
        None => false,
    }
}
