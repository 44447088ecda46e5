//! Lists of events: what each call says of the events of the history's lines.

ghost use Rattle.std.specs.Prelude.{◌≡◌, true};
ghost use Rattle.adya_values.specs.Mirror.Numbers.{has_seen};

use crate::saying::{say, say_cases};
use adya_line::read_event;
use adya_text::read_history;
use adya_values::{Content, Entry, EventView, Events, Key, Listed, Seen, Txn, Version};
use std::alloc::Global;
use std::io;

/// A write and a delete, a read and a scan of what they wrote, a scan that lists nothing, a commit and an abort.
const HISTORY: &[u8] =
    b"adya 1\nw2(b.2:1,7)\nd3(c.3:4)\nr1(b.2:1,7)\ns1(a,d;b.2:1,7;c.3:4,!)\ns4(e,f)\nc2\na3\nend\n";

/// Writes for each case whether it is as defined.
pub(crate) fn say_all(rt: &HostRuntime) -> io::Result<()> {
    match read_history(rt.alloc(), HISTORY) {
        Ok(history) => say_cases(rt, &cases(rt.alloc(), history.events())),
        Err(_) => say(rt, &["event_lists: not read\n"]),
    }
}

/// Returns the cases, each with its name.
fn cases(alloc: Global, events: &Events) -> [(&'static str, bool); 15] {
    [
        ("each_event_is_of_its_transaction", have_txns(events)),
        ("no_event_is_past_the_last", has_last(events)),
        ("a_shown_write_has_its_entry", have_entries(events)),
        ("a_numbered_version_is_the_same", have_numbered(events)),
        ("only_a_write_shows_a_value", is_value_shown(events)),
        ("a_read_sees_its_entry", is_read_seen(events)),
        ("a_scan_sees_what_it_lists", is_scan_seen(events)),
        ("other_events_see_nothing", is_nothing_seen(events)),
        ("scans_have_bounds", have_bounds(events)),
        ("commits_and_aborts_are_apart", have_ends(events)),
        ("each_key_has_one_number", have_numbers(events)),
        ("keys_are_in_the_order_of_their_bytes", have_order(events)),
        ("a_shown_scan_lists_its_entries", is_scan_shown(events)),
        ("a_list_of_ones_own_has_its_entries", is_line_listed(alloc)),
        ("a_shown_scan_may_be_empty", is_empty_shown(events)),
    ]
}

fn have_txns(events: &Events) -> bool {
    is_of(events, 0, 2)
        && is_of(events, 1, 3)
        && is_of(events, 2, 1)
        && is_of(events, 3, 1)
        && is_of(events, 4, 4)
        && is_of(events, 5, 2)
        && is_of(events, 6, 3)
}

/// Whether the event at the index is of the transaction with the number, also as it is shown.
fn is_of(events: &Events, i: usize, txn: u32) -> bool {
    if i >= events.len() {
        return false;
    }
    let Some(view) = Some(events.at(i)) else {
        unreachable!()
    };
    events.txn_at(i).get() == txn && view.txn().get() == txn
}

fn has_last(events: &Events) -> bool {
    events.len() == 7
        && matches!(events.get(6), Some(EventView::Abort { .. }))
        && events.get(7).is_none()
        && events.get(usize::MAX).is_none()
}

fn is_version(version: &Version, key: &[u8], txn: u32, m: u16) -> bool {
    version.key.bytes() == key && version.txn.get() == txn && version.m.get() == m
}

/// Whether there is a version, and it is the one of the key that the transaction wrote as its m-th.
fn has_version(found: Option<Version>, key: &[u8], txn: u32, m: u16) -> bool {
    match found {
        Some(version) => is_version(&version, key, txn, m),
        None => false,
    }
}

/// Returns the version that the event at the index writes, by way of the number of its key.
fn by_number(events: &Events, i: usize) -> Option<Version> {
    match events.numbered_at(i) {
        Some(numbered) => Some(events.version(numbered)),
        None => None,
    }
}

fn have_numbered(events: &Events) -> bool {
    has_version(by_number(events, 0), b"b", 2, 1)
        && has_version(by_number(events, 1), b"c", 3, 4)
        && events.numbered_at(2).is_none()
        && events.numbered_at(3).is_none()
        && events.numbered_at(6).is_none()
        && events.numbered_at(7).is_none()
}

fn is_value_shown(events: &Events) -> bool {
    events.shows(0)
        && !events.shows(1)
        && !events.shows(2)
        && !events.shows(3)
        && !events.shows(6)
        && !events.shows(7)
}

/// Whether the entry is what the first event writes.
fn is_written(entry: &Entry) -> bool {
    match &entry.content {
        Content::Live(value) => {
            is_version(&entry.version, b"b", 2, 1) && value.bytes() == b"7".as_slice()
        }
        Content::Dead => false,
    }
}

/// Whether the entry is what the second event writes.
fn is_deleted(entry: &Entry) -> bool {
    match &entry.content {
        Content::Live(_) => false,
        Content::Dead => is_version(&entry.version, b"c", 3, 4),
    }
}

/// Returns the entry that the event at the index writes, as the event is shown.
fn written(events: &Events, i: usize) -> Option<Entry> {
    match events.get(i) {
        Some(view) => view.written(),
        None => None,
    }
}

fn have_entries(events: &Events) -> bool {
    let is_write = match written(events, 0) {
        Some(entry) => is_written(&entry),
        None => false,
    };
    let is_delete = match written(events, 1) {
        Some(entry) => is_deleted(&entry),
        None => false,
    };
    is_write && is_delete && written(events, 2).is_none() && written(events, 3).is_none()
}

/// Whether the write's entry is seen, which the first event wrote.
fn is_write(events: &Events, seen: &Seen) -> bool
    requires { has_seen events.now seen.now ≡ true }
{
    is_written(&events.entry(seen))
        && events.number_of(events.entry(seen).version.key) == Some(seen.version().key)
        && events.wrote(0, seen)
        && !events.wrote(1, seen)
        && !events.wrote(2, seen)
        && !events.wrote(7, seen)
}

/// Whether the delete's entry is seen, which the second event wrote.
fn is_delete(events: &Events, seen: &Seen) -> bool
    requires { has_seen events.now seen.now ≡ true }
{
    is_deleted(&events.entry(seen))
        && events.number_of(events.entry(seen).version.key) == Some(seen.version().key)
        && !events.wrote(0, seen)
        && events.wrote(1, seen)
        && !events.wrote(3, seen)
        && !events.wrote(7, seen)
}

fn is_read_seen(events: &Events) -> bool {
    if events.len() != 7 {
        return false;
    }
    match events.observed(2).seen() {
        [one] => is_write(events, one),
        _ => false,
    }
}

fn is_scan_seen(events: &Events) -> bool {
    if events.len() != 7 {
        return false;
    }
    match events.observed(3).seen() {
        [one, two] => is_write(events, one) && is_delete(events, two),
        _ => false,
    }
}

fn sees_nothing(events: &Events, i: usize) -> bool {
    i < events.len() && events.observed(i).seen().is_empty()
}

fn is_nothing_seen(events: &Events) -> bool {
    sees_nothing(events, 0)
        && sees_nothing(events, 1)
        && sees_nothing(events, 4)
        && sees_nothing(events, 5)
        && sees_nothing(events, 6)
}

/// Whether the event at the index is a scan of the keys from `low` to `high`.
fn is_bounded(events: &Events, i: usize, low: &[u8], high: &[u8]) -> bool {
    match events.bounds_at(i) {
        Some((first, last)) => {
            events.key(first).bytes() == low && events.key(last).bytes() == high
        }
        None => false,
    }
}

fn have_bounds(events: &Events) -> bool {
    is_bounded(events, 3, b"a", b"d")
        && is_bounded(events, 4, b"e", b"f")
        && events.bounds_at(2).is_none()
        && events.bounds_at(5).is_none()
        && events.bounds_at(7).is_none()
}

fn is_txn(found: Option<Txn>, number: u32) -> bool {
    match found {
        Some(txn) => txn.get() == number,
        None => false,
    }
}

fn have_ends(events: &Events) -> bool {
    events.len() == 7
        && is_txn(events.commit_at(5), 2)
        && is_txn(events.abort_at(6), 3)
        && events.commit_at(0).is_none()
        && events.abort_at(0).is_none()
        && events.commit_at(6).is_none()
        && events.abort_at(5).is_none()
}

/// Whether the key has a number, by which it is found.
fn has_number(events: &Events, key: &[u8], other: Key) -> bool {
    let Ok(key) = Key::new(key) else {
        return false;
    };
    match events.number_of(key) {
        Some(number) => {
            (number as usize) < events.key_count()
                && events.key(number) == key
                && events.key_or(number, other) == key
        }
        None => false,
    }
}

fn have_numbers(events: &Events) -> bool {
    match Key::new(b"g") {
        Ok(other) => {
            has_number(events, b"a", other)
                && has_number(events, b"b", other)
                && has_number(events, b"c", other)
                && has_number(events, b"d", other)
                && has_number(events, b"e", other)
                && has_number(events, b"f", other)
                && has_no_number(events, other)
        }
        Err(_) => false,
    }
}

/// Whether the key has no number, and six others have.
fn has_no_number(events: &Events, key: Key) -> bool {
    events.key_count() == 6
        && events.number_of(key).is_none()
        && events.key_or(6, key) == key
        && events.key_or(u32::MAX, key) == key
}

fn have_order(events: &Events) -> bool {
    is_below(events, b"a", b"b")
        && is_below(events, b"b", b"f")
        && !is_below(events, b"b", b"a")
        && !is_below(events, b"c", b"c")
}

/// Whether both keys have numbers, and by these the one is below the other.
fn is_below(events: &Events, low: &[u8], high: &[u8]) -> bool {
    match (numbered(events, low), numbered(events, high)) {
        (Some(low), Some(high)) => {
            (low as usize) < events.key_count()
                && (high as usize) < events.key_count()
                && events.is_below(low, high)
        }
        _ => false,
    }
}

fn numbered(events: &Events, key: &[u8]) -> Option<u32> {
    match Key::new(key) {
        Ok(key) => events.number_of(key),
        Err(_) => None,
    }
}

fn are_both_listed(listed: &Listed<'_>) -> bool {
    listed.len() == 2 && is_written(&listed.at(0)) && is_deleted(&listed.at(1))
}

fn is_scan_shown(events: &Events) -> bool {
    match events.get(3) {
        Some(EventView::Scan { entries, .. }) => are_both_listed(&entries),
        _ => false,
    }
}

fn is_plain_listed(entries: &[Entry]) -> bool {
    are_both_listed(&Listed::Plain(entries))
}

/// Whether the entries of the first scan's line are listed, by themselves.
fn is_line_listed(alloc: Global) -> bool {
    let Some(scan) = read_event(b"s1(a,d;b.2:1,7;c.3:4,!)") else {
        return false;
    };
    match scan.to_entries(alloc) {
        Ok(entries) => is_plain_listed(&entries),
        Err(_) => false,
    }
}

fn is_empty_shown(events: &Events) -> bool {
    match events.get(4) {
        Some(EventView::Scan { entries, .. }) => entries.len() == 0,
        _ => false,
    }
}
