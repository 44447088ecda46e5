//! Values, tables and checked histories, and what errors print.

use crate::index_lists::has;
use crate::lines;
use adya_line::read_event;
use adya_terms::Checked;
use adya_testing::histories::{final_pair, packed_finals};
use adya_text::read_history;
use adya_values::{
    BadKey, BadNumber, BadShape, BadValue, Entry, Event, EventView, Events, History, Key, Listed,
    Orders, Txn, Value,
};
use std::alloc::Global;
use std::fmt::Display;
use txn_table::{TxnTable, places_of};

const LONGEST: &[u8] = b"ABCDEFGHIJKLMNOPQRSTUVWXYZabcdefghijklmnopqrstuvwxyz0123456789_.";

const TOO_LONG: &[u8] = b"ABCDEFGHIJKLMNOPQRSTUVWXYZabcdefghijklmnopqrstuvwxyz0123456789_.+";

/// T1 writes `x` twice and T2 writes it once, which the version order puts first; T3 writes and aborts.
const LISTED_AND_ABORTED_WRITERS: &[u8] =
    b"adya 1\nw1(x.1:1,4)\nw1(x.1:2,5)\nw2(x.2:1,6)\nc1\nc2\nw3(x.3:1,7)\nw3(y.3:1,8)\na3\n[x:2<<1]\n{x,5}\nend\n";

/// Returns the cases, each with its name.
pub(crate) fn cases(alloc: Global) -> [(&'static str, bool); 12] {
    [
        (
            "entries_come_in_the_order_of_the_line",
            lines::are_entries_in_order(),
        ),
        ("values_have_up_to_64_bytes", has_value_64_bytes()),
        (
            "valid_bytes_are_taken_as_they_are",
            is_key_taken() && is_value_taken(),
        ),
        ("a_copied_scan_lists_the_same_entries", is_scan_shown(alloc)),
        (
            "events_are_read_by_themselves_and_copied",
            lines::are_events_copied(alloc),
        ),
        ("errors_print_their_numbers", are_errors_numbered(alloc)),
        (
            "a_table_holds_small_and_large_numbers",
            are_numbers_held(alloc).unwrap_or(false),
        ),
        (
            "a_table_without_an_array_holds_all_numbers",
            are_numbers_held_without_array(alloc).unwrap_or(false),
        ),
        (
            "places_are_the_first_ones_or_the_length",
            are_places_first(alloc).unwrap_or(false),
        ),
        ("check_succeeds_with_ample_memory", is_checked(alloc)),
        (
            "only_the_committed_have_committed",
            are_only_committed_so(alloc),
        ),
        (
            "keys_have_their_lines_and_lines_their_writers",
            are_lines_found(alloc),
        ),
    ]
}

/// Whether a value may have 64 bytes and no more.
fn has_value_64_bytes() -> bool {
    match Value::new(LONGEST) {
        Ok(value) => value.bytes() == LONGEST && matches!(Value::new(TOO_LONG), Err(BadValue)),
        Err(_) => false,
    }
}

fn is_key_taken() -> bool {
    match Key::new(b"a_1") {
        Ok(key) => Key::from_valid(key.bytes()).bytes() == b"a_1".as_slice(),
        Err(_) => false,
    }
}

fn is_value_taken() -> bool {
    match Value::new(b"-1.5") {
        Ok(value) => Value::from_valid(value.bytes()).bytes() == b"-1.5".as_slice(),
        Err(_) => false,
    }
}

/// Returns the scan of this line.
fn scan(alloc: Global, line: &[u8]) -> Option<Event> {
    read_event(line)?.to_event(alloc).ok()
}

/// Whether a list of events, and a copy of it, show a scan with its entries.
fn is_scan_shown(alloc: Global) -> bool {
    let Some(given) = scan(alloc, b"s1(a,d;b.2:1,7;c.3:4,!)") else {
        return false;
    };
    let mut events = Events::new(alloc);
    if events.push_owned(&given).is_err() {
        return false;
    }
    let Ok(copied) = events.copy(alloc) else {
        return false;
    };
    shows(&events, &given) && shows(&copied, &given)
}

/// Whether the only event is a scan with the entries of this one.
fn shows(events: &Events, given: &Event) -> bool {
    let Event::Scan { entries: given, .. } = given else {
        return false;
    };
    match events.get(0) {
        Some(EventView::Scan { entries, .. }) => events.len() == 1 && are_same_two(&entries, given),
        _ => false,
    }
}

fn are_same_two(listed: &Listed<'_>, given: &[Entry]) -> bool {
    if listed.len() != 2 {
        return false;
    }
    let (first, second) = (listed.at(0), listed.at(1));
    match given {
        [one, two] => one.same(&first) && two.same(&second) && !one.same(&second),
        _ => false,
    }
}

fn is_printed<E: Display>(alloc: Global, error: &E, wanted: &str) -> bool {
    match format!(in alloc; "{error}") {
        Ok(text) => text.as_str() == wanted,
        Err(_) => false,
    }
}

/// Returns the error for a history with the finals of `y` and then of `x`.
fn bad_shape(alloc: Global) -> Option<BadShape> {
    let y = final_pair("y", "1").ok()?;
    let x = final_pair("x", "1").ok()?;
    let finals = packed_finals(alloc, &[y, x]).ok()?;
    History::new(Events::new(alloc), Orders::new(alloc), finals).err()
}

/// Whether each error prints its number.
fn are_errors_numbered(alloc: Global) -> bool {
    match bad_shape(alloc) {
        Some(bad_shape) => {
            is_printed(alloc, &BadKey, "1 bad key")
                && is_printed(alloc, &BadValue, "2 bad value")
                && is_printed(alloc, &BadNumber, "3 bad number")
                && is_printed(alloc, &bad_shape, "4 bad shape")
        }
        None => false,
    }
}

fn set_all(table: &mut TxnTable<u32>, pairs: &[(u64, u32)]) -> Option<()> {
    for (txn, value) in pairs {
        table.set(Txn::new(*txn).ok()?, *value).ok()?;
    }
    Some(())
}

fn has_all(table: &TxnTable<u32>, pairs: &[(u64, u32)]) -> bool {
    for (txn, value) in pairs {
        match Txn::new(*txn) {
            Ok(txn) if table.get(txn) == *value => {}
            _ => return false,
        }
    }
    true
}

/// Whether a table with an array for numbers below 4 holds small and large numbers, also when they are set again.
fn are_numbers_held(alloc: Global) -> Option<bool> {
    let mut table = TxnTable::new(alloc, 4, 7u32).ok()?;
    set_all(&mut table, &[(3, 30), (1_000_000, 50)])?;
    let are_set = has_all(&table, &[(3, 30), (4, 7), (1_000_000, 50)]);
    set_all(&mut table, &[(4, 40), (3, 31), (1_000_000, 51)])?;
    let are_set_again = has_all(&table, &[(3, 31), (4, 40), (1_000_000, 51), (2, 7)]);
    Some(are_set && are_set_again)
}

/// Whether a table without an array holds all numbers.
fn are_numbers_held_without_array(alloc: Global) -> Option<bool> {
    let (first, second) = (Txn::new(1).ok()?, Txn::new(2).ok()?);
    let mut table = TxnTable::new(alloc, 0, false).ok()?;
    table.set(first, true).ok()?;
    Some(table.get(first) && !table.get(second))
}

/// Whether the table of a list with a repeat has first places, and the length for one that isn't listed.
fn are_places_first(alloc: Global) -> Option<bool> {
    let (two, five, nine) = (Txn::new(2).ok()?, Txn::new(5).ok()?, Txn::new(9).ok()?);
    let places = places_of(alloc, &[five, two, five], 4).ok()?;
    Some(places.get(five) == 0 && places.get(two) == 1 && places.get(nine) == 3)
}

/// Whether a history is checked if there is ample memory.
fn is_checked(alloc: Global) -> bool {
    match read_history(alloc, LISTED_AND_ABORTED_WRITERS) {
        Ok(history) => Checked::of(alloc, &history).is_ok(),
        Err(_) => false,
    }
}

fn has_committed(checked: &Checked<'_>, txn: u64) -> bool {
    match Txn::new(txn) {
        Ok(txn) => checked.is_committed(txn),
        Err(_) => false,
    }
}

fn have_two_committed(alloc: Global, history: &History) -> bool {
    match Checked::of(alloc, history) {
        Ok(checked) => {
            has_committed(&checked, 1)
                && has_committed(&checked, 2)
                && !has_committed(&checked, 3)
                && !has_committed(&checked, 4)
        }
        Err(_) => false,
    }
}

/// Whether only the committed transactions have committed.
fn are_only_committed_so(alloc: Global) -> bool {
    match read_history(alloc, LISTED_AND_ABORTED_WRITERS) {
        Ok(history) => have_two_committed(alloc, &history),
        Err(_) => false,
    }
}

/// Whether the first key has the first line, which has two writers, and the second key has none.
fn has_lines(alloc: Global, history: &History) -> bool {
    match Checked::of(alloc, history) {
        Ok(checked) => {
            has(checked.line_numbers(), &[1, 0])
                && checked.shows(0, 0)
                && checked.shows(0, 1)
                && !checked.shows(0, 2)
                && !checked.shows(1, 0)
        }
        Err(_) => false,
    }
}

fn are_lines_found(alloc: Global) -> bool {
    match read_history(alloc, LISTED_AND_ABORTED_WRITERS) {
        Ok(history) => has_lines(alloc, &history),
        Err(_) => false,
    }
}
