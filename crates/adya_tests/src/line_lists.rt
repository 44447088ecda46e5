//! Lists of orders and of final values: what each call says of those of the history's lines.

use crate::saying::{say, say_cases};
use adya_text::read_history;
use adya_values::{Finals, Key, Orders, Txn};
use std::io;

/// The orders of three keys, and the final values of two.
const HISTORY: &[u8] = b"adya 1\n[b:2<<1]\n[d:3]\n[f:1<<2<<3]\n{b,7}\n{d,-1.5}\nend\n";

/// Writes for each case whether it is as defined.
pub(crate) fn say_all(rt: &HostRuntime) -> io::Result<()> {
    match read_history(rt.alloc(), HISTORY) {
        Ok(history) => say_cases(rt, &cases(history.orders(), history.finals())),
        Err(_) => say(rt, &["line_lists: not read\n"]),
    }
}

/// Returns the cases, each with its name.
fn cases(orders: &Orders, finals: &Finals) -> [(&'static str, bool); 4] {
    [
        ("orders_have_their_keys_and_writers", are_orders(orders)),
        (
            "orders_of_lower_keys_are_counted",
            are_orders_counted(orders),
        ),
        ("finals_have_their_keys_and_values", are_finals(finals)),
        (
            "finals_of_lower_keys_are_counted",
            are_finals_counted(finals),
        ),
    ]
}

fn are_numbered(txns: &[Txn], numbers: &[u32]) -> bool {
    for (txn, number) in txns.iter().zip(numbers) {
        if txn.get() != *number {
            return false;
        }
    }
    txns.len() == numbers.len()
}

/// Whether the order at the index is of the key, and has these writers.
fn is_order(orders: &Orders, i: usize, key: &[u8], writers: &[u32]) -> bool {
    i < orders.len() && orders.key(i).bytes() == key && are_numbered(orders.writers(i), writers)
}

fn are_orders(orders: &Orders) -> bool {
    orders.len() == 3
        && is_order(orders, 0, b"b", &[2, 1])
        && is_order(orders, 1, b"d", &[3])
        && is_order(orders, 2, b"f", &[1, 2, 3])
}

/// Whether so many orders are of keys below this one.
fn has_orders_below(orders: &Orders, key: &[u8], count: usize) -> bool {
    match Key::new(key) {
        Ok(key) => orders.below(key) == count,
        Err(_) => false,
    }
}

fn are_orders_counted(orders: &Orders) -> bool {
    has_orders_below(orders, b"a", 0)
        && has_orders_below(orders, b"b", 0)
        && has_orders_below(orders, b"b0", 1)
        && has_orders_below(orders, b"d", 1)
        && has_orders_below(orders, b"e", 2)
        && has_orders_below(orders, b"f", 2)
        && has_orders_below(orders, b"g", 3)
}

/// Whether the final value at the index is of the key, and is this one.
fn is_final(finals: &Finals, i: usize, key: &[u8], value: &[u8]) -> bool {
    if i >= finals.len() {
        return false;
    }
    let pair = finals.at(i);
    finals.key(i).bytes() == key && pair.key.bytes() == key && pair.value.bytes() == value
}

fn are_finals(finals: &Finals) -> bool {
    finals.len() == 2 && is_final(finals, 0, b"b", b"7") && is_final(finals, 1, b"d", b"-1.5")
}

/// Whether so many final values are of keys below this one.
fn has_finals_below(finals: &Finals, key: &[u8], count: usize) -> bool {
    match Key::new(key) {
        Ok(key) => finals.below(key) == count,
        Err(_) => false,
    }
}

fn are_finals_counted(finals: &Finals) -> bool {
    has_finals_below(finals, b"a", 0)
        && has_finals_below(finals, b"b", 0)
        && has_finals_below(finals, b"c", 1)
        && has_finals_below(finals, b"d", 1)
        && has_finals_below(finals, b"e", 2)
}
