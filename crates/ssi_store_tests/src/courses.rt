//! A course over each pair of representations.

use crate::live::is_same_without_history;
use crate::runs::{After, Outcome, outcome_of};
use adya_values::Txn;
use ssi_reads::{IndexMarks, ListMarks};
use ssi_store::Store;
use ssi_versions::{KeyChains, PlainChains};
use std::alloc::Global;

/// How the versions are held, and the marks of what was read.
#[derive(Clone, Copy)]
pub(crate) enum Pair {
    PlainAndList,
    PlainAndIndex,
    KeysAndList,
    KeysAndIndex,
}

/// Returns what the course makes over each of the four pairs, the first transaction being this one; nothing if it isn't
/// the same over all of them, if a store without its history answers otherwise, if a dump isn't accepted, or if memory runs
/// out.
pub(crate) fn over_all(alloc: Global, first: Txn, lines: &[&str], after: After) -> Option<Outcome> {
    let outcome = over(alloc, Pair::PlainAndList, first, lines, after)?;
    if !is_same_without_history(alloc, first, lines)? {
        return None;
    }
    for pair in [Pair::PlainAndIndex, Pair::KeysAndList, Pair::KeysAndIndex] {
        match over(alloc, pair, first, lines, after) {
            Some(other) if other == outcome => {}
            _ => return None,
        }
    }
    Some(outcome)
}

/// Returns what the course makes over this pair, the first transaction being this one; nothing if a dump isn't accepted,
/// or if memory runs out.
pub(crate) fn over(
    alloc: Global,
    pair: Pair,
    first: Txn,
    lines: &[&str],
    after: After,
) -> Option<Outcome> {
    let plain = PlainChains::new(alloc);
    let keys = KeyChains::new(alloc);
    let list = ListMarks::new(alloc);
    let index = IndexMarks::new(alloc);
    match pair {
        Pair::PlainAndList => {
            let store = Store::with_next(alloc, plain, list, first);
            outcome_of(alloc, store, lines, after)
        }
        Pair::PlainAndIndex => {
            let store = Store::with_next(alloc, plain, index, first);
            outcome_of(alloc, store, lines, after)
        }
        Pair::KeysAndList => {
            let store = Store::with_next(alloc, keys, list, first);
            outcome_of(alloc, store, lines, after)
        }
        Pair::KeysAndIndex => {
            let store = Store::with_next(alloc, keys, index, first);
            outcome_of(alloc, store, lines, after)
        }
    }
}
