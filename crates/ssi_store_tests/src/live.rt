//! Stores that keep no history.

use crate::answers::FastStore;
use adya_values::{FinalPair, Txn};
use devices::Watched;
use ssi_line::{Line, read_line, write_reply};
use ssi_reads::IndexMarks;
use ssi_store::{LiveStore, Refusal, Reply, Store};
use ssi_versions::KeyChains;
use std::alloc::Global;

/// A store without a history over the fast representations.
type FastLiveStore = LiveStore<KeyChains, IndexMarks>;

/// Whether a store that keeps no history answers the course's commands as one that keeps it, and holds the same after them;
/// nothing if memory runs out.
pub(crate) fn is_same_without_history(alloc: Global, first: Txn, lines: &[&str]) -> Option<bool> {
    let mut store = keeping(alloc, first);
    let mut live = without_history(alloc, first);
    if !are_answered_alike(alloc, &mut store, &mut live, lines)? {
        return Some(false);
    }
    hold_the_same(&store, &live)
}

fn keeping(alloc: Global, first: Txn) -> FastStore {
    Store::with_next(alloc, KeyChains::new(alloc), IndexMarks::new(alloc), first)
}

fn without_history(alloc: Global, first: Txn) -> FastLiveStore {
    LiveStore::with_next(alloc, KeyChains::new(alloc), IndexMarks::new(alloc), first)
}

fn are_answered_alike(
    alloc: Global,
    store: &mut FastStore,
    live: &mut FastLiveStore,
    lines: &[&str],
) -> Option<bool> {
    for line in lines {
        if !is_answered_alike(alloc, store, live, line)? {
            return Some(false);
        }
    }
    Some(true)
}

fn is_answered_alike(
    alloc: Global,
    store: &mut FastStore,
    live: &mut FastLiveStore,
    line: &str,
) -> Option<bool> {
    match read_line(line.as_bytes()) {
        Some(Line::Do(command)) => {
            let wanted = text_of(alloc, &store.apply(command))?;
            Some(text_of(alloc, &live.apply(command))? == wanted)
        }
        _ => Some(true),
    }
}

fn hold_the_same(store: &FastStore, live: &FastLiveStore) -> Option<bool> {
    let held = live.contents().ok()?;
    Some(are_same(&held, &store.contents().ok()?))
}

/// Returns the line of the answer.
fn text_of(alloc: Global, answer: &Result<Reply, Refusal>) -> Option<Vec<u8>> {
    let mut line = Watched::new(Vec::new(alloc));
    write_reply(answer, &mut line).ok()?;
    Some(line.into_inner())
}

/// Whether the rows are the same.
fn are_same(rows: &[FinalPair], others: &[FinalPair]) -> bool {
    if rows.len() != others.len() {
        return false;
    }
    for (i, row) in rows.iter().enumerate() {
        if row.key != others[i].key || !row.value.same(&others[i].value) {
            return false;
        }
    }
    true
}
