//! What a store makes of a course.

use crate::texts::{Texts, are_accepted, texts_of};
use devices::Watched;
use ssi_line::{Line, read_line, write_reply};
use ssi_reads::Marks;
use ssi_store::{Command, Store};
use ssi_versions::Chains;
use std::alloc::Global;

/// What is done after each command of a course.
#[derive(Clone, Copy, PartialEq)]
pub(crate) enum After {
    /// Nothing.
    Nothing,
    /// A collection, whose reply isn't kept.
    Collect,
    /// A dump, which the auditor must accept, and whose finals the store must hold.
    Dump,
}

/// What a course has made.
#[derive(PartialEq, Drop)]
pub(crate) struct Outcome {
    /// The replies, one a line.
    pub(crate) replies: Vec<u8>,
    /// The texts of the end, and the verdict on them.
    pub(crate) texts: Texts,
}

/// Gives the course to the store, ends the store, and returns what came of it; nothing if a dump isn't accepted, its
/// finals aren't what the store holds, or memory runs out.
pub(crate) fn outcome_of<C: Chains + Drop, M: Marks + Drop>(
    alloc: Global,
    mut store: Store<C, M>,
    lines: &[&str],
    after: After,
) -> Option<Outcome> {
    let replies = replies_of(alloc, &mut store, lines, after)?;
    let texts = ended(alloc, store)?;
    Some(Outcome { replies, texts })
}

fn replies_of<C: Chains + Drop, M: Marks + Drop>(
    alloc: Global,
    store: &mut Store<C, M>,
    lines: &[&str],
    after: After,
) -> Option<Vec<u8>> {
    let mut replies = Vec::new(alloc);
    for line in lines {
        let said = said(alloc, store, line)?;
        replies.extend_from_slice(&said).ok()?;
        follow(alloc, store, after)?;
    }
    Some(replies)
}

/// Ends the store and returns its texts.
pub(crate) fn ended<C: Chains + Drop, M: Marks + Drop>(
    alloc: Global,
    store: Store<C, M>,
) -> Option<Texts> {
    match store.finish() {
        Ok(finished) => texts_of(alloc, &finished),
        Err(_) => None,
    }
}

/// Does what is done after each command; nothing if a dump isn't accepted, its finals aren't what the store holds, or memory
/// runs out.
fn follow<C: Chains + Drop, M: Marks + Drop>(
    alloc: Global,
    store: &mut Store<C, M>,
    after: After,
) -> Option<()> {
    match after {
        After::Nothing => Some(()),
        After::Collect => {
            let _ = store.apply(Command::Collect);
            Some(())
        }
        After::Dump => {
            if are_accepted(&dumped(alloc, store)?) && holds_finals(store)? {
                Some(())
            } else {
                None
            }
        }
    }
}

/// Whether the store holds the finals of a dump; nothing if memory runs out.
fn holds_finals<C: Chains + Drop, M: Marks + Drop>(store: &Store<C, M>) -> Option<bool> {
    let contents = store.contents().ok()?;
    let dump = store.dump().ok()?;
    let finals = dump.history().finals();
    if contents.len() != finals.len() {
        return Some(false);
    }
    for (i, row) in contents.iter().enumerate() {
        let last = finals.at(i);
        if row.key != last.key || !row.value.same(&last.value) {
            return Some(false);
        }
    }
    Some(true)
}

/// Returns the texts of a dump.
fn dumped<C: Chains + Drop, M: Marks + Drop>(alloc: Global, store: &Store<C, M>) -> Option<Texts> {
    match store.dump() {
        Ok(finished) => texts_of(alloc, &finished),
        Err(_) => None,
    }
}

/// Returns what the store answers to the line.
pub(crate) fn said<C: Chains + Drop, M: Marks + Drop>(
    alloc: Global,
    store: &mut Store<C, M>,
    line: &str,
) -> Option<Vec<u8>> {
    match read_line(line.as_bytes()) {
        Some(Line::Do(command)) => carried_out(alloc, store, command),
        Some(Line::Dump) => dumped(alloc, store)?.joined().ok(),
        Some(Line::Stop) => Vec::from_slice(alloc, b"stopped\n").ok(),
        None => Vec::from_slice(alloc, b"? syntax\n").ok(),
    }
}

/// Returns the line of the store's answer.
fn carried_out<C: Chains + Drop, M: Marks + Drop>(
    alloc: Global,
    store: &mut Store<C, M>,
    command: Command,
) -> Option<Vec<u8>> {
    let answer = store.apply(command);
    let mut line = Watched::new(Vec::new(alloc));
    write_reply(&answer, &mut line).ok()?;
    Some(line.into_inner())
}
