//! What is wrong with a read by itself.

use crate::blocks::Blocks;
use crate::faults::{Faults, Rank};
use crate::writers::Writers;
use append_values::{Operation, Outcome, Read, Reason, Transaction};
use std::alloc::{AllocError, Global};
use std::collections::HashSet;

/// An element that an aborted transaction appended to the list of a key.
#[derive(Clone, Copy, PartialEq, Eq, Hash)]
struct Dead {
    key: u64,
    element: u64,
}

/// A read, and what it returned.
#[derive(Clone, Copy)]
pub(crate) struct Seen<'a> {
    pub key: u64,
    pub read: Read,
    pub elements: &'a [u64],
    /// The elements without those at its end that its own transaction had appended.
    pub base: &'a [u64],
}

/// Looks at reads that don't fit, one after the other.
#[derive(Drop)]
pub(crate) struct Diagnosis {
    alloc: Global,
    blocks: Blocks,
    /// What aborted transactions appended, once it is asked for.
    dead: Option<HashSet<Dead>>,
}

/// Which faults the read at hand has.
#[derive(Clone, Copy)]
struct Marks {
    duplicate: bool,
    unwritten: bool,
    future: bool,
    dirty: bool,
    intermediate: bool,
    /// The first element of an aborted transaction.
    dead: Option<u64>,
}

impl Diagnosis {
    /// Has looked at no read.
    pub fn new(alloc: Global) -> Diagnosis {
        Diagnosis {
            alloc,
            blocks: Blocks::new(alloc),
            dead: None,
        }
    }

    /// Notes each kind of fault that the read has by itself, once. Returns whether it has any. The time that this takes is
    /// nearly linear in the length of what was read.
    pub fn note<W: Writers>(
        &mut self,
        transactions: &[Transaction],
        writers: &W,
        seen: Seen<'_>,
        faults: &mut Faults,
    ) -> Result<bool, AllocError> {
        let mut marks = Marks {
            duplicate: false,
            unwritten: false,
            future: false,
            dirty: false,
            intermediate: false,
            dead: None,
        };
        if let Some(element) = repeated(self.alloc, seen.elements)? {
            marks.duplicate = true;
            faults.note(Rank::DuplicateElements, Reason::Twice(seen.read, element))?;
        }
        let mut next = 0usize;
        for place in 0..seen.base.len() {
            if place >= next {
                let element = seen.base[place];
                next = match writers.writer(seen.key, element) {
                    Some(writer) => self.look_at(
                        transactions,
                        seen,
                        (place, element, writer),
                        &mut marks,
                        faults,
                    )?,
                    None => {
                        self.look_at_stranger(transactions, seen, element, &mut marks, faults)?;
                        0
                    }
                };
            }
        }
        Ok(
            marks.duplicate
                || marks.unwritten
                || marks.future
                || marks.intermediate
                || marks.dead.is_some(),
        )
    }

    // An element of a transaction that isn't aborted. Returns where its block ends, if it is whole.
    fn look_at(
        &mut self,
        transactions: &[Transaction],
        seen: Seen<'_>,
        (place, element, writer): (usize, u64, u32),
        marks: &mut Marks,
        faults: &mut Faults,
    ) -> Result<usize, AllocError> {
        let Some(transaction) = transactions.get(writer as usize) else {
            return Ok(0);
        };
        if writer == seen.read.transaction {
            if !marks.future && appends_later(transaction, seen, element) {
                marks.future = true;
                faults.note(Rank::Future, Reason::Future(seen.read, element))?;
            }
            return Ok(0);
        }
        if let Some(dead) = marks.dead {
            if !marks.dirty && transaction.outcome == Outcome::Committed {
                marks.dirty = true;
                faults.note(
                    Rank::DirtyUpdate,
                    Reason::DirtyUpdate(seen.read, dead, element),
                )?;
            }
        }
        let operations = transaction.operations.as_slice();
        match self
            .blocks
            .end(seen.base, place, seen.key, writer, operations)?
        {
            Some(end) => Ok(end),
            None => {
                // if an element is there twice, the block may stand elsewhere
                if !marks.intermediate && !marks.duplicate {
                    marks.intermediate = true;
                    faults.note(
                        Rank::IntermediateRead,
                        Reason::Intermediate(seen.read, writer),
                    )?;
                }
                Ok(0)
            }
        }
    }

    // An element that nobody appended, or only aborted transactions.
    fn look_at_stranger(
        &mut self,
        transactions: &[Transaction],
        seen: Seen<'_>,
        element: u64,
        marks: &mut Marks,
        faults: &mut Faults,
    ) -> Result<(), AllocError> {
        let reason = Reason::Unwritten(seen.read, element);
        let dead = Dead {
            key: seen.key,
            element,
        };
        if self.is_dead(transactions, dead)? {
            if marks.dead.is_none() {
                marks.dead = Some(element);
                faults.note(Rank::AbortedRead, reason)?;
            }
        } else if !marks.unwritten {
            marks.unwritten = true;
            faults.note(Rank::Unwritten, reason)?;
        }
        Ok(())
    }

    fn is_dead(&mut self, transactions: &[Transaction], dead: Dead) -> Result<bool, AllocError> {
        if self.dead.is_none() {
            self.dead = Some(all_dead(self.alloc, transactions)?);
        }
        match &self.dead {
            Some(all) => Ok(all.contains(&dead)),
            None => Ok(false),
        }
    }
}

// What aborted transactions appended.
fn all_dead(alloc: Global, transactions: &[Transaction]) -> Result<HashSet<Dead>, AllocError> {
    let mut all = HashSet::new(alloc);
    for transaction in transactions {
        if transaction.outcome == Outcome::Aborted {
            for operation in &transaction.operations {
                if let Operation::Append { key, element } = operation {
                    all.insert(Dead {
                        key: *key,
                        element: *element,
                    })?;
                }
            }
        }
    }
    Ok(all)
}

/// Returns whether the reader appends the element to the list of the key after the read.
fn appends_later(transaction: &Transaction, seen: Seen<'_>, element: u64) -> bool {
    let Some(later) = transaction.operations.get(seen.read.step..) else {
        return false;
    };
    later
        .iter()
        .any(|operation| is_append_of(operation, seen.key, element))
}

fn is_append_of(operation: &Operation, key: u64, element: u64) -> bool {
    match operation {
        Operation::Append {
            key: to,
            element: x,
        } => *to == key && *x == element,
        Operation::Read { .. } | Operation::LostRead { .. } => false,
    }
}

/// Returns an element that stands twice in the list.
fn repeated(alloc: Global, elements: &[u64]) -> Result<Option<u64>, AllocError> {
    let mut sorted = Vec::from_slice(alloc, elements)?;
    sorted.sort_unstable();
    for i in 1..sorted.len() {
        if sorted[i - 1] == sorted[i] {
            return Ok(Some(sorted[i]));
        }
    }
    Ok(None)
}
