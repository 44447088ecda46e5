//! Marks in a list.

ghost use Rattle.std.specs.Prelude.{◌≡◌, ℕ, IfOk, OnOk, ◌||◌};
ghost use Rattle.std.specs.BTreeSet.{contains};
ghost use Rattle.std.specs.Ordering.{nat_cmp};
ghost use Rattle.ssi_reads.specs.Clauses.Marks.{IsEmpty};
ghost use Rattle.ssi_reads.specs.Machinery.Listed.{list_marked, is_over};

use crate::marks::Marks;
use crate::members::by_number;
use crate::span::{Mark, Span};
use adya_values::{Key, Txn};
use std::alloc::{AllocError, Global};
use std::collections::BTreeSet;

/// Marks in a list, in the order in which they were made. A mark takes amortised constant time; `readers_of` and
/// `forget` look at each mark.
#[derive(Drop)]
pub struct ListMarks {
    alloc: Global,
    marks: Vec<Mark>,
}

impl ListMarks {
    /// Returns a set without marks, and takes no memory. The allocator is kept for the marks.
    pub fn new(alloc: Global) -> ListMarks
        ensures { IsEmpty (⟦<ListMarks as Marks>⟧.marked result) }
    {
        ListMarks {
            alloc,
            marks: Vec::new(alloc),
        }
    }
}

/// Adds the transaction of the mark if the mark is over the key.
fn note(found: &mut BTreeSet<Txn>, mark: &Mark, key: Key) -> Result<(), AllocError>
    ensures { OnOk result ((t : ℕ) → contains nat_cmp found.new t ≡ (is_over t key mark.now || contains nat_cmp found.old t)) }
{
    if mark.span.covers(key) {
        found.insert(mark.txn)?;
    }
    Ok(())
}

fn readers(alloc: Global, marks: &[Mark], key: Key) -> Result<BTreeSet<Txn>, AllocError>
    ensures { IfOk result (λ s. (t : ℕ) → contains nat_cmp s t ≡ list_marked marks.now t key) }
{
    let mut found = BTreeSet::new(alloc);
    for mark in marks {
        note(&mut found, mark, key)?;
    }
    Ok(found)
}

impl Marks for ListMarks {
    ghost marked = { λ m. list_marked m.marks.items };

    fn mark_key(&mut self, txn: Txn, key: Key) -> Result<(), AllocError> {
        self.mark_range(txn, key, key)
    }

    fn mark_range(&mut self, txn: Txn, low: Key, high: Key) -> Result<(), AllocError> {
        let span = Span { low, high };
        self.marks.push(Mark { txn, span })?;
        Ok(())
    }

    fn readers_of(&self, key: Key) -> Result<Vec<Txn>, AllocError> {
        let found = readers(self.alloc, &self.marks, key)?;
        by_number(self.alloc, &found)
    }

    fn forget(&mut self, txn: Txn) {
        self.marks.retain(|m| m.txn != txn);
    }
}
