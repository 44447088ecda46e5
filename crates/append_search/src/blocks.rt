//! What a transaction appends to the list of a key, compared with a list.

use crate::reading::small;
use append_values::Operation;
use std::alloc::{AllocError, Global};
use std::collections::HashMap;

/// A transaction of no more steps than this is gone through for each key. The appends of a longer one are sorted.
pub(crate) const FEW: usize = 16;

/// An append of a long transaction.
#[derive(Clone, Copy, PartialEq, Eq, PartialOrd, Ord)]
struct Append {
    key: u64,
    step: u32,
    element: u64,
}

/// The appends of long transactions, by key, those to one key in their order.
#[derive(Drop)]
pub(crate) struct Blocks {
    alloc: Global,
    long: HashMap<u32, Vec<Append>>,
}

impl Blocks {
    /// Begins without any.
    pub fn new(alloc: Global) -> Blocks {
        Blocks {
            alloc,
            long: HashMap::new(alloc),
        }
    }

    /// Returns where that ends in the list which this transaction, of these steps, appends to the list of the key, if it
    /// begins at this place and all of it is there. `None` also if it appends nothing.
    pub fn end(
        &mut self,
        list: &[u64],
        start: usize,
        key: u64,
        transaction: u32,
        operations: &[Operation],
    ) -> Result<Option<usize>, AllocError> {
        if operations.len() <= FEW {
            return Ok(end_of_steps(list, start, key, operations));
        }
        if !self.long.contains_key(&transaction) {
            let appends = sorted(self.alloc, operations)?;
            self.long.insert(transaction, appends)?;
        }
        match self.long.get(&transaction) {
            Some(appends) => Ok(end_of_appends(list, start, key, appends.as_slice())),
            None => Ok(None),
        }
    }
}

fn end_of_steps(list: &[u64], start: usize, key: u64, operations: &[Operation]) -> Option<usize> {
    let mut end = start;
    for operation in operations {
        if let Operation::Append { key: to, element } = operation {
            if *to == key {
                if list.get(end) != Some(element) {
                    return None;
                }
                end = end.saturating_add(1);
            }
        }
    }
    beyond(start, end)
}

fn end_of_appends(list: &[u64], start: usize, key: u64, appends: &[Append]) -> Option<usize> {
    let first = appends.partition_point(|append| append.key < key);
    let mut end = start;
    for append in appends.get(first..)? {
        if append.key != key {
            return beyond(start, end);
        }
        if list.get(end) != Some(&append.element) {
            return None;
        }
        end = end.saturating_add(1);
    }
    beyond(start, end)
}

fn beyond(start: usize, end: usize) -> Option<usize> {
    if end == start {
        return None;
    }
    Some(end)
}

fn sorted(alloc: Global, operations: &[Operation]) -> Result<Vec<Append>, AllocError> {
    let mut appends = Vec::new(alloc);
    for (step, operation) in operations.iter().enumerate() {
        if let Operation::Append { key, element } = operation {
            appends.push(Append {
                key: *key,
                step: small(step),
                element: *element,
            })?;
        }
    }
    appends.sort_unstable();
    Ok(appends)
}
