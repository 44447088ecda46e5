//! What a transaction does to the list of a key, while its steps are gone through.

use crate::blocks::FEW;
use append_values::Operation;
use std::alloc::{AllocError, Global};
use std::collections::HashMap;

/// With more keys than this the table of a transaction isn't used for the next one, so that it stays small.
const MOST_KEPT: usize = 64;

/// What the transaction at hand does to the list of one key.
#[derive(Drop)]
struct Own {
    /// Whether it appends to the list, at whichever step.
    appends: bool,
    /// What it has appended so far.
    appended: Vec<u64>,
    /// Its first read of the list.
    first: Option<First>,
}

/// The first read of a key.
#[derive(Clone, Copy)]
pub(crate) struct First {
    pub key: u64,
    /// Its place among the steps.
    pub step: usize,
    /// How many elements it returned before those that its own transaction had appended.
    pub length: usize,
    /// Which reading it is; none if it doesn't fit.
    pub reading: Option<usize>,
}

/// What the transaction at hand does, by key. One of few steps is gone through for each key, a long one has a table.
#[derive(Drop)]
pub(crate) struct Owns {
    alloc: Global,
    is_long: bool,
    firsts: Vec<First>,
    by_key: HashMap<u64, Own>,
}

impl Owns {
    /// Begins with nothing.
    pub fn new(alloc: Global) -> Owns {
        Owns {
            alloc,
            is_long: false,
            firsts: Vec::new(alloc),
            by_key: HashMap::new(alloc),
        }
    }

    /// Begins with a transaction of these steps.
    pub fn begin(&mut self, operations: &[Operation]) -> Result<(), AllocError> {
        self.is_long = operations.len() > FEW;
        self.firsts.clear();
        if self.is_long {
            self.begin_table(operations)?;
        }
        Ok(())
    }

    #[inline(never)]
    fn begin_table(&mut self, operations: &[Operation]) -> Result<(), AllocError> {
        if self.by_key.len() > MOST_KEPT {
            self.by_key = HashMap::new(self.alloc);
        } else {
            self.by_key.clear();
        }
        for operation in operations {
            if let Operation::Append { key, .. } = operation {
                self.in_table(*key)?.appends = true;
            }
        }
        Ok(())
    }

    fn in_table(&mut self, key: u64) -> Result<&mut Own, AllocError> {
        Ok(
            self.by_key.entry(key)?.or_insert(Own {
                appends: false,
                appended: Vec::new(self.alloc),
                first: None,
            }),
        )
    }

    /// Notes that the transaction has appended this element to the list of the key.
    pub fn append(&mut self, key: u64, element: u64) -> Result<(), AllocError> {
        if self.is_long {
            self.in_table(key)?.appended.push(element)?;
        }
        Ok(())
    }

    /// Returns what the list of the key has before the elements that the steps so far append to it. `None` if it doesn't
    /// end with them.
    pub fn base<'a>(
        &self,
        before: &[Operation],
        key: u64,
        elements: &'a [u64],
    ) -> Option<&'a [u64]> {
        if !self.is_long {
            return base_of_few(before, key, elements);
        }
        match self.by_key.get(&key) {
            Some(own) => elements.strip_suffix(own.appended.as_slice()),
            None => Some(elements),
        }
    }

    /// Returns whether the transaction, of these steps, appends to the list of the key.
    pub fn appends(&self, operations: &[Operation], key: u64) -> bool {
        if !self.is_long {
            return append_to(operations, key);
        }
        match self.by_key.get(&key) {
            Some(own) => own.appends,
            None => false,
        }
    }

    /// Returns the first read of the key, if there was one.
    pub fn first(&self, key: u64) -> Option<First> {
        if !self.is_long {
            return self.firsts.iter().find(|first| first.key == key).copied();
        }
        self.by_key.get(&key)?.first
    }

    /// Notes the first read of a key.
    pub fn set_first(&mut self, first: First) -> Result<(), AllocError> {
        if self.is_long {
            self.in_table(first.key)?.first = Some(first);
        } else {
            self.firsts.push(first)?;
        }
        Ok(())
    }
}

/// Returns whether one of the steps appends to the list of the key.
fn append_to(operations: &[Operation], key: u64) -> bool {
    for operation in operations {
        if let Operation::Append { key: to, .. } = operation {
            if *to == key {
                return true;
            }
        }
    }
    false
}

fn base_of_few<'a>(before: &[Operation], key: u64, elements: &'a [u64]) -> Option<&'a [u64]> {
    let mut base = elements;
    for operation in before.iter().rev() {
        if let Operation::Append { key: to, element } = operation {
            if *to == key {
                let (last, front) = base.split_last()?;
                if last != element {
                    return None;
                }
                base = front;
            }
        }
    }
    Some(base)
}
