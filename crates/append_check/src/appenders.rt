//! Who appended which element.

ghost use Rattle.std.specs.Prelude.{◌<◌, ◌^◌, ◌∷◌, [], length, map, IfOk};
ghost use Rattle.std.specs.HashMap.{get};
ghost use Rattle.append_values.specs.Meaning.Histories.{operation_of};
ghost use Rattle.append_check.specs.Meaning.Verdicts.{history_of};
ghost use Rattle.append_check.specs.Machinery.Appending.{item_eq, IsAdded, IsMade};

use crate::item::Item;
use append_search::Writers;
use append_values::{Operation, Transaction, effects};
use std::alloc::{AllocError, Global};
use std::collections::HashMap;

/// The transaction that appends each element to the list of each key: its place in the history. Aborted ones append nothing.
#[derive(Drop)]
pub(crate) struct Appenders {
    by_item: HashMap<Item, u32>,
}

/// The table of a history, or an element that is appended twice to one list.
#[derive(Drop)]
pub(crate) enum Made {
    Table(Appenders),
    Twice(Item),
}

impl Appenders {
    /// Returns the table of the history, or the first element that is appended again; `AllocError` if memory runs out.
    pub fn of(alloc: Global, transactions: &[Transaction]) -> Result<Made, AllocError>
        requires { length transactions.now < 2 ^ 31 }
        ensures { IfOk result (IsMade (history_of transactions.now)) }
    {
        let mut table = Appenders {
            by_item: HashMap::with_capacity(alloc, appends_in(transactions))?,
        };
        'transactions: for (place, transaction) in transactions.iter().enumerate() {
            if let Some(item) = table.add(place as u32, effects(transaction))? {
                return Ok(Made::Twice(item));
            }
        }
        Ok(Made::Table(table))
    }

    /// Adds what the transaction at this place appends. Returns an element that was appended before.
    fn add(&mut self, place: u32, operations: &[Operation]) -> Result<Option<Item>, AllocError>
        ensures { IfOk result (IsAdded (get item_eq self.old.by_item) (get item_eq self.new.by_item) place
            (map operation_of operations.now)) }
    {
        'steps: for operation in operations {
            let again = self.add_step(place, operation)?;
            match again {
                Some(item) => return Ok(Some(item)),
                None => {}
            }
        }
        Ok(None)
    }

    /// Adds what one step of the transaction at this place appends. Returns the element if it was appended before.
    fn add_step(&mut self, place: u32, operation: &Operation) -> Result<Option<Item>, AllocError>
        ensures { IfOk result (IsAdded (get item_eq self.old.by_item) (get item_eq self.new.by_item) place
            (operation_of operation.now ∷ [])) }
    {
        let Operation::Append { key, element } = operation else {
            return Ok(None);
        };
        let item = Item {
            key: *key,
            element: *element,
        };
        let before = self.by_item.insert(item, place)?;
        match before {
            Some(_) => Ok(Some(item)),
            None => Ok(None),
        }
    }
}

/// Returns how many elements the transactions append that aren't aborted.
fn appends_in(transactions: &[Transaction]) -> usize {
    let mut appends = 0usize;
    for transaction in transactions {
        let operations = effects(transaction).iter();
        appends = appends.saturating_add(
            operations.filter(|operation| is_append(operation)).count(),
        );
    }
    appends
}

fn is_append(operation: &Operation) -> bool {
    matches!(operation, Operation::Append { .. })
}

impl Writers for Appenders {
    fn writer(&self, key: u64, element: u64) -> Option<u32> {
        self.by_item.get(&Item { key, element }).copied()
    }
}
