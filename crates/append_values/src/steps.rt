//! Steps, one after the other.

ghost use Rattle.std.specs.Prelude.{◌≡◌, map, IfOk};
ghost use Rattle.std.specs.List.{filter_map};
ghost use Rattle.append_values.specs.Meaning.Histories.{operation_of, transaction_of, effects_of};
ghost use Rattle.append_values.specs.Meaning.Reads.{appended};
ghost use Rattle.append_values.specs.Machinery.Appended.{appended_by};

use crate::transaction::{Operation, Outcome, Transaction};
use std::alloc::{AllocError, Global};

/// Returns the steps that have an effect: those of the transaction, or none if it aborted.
pub fn effects(transaction: &Transaction) -> &[Operation]
    ensures { map operation_of result.now ≡ effects_of (transaction_of transaction.entry.now) }
{
    match transaction.outcome {
        Outcome::Committed | Outcome::Unknown => transaction.operations.as_slice(),
        Outcome::Aborted => &[],
    }
}

/// Returns what these steps append to the list of the key, in order; `AllocError` if memory runs out.
pub fn appended(alloc: Global, key: u64, operations: &[Operation]) -> Result<Vec<u64>, AllocError>
    ensures { IfOk result (λ v. v.items ≡ appended key (map operation_of operations.now)) }
{
    let elements = each_appended(alloc, key, operations)?;
    Ok(elements)
}

/// Returns what these steps append to the list of the key, one by one.
fn each_appended(alloc: Global, key: u64, operations: &[Operation]) -> Result<Vec<u64>, AllocError>
    ensures { IfOk result (λ v. v.items ≡ filter_map (λ o. appended_by key (operation_of o)) operations.now) }
{
    let mut elements = Vec::new(alloc);
    'operations: for operation in operations {
        if let Some(element) = appended_by(key, operation) {
            elements.push(element)?;
        }
    }
    Ok(elements)
}

/// Returns the element, if the step appends one to the list of the key.
fn appended_by(key: u64, operation: &Operation) -> Option<u64>
    ensures { result ≡ appended_by key (operation_of operation.now) }
{
    match operation {
        Operation::Append { key: to, element } => { if *to == key { Some(*element) } else { None } }
        _ => None,
    }
}
