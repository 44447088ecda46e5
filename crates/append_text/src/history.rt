//! What is read from a text.

ghost use Rattle.std.specs.Prelude.{◌≡◌, ◌+◌, ◌-◌, ◌^◌, min, if◌then◌else◌};

use crate::name::Names;
use append_values::Transaction;

/// Where a transaction comes from.
#[derive(Clone, Copy, Debug, PartialEq, Eq)]
pub struct Label {
    /// The `:index` of its completion; of its invocation, if it has no completion; if the operation has none, its place
    /// among all operations of the text, from 0.
    pub index: u64,
    /// Its process.
    pub process: i64,
}

/// How many operations of a text are no transaction's, by the reason.
#[derive(Clone, Copy, Debug, PartialEq, Eq)]
pub struct PassedOver {
    /// How many have an `:f` that isn't `:txn`, or none, as those of a nemesis.
    pub other_function: u64,
    /// How many have `:f` `:txn`, but a `:process` that is no integer, or none.
    pub other_process: u64,
}

/// A history and what its text says of it.
#[derive(Drop)]
pub struct History {
    /// The transactions, in the order in which they were invoked.
    pub transactions: Vec<Transaction>,
    /// For each transaction, in the same order, where it comes from.
    pub labels: Vec<Label>,
    /// What the numbers of keys and elements stand for.
    pub names: Names,
    /// How many operations of the text are no transaction's.
    pub passed_over: PassedOver,
}

impl PassedOver {
    /// None so far.
    pub(crate) fn new() -> PassedOver
        ensures function { result.other_function ≡ 0 }
        ensures process { result.other_process ≡ 0 }
    {
        PassedOver {
            other_function: 0,
            other_process: 0,
        }
    }

    /// Counts one more, of which this says whether its `:f` is `:txn`. The counts stay at the greatest number.
    pub(crate) fn count(&mut self, is_of_txn: bool)
        ensures function { self.new.other_function
            ≡ (if is_of_txn then self.old.other_function else min (self.old.other_function + 1) (2 ^ 64 - 1)) }
        ensures process { self.new.other_process
            ≡ (if is_of_txn then min (self.old.other_process + 1) (2 ^ 64 - 1) else self.old.other_process) }
    {
        if is_of_txn {
            self.other_process = self.other_process.saturating_add(1);
        } else {
            self.other_function = self.other_function.saturating_add(1);
        }
    }
}
