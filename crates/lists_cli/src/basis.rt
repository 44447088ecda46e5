//! What an answer rests on.

ghost use Rattle.std.specs.Prelude.{◌≡◌};
ghost use Rattle.std.specs.List.{count_by, sum_by};
ghost use Rattle.append_text.specs.Meaning.Texts.{counted};
ghost use Rattle.lists_cli.specs.Meaning.Rests.{elements_of, has_outcome, if_committed, is_same, of_committed, reads_of};

use append_check::{Operation, Outcome, Transaction};
use append_text::{History, PassedOver};

/// How much of a history an answer rests on.
#[derive(Clone, Copy)]
pub struct Basis {
    /// How many transactions committed.
    pub ok: u64,
    /// How many have an unknown outcome.
    pub info: u64,
    /// How many aborted.
    pub fail: u64,
    /// How many reads the committed ones have.
    pub reads: u64,
    /// How many elements these returned.
    pub elements: u64,
    /// How many operations of the text are no transaction's.
    pub passed_over: PassedOver,
}

impl Basis {
    ghost use Rattle.lists_cli.specs.Meaning.Rests.{RestsOn};

    /// Counts what the history has. The counts of reads and elements stay at the greatest number.
    pub fn of(history: &History) -> Basis
        ensures { RestsOn history.now result }
    {
        let transactions = history.transactions.as_slice();
        Basis {
            ok: count(transactions, Outcome::Committed),
            info: count(transactions, Outcome::Unknown),
            fail: count(transactions, Outcome::Aborted),
            reads: reads(transactions),
            elements: elements(transactions),
            passed_over: history.passed_over,
        }
    }
}

/// Returns how many of the transactions have this outcome.
fn count(transactions: &[Transaction], outcome: Outcome) -> u64
    ensures { result ≡ count_by (has_outcome outcome) transactions.now }
{
    let mut count = 0;
    for transaction in transactions {
        if is_same(outcome, transaction.outcome) {
            count += 1;
        }
    }
    count
}

fn is_same(one: Outcome, other: Outcome) -> bool
    ensures { result ≡ is_same one other }
{
    match one {
        Outcome::Committed => matches!(other, Outcome::Committed),
        Outcome::Aborted => matches!(other, Outcome::Aborted),
        Outcome::Unknown => matches!(other, Outcome::Unknown),
    }
}

/// Returns how many reads the committed transactions have.
fn reads(transactions: &[Transaction]) -> u64
    ensures { result ≡ of_committed reads_of transactions.now }
{
    let mut all: u64 = 0;
    for transaction in transactions {
        all = all.saturating_add(reads_by(transaction));
    }
    all
}

/// Returns how many reads the transaction has, if it committed.
fn reads_by(transaction: &Transaction) -> u64
    ensures { result ≡ counted (if_committed reads_of transaction.now) }
{
    if is_same(Outcome::Committed, transaction.outcome) {
        return reads_in(transaction.operations.as_slice());
    }
    0
}

fn reads_in(operations: &[Operation]) -> u64
    ensures { result ≡ counted (sum_by reads_of operations.now) }
{
    let mut all: u64 = 0;
    for operation in operations {
        all = all.saturating_add(reads_of(operation));
    }
    all
}

fn reads_of(operation: &Operation) -> u64
    ensures { result ≡ reads_of operation.now }
{
    match operation {
        Operation::Read { .. } => 1,
        Operation::Append { .. } | Operation::LostRead { .. } => 0,
    }
}

/// Returns how many elements the reads of the committed transactions returned.
fn elements(transactions: &[Transaction]) -> u64
    ensures { result ≡ of_committed elements_of transactions.now }
{
    let mut all: u64 = 0;
    for transaction in transactions {
        all = all.saturating_add(elements_by(transaction));
    }
    all
}

/// Returns how many elements the reads of the transaction returned, if it committed.
fn elements_by(transaction: &Transaction) -> u64
    ensures { result ≡ counted (if_committed elements_of transaction.now) }
{
    if is_same(Outcome::Committed, transaction.outcome) {
        return elements_in(transaction.operations.as_slice());
    }
    0
}

fn elements_in(operations: &[Operation]) -> u64
    ensures { result ≡ counted (sum_by elements_of operations.now) }
{
    let mut all: u64 = 0;
    for operation in operations {
        all = all.saturating_add(elements_of(operation));
    }
    all
}

fn elements_of(operation: &Operation) -> u64
    ensures { result ≡ elements_of operation.now }
{
    match operation {
        Operation::Read { elements, .. } => elements.len() as u64,
        Operation::Append { .. } | Operation::LostRead { .. } => 0,
    }
}
