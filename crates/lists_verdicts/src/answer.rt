//! What the program answers.

ghost use Rattle.std.specs.Prelude.{◌≡◌, if◌then◌else◌};
ghost use Rattle.std.specs.List.{list_any};
ghost use Rattle.lists_verdicts.specs.Meaning.Status as Spec;

use crate::status::Status;
use append_check::{Operation, Outcome, Transaction, Verdict};

/// What the program answers.
#[derive(Clone, Copy, Debug, PartialEq, Eq)]
pub enum Answer {
    /// An order explains the history.
    Serializable,
    /// No order does.
    NotSerializable,
    /// No committed transaction has a step, so the history says nothing of the database.
    NothingToCheck,
    /// An element is appended twice to one key, by transactions that may have committed.
    AppendedTwice,
}

impl Answer {
    /// Returns the answer for a verdict on these transactions. An order is a yes only if a committed one of them has a step.
    pub fn of(transactions: &[Transaction], verdict: &Verdict) -> Answer
        ensures { result ≡ Spec.answer_of transactions.now verdict.now }
    {
        match verdict {
            Verdict::Serializable(_) => of_order(transactions),
            Verdict::NotSerializable(_) => Answer::NotSerializable,
            Verdict::AppendedTwice { .. } => Answer::AppendedTwice,
        }
    }

    /// Returns the words with which its first line begins.
    pub fn words(self) -> &'static str
        ensures { result.now ≡ Spec.words_of self }
    {
        match self {
            Answer::Serializable => "serializable",
            Answer::NotSerializable => "not serializable",
            Answer::NothingToCheck => "nothing to check",
            Answer::AppendedTwice => "appended twice",
        }
    }

    /// Returns how the program ends with it.
    pub fn status(self) -> Status
        ensures { result ≡ Spec.status_of self }
    {
        match self {
            Answer::Serializable => Status::Fine,
            Answer::NotSerializable => Status::Refused,
            Answer::NothingToCheck => Status::Nothing,
            Answer::AppendedTwice => Status::Workload,
        }
    }
}

// The answer if an order explains the history of these transactions.
fn of_order(transactions: &[Transaction]) -> Answer
    ensures { result ≡ (if list_any Spec.tells transactions.now then Answer.Serializable else Answer.NothingToCheck) }
{
    if some_tell(transactions) {
        Answer::Serializable
    } else {
        Answer::NothingToCheck
    }
}

/// Returns whether one of the transactions committed and has a step.
fn some_tell(transactions: &[Transaction]) -> bool
    ensures { result ≡ list_any Spec.tells transactions.now }
{
    transactions.iter().any(|transaction| tells(transaction))
}

/// Returns whether the transaction committed and has a step.
fn tells(transaction: &Transaction) -> bool
    ensures { result ≡ Spec.tells transaction.now }
{
    is_committed(transaction.outcome) && has_step(transaction.operations.as_slice())
}

fn is_committed(outcome: Outcome) -> bool
    ensures { result ≡ Spec.is_committed outcome }
{
    match outcome {
        Outcome::Committed => true,
        Outcome::Aborted => false,
        Outcome::Unknown => false,
    }
}

fn has_step(operations: &[Operation]) -> bool
    ensures { result ≡ Spec.has_step operations.now }
{
    match operations {
        [] => false,
        [_, ..] => true,
    }
}
