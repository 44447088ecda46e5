//! Commands, replies and refusals.

ghost use Rattle.std.specs.Prelude.{◌≡◌};
ghost use Rattle.ssi_store.specs.declared.command.Refusal.TheVariants.{Memory};

use crate::Session;
use adya_values::{FinalPair, Key, Txn, Value};
use std::alloc::AllocError;
use std::num::NonZeroU16;

/// What a session, or an operator, asks of a store.
#[derive(Clone, Copy)]
pub enum Command {
    /// Begins a transaction.
    Begin {
        session: Session,
    },
    /// Reads a key.
    Get {
        session: Session,
        key: Key,
    },
    /// Writes a key.
    Put {
        session: Session,
        key: Key,
        value: Value,
    },
    /// Deletes a key, whether or not it is there.
    Del {
        session: Session,
        key: Key,
    },
    /// Reads the keys from `low` to `high`, both included.
    Scan {
        session: Session,
        low: Key,
        high: Key,
    },
    /// Reads the keys from `low` to `high`, both included, up to so many keys and values that are seen.
    ScanFirst {
        session: Session,
        low: Key,
        high: Key,
        limit: NonZeroU16,
    },
    /// Commits the transaction.
    Commit {
        session: Session,
    },
    /// Aborts the transaction.
    Abort {
        session: Session,
    },
    /// Drops the versions that nobody can see any more.
    Collect,
    /// Counts transactions, versions and keys.
    Stat,
}

/// The answer to a command that was not refused.
#[derive(Drop)]
pub enum Reply {
    /// To begin: the number of the transaction.
    Begun {
        txn: Txn,
    },
    /// To get: the value that the transaction sees.
    Value {
        value: Value,
    },
    /// To get: the transaction sees no value.
    Absent,
    /// To put and del: the write is carried out.
    Done,
    /// To scan: the keys and values that the transaction sees, by rising key.
    Rows {
        rows: Vec<FinalPair>,
    },
    /// To commit: the transaction is committed.
    Committed,
    /// To abort: the transaction is aborted.
    Aborted,
    /// To commit: the transaction is aborted, because another one has committed a write of this key since it began.
    Conflict {
        key: Key,
        writer: Txn,
    },
    /// To get, scan and commit: the transaction is aborted, because this committed transaction would be a pivot.
    Unsafe {
        pivot: Txn,
    },
    /// To collect: how many versions are held.
    Kept {
        versions: u64,
    },
    /// To stat: how many transactions are open and kept, and how many versions and keys are held.
    Stat {
        open_txns: u64,
        kept: u64,
        versions: u64,
        keys: u64,
    },
}

/// Why a command is refused. A refusal changes nothing.
#[derive(Clone, Copy, Debug, PartialEq, Eq)]
pub enum Refusal {
    /// To begin: the session has a transaction already.
    Busy,
    /// The session has no transaction.
    Idle,
    /// To scan: the range runs downward.
    Range,
    /// The transaction has carried out 65,535 operations, and may do no more. It can still commit.
    Long,
    /// To begin: transaction 4,294,967,295 was begun.
    Spent,
    /// Memory ran out.
    Memory,
}

impl From<AllocError> for Refusal {
    ghost from_gives = { λ _ r. r ≡ Memory };

    fn from(_: AllocError) -> Refusal {
        Refusal::Memory
    }
}
