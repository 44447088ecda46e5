//! The rules of well-formed histories, and the faults that a check of a history reports.

use crate::Version;
use thiserror::Error;

/// The rules of well-formed histories.
#[derive(Clone, Copy, Debug, PartialEq, Eq, Drop)]
pub enum Rule {
    /// A transaction has no event after its commit or abort.
    M1,
    /// The writes of one key by one transaction have the numbers 1, 2, 3 and so on.
    M2,
    /// Each version that is read or listed exists by then, with the same content.
    M3,
    /// A transaction that has written a key sees only its own latest version of the key from then on.
    M4,
    /// The bounds of a scan are in order, and its list has rising keys within the bounds.
    M5,
    /// Each transaction either ends or is listed as unfinished, and never both.
    M6,
    /// The version order of each key names exactly the committed writers of the key, without repeats.
    M7,
    /// The finals hold the value of each key's last version if it is visible, and nothing else.
    M8,
}

/// Why a history doesn't pass its check. Lines are those of the history's text, counted from 1.
#[derive(Clone, Copy, Debug, Error, Drop)]
pub enum CheckFault {
    /// The line breaks the rule.
    #[error("line {line} breaks rule {rule:?}")]
    Malformed { line: usize, rule: Rule },
    /// At this line a committed transaction sees a version that an aborted one wrote (Adya 1999, G1a).
    #[error("line {line} reads {version}, a version of an aborted transaction")]
    AbortedRead { line: usize, version: Version },
    /// At this line a committed transaction sees a version of another transaction that this other one replaced
    /// itself (Adya 1999, G1b).
    #[error("line {line} reads {version}, which its writer replaced")]
    IntermediateRead { line: usize, version: Version },
    /// Memory ran out, so the history may or may not have a fault.
    #[error("out of memory")]
    Memory,
}
