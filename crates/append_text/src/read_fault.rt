//! Why no history is read from a text.

ghost use Rattle.std.specs.Prelude.{◌≡◌};
ghost use Rattle.append_text.specs.declared.read_fault.Refusal.TheVariants.{Memory};

use std::alloc::{AllocError, AllocFailed};
use std::fmt;
use thiserror::Error;

/// Where a text is at fault.
#[derive(Clone, Copy, Debug, PartialEq, Eq, Drop)]
pub enum Place {
    /// The line, counted from 1.
    Line(u64),
    /// The element of a JSON array, or of a list of EDN, counted from 0.
    Element(u64),
}

impl fmt::Display for Place {
    fn fmt<W: fmt::Write>(&self, f: &mut fmt::Formatter<W>) -> fmt::Result {
        match self {
            Place::Line(line) => write!(f, "line {line}"),
            Place::Element(element) => write!(f, "element {element}"),
        }
    }
}

/// What is wrong with a text.
#[derive(Clone, Copy, Debug, PartialEq, Eq, Error, Drop)]
pub enum Problem {
    /// The text is none of EDN.
    #[error("{0}")]
    Edn(edn::Problem),
    /// The line, or the whole text if it is one value, is none of JSON; or that value has no array of operations.
    #[error("no text of JSON")]
    Json,
    /// This is no map.
    #[error("an operation is a map")]
    Map,
    /// `:type` is none of `:invoke`, `:ok`, `:fail` and `:info`.
    #[error("an operation has a `:type`: `:invoke`, `:ok`, `:fail` or `:info`")]
    Type,
    /// `:value` is no vector of steps `[:append key element]` and `[:r key elements]`.
    #[error("a transaction's `:value` has steps `[:append key element]` and `[:r key elements]`")]
    Step,
    /// A key or an element is no integer, no string and no keyword.
    #[error("a key or an element is an integer, a string or a keyword")]
    Name,
    /// A process invokes while it has an invocation that isn't completed.
    #[error("a process invokes while it waits for a completion")]
    TwoInvocations,
    /// A process completes what it didn't invoke.
    #[error("a completion without an invocation")]
    NoInvocation,
    /// An operation is invoked after one that was completed without being invoked.
    #[error("an invocation after a completion that had none")]
    LateInvocation,
    /// The steps of an `:ok` are not those invoked.
    #[error("a completion with other steps than its invocation")]
    OtherSteps,
}

/// Why no history was read.
#[derive(Clone, Copy, Debug, PartialEq, Eq, Error, Drop)]
pub enum ReadFault {
    /// The text is that of no history.
    #[error("{place}: {problem}")]
    Text { place: Place, problem: Problem },
    /// The source failed: a read failed, or the bound on read calls was met. Nothing is said of the text.
    #[error("read fault")]
    Device,
    /// Memory ran out; nothing is said of the text.
    #[error("memory")]
    Memory,
}

/// Why an operation was not taken.
#[derive(Clone, Copy, Debug, PartialEq, Eq, Error, Drop)]
pub(crate) enum Refusal {
    /// The text is at fault.
    #[error("{0}")]
    Problem(Problem),
    /// Memory ran out.
    #[error("memory")]
    Memory,
}

impl Refusal {
    ghost use Rattle.append_text.specs.Machinery.EdnFaults.{fault_at};

    /// Returns the fault at the place.
    pub(crate) fn at(self, place: Place) -> ReadFault
        ensures { result ≡ fault_at place self }
    {
        match self {
            Refusal::Problem(problem) => ReadFault::Text { place, problem },
            Refusal::Memory => ReadFault::Memory,
        }
    }
}

impl From<Problem> for Refusal {
    fn from(problem: Problem) -> Refusal {
        Refusal::Problem(problem)
    }
}

impl From<AllocError> for ReadFault {
    ghost use Rattle.append_text.specs.declared.read_fault.ReadFault.TheVariants as fault;

    ghost from_gives = { λ _ r. r ≡ fault.Memory };

    fn from(_: AllocError) -> ReadFault {
        ReadFault::Memory
    }
}

impl From<AllocError> for Refusal {
    ghost from_gives = { λ _ r. r ≡ Memory };

    fn from(_: AllocError) -> Refusal {
        Refusal::Memory
    }
}

impl<T: Drop> From<AllocFailed<T>> for Refusal {
    ghost from_gives = { λ _ r. r ≡ Memory };

    fn from(_: AllocFailed<T>) -> Refusal {
        Refusal::Memory
    }
}
