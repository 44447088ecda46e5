//! Why a text is not read.

ghost use Rattle.std.specs.Prelude.{◌≡◌};

use std::alloc::{AllocError, AllocFailed};
use thiserror::Error;

/// What is wrong with a text.
#[derive(Clone, Copy, Debug, PartialEq, Eq, Error, Drop)]
pub enum Problem {
    /// No form has this text, or a string has an escape that there isn't.
    #[error("no form is written so")]
    Token,
    /// The text ends within a form.
    #[error("the text ends within a form")]
    Unclosed,
    /// A bracket closes what no such bracket opened.
    #[error("a bracket that closes nothing")]
    Unopened,
    /// The last key of a map has no value.
    #[error("a key without a value")]
    NoValue,
    /// No form follows a tag, `^` with its metadata, or `#_`, or no metadata follows `^`.
    #[error("no form after a tag, `^` or `#_`")]
    NoForm,
    /// Forms, tags, `^` and `#_` are nested more than [`MAX_DEPTH`](crate::MAX_DEPTH) deep.
    #[error("forms nested too deep")]
    Depth,
    /// A form follows the vector that the text begins with.
    #[error("a form after the vector")]
    AfterVector,
}

/// Why no form was read.
#[derive(Clone, Copy, Debug, PartialEq, Eq, Error, Drop)]
pub enum ReadFault {
    /// The text is none of EDN. The line, counted from 1, is the one on which a text begins that is no token, or on which the
    /// token ends that can't stand there; it is the last one if the text ends within a form, outside its tokens.
    #[error("line {line}: {problem}")]
    Syntax { line: u64, problem: Problem },
    /// The source failed: a read failed, or the bound on read calls was met. Nothing is said of the text.
    #[error("read fault")]
    Device,
    /// Memory ran out; nothing is said of the text.
    #[error("memory")]
    Memory,
}

/// The fault of a text that has this problem on this line.
pub(crate) fn syntax(line: u64, problem: Problem) -> ReadFault
    ensures { result ≡ ReadFault.Syntax line problem }
{
    ReadFault::Syntax { line, problem }
}

/// Why a token was not taken.
#[derive(Clone, Copy, Debug, PartialEq, Eq, Error, Drop)]
pub(crate) enum Refusal {
    /// It can't stand there.
    #[error("{0}")]
    Problem(Problem),
    /// Memory ran out.
    #[error("memory")]
    Memory,
}

impl From<AllocError> for ReadFault {
    ghost use Rattle.edn.specs.declared.read_fault.ReadFault.TheVariants.{Memory};

    ghost from_gives = { λ _ e. e ≡ Memory };

    fn from(_: AllocError) -> ReadFault {
        ReadFault::Memory
    }
}

impl From<AllocError> for Refusal {
    ghost use Rattle.edn.specs.declared.read_fault.Refusal.TheVariants.{Memory};

    ghost from_gives = { λ _ e. e ≡ Memory };

    fn from(_: AllocError) -> Refusal {
        Refusal::Memory
    }
}

impl<T: Drop> From<AllocFailed<T>> for Refusal {
    ghost use Rattle.edn.specs.declared.read_fault.Refusal.TheVariants.{Memory};

    ghost from_gives = { λ _ e. e ≡ Memory };

    fn from(_: AllocFailed<T>) -> Refusal {
        Refusal::Memory
    }
}
