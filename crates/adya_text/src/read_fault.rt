//! Why a text is not read.

ghost use Rattle.std.specs.Prelude.{◌≡◌};

use crate::lines::LineFault;
use std::alloc::AllocError;
use thiserror::Error;

/// The two kinds of texts.
#[derive(Clone, Copy, Debug, PartialEq, Eq, Drop)]
pub enum Text {
    /// The text of a history.
    History,
    /// The text of a certificate.
    Serial,
}

/// Why no value was read from a text.
#[derive(Clone, Copy, Debug, PartialEq, Eq, Error, Drop)]
pub enum ReadFault {
    /// The text is not of its grammar. The line, counted from 1, is the first that the text lacks, or with which
    /// the lines so far begin no text of the grammar.
    #[error("no text of the grammar at line {line}")]
    Syntax { text: Text, line: usize },
    /// The source failed: a read failed, or the bound on read calls was met. Nothing is said of the text.
    #[error("read fault")]
    Device,
    /// Memory ran out; nothing is said of the text.
    #[error("memory")]
    Memory,
}

impl From<AllocError> for ReadFault {
    ghost use Rattle.adya_text.specs.declared.read_fault.ReadFault.TheVariants.{Memory};

    ghost from_gives = { λ _ e. e ≡ Memory };

    fn from(_: AllocError) -> ReadFault {
        ReadFault::Memory
    }
}

impl From<LineFault> for ReadFault {
    ghost use Rattle.adya_text.specs.Machinery.LineFaults.{fault_of};

    ghost from_gives = { λ e f. f ≡ fault_of e };

    fn from(fault: LineFault) -> ReadFault {
        match fault {
            LineFault::Device => ReadFault::Device,
            LineFault::Memory => ReadFault::Memory,
        }
    }
}
