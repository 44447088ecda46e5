//! Which kinds of dependencies a search follows.

use append_values::Kind;

/// Which kinds of dependencies a search follows.
#[derive(Clone, Copy, PartialEq, Eq)]
pub(crate) enum Kinds {
    /// Write dependencies.
    Writes,
    /// Write and read dependencies.
    WritesAndReads,
    /// Anti-dependencies.
    Anti,
    /// All of them.
    All,
}

impl Kinds {
    /// Returns whether the kind is one of them.
    pub fn has(self, kind: Kind) -> bool {
        match kind {
            Kind::WriteWrite(_) => self.has_writes(),
            Kind::WriteRead(_) => self.has_reads(),
            Kind::ReadWrite(_) => self.has_anti(),
        }
    }

    /// Returns whether write dependencies are.
    pub fn has_writes(self) -> bool {
        match self {
            Kinds::Writes | Kinds::WritesAndReads | Kinds::All => true,
            Kinds::Anti => false,
        }
    }

    /// Returns whether read dependencies are.
    pub fn has_reads(self) -> bool {
        match self {
            Kinds::WritesAndReads | Kinds::All => true,
            Kinds::Writes | Kinds::Anti => false,
        }
    }

    /// Returns whether anti-dependencies are.
    pub fn has_anti(self) -> bool {
        match self {
            Kinds::Anti | Kinds::All => true,
            Kinds::Writes | Kinds::WritesAndReads => false,
        }
    }
}
