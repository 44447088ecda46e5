//! The faults that were found: of each kind how many, and one of them.

use append_values::{Counted, Reason};
use std::alloc::{AllocError, Global};

/// The kinds of faults, the worst one first.
#[derive(Clone, Copy, PartialEq, Eq, PartialOrd, Ord)]
pub(crate) enum Rank {
    Internal,
    DuplicateElements,
    Unwritten,
    Future,
    AbortedRead,
    DirtyUpdate,
    IntermediateRead,
    IncompatibleOrder,
    WriteCycle,
    InformationCycle,
    Unrepeatable,
    LostUpdate,
    SingleAntiDependency,
    AntiDependencies,
}

/// How often a fault of this kind was found, and the first one.
#[derive(Drop)]
struct Fault {
    rank: Rank,
    counted: Counted,
}

/// The faults so far, the worst kind first.
#[derive(Drop)]
pub(crate) struct Faults {
    found: Vec<Fault>,
}

impl Faults {
    /// None.
    pub fn new(alloc: Global) -> Faults {
        Faults {
            found: Vec::new(alloc),
        }
    }

    /// Returns whether there are none.
    pub fn is_empty(&self) -> bool {
        self.found.is_empty()
    }

    /// Notes a fault.
    pub fn note(&mut self, rank: Rank, reason: Reason) -> Result<(), AllocError> {
        self.note_all(rank, 1, reason)
    }

    /// Notes so many faults of a kind, of which this is one.
    pub fn note_all(&mut self, rank: Rank, times: u64, reason: Reason) -> Result<(), AllocError> {
        let place = self.found.partition_point(|fault| fault.rank < rank);
        if let Some(fault) = self.found.get_mut(place) {
            if fault.rank == rank {
                fault.counted.times = fault.counted.times.saturating_add(times);
                return Ok(());
            }
        }
        let counted = Counted { reason, times };
        if place <= self.found.len() {
            self.found.insert(place, Fault { rank, counted })?;
        }
        Ok(())
    }

    /// Returns them, the worst kind first.
    pub fn worst_first(self, alloc: Global) -> Result<Vec<Counted>, AllocError> {
        let Faults { found } = self;
        let mut worst_first = Vec::with_capacity(alloc, found.len())?;
        for fault in found {
            worst_first.push(fault.counted)?;
        }
        Ok(worst_first)
    }
}
