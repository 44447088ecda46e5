//! Slots of nodes in tables.

ghost use Rattle.std.specs.Prelude.{◌≤◌, All};

use crate::sorted::Sorted;
use std::alloc::{AllocError, Global};

/// The slots of a graph's nodes in tables, in the order of their numbers. They have no contract: what is found by slots
/// is looked at again.
#[derive(Drop)]
pub(crate) enum Slots {
    /// One for each number from the least node to the greatest.
    Range { least: u32, len: usize },
    /// One for each node.
    Sorted(Sorted),
}

/// Returns the least and the greatest node; 0 if there is none.
pub(crate) fn bounds(nodes: &[u32]) -> (u32, u32)
    ensures least { All (λ u. result.0 ≤ u) nodes.now }
    ensures greatest { All (λ u. u ≤ result.1) nodes.now }
{
    let least = nodes.iter().copied().min().unwrap_or(0);
    let greatest = nodes.iter().copied().max().unwrap_or(0);
    (least, greatest)
}

/// Whether a table of so many numbers isn't much larger than one of the nodes.
pub(crate) fn is_small(numbers: u32, nodes: usize) -> bool {
    numbers as usize / 4 <= nodes.saturating_add(256)
}

impl Slots {
    /// Returns slots for these nodes, at most some four for each node and 1,024 more. So no choice of numbers makes the
    /// tables large.
    pub fn of(alloc: Global, nodes: &[u32]) -> Result<Slots, AllocError> {
        let (least, greatest) = bounds(nodes);
        let range = greatest.wrapping_sub(least);
        if is_small(range, nodes.len()) {
            let len = (range as usize).saturating_add(1);
            return Ok(Slots::Range { least, len });
        }
        Ok(Slots::Sorted(Sorted::of(alloc, nodes, least, greatest)?))
    }

    /// Returns how many slots there are.
    pub fn len(&self) -> usize {
        match self {
            Slots::Range { len, .. } => *len,
            Slots::Sorted(sorted) => sorted.len(),
        }
    }

    /// Returns the number of a slot.
    pub fn number(&self, slot: usize) -> Option<u32> {
        match self {
            Slots::Range { least, .. } => least.checked_add(u32::try_from(slot).ok()?),
            Slots::Sorted(sorted) => sorted.number(slot),
        }
    }

    /// Returns the slot of a node.
    pub fn slot(&self, node: u32) -> usize {
        match self {
            Slots::Range { least, .. } => node.wrapping_sub(*least) as usize,
            Slots::Sorted(sorted) => sorted.place(node),
        }
    }
}
