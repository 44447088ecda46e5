//! The nodes that may be placed next.

use crate::arc::Arc;
use crate::counts::{add_one, take_one};
use crate::slots::Slots;
use std::alloc::{AllocError, Global};
use std::cmp::Reverse;
use std::collections::BinaryHeap;

/// The slots of the nodes that may be placed next, by counts of the arcs from nodes that aren't placed. It has no
/// contract, as slots have none.
#[derive(Drop)]
pub(crate) struct Ready {
    waits: Vec<u32>,
    ready: BinaryHeap<Reverse<usize>>,
}

// How many arcs go into the node of each slot.
fn arcs_into(alloc: Global, slots: &Slots, arcs: &[Arc]) -> Result<Vec<u32>, AllocError> {
    let mut into = Vec::from_elem(alloc, 0u32, slots.len())?;
    for a in arcs {
        add_one(&mut into, slots.slot(a.to));
    }
    Ok(into)
}

impl Ready {
    /// Begins with the nodes into which no arc goes. A node that is listed twice is there twice.
    pub fn of(
        alloc: Global,
        slots: &Slots,
        nodes: &[u32],
        arcs: &[Arc],
    ) -> Result<Ready, AllocError> {
        let waits = arcs_into(alloc, slots, arcs)?;
        let mut ready = BinaryHeap::new(alloc);
        for t in nodes {
            let slot = slots.slot(*t);
            if waits.get(slot) == Some(&0) {
                ready.push(Reverse(slot))?;
            }
        }
        Ok(Ready { waits, ready })
    }

    /// Returns the slot of the smallest node that may be placed, and forgets it.
    pub fn next(&mut self) -> Option<usize> {
        let Reverse(slot) = self.ready.pop()?;
        Some(slot)
    }

    /// Lowers the count of a node, one of whose predecessors was placed.
    pub fn lower(&mut self, slot: usize) -> Result<(), AllocError> {
        if take_one(&mut self.waits, slot) == Some(0) {
            self.ready.push(Reverse(slot))?;
        }
        Ok(())
    }
}
