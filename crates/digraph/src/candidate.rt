//! A candidate of an order.

use crate::arc::Arc;
use crate::outgoing::Outgoing;
use crate::ready::Ready;
use crate::slots::Slots;
use std::alloc::{AllocError, Global};

/// As many nodes as can be placed after all their predecessors, in the order that is smallest place by place. It has no
/// contract: its nodes and all arcs are looked at before it is used.
#[derive(Drop)]
pub(crate) struct Candidate {
    /// The nodes in their order.
    pub nodes: Vec<u32>,
    slots: Slots,
    // The place of the node of each slot, or `NO_PLACE`.
    places: Vec<u32>,
}

const NO_PLACE: u32 = u32::MAX;

impl Candidate {
    // Begins with no node placed.
    fn empty(alloc: Global, nodes: &[u32]) -> Result<Candidate, AllocError> {
        let slots = Slots::of(alloc, nodes)?;
        let places = Vec::from_elem(alloc, NO_PLACE, slots.len())?;
        let nodes = Vec::with_capacity(alloc, nodes.len())?;
        Ok(Candidate {
            nodes,
            slots,
            places,
        })
    }

    // Places the node of the slot next, and returns whether it is placed for the first time.
    fn push(&mut self, slot: usize) -> Result<bool, AllocError> {
        let next = self.nodes.len().min(NO_PLACE as usize) as u32;
        match (self.places.get_mut(slot), self.slots.number(slot)) {
            (Some(place), Some(node)) if *place == NO_PLACE => {
                *place = next;
                self.nodes.push(node)?;
                Ok(true)
            }
            _ => Ok(false),
        }
    }

    /// Returns the candidate for this graph. It takes O(n log n + a) steps for n nodes and a arcs if at least a quarter
    /// of the numbers from the least node to the greatest are nodes, and O((n + a) log n) otherwise. It needs four bytes
    /// for each arc.
    pub fn of(alloc: Global, nodes: &[u32], arcs: &[Arc]) -> Result<Candidate, AllocError> {
        let mut candidate = Candidate::empty(alloc, nodes)?;
        let out = Outgoing::of(alloc, &candidate.slots, arcs)?;
        let mut ready = Ready::of(alloc, &candidate.slots, nodes, arcs)?;
        for _ in 0..nodes.len() {
            let Some(slot) = ready.next() else {
                return Ok(candidate);
            };
            if candidate.push(slot)? {
                for to in out.targets(slot) {
                    ready.lower(candidate.slots.slot(*to))?;
                }
            }
        }
        Ok(candidate)
    }

    /// Returns the place of a node that is in the candidate; of another, any number.
    pub fn place(&self, node: u32) -> usize {
        let slot = self.slots.slot(node);
        self.places.get(slot).copied().unwrap_or(NO_PLACE) as usize
    }
}
