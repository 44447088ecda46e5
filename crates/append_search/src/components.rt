//! Strongly connected components (Tarjan 1972): nodes of which each leads to each other one.

use crate::reading::small;
use crate::sorting::Targets;
use std::alloc::{AllocError, Global};

/// The component of a node that is in none, or in one that has no other transaction.
pub(crate) const ALONE: u32 = u32::MAX;

/// For each node the number of its component.
#[derive(Drop)]
pub(crate) struct Components {
    pub of: Vec<u32>,
    /// How many there are.
    pub count: usize,
}

impl Components {
    /// Returns the components of these nodes, the first of which, so many, are transactions. One with a single transaction
    /// counts as none.
    pub fn of(
        alloc: Global,
        targets: &Targets,
        nodes: usize,
        transactions: usize,
    ) -> Result<Components, AllocError> {
        let mut search = Search {
            targets,
            numbers: Vec::from_elem(alloc, 0, nodes)?,
            lows: Vec::from_elem(alloc, 0, nodes)?,
            next: 1,
            open: Vec::new(alloc),
            path: Vec::new(alloc),
            components: Components {
                of: Vec::from_elem(alloc, ALONE, nodes)?,
                count: 0,
            },
        };
        for node in 0..nodes {
            if search.numbers.get(node) == Some(&0) {
                search.go_through(small(node))?;
            }
        }
        let mut components = search.components;
        components.forget_single(alloc, transactions)?;
        Ok(components)
    }

    /// Returns the number of the node's component.
    pub fn component(&self, node: u32) -> u32 {
        self.of.get(node as usize).copied().unwrap_or(ALONE)
    }

    fn forget_single(&mut self, alloc: Global, transactions: usize) -> Result<(), AllocError> {
        let mut sizes: Vec<u32> = Vec::from_elem(alloc, 0, self.count)?;
        for component in self.of.iter().take(transactions) {
            if let Some(size) = sizes.get_mut(*component as usize) {
                *size = size.saturating_add(1);
            }
        }
        for component in &mut self.of {
            let size = sizes.get(*component as usize).copied().unwrap_or(0);
            if size < 2 {
                *component = ALONE;
            }
        }
        Ok(())
    }
}

// A node of the path that is being gone, and the place of its next target.
#[derive(Clone, Copy)]
struct Step {
    node: u32,
    next: usize,
}

#[derive(Drop)]
struct Search<'a> {
    targets: &'a Targets,
    // From 1, in the order in which the nodes were met; 0 for the others.
    numbers: Vec<u32>,
    // The lowest number that was met from a node.
    lows: Vec<u32>,
    next: u32,
    // Those met whose component isn't known.
    open: Vec<u32>,
    path: Vec<Step>,
    components: Components,
}

impl Search<'_> {
    // Goes through all that the node leads to.
    fn go_through(&mut self, root: u32) -> Result<(), AllocError> {
        self.enter(root)?;
        for _ in 0..u64::MAX {
            let Some(step) = self.path.last().copied() else {
                return Ok(());
            };
            match self.targets.target(step.node, step.next) {
                Some(target) => self.go_on(step.node, target)?,
                None => self.leave(step.node),
            }
        }
        Ok(())
    }

    fn enter(&mut self, node: u32) -> Result<(), AllocError> {
        set(&mut self.numbers, node, self.next);
        set(&mut self.lows, node, self.next);
        self.next = self.next.saturating_add(1);
        self.open.push(node)?;
        self.path.push(Step { node, next: 0 })?;
        Ok(())
    }

    // One link from the node on.
    fn go_on(&mut self, node: u32, target: u32) -> Result<(), AllocError> {
        if let Some(step) = self.path.last_mut() {
            step.next = step.next.saturating_add(1);
        }
        let number = get(&self.numbers, target);
        if number == 0 {
            return self.enter(target);
        }
        if self.components.component(target) == ALONE {
            lower(&mut self.lows, node, number);
        }
        Ok(())
    }

    // The node leads to nothing else.
    fn leave(&mut self, node: u32) {
        let _ = self.path.pop();
        let low = get(&self.lows, node);
        if let Some(before) = self.path.last() {
            lower(&mut self.lows, before.node, low);
        }
        if low == get(&self.numbers, node) {
            self.close(node);
        }
    }

    // The node and those met after it that are open are a component.
    fn close(&mut self, node: u32) {
        let component = small(self.components.count);
        self.components.count = self.components.count.saturating_add(1);
        for _ in 0..self.open.len() {
            let Some(member) = self.open.pop() else {
                return;
            };
            set(&mut self.components.of, member, component);
            if member == node {
                return;
            }
        }
    }
}

fn get(numbers: &[u32], node: u32) -> u32 {
    numbers.get(node as usize).copied().unwrap_or(0)
}

fn set(numbers: &mut [u32], node: u32, number: u32) {
    if let Some(place) = numbers.get_mut(node as usize) {
        *place = number;
    }
}

fn lower(numbers: &mut [u32], node: u32, number: u32) {
    if let Some(place) = numbers.get_mut(node as usize) {
        *place = number.min(*place);
    }
}
