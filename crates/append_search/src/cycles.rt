//! Shortest cycles of links, of the worst kind that there is.

use crate::components::{ALONE, Components};
use crate::faults::{Faults, Rank};
use crate::kinds::Kinds;
use crate::links::Links;
use crate::reading::{Reading, small};
use crate::roles::sorted_roles;
use crate::sorting::Counts;
use crate::walk::{Rule, Walk};
use append_values::{Link, Reason, Transaction};
use std::alloc::{AllocError, Global};

/// How many links the search meets at most for cycles of one kind in one component. Then the shortest one that was found by
/// then is given.
const MOST_STEPS: u64 = 20000000;

const WRITES: Rule = Rule {
    first: Kinds::Writes,
    later: Kinds::Writes,
};

const WRITES_AND_READS: Rule = Rule {
    first: Kinds::WritesAndReads,
    later: Kinds::WritesAndReads,
};

const SINGLE: Rule = Rule {
    first: Kinds::Anti,
    later: Kinds::WritesAndReads,
};

const ANY: Rule = Rule {
    first: Kinds::All,
    later: Kinds::All,
};

/// The shortest cycle of a kind so far, and in how many components the worst cycle is one of this kind.
#[derive(Drop)]
struct Best {
    rank: Rank,
    cycle: Option<Vec<Link>>,
    times: u64,
}

/// Cycles.
#[derive(Drop)]
pub(crate) struct Cycles {
    alloc: Global,
    found: Vec<Best>,
    /// Whether no search was cut off.
    pub is_searched: bool,
}

/// A transaction, by its component.
#[derive(Clone, Copy, PartialEq, Eq, PartialOrd, Ord)]
struct Member {
    component: u32,
    node: u32,
}

impl Cycles {
    /// None.
    pub fn new(alloc: Global) -> Cycles {
        Cycles {
            alloc,
            found: Vec::new(alloc),
            is_searched: true,
        }
    }

    /// Notes them as faults.
    pub fn note(&mut self, faults: &mut Faults) -> Result<(), AllocError> {
        for best in &mut self.found {
            if let Some(cycle) = best.cycle.take() {
                faults.note_all(best.rank, best.times, Reason::Cycle(cycle))?;
            }
        }
        Ok(())
    }

    /// Looks for a shortest cycle of each kind that is the worst one of a component of the links.
    pub fn find(
        &mut self,
        transactions: &[Transaction],
        readings: &[Reading],
        links: &Links<'_>,
    ) -> Result<(), AllocError> {
        let count = transactions.len();
        let mut all = components(self.alloc, transactions, readings, links, Kinds::All)?;
        let mut writes = components(self.alloc, transactions, readings, links, Kinds::Writes)?;
        let mut reads = components(
            self.alloc,
            transactions,
            readings,
            links,
            Kinds::WritesAndReads,
        )?;
        // a worse kind takes its component, with all others that this one has
        take_out(self.alloc, &writes, &mut reads, count)?;
        take_out(self.alloc, &writes, &mut all, count)?;
        take_out(self.alloc, &reads, &mut all, count)?;
        writes.of.truncate(count);
        reads.of.truncate(count);
        all.of.truncate(count);
        let work = Work {
            alloc: self.alloc,
            transactions,
            readings,
            links,
        };
        self.search(&work, &writes, &[(WRITES, Rank::WriteCycle)])?;
        self.search(&work, &reads, &[(WRITES_AND_READS, Rank::InformationCycle)])?;
        let kinds = [
            (SINGLE, Rank::SingleAntiDependency),
            (ANY, Rank::AntiDependencies),
        ];
        self.search(&work, &all, &kinds)
    }

    // Looks in each component for a cycle of the first kind, and if there is none, for one of the next.
    fn search(
        &mut self,
        work: &Work<'_>,
        components: &Components,
        kinds: &[(Rule, Rank)],
    ) -> Result<(), AllocError> {
        let members = members(self.alloc, components)?;
        let Some(first) = members.first() else {
            return Ok(());
        };
        let mut walk = work.walk(components)?;
        let mut begin = 0usize;
        let mut component = first.component;
        for place in 0..members.len().saturating_add(1) {
            let here = members.get(place).map(|member| member.component);
            if here != Some(component) {
                let some = members.get(begin..place).unwrap_or(&[]);
                self.search_component(&mut walk, some, kinds)?;
                begin = place;
                component = here.unwrap_or(ALONE);
            }
        }
        Ok(())
    }

    // Looks in this component for a cycle of the first kind, and if there is none, for one of the next. Notes it if a search
    // met its last link.
    fn search_component(
        &mut self,
        walk: &mut Walk,
        members: &[Member],
        kinds: &[(Rule, Rank)],
    ) -> Result<(), AllocError> {
        for (rule, rank) in kinds {
            walk.steps = MOST_STEPS;
            let is_there = self.search_kind(walk, members, *rule, *rank)?;
            if walk.steps == 0 {
                self.is_searched = false;
            }
            if is_there {
                return Ok(());
            }
        }
        Ok(())
    }

    // Returns whether there is a cycle of the kind.
    fn search_kind(
        &mut self,
        walk: &mut Walk,
        members: &[Member],
        rule: Rule,
        rank: Rank,
    ) -> Result<bool, AllocError> {
        let mut shortest = usize::MAX;
        let best = self.best(rank)?;
        let before = length(&self.found, best);
        for member in members {
            let is_there = shortest < usize::MAX;
            let most = if is_there {
                shortest.min(before)
            } else {
                usize::MAX
            };
            if most > 2 {
                if let Some(cycle) = walk.shortest(member.node, rule, most)? {
                    shortest = cycle.len();
                    self.keep(best, cycle);
                }
            }
        }
        let is_there = shortest < usize::MAX;
        if is_there {
            if let Some(best) = self.found.get_mut(best) {
                best.times = best.times.saturating_add(1);
            }
        }
        Ok(is_there)
    }

    // The place of what was found of a kind.
    fn best(&mut self, rank: Rank) -> Result<usize, AllocError> {
        if let Some(place) = self.found.iter().position(|best| best.rank == rank) {
            return Ok(place);
        }
        self.found.push(Best {
            rank,
            cycle: None,
            times: 0,
        })?;
        Ok(self.found.len().saturating_sub(1))
    }

    fn keep(&mut self, place: usize, cycle: Vec<Link>) {
        if cycle.len() < length(&self.found, place) {
            if let Some(best) = self.found.get_mut(place) {
                best.cycle = Some(cycle);
            }
        }
    }
}

fn length(found: &[Best], place: usize) -> usize {
    match found.get(place) {
        Some(
            Best {
                cycle: Some(cycle),
                ..
            },
        ) => cycle.len(),
        _ => usize::MAX,
    }
}

// What all searches need.
#[derive(Clone, Copy)]
struct Work<'a> {
    alloc: Global,
    transactions: &'a [Transaction],
    readings: &'a [Reading],
    links: &'a Links<'a>,
}

impl Work<'_> {
    fn walk(&self, components: &Components) -> Result<Walk, AllocError> {
        let roles = sorted_roles(
            self.alloc,
            self.links.lines,
            self.transactions,
            self.readings,
            components.of.as_slice(),
        )?;
        Walk::new(self.alloc, roles, self.transactions.len())
    }
}

// The components of the links of these kinds.
fn components(
    alloc: Global,
    transactions: &[Transaction],
    readings: &[Reading],
    links: &Links<'_>,
    kinds: Kinds,
) -> Result<Components, AllocError> {
    let nodes = transactions.len().saturating_add(links.lines.lines.len());
    let mut counts = Counts::new(alloc, nodes, kinds)?;
    links.give(transactions, readings, &mut counts)?;
    let mut targets = counts.room(alloc)?;
    links.give(transactions, readings, &mut targets)?;
    Components::of(alloc, &targets, nodes, transactions.len())
}

// Takes out each component that has a transaction of a worse one.
fn take_out(
    alloc: Global,
    worse: &Components,
    others: &mut Components,
    transactions: usize,
) -> Result<(), AllocError> {
    let mut is_out = Vec::from_elem(alloc, false, others.count)?;
    for node in 0..transactions {
        let node = small(node);
        if worse.component(node) != ALONE {
            if let Some(out) = is_out.get_mut(others.component(node) as usize) {
                *out = true;
            }
        }
    }
    for component in &mut others.of {
        if is_out.get(*component as usize) == Some(&true) {
            *component = ALONE;
        }
    }
    Ok(())
}

// The transactions that are in a component, by their components.
fn members(alloc: Global, components: &Components) -> Result<Vec<Member>, AllocError> {
    let mut members = Vec::new(alloc);
    for (node, component) in components.of.iter().enumerate() {
        if *component != ALONE {
            members.push(Member {
                component: *component,
                node: small(node),
            })?;
        }
    }
    members.sort_unstable();
    Ok(members)
}
